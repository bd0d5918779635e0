//! All matches of a list of patterns.

ghost use Rattle.std.specs.Prelude.{IfOk};
ghost use Rattle.qs_tree.specs.Cells.{trees_of};
ghost use Rattle.qs_tree.specs.Lists.{◌∈◌, Ascends};
ghost use Rattle.qs_pattern.specs.Patterns.{patterns, AreInClass};
ghost use Rattle.qs_pattern.specs.Substitutions.{Substitution};
ghost use Rattle.qs_pattern.specs.Instances.{IsMatch};
ghost use Rattle.qs_match.specs.Order.{LengthsBefore};

use crate::bindings::Bindings;
use crate::counts::can_fit;
use crate::remaining::Remaining;
use crate::search::search;
use crate::state::State;
use qs_pattern::{Pattern, Subst};
use qs_tree::ForestRef;
use std::alloc::{AllocError, Global};

/// All matches of the side with the trees: the substitutions of exactly the side's variables under which it stands for
/// the trees, strictly ascending by the lengths of the forest variables' values, in order of first occurrence. Each
/// variable of the side has to stand at a place of its class; `qs_pattern::are_in_class` is the test. The list is made
/// whole: a side with many forest variables and a long list of trees may want more memory than there is,
/// which is the only error.
pub fn all_matches(
    alloc: Global,
    side: &[Pattern],
    trees: ForestRef<'_>,
) -> Result<Vec<Subst>, AllocError>
    requires in_class { AreInClass (patterns side.now) }
    ensures sound { IfOk result (λ v. (s : Substitution) → s ∈ v.items
        → IsMatch (patterns side.now) (trees_of trees.entry.cells.now) s) }
    ensures all { IfOk result (λ v. (s : Substitution) → IsMatch (patterns side.now) (trees_of trees.entry.cells.now) s
        → s ∈ v.items) }
    ensures ascending { IfOk result (λ v. Ascends LengthsBefore v.items) }
{
    let mut found = Vec::new(alloc);
    if !can_fit(side, trees) {
        return Ok(found);
    }
    let start = State {
        side,
        trees,
        remaining: &Remaining::Nothing,
        bindings: &Bindings::Nothing,
    };
    search(alloc, &start, &mut found)?;
    Ok(found)
}
