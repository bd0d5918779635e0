//! All matches of a list of patterns with trees that lie apart.

ghost use Rattle.std.specs.Prelude.{◌≡◌, ◌≤◌, ◌∷◌, [], length, IfOk, OnOk};
ghost use Rattle.qs_tree.specs.Lists.{◌∈◌, Ascends};
ghost use Rattle.qs_pattern.specs.Patterns.{patterns, AreInClass, NoForestAtTop};
ghost use Rattle.qs_pattern.specs.Substitutions.{Substitution};
ghost use Rattle.qs_pattern.specs.Instances.{IsMatch};
ghost use Rattle.qs_match.specs.Apart.{trees_apart};
ghost use Rattle.qs_match.specs.Order.{LengthsBefore};
ghost use Rattle.qs_match.specs.working.Tasks.{Appends, IsInClass};
ghost use Rattle.qs_match.specs.working.Remaining.{tasks_of};

use crate::bindings::Bindings;
use crate::remaining::Remaining;
use crate::search::search;
use crate::state::State;
use qs_pattern::{Pattern, Subst};
use qs_tree::TreeRef;
use std::alloc::{AllocError, Global};

// Appends each substitution under which the patterns stand for these trees, one for each, and all that remains for its
// trees. It recurses over the patterns, of which the last joins what remains.
fn search_apart(
    alloc: Global,
    side: &[Pattern],
    trees: &[TreeRef<'_>],
    remaining: &Remaining<'_>,
    found: &mut Vec<Subst>,
) -> Result<(), AllocError>
    requires in_class { IsInClass ((patterns side.now, trees_apart trees.now) ∷ tasks_of remaining.now) }
    requires singles { NoForestAtTop (patterns side.now) }
    requires some { 1 ≤ length side.now }
    requires as_many { length trees.now ≡ length side.now }
    ensures { OnOk result (Appends ((patterns side.now, trees_apart trees.now) ∷ tasks_of remaining.now) []
        found.old.items found.new.items) }
{
    let last = trees.len() - 1;
    if last == 0 {
        let start = State {
            side: &*side,
            trees: trees[0].alone(),
            remaining: &*remaining,
            bindings: &Bindings::Nothing,
        };
        return search(alloc, &start, found);
    }
    let more = Remaining::Then {
        side: &side[last..],
        trees: trees[last].alone(),
        remaining: &*remaining,
    };
    search_apart(alloc, &side[..last], &trees[..last], &more, found)
}

/// All matches of the side, as `all_matches` gives them, with trees that lie apart: one for each pattern of the side,
/// of which there is one at least and none is a forest variable. No tree is copied but into the matches.
pub fn all_matches_apart(
    alloc: Global,
    side: &[Pattern],
    trees: &[TreeRef<'_>],
) -> Result<Vec<Subst>, AllocError>
    requires in_class { AreInClass (patterns side.now) }
    requires singles { NoForestAtTop (patterns side.now) }
    requires some { 1 ≤ length side.now }
    requires as_many { length trees.now ≡ length side.now }
    ensures sound { IfOk result (λ v. (s : Substitution) → s ∈ v.items
        → IsMatch (patterns side.now) (trees_apart trees.now) s) }
    ensures all { IfOk result (λ v. (s : Substitution) → IsMatch (patterns side.now) (trees_apart trees.now) s
        → s ∈ v.items) }
    ensures ascending { IfOk result (λ v. Ascends LengthsBefore v.items) }
{
    let mut found = Vec::new(alloc);
    search_apart(alloc, side, trees, &Remaining::Nothing, &mut found)?;
    Ok(found)
}
