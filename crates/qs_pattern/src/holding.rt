//! Whether a condition holds under a substitution.

ghost use Rattle.std.specs.Prelude.{◌↔◌, IsTrue, IfOk};
ghost use Rattle.qs_tree.specs.Lists.{◌∈◌};
ghost use Rattle.qs_tree.specs.Trees.{Tree};
ghost use Rattle.qs_tree.specs.Cells.{tree_of, trees_of};
ghost use Rattle.qs_pattern.specs.Patterns.{patterns};
ghost use Rattle.qs_pattern.specs.Instances.{IsCovered};
ghost use Rattle.qs_pattern.specs.Conditions.{within, outside, same, compared, condition_of, Holds};
ghost use Rattle.qs_pattern.specs.Conditions.{AllHold, SomeHolds, IsConditionCovered};
ghost use Rattle.qs_pattern.specs.working.Conditions.{conditions, AreConditionsCovered};

use crate::condition::Cond;
use crate::instances::forest_of;
use crate::pattern::Pattern;
use crate::subst::Subst;
use qs_tree::{ForestRef, TreeRef, same, same_forest};
use std::alloc::{AllocError, Global};

// Whether the tree is one of the list.
fn is_in(tree: TreeRef<'_>, list: ForestRef<'_>) -> bool
    ensures { IsTrue result ↔ (tree_of tree.entry.cells.now ∈ trees_of list.entry.cells.now) }
{
    let mut left = list;
    while let Some((first, rest)) = left.first_rest() {
        if same(tree, first) {
            return true;
        }
        left = rest;
    }
    false
}

// Whether each tree of the first list is one of the second.
fn are_all_in(some: ForestRef<'_>, list: ForestRef<'_>) -> bool
    ensures { IsTrue result ↔ ((t : Tree) → t ∈ trees_of some.entry.cells.now → t ∈ trees_of list.entry.cells.now) }
{
    let mut left = some;
    while let Some((first, rest)) = left.first_rest() {
        if !is_in(first, list) {
            return false;
        }
        left = rest;
    }
    true
}

// Whether no tree of the first list is one of the second.
fn are_none_in(some: ForestRef<'_>, list: ForestRef<'_>) -> bool
    ensures { IsTrue result ↔ ((t : Tree) → t ∈ trees_of some.entry.cells.now → t ∈ trees_of list.entry.cells.now → ⊥) }
{
    let mut left = some;
    while let Some((first, rest)) = left.first_rest() {
        if is_in(first, list) {
            return false;
        }
        left = rest;
    }
    true
}

// Whether `a -DANS- b` holds.
fn is_within(alloc: Global, a: &[Pattern], b: &[Pattern], subst: &Subst) -> Result<bool, AllocError>
    requires a { IsCovered subst.now (patterns a.now) }
    requires b { IsCovered subst.now (patterns b.now) }
    ensures { IfOk result (λ r. IsTrue r ↔ Holds (compared within (patterns a.now) (patterns b.now)) subst.now) }
{
    let some = forest_of(alloc, a, subst)?;
    let list = forest_of(alloc, b, subst)?;
    Ok(are_all_in(some.view(), list.view()))
}

// Whether `a -HORS- b` holds.
fn is_outside(
    alloc: Global,
    a: &[Pattern],
    b: &[Pattern],
    subst: &Subst,
) -> Result<bool, AllocError>
    requires a { IsCovered subst.now (patterns a.now) }
    requires b { IsCovered subst.now (patterns b.now) }
    ensures { IfOk result (λ r. IsTrue r ↔ Holds (compared outside (patterns a.now) (patterns b.now)) subst.now) }
{
    let some = forest_of(alloc, a, subst)?;
    let list = forest_of(alloc, b, subst)?;
    Ok(are_none_in(some.view(), list.view()))
}

// Whether `a -EGAL- b` holds.
fn is_same(alloc: Global, a: &[Pattern], b: &[Pattern], subst: &Subst) -> Result<bool, AllocError>
    requires a { IsCovered subst.now (patterns a.now) }
    requires b { IsCovered subst.now (patterns b.now) }
    ensures { IfOk result (λ r. IsTrue r ↔ Holds (compared same (patterns a.now) (patterns b.now)) subst.now) }
{
    let some = forest_of(alloc, a, subst)?;
    let list = forest_of(alloc, b, subst)?;
    Ok(same_forest(some.view(), list.view()))
}

/// Whether the condition holds under the substitution, which has to give each variable of the condition a value of its
/// class.
#[cycle(condition_holds)]
pub fn holds(alloc: Global, condition: &Cond, subst: &Subst) -> Result<bool, AllocError>
    requires { IsConditionCovered subst.now (condition_of condition.now) }
    ensures { IfOk result (λ h. IsTrue h ↔ Holds (condition_of condition.now) subst.now) }
{
    match condition {
        Cond::Within { a, b } => is_within(alloc, a, b, subst),
        Cond::Outside { a, b } => is_outside(alloc, a, b, subst),
        Cond::Same { a, b } => is_same(alloc, a, b, subst),
        Cond::Not(member) => Ok(!holds(alloc, member, subst)?),
        Cond::All(members) => all_hold(alloc, members, subst),
        Cond::Any(members) => some_holds(alloc, members, subst),
    }
}

// Whether each of the conditions holds.
#[cycle(condition_holds)]
fn all_hold(alloc: Global, members: &[Cond], subst: &Subst) -> Result<bool, AllocError>
    requires { AreConditionsCovered subst.now (conditions members.now) }
    ensures { IfOk result (λ h. IsTrue h ↔ AllHold (conditions members.now) subst.now) }
{
    for member in members {
        if !holds(alloc, member, subst)? {
            return Ok(false);
        }
    }
    Ok(true)
}

// Whether some of the conditions holds.
#[cycle(condition_holds)]
fn some_holds(alloc: Global, members: &[Cond], subst: &Subst) -> Result<bool, AllocError>
    requires { AreConditionsCovered subst.now (conditions members.now) }
    ensures { IfOk result (λ h. IsTrue h ↔ SomeHolds (conditions members.now) subst.now) }
{
    for member in members {
        if holds(alloc, member, subst)? {
            return Ok(true);
        }
    }
    Ok(false)
}
