//! The search for matches: depth first over the labels and variables of the patterns, at every depth. It recurses over
//! them, and never over the depth or the length of the trees. What it bound and what it has still to match lies
//! borrowed in the frames of the recursion, so that only finished substitutions take memory.

ghost use Rattle.std.specs.Prelude.{◌≡◌, ◌++◌, ◌∷◌, [], IfOk, OnOk, MatchOption, IsTrue, ◌↔◌};
ghost use Rattle.qs_tree.specs.Cells.{trees_of};
ghost use Rattle.qs_pattern.specs.Patterns.{patterns, no_pattern, node_first, tree_var_first, forest_var_first};
ghost use Rattle.qs_tree.specs.Lists.{◌∈◌, Ascends};
ghost use Rattle.qs_pattern.specs.Substitutions.{Substitution, IsOfClass, IsSubstitution};
ghost use Rattle.qs_pattern.specs.Instances.{IsMatch};
ghost use Rattle.qs_pattern.specs.Patterns.{AreInClass};
ghost use Rattle.qs_match.specs.Order.{LengthsBefore};
ghost use Rattle.qs_match.specs.working.Tasks.{Appends, AppendsWith, IsInClass};
ghost use Rattle.qs_match.specs.working.Bindings.{value_of_ref, substitution_of};
ghost use Rattle.qs_match.specs.working.Remaining.{tasks_of};

use crate::bindings::{Bindings, ValueRef, are_equal, find, subst_of};
use crate::counts::{can_be_root, can_fit, lengths_of, split_behind};
use crate::remaining::Remaining;
use crate::state::State;
use qs_pattern::{Head, Pattern, Subst, Var};
use std::alloc::{AllocError, Global};

/// Appends each substitution that extends the state's bindings, and under which its side stands for its trees and all
/// that remains for its trees. After an error some of them may have been appended.
#[cycle(search)]
pub fn search(alloc: Global, state: &State<'_>, found: &mut Vec<Subst>) -> Result<(), AllocError>
    requires in_class { IsInClass ((patterns state.now.side.now, trees_of state.now.trees.cells.now)
        ∷ tasks_of state.now.remaining.now) }
    requires substitution { IsSubstitution (substitution_of state.now.bindings.now) }
    ensures { OnOk result (Appends ((patterns state.now.side.now, trees_of state.now.trees.cells.now)
        ∷ tasks_of state.now.remaining.now) (substitution_of state.now.bindings.now) found.old.items found.new.items) }
{
    match state.side {
        [] => search_remaining(alloc, state, found),
        [first, rest @ ..] => {
            let behind = State {
                side: rest,
                ..*state
            };
            match first {
                Pattern::Node { head, kids } => search_node(alloc, *head, kids, &behind, found),
                Pattern::Tree(var) => search_tree(alloc, *var, &behind, found),
                Pattern::Forest(var) => search_forest(alloc, *var, &behind, found),
            }
        }
    }
}

/// No pattern is left of this list: where no tree is left either, what remains is next.
/// The state's side isn't looked at.
#[cycle(search)]
fn search_remaining(
    alloc: Global,
    state: &State<'_>,
    found: &mut Vec<Subst>,
) -> Result<(), AllocError>
    requires in_class { IsInClass (tasks_of state.now.remaining.now) }
    requires substitution { IsSubstitution (substitution_of state.now.bindings.now) }
    ensures { OnOk result (Appends ((no_pattern, trees_of state.now.trees.cells.now) ∷ tasks_of state.now.remaining.now)
        (substitution_of state.now.bindings.now) found.old.items found.new.items) }
{
    if state.trees.first_rest().is_some() {
        return Ok(());
    }
    match state.remaining {
        Remaining::Nothing => {
            found.push(subst_of(alloc, state.bindings, 0)?)?;
            Ok(())
        }
        Remaining::Then {
            side,
            trees,
            remaining,
        } => {
            let next = State {
                side,
                trees: *trees,
                remaining,
                bindings: state.bindings,
            };
            search(alloc, &next, found)
        }
    }
}

/// A node is the first pattern, before those of the state:
/// its patterns are matched with the subtrees of the first tree.
#[cycle(search)]
fn search_node(
    alloc: Global,
    head: Head,
    kids: &[Pattern],
    state: &State<'_>,
    found: &mut Vec<Subst>,
) -> Result<(), AllocError>
    requires in_class { IsInClass ((
      node_first head (patterns kids.now) (patterns state.now.side.now),
      trees_of state.now.trees.cells.now,
    ) ∷ tasks_of state.now.remaining.now) }
    requires substitution { IsSubstitution (substitution_of state.now.bindings.now) }
    ensures { OnOk result (Appends
        ((node_first head (patterns kids.now) (patterns state.now.side.now), trees_of state.now.trees.cells.now)
        ∷ tasks_of state.now.remaining.now) (substitution_of state.now.bindings.now) found.old.items found.new.items) }
{
    let Some((tree, behind)) = state.trees.first_rest() else {
        return Ok(());
    };
    // The label and the number of subtrees are compared before any list is split.
    if !can_be_root(head, tree.root()) {
        return Ok(());
    }
    if !can_fit(kids, tree.kids()) {
        return Ok(());
    }
    let after = Remaining::Then {
        side: state.side,
        trees: behind,
        remaining: state.remaining,
    };
    let below = State {
        side: kids,
        trees: tree.kids(),
        remaining: &after,
        bindings: state.bindings,
    };
    match head {
        Head::Label(_) => search(alloc, &below, found),
        Head::Var(var) => search_with(alloc, var, ValueRef::Label(tree.root()), &below, found),
    }
}

/// A tree variable is the first pattern, before those of the state: it takes the first tree.
#[cycle(search)]
fn search_tree(
    alloc: Global,
    var: Var,
    state: &State<'_>,
    found: &mut Vec<Subst>,
) -> Result<(), AllocError>
    requires in_class { IsInClass ((
      tree_var_first var (patterns state.now.side.now),
      trees_of state.now.trees.cells.now,
    ) ∷ tasks_of state.now.remaining.now) }
    requires substitution { IsSubstitution (substitution_of state.now.bindings.now) }
    ensures { OnOk result
        (Appends ((tree_var_first var (patterns state.now.side.now), trees_of state.now.trees.cells.now)
        ∷ tasks_of state.now.remaining.now) (substitution_of state.now.bindings.now) found.old.items found.new.items) }
{
    let Some((tree, behind)) = state.trees.first_rest() else {
        return Ok(());
    };
    let after = State {
        trees: behind,
        ..*state
    };
    search_with(alloc, var, ValueRef::Tree(tree), &after, found)
}

/// A forest variable is the first pattern, before those of the state: it takes each list at the head of the trees that
/// is of a length that fits, shortest first.
#[cycle(search)]
fn search_forest(
    alloc: Global,
    var: Var,
    state: &State<'_>,
    found: &mut Vec<Subst>,
) -> Result<(), AllocError>
    requires in_class { IsInClass ((
      forest_var_first var (patterns state.now.side.now),
      trees_of state.now.trees.cells.now,
    ) ∷ tasks_of state.now.remaining.now) }
    requires substitution { IsSubstitution (substitution_of state.now.bindings.now) }
    ensures { OnOk result
        (Appends ((forest_var_first var (patterns state.now.side.now), trees_of state.now.trees.cells.now)
        ∷ tasks_of state.now.remaining.now) (substitution_of state.now.bindings.now) found.old.items found.new.items) }
{
    let Some(lengths) = lengths_of(var, state.side, state.trees, state.bindings) else {
        return Ok(());
    };
    let Some(mut split) = split_behind(state.trees, lengths.least) else {
        return Ok(());
    };
    let mut length = lengths.least;
    'fronts: loop {
        let front = ValueRef::Forest(split.front());
        let after = State {
            trees: split.behind(),
            ..*state
        };
        search_with(alloc, var, front, &after, found)?;
        if lengths.most <= length {
            return Ok(());
        }
        let Some(longer) = split.next() else {
            return Ok(());
        };
        split = longer;
        length += 1;
    }
}

/// The variable takes this value, unless it has another one, and the search goes on from the state.
#[cycle(search)]
fn search_with(
    alloc: Global,
    var: Var,
    value: ValueRef<'_>,
    state: &State<'_>,
    found: &mut Vec<Subst>,
) -> Result<(), AllocError>
    requires in_class { IsInClass ((patterns state.now.side.now, trees_of state.now.trees.cells.now)
        ∷ tasks_of state.now.remaining.now) }
    requires substitution { IsSubstitution (substitution_of state.now.bindings.now) }
    requires class { IsOfClass (var, value_of_ref value) }
    ensures { OnOk result (AppendsWith
        ((patterns state.now.side.now, trees_of state.now.trees.cells.now) ∷ tasks_of state.now.remaining.now)
        (substitution_of state.now.bindings.now) var (value_of_ref value.entry) found.old.items found.new.items) }
{
    match find(state.bindings, var) {
        Some(known) => {
            if are_equal(known, value) {
                search(alloc, state, found)
            } else {
                Ok(())
            }
        }
        None => {
            let more = Bindings::More {
                var,
                value,
                earlier: state.bindings,
            };
            let bound = State {
                bindings: &more,
                ..*state
            };
            search(alloc, &bound, found)
        }
    }
}
