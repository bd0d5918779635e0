//! How many trees patterns can stand for: what the search refuses at once, and which lengths it tries for a forest
//! variable. Whether a match is found never rests on this alone.

ghost use Rattle.std.specs.Prelude.{ℕ, ◌≡◌, ◌↔◌, ◌+◌, ◌<◌, ◌≤◌, ◌++◌, List, length, IsTrue, IsNone, IfSome, Some};
ghost use Rattle.qs_tree.specs.Trees.{Tree};
ghost use Rattle.qs_tree.specs.Cells.{trees_of};
ghost use Rattle.qs_tree.specs.Splits.{front_of, behind_of};
ghost use Rattle.qs_pattern.specs.Patterns.{patterns, AreInClass};
ghost use Rattle.qs_pattern.specs.working.Patterns.{one_pattern};
ghost use Rattle.qs_pattern.specs.Variables.{IsForestVar};
ghost use Rattle.qs_pattern.specs.Substitutions.{Substitution, value_of};
ghost use Rattle.qs_match.specs.working.Counts.{singles, CanFit, CanBeRoot};
ghost use Rattle.qs_match.specs.working.Tasks.{TakesFront};
ghost use Rattle.qs_match.specs.working.Bindings.{substitution_of};

use crate::bindings::{Bindings, ValueRef, find};
use qs_pattern::{Head, Pattern, Value, Var};
use qs_tree::{ForestRef, Label, Split};

/// 1 where the pattern stands for one tree, 0 where it is a forest variable.
fn tree_count(pattern: &Pattern) -> usize
    ensures { result ≡ singles (one_pattern pattern.now) }
{
    match pattern {
        Pattern::Node { .. } => 1,
        Pattern::Tree(_) => 1,
        Pattern::Forest(_) => 0,
    }
}

/// How many of the patterns stand for one tree each.
fn single_count(side: &[Pattern]) -> usize
    ensures { result ≡ singles (patterns side.now) }
{
    let mut count = 0;
    for pattern in side {
        count += tree_count(pattern);
    }
    count
}

/// Whether the patterns can stand for as many trees as these.
pub fn can_fit(side: &[Pattern], trees: ForestRef<'_>) -> bool
    ensures { IsTrue result ↔ CanFit (patterns side.now) (length (trees_of trees.entry.cells.now)) }
{
    let single = single_count(side);
    if single == side.len() {
        trees.len() == single
    } else {
        single <= trees.len()
    }
}

/// Whether the label can be that of a tree with this head, as far as the head alone says.
pub fn can_be_root(head: Head, root: Label) -> bool
    ensures { IsTrue result ↔ CanBeRoot head root }
{
    match head {
        Head::Label(label) => label == root,
        Head::Var(_) => true,
    }
}

/// The numbers of trees from `least` to `most`.
#[derive(Clone, Copy)]
pub struct Lengths {
    pub least: usize,
    pub most: usize,
}

/// The lengths that a list can have, where it and then the trees that the patterns stand for are these trees. Only one
/// fits where no pattern is a forest variable. None where no length fits.
fn lengths_before(side: &[Pattern], trees: ForestRef<'_>) -> Option<Lengths>
    ensures none { IsNone result → (n m : ℕ) → n + m ≡ length (trees_of trees.entry.cells.now)
        → CanFit (patterns side.now) m → ⊥ }
    ensures some { IfSome result (λ lengths. (n m : ℕ) → n + m ≡ length (trees_of trees.entry.cells.now)
        → CanFit (patterns side.now) m → (lengths.least ≤ n) × (n ≤ lengths.most)) }
{
    let single = single_count(side);
    let count = trees.len();
    if count < single {
        return None;
    }
    let most = count - single;
    if single == side.len() {
        Some(Lengths { least: most, most })
    } else {
        Some(Lengths { least: 0, most })
    }
}

/// The length of the list that the variable stands for already. None where it has no value yet.
fn known_length(bindings: &Bindings<'_>, var: Var) -> Option<usize>
    ensures { IfSome result (λ n. (front : List Tree)
        × (value_of (substitution_of bindings.now) var ≡ Some (Value.Forest front)) × (length front ≡ n)) }
{
    match find(bindings, var) {
        Some(ValueRef::Forest(forest)) => Some(forest.len()),
        _ => None,
    }
}

/// The lengths that are tried for the forest variable, where it and then the patterns stand for these trees: those that
/// fit, or only that of the value that it has already. None where no length fits.
pub fn lengths_of(
    var: Var,
    rest: &[Pattern],
    trees: ForestRef<'_>,
    bindings: &Bindings<'_>,
) -> Option<Lengths>
    requires in_class { AreInClass (patterns rest.now) }
    ensures none { IsNone result → (r : Substitution) (front : List Tree) → TakesFront (substitution_of bindings.now)
        var (patterns rest.now) (trees_of trees.entry.cells.now) r front → ⊥ }
    ensures some { IfSome result (λ lengths. (r : Substitution) (front : List Tree)
        → TakesFront (substitution_of bindings.now) var (patterns rest.now) (trees_of trees.entry.cells.now) r front
        → (lengths.least ≤ length front) × (length front ≤ lengths.most)) }
{
    let fitting = lengths_before(rest, trees)?;
    let Some(length) = known_length(bindings, var) else {
        return Some(fitting);
    };
    if length < fitting.least {
        return None;
    }
    if fitting.most < length {
        return None;
    }
    Some(Lengths {
        least: length,
        most: length,
    })
}

/// The list of trees, split behind this many of them. None where there are fewer.
pub fn split_behind<'a>(trees: ForestRef<'a>, count: usize) -> Option<Split<'a>>
    ensures none { IsNone result → length (trees_of trees.entry.cells.now) < count }
    ensures some { IfSome result (λ split. length (front_of split) ≡ count) }
    ensures joins { IfSome result (λ split. front_of split ++ behind_of split ≡ trees_of trees.entry.cells.now) }
{
    let mut split = Split::start(trees);
    for _ in 0..count {
        split = split.next()?;
    }
    Some(split)
}
