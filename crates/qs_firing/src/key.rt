//! The order of firings.

ghost use Rattle.std.specs.Prelude.{◌≡◌};
ghost use Rattle.std.specs.Ordering.{nat_cmp};
ghost use Rattle.std.specs.Cmp.Lexicographic.{slice_cmp};
ghost use Rattle.qs_pattern.specs.Substitutions.{forest_length, forest_lengths};
ghost use Rattle.qs_firing.specs.Firings.{order};

use crate::firing::Firing;
use qs_pattern::{Value, Var};
use std::cmp::Ordering;

// How many trees the value is, where it is a list of trees.
fn length_of(pair: &(Var, Value)) -> Option<usize>
    ensures { result ≡ forest_length pair.now }
{
    match &pair.1 {
        Value::Forest(forest) => Some(forest.view().len()),
        _ => None,
    }
}

// The order of the lengths of the lists of trees.
fn compare_lengths(a: &[(Var, Value)], b: &[(Var, Value)]) -> Ordering
    ensures { result ≡ slice_cmp nat_cmp (forest_lengths a.now) (forest_lengths b.now) }
{
    a.iter()
        .filter_map(length_of)
        .cmp(b.iter().filter_map(length_of))
}

/// The order of the keys of any two firings: by the number of the rule, then by the path in dictionary order, then by
/// the lengths of the lists of trees that forest variables stand for, in the order in which the substitutions have them
/// and in dictionary order. Takes no memory.
pub fn order(a: &Firing, b: &Firing) -> Ordering
    ensures { result ≡ order a.now b.now }
{
    a.rule
        .cmp(&b.rule)
        .then_with(|| a.path.cmp(&b.path))
        .then_with(|| compare_lengths(a.subst.pairs(), b.subst.pairs()))
}
