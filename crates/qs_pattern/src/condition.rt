//! Conditions of rules.

use crate::pattern::Pattern;

/// A condition of a rule. It has at least two members where it joins others.
#[derive(Drop)]
pub enum Cond {
    /// Each tree that `a` stands for is one that `b` stands for: `-DANS-`.
    Within { a: Vec<Pattern>, b: Vec<Pattern> },
    /// No tree that `a` stands for is one that `b` stands for: `-HORS-`.
    Outside { a: Vec<Pattern>, b: Vec<Pattern> },
    /// The lists of trees that `a` and `b` stand for are equal: `-EGAL-`.
    Same { a: Vec<Pattern>, b: Vec<Pattern> },
    /// The condition doesn't hold: `-NON-`.
    Not(Box<Cond>),
    /// Each of the conditions holds: `-ET-`.
    All(Vec<Cond>),
    /// Some of the conditions holds: `-OU-`.
    Any(Vec<Cond>),
}
