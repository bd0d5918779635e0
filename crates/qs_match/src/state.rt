//! What the search knows at each of its steps.

use crate::bindings::Bindings;
use crate::remaining::Remaining;
use qs_pattern::Pattern;
use qs_tree::ForestRef;

/// A state of the search: the patterns and the trees that are to be matched next, what remains behind them, and what
/// the variables stand for that were met so far.
#[derive(Clone, Copy)]
pub struct State<'a> {
    pub side: &'a [Pattern],
    pub trees: ForestRef<'a>,
    pub remaining: &'a Remaining<'a>,
    pub bindings: &'a Bindings<'a>,
}
