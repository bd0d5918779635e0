//! What is still to be matched.

use qs_pattern::Pattern;
use qs_tree::ForestRef;

/// Lists of patterns that are still to be matched, each with its list of trees.
#[derive(Drop)]
pub enum Remaining<'a> {
    Nothing,
    Then {
        side: &'a [Pattern],
        trees: ForestRef<'a>,
        remaining: &'a Remaining<'a>,
    },
}
