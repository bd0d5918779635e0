//! Whether a pattern can stand for a tree at all, as far as that shows without its variables' values: a test for
//! callers that have many trees and few that match.

ghost use Rattle.std.specs.Prelude.{◌≡◌, ◌∷◌, [], false};
ghost use Rattle.qs_tree.specs.Cells.{tree_of, trees_of};
ghost use Rattle.qs_pattern.specs.Patterns.{patterns};
ghost use Rattle.qs_match.specs.Fitting.{NeverStandsFor};

use crate::counts::can_be_root;
use qs_pattern::Pattern;
use qs_tree::{ForestRef, TreeRef};

// Whether the patterns can stand for these trees, which are looked at up to the first forest variable.
fn can_stand_for_all(side: &[Pattern], trees: ForestRef<'_>) -> bool
    ensures { result ≡ false → NeverStandsFor (patterns side.now) (trees_of trees.entry.cells.now) }
{
    match side {
        [] => trees.first_rest().is_none(),
        [first, rest @ ..] => match first {
            Pattern::Forest(_) => true,
            Pattern::Tree(_) => match trees.first_rest() {
                Some((_, behind)) => can_stand_for_all(rest, behind),
                None => false,
            },
            Pattern::Node { head, kids } => match trees.first_rest() {
                Some((tree, behind)) => {
                    if !can_be_root(*head, tree.root()) || !can_stand_for_all(kids, tree.kids()) {
                        return false;
                    }
                    can_stand_for_all(rest, behind)
                }
                None => false,
            },
        },
    }
}

/// Whether the pattern can stand for the tree, as far as the labels tell that stand in front of the first forest
/// variable in each list, and the numbers of subtrees where there is none. Where it says no, there is no match. It
/// recurses over the pattern, and takes no memory.
pub fn can_stand_for(pattern: &Pattern, tree: TreeRef<'_>) -> bool
    ensures { result ≡ false → NeverStandsFor (patterns (pattern.now ∷ [])) (tree_of tree.entry.cells.now ∷ []) }
{
    match pattern {
        Pattern::Node { head, kids } => {
            can_be_root(*head, tree.root()) && can_stand_for_all(kids, tree.kids())
        }
        _ => true,
    }
}
