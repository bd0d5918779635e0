//! A borrowed list of trees with a place in it.

ghost use Rattle.std.specs.Prelude.{◌≡◌, ◌≤◌, ◌↔◌, [], length, take, drop, IsNone, IfSome};
ghost use Rattle.qs_tree.specs.Cells.{IsForest, trees_of};

use crate::borrowed::ForestRef;
use crate::cell::Cell;

/// A list of trees, split at a place into the trees in front of it and those behind it. The place is a number of cells,
/// which is that of the trees in front.
#[derive(Clone, Copy)]
pub struct Split<'a> {
    pub cells: &'a [Cell],
    pub place: usize,
    ghost within: { place ≤ length cells.now },
    ghost front_trees: { IsForest (take place cells.now) },
    ghost trees_behind: { IsForest (drop place cells.now) },
}

impl<'a> Split<'a> {
    ghost use Rattle.qs_tree.specs.Splits.{front_of, behind_of, PassesTree};

    /// The place before the first tree. Takes no memory.
    pub fn start(forest: ForestRef<'a>) -> Split<'a>
        ensures front { front_of result ≡ [] }
        ensures behind { behind_of result ≡ trees_of forest.entry.cells.now }
    {
        Split {
            cells: forest.cells,
            place: 0,
        }
    }

    /// The trees in front of the place. Takes no memory.
    pub fn front(self) -> ForestRef<'a>
        ensures { trees_of result.cells.now ≡ front_of self.entry }
    {
        ForestRef {
            cells: &self.cells[..self.place],
        }
    }

    /// The trees behind the place. Takes no memory.
    pub fn behind(self) -> ForestRef<'a>
        ensures { trees_of result.cells.now ≡ behind_of self.entry }
    {
        ForestRef {
            cells: &self.cells[self.place..],
        }
    }

    /// The same list, split behind one more tree; None exactly where no tree is behind the place. Takes no memory.
    pub fn next(self) -> Option<Split<'a>>
        ensures none { IsNone result ↔ (behind_of self.entry ≡ []) }
        ensures some { IfSome result
            (λ next. PassesTree (front_of self.entry) (behind_of self.entry) (front_of next) (behind_of next)) }
    {
        let _most = self.cells.len();
        let first = self.cells[self.place..].first()?;
        Some(Split {
            cells: self.cells,
            place: self.place + first.extent,
        })
    }
}
