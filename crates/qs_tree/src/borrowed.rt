//! Trees and lists of trees as borrowed runs of cells. Their calls take no memory.

ghost use Rattle.std.specs.Prelude.{◌≡◌, ◌↔◌, ◌∷◌, [], length, IsTrue, IsNone, IfSome};
ghost use Rattle.qs_tree.specs.Trees.{Tree, kids};
ghost use Rattle.qs_tree.specs.Cells.{IsTree, IsForest, tree_of, trees_of};

use crate::cell::{Cell, Label};

/// A borrowed tree: its cells, the root's first. The type keeps that they are the cells of one tree.
#[derive(Clone, Copy)]
pub struct TreeRef<'a> {
    pub cells: &'a [Cell],
    ghost one_tree: { IsTree cells.now },
}

/// A borrowed list of trees: the cells of its trees, one tree behind the other. The type keeps that they are the cells
/// of a list of trees.
#[derive(Clone, Copy)]
pub struct ForestRef<'a> {
    pub cells: &'a [Cell],
    ghost trees: { IsForest cells.now },
}

impl<'a> TreeRef<'a> {
    /// The label of the tree.
    pub fn root(self) -> Label
        ensures { result ≡ (tree_of self.entry.cells.now).root }
    {
        self.cells[0].label
    }

    /// The subtrees of the tree, from left to right.
    pub fn kids(self) -> ForestRef<'a>
        ensures { trees_of result.cells.now ≡ kids (tree_of self.entry.cells.now) }
    {
        ForestRef {
            cells: &self.cells[1..],
        }
    }

    /// The list of this tree alone, over the same cells. Takes no memory.
    pub fn alone(self) -> ForestRef<'a>
        ensures { trees_of result.cells.now ≡ tree_of self.entry.cells.now ∷ [] }
    {
        ForestRef { cells: self.cells }
    }
}

impl<'a> ForestRef<'a> {
    /// The first tree and the list of the others; None exactly where the list is empty.
    pub fn first_rest(self) -> Option<(TreeRef<'a>, ForestRef<'a>)>
        ensures none { IsNone result ↔ (trees_of self.entry.cells.now ≡ []) }
        ensures some { IfSome result (λ p. trees_of self.entry.cells.now
            ≡ tree_of p.0.cells.now ∷ trees_of p.1.cells.now) }
    {
        let first = self.cells.first()?;
        let (tree, rest) = self.cells.split_at(first.extent);
        Some((TreeRef { cells: tree }, ForestRef { cells: rest }))
    }

    /// The number of trees in the list.
    pub fn len(self) -> usize
        ensures { result ≡ length (trees_of self.entry.cells.now) }
    {
        let most = self.cells.len();
        let mut count = 0;
        let mut left = self;
        while let Some((_, rest)) = left.first_rest() {
            prove!(count < most);
            left = rest;
            count += 1;
        }
        count
    }
}

/// Whether the two trees are equal: their labels are, and their subtrees one by one.
pub fn same(a: TreeRef<'_>, b: TreeRef<'_>) -> bool
    ensures { IsTrue result ↔ (tree_of a.entry.cells.now ≡ tree_of b.entry.cells.now) }
{
    a.root() == b.root() && same_forest(a.kids(), b.kids())
}

/// Whether the two lists are equal: they have the same trees in the same order.
pub fn same_forest(a: ForestRef<'_>, b: ForestRef<'_>) -> bool
    ensures { IsTrue result ↔ (trees_of a.entry.cells.now ≡ trees_of b.entry.cells.now) }
{
    a.cells == b.cells
}
