//! Trees and lists of trees that own their cells.
//!
//! `Memory` comes only where memory is wanting. A list to which a call could not append is as it was.

ghost use Rattle.std.specs.Prelude.{◌≡◌, List, [], ◌∷◌, ◌++◌, IfOk, OnOk, OnErr};
ghost use Rattle.qs_tree.specs.Trees.{Tree as LabelledTree, node, forest, size};
ghost use Rattle.qs_tree.specs.Cells.{tree_of, trees_of};

use crate::borrowed::{ForestRef, TreeRef};
use crate::cell::{Cell, Label};
use std::alloc::{AllocError as Memory, Global};
use std::marker::Model;

/// A tree: a label and a list of trees, its subtrees (Colmerauer 1970).
#[derive(Drop)]
pub struct Tree {
    cells: Vec<Cell>,
}

impl Model for Tree {
    ghost use Rattle.qs_tree.specs.Trees.{Tree as LabelledTree};
    ghost use Rattle.qs_tree.specs.Cells.{tree_of, IsTree};
    ghost use Rattle.qs_tree.specs.working.Cells.{tree_code};

    ghost Value = { LabelledTree };

    ghost coded = { tree_code };

    ghost view = { λ t. tree_of t.cells.items };

    ghost invariant = { λ t. IsTree t.cells.items };
}

impl Tree {
    /// The tree with this label and no subtree.
    pub fn leaf(alloc: Global, label: Label) -> Result<Tree, Memory>
        ensures { IfOk result (λ t. t ≡ node label []) }
    {
        let mut cells = Vec::new(alloc);
        cells.push(Cell { label, extent: 1 })?;
        Ok(Tree { cells })
    }

    /// The tree with this label and these subtrees.
    pub fn node(alloc: Global, label: Label, kids: ForestRef<'_>) -> Result<Tree, Memory>
        ensures { IfOk result (λ t. t ≡ node label (trees_of kids.entry.cells.now)) }
    {
        let extent = kids.cells.len() + 1;
        let mut cells = Vec::with_capacity(alloc, extent)?;
        cells.push(Cell { label, extent })?;
        cells.extend_from_slice(kids.cells)?;
        Ok(Tree { cells })
    }

    /// A copy of the tree.
    pub fn of(alloc: Global, tree: TreeRef<'_>) -> Result<Tree, Memory>
        ensures { IfOk result (λ t. t ≡ tree_of tree.entry.cells.now) }
    {
        Ok(Tree {
            cells: Vec::from_slice(alloc, tree.cells)?,
        })
    }

    /// The same tree, borrowed. Takes no memory.
    pub fn view(&self) -> TreeRef<'_>
        ensures { tree_of result.cells.now ≡ self.now }
    {
        TreeRef { cells: &self.cells }
    }

    /// An equal tree.
    pub fn copy(&self) -> Result<Tree, Memory>
        ensures { IfOk result (λ t. t ≡ self.now) }
    {
        Ok(Tree {
            cells: self.cells.clone()?,
        })
    }
}

/// A list of trees: a forest (Colmerauer 1970).
#[derive(Drop)]
pub struct Forest {
    cells: Vec<Cell>,
}

impl Model for Forest {
    ghost use Rattle.std.specs.Prelude.{List};
    ghost use Rattle.std.specs.Coded.{coded_list};
    ghost use Rattle.qs_tree.specs.Trees.{Tree as LabelledTree};
    ghost use Rattle.qs_tree.specs.Cells.{trees_of, IsForest};
    ghost use Rattle.qs_tree.specs.working.Cells.{tree_code};

    ghost Value = { List LabelledTree };

    ghost coded = { coded_list tree_code };

    ghost view = { λ f. trees_of f.cells.items };

    ghost invariant = { λ f. IsForest f.cells.items };
}

impl Forest {
    /// The empty list. Takes no memory.
    pub fn empty(alloc: Global) -> Forest
        ensures { result ≡ [] }
    {
        Forest {
            cells: Vec::new(alloc),
        }
    }

    /// The empty list, with memory for trees of so many nodes in all.
    pub fn with_capacity(alloc: Global, nodes: usize) -> Result<Forest, Memory>
        ensures { IfOk result (λ f. f ≡ []) }
    {
        Ok(Forest {
            cells: Vec::with_capacity(alloc, nodes)?,
        })
    }

    /// How many nodes the trees of the list have. Takes no memory.
    pub fn nodes(&self) -> usize
        ensures { result ≡ size (forest self.now) }
    {
        self.cells.len()
    }

    /// Puts the last trees of the list under a new node with this label, which takes their place. They are those behind
    /// the first trees that have so many nodes. After `Memory` the list is as before.
    pub fn put_under(&mut self, label: Label, nodes: usize) -> Result<(), Memory>
        requires { (first : List LabelledTree) × (last : List LabelledTree) × (self.old ≡ first ++ last)
            × (nodes ≡ size (forest first)) }
        ensures ok { OnOk result ((first last : List LabelledTree) → self.old ≡ first ++ last
            → nodes ≡ size (forest first) → self.new ≡ first ++ node label last ∷ []) }
        ensures err { OnErr result (self.new ≡ self.old) }
    {
        let extent = self.cells.len() - nodes + 1;
        self.cells.insert(nodes, Cell { label, extent })?;
        Ok(())
    }

    /// The only tree of the list. Takes no memory.
    pub fn into_tree(self) -> Tree
        requires { (tree : LabelledTree) × (self ≡ tree ∷ []) }
        ensures { result ∷ [] ≡ self }
    {
        let Forest { cells } = self;
        Tree { cells }
    }

    /// Appends a copy of the tree. After `Memory` the list is as before.
    pub fn push(&mut self, tree: TreeRef<'_>) -> Result<(), Memory>
        ensures ok { OnOk result (self.new ≡ self.old ++ tree_of tree.entry.cells.now ∷ []) }
        ensures err { OnErr result (self.new ≡ self.old) }
    {
        self.cells.extend_from_slice(tree.cells)?;
        Ok(())
    }

    /// Appends copies of all trees of the other list. After `Memory` the list is as before.
    pub fn splice(&mut self, forest: ForestRef<'_>) -> Result<(), Memory>
        ensures ok { OnOk result (self.new ≡ self.old ++ trees_of forest.entry.cells.now) }
        ensures err { OnErr result (self.new ≡ self.old) }
    {
        self.cells.extend_from_slice(forest.cells)?;
        Ok(())
    }

    /// A copy of the list.
    pub fn of(alloc: Global, forest: ForestRef<'_>) -> Result<Forest, Memory>
        ensures { IfOk result (λ f. f ≡ trees_of forest.entry.cells.now) }
    {
        Ok(Forest {
            cells: Vec::from_slice(alloc, forest.cells)?,
        })
    }

    /// The same list, borrowed. Takes no memory.
    pub fn view(&self) -> ForestRef<'_>
        ensures { trees_of result.cells.now ≡ self.now }
    {
        ForestRef { cells: &self.cells }
    }

    /// An equal list.
    pub fn copy(&self) -> Result<Forest, Memory>
        ensures { IfOk result (λ f. f ≡ self.now) }
    {
        Ok(Forest {
            cells: self.cells.clone()?,
        })
    }
}
