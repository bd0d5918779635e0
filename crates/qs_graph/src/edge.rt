//! Arcs.

ghost use Rattle.std.specs.Prelude.{◌≡◌, IfOk};

use qs_tree::Tree;
use std::alloc::{AllocError, Global};
use std::marker::Model;
use std::sync::Arc;

/// An arc: the numbers of the nodes from and to which it goes, and its tree, which equal arcs may own together. For
/// contracts an arc has the tree itself, whoever owns it.
#[derive(Drop)]
pub struct Edge {
    pub from: u32,
    pub to: u32,
    pub tree: Arc<Tree>,
}

impl Model for Edge {
    ghost use Rattle.std.specs.Arc.{arc_value};
    ghost use Rattle.qs_graph.specs.Graphs.{Arc};
    ghost use Rattle.qs_graph.specs.working.Codes.{arc_code};

    ghost Value = { Arc };

    ghost coded = { arc_code };

    ghost view = { λ e. record { from = e.from; to = e.to; tree = arc_value e.tree } };
}

impl Edge {
    /// The arc from one node to another with this tree, of which it is the one owner.
    pub fn new(alloc: Global, from: u32, to: u32, tree: Tree) -> Result<Edge, AllocError>
        ensures { IfOk result (λ e. e ≡ record { from = from; to = to; tree = tree }) }
    {
        Ok(Edge {
            from,
            to,
            tree: Arc::new(alloc, tree)?,
        })
    }

    /// An equal arc, which is one more owner of the tree. No tree is copied.
    pub fn copy(&self) -> Result<Edge, AllocError>
        ensures { IfOk result (λ e. e ≡ self.now) }
    {
        Ok(Edge {
            from: self.from,
            to: self.to,
            tree: Arc::try_clone(&self.tree)?,
        })
    }
}
