//! A graph that grows.

ghost use Rattle.std.specs.Prelude.{◌≡◌, ◌<◌, ◌≤◌, ◌+◌, ◌^◌, ◌++◌, ◌↔◌, length, map, IsTrue, IfOk, OnOk, OnErr, Some};
ghost use Rattle.std.specs.Prelude.{slice_get};
ghost use Rattle.std.specs.Arc.{arc_value};
ghost use Rattle.qs_tree.specs.Cells.{tree_of};
ghost use Rattle.qs_graph.specs.Chains.{chain};
ghost use Rattle.qs_firing.specs.Adding.{least_arc};

use qs_firing::View;
use qs_graph::Edge;
use qs_tree::{Tree, TreeRef, same};
use std::alloc::{AllocError, Global};
use std::marker::Model;
use std::sync::Arc;

// Whether the arc ends at this node and carries this tree.
fn ends_with(edge: &Edge, to: u32, tree: TreeRef<'_>) -> bool
    ensures { IsTrue result ↔ ((edge.now.to ≡ to) × (edge.now.tree ≡ tree_of tree.entry.cells.now)) }
{
    edge.to == to && same(edge.tree.view(), tree)
}

/// A graph whose nodes and arcs only become more. The arcs that leave a node are found one after the other.
#[derive(Drop)]
pub struct Arcs {
    nodes: u32,
    view: View,
}

impl Model for Arcs {
    ghost use Rattle.qs_graph.specs.Graphs.{QGraph};
    ghost use Rattle.qs_graph.specs.working.Codes.{graph_code};

    ghost Value = { QGraph };

    ghost coded = { graph_code };

    ghost view = { λ a. record { nodes = a.nodes; arcs = a.view } };
}

impl Arcs {
    /// So many nodes, and arcs equal to these, which own the same trees. No tree is copied.
    pub fn of(alloc: Global, nodes: u32, edges: &[Edge]) -> Result<Arcs, AllocError>
        requires { length edges.now < 2 ^ 32 }
        ensures { IfOk result (λ a. a ≡ record { nodes = nodes; arcs = edges.now }) }
    {
        let mut view = View::empty(alloc);
        view.add(edges)?;
        Ok(Arcs { nodes, view })
    }

    /// The arcs, as a view of them.
    pub fn view(&self) -> &View
        ensures { result.now ≡ self.now.arcs }
    {
        &self.view
    }

    /// The arcs in their order.
    pub fn edges(&self) -> &[Edge]
        ensures value { result.now ≡ self.now.arcs }
        ensures few { length result.now < 2 ^ 32 }
    {
        self.view.edges()
    }

    /// The number of arcs.
    pub fn len(&self) -> u32
        ensures { result ≡ length self.now.arcs }
    {
        self.view.len()
    }

    /// The number of nodes.
    pub fn nodes(&self) -> u32
        ensures { result ≡ self.now.nodes }
    {
        self.nodes
    }

    /// The arc of this number.
    pub fn edge(&self, arc: u32) -> &Edge
        requires { arc < length self.now.arcs }
        ensures { slice_get self.now.arcs arc ≡ Some result.now }
    {
        self.view.edge(arc)
    }

    /// The least arc that leads from one node to another and carries this tree. It is looked for among the arcs that
    /// leave the first node, from the last one down.
    pub fn least(&self, from: u32, to: u32, tree: TreeRef<'_>) -> Option<u32>
        ensures { result ≡ least_arc self.now.arcs from to (tree_of tree.entry.cells.now) }
    {
        let mut least = None;
        let mut next = self.view.last_out(from);
        while let Some(arc) = next {
            if ends_with(self.view.edge(arc), to, tree) {
                least = Some(arc);
            }
            next = self.view.before_out(arc);
        }
        least
    }

    /// So many nodes more, and these arcs more. After an error the graph is as before.
    pub fn add(&mut self, nodes: u32, edges: &[Edge]) -> Result<(), AllocError>
        requires nodes { self.old.nodes + nodes < 2 ^ 32 }
        requires arcs { length self.old.arcs + length edges.now < 2 ^ 32 }
        ensures ok { OnOk result (self.new ≡ record {
          nodes = self.old.nodes + nodes;
          arcs = self.old.arcs ++ edges.now;
        }) }
        ensures err { OnErr result (self.new ≡ self.old) }
    {
        self.view.add(edges)?;
        self.nodes += nodes;
        Ok(())
    }
}

/// A chain of these trees, which its arcs own too, from one node to another, through new nodes behind the last one,
/// which is `last`.
pub fn chain_of(
    alloc: Global,
    from: u32,
    trees: &[Arc<Tree>],
    last: u32,
    to: u32,
) -> Result<Vec<Edge>, AllocError>
    requires { last + length trees.now < 2 ^ 32 }
    ensures { IfOk result (λ v. v.items ≡ chain from (map (λ t. arc_value t) trees.now) (last + 1) to) }
{
    let mut edges = Vec::with_capacity(alloc, trees.len())?;
    let mut at = from;
    let mut node = last;
    for tree in trees {
        node += 1;
        let end = if edges.len() + 1 == trees.len() {
            to
        } else {
            node
        };
        let tree = Arc::try_clone(tree)?;
        edges.push(Edge {
            from: at,
            to: end,
            tree,
        })?;
        at = end;
    }
    Ok(edges)
}
