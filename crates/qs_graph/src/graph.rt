//! Valid Q-graphs.

ghost use Rattle.std.specs.Prelude.{◌≡◌, ◌<◌, ◌≤◌, ◌+◌, IfOk, length};
ghost use Rattle.qs_graph.specs.Graphs.{IsValid, IsEntry, IsExit};
ghost use Rattle.qs_graph.specs.Chains.{line_graph};
ghost use Rattle.qs_graph.specs.Limits.{most_read_arcs, arc_bound};
ghost use Rattle.qs_graph.specs.Kept.{IsKept};

use crate::edge::Edge;
use qs_tree::Tree;
use std::alloc::{AllocError, Global};
use std::marker::Model;

/// A valid Q-graph: a number of nodes, which are numbered from 1, and a list of arcs. It has at least one arc and fewer
/// than 4,294,967,295, no cycle, one node without an arc into it, the entry, and one without an arc out of it,
/// the exit.
#[derive(Drop)]
pub struct Graph {
    alloc: Global,
    nodes: u32,
    entry: u32,
    exit: u32,
    edges: Vec<Edge>,
}

impl Model for Graph {
    ghost use Rattle.qs_graph.specs.Graphs.{QGraph, IsValid, IsEntry, IsExit};
    ghost use Rattle.qs_graph.specs.working.Codes.{graph_code};

    ghost Value = { QGraph };

    ghost coded = { graph_code };

    ghost use Rattle.std.specs.Prelude.{◌<◌, length};
    ghost use Rattle.qs_graph.specs.Kept.{IsKept};

    ghost view = { λ g. record { nodes = g.nodes; arcs = g.edges.items } };

    ghost invariant = { λ g. IsKept (record { nodes = g.nodes; arcs = g.edges.items }) g.entry g.exit };
}

impl Graph {
    /// The number of nodes. Takes no memory.
    pub fn nodes(&self) -> u32
        ensures { result ≡ self.now.nodes }
    {
        self.nodes
    }

    /// The arcs in their order. Takes no memory.
    pub fn edges(&self) -> &[Edge]
        ensures value { result.now ≡ self.now.arcs }
        ensures valid { IsValid self.now }
        ensures few { length result.now < arc_bound }
    {
        &self.edges
    }

    /// The node without an arc into it. Takes no memory.
    pub fn entry(&self) -> u32
        ensures { IsEntry self.now result }
    {
        self.entry
    }

    /// The node without an arc out of it. Takes no memory.
    pub fn exit(&self) -> u32
        ensures { IsExit self.now result }
    {
        self.exit
    }

    /// The graph with the nodes 1 to `nodes` and these arcs, which have to make a valid graph of fewer than
    /// 4,294,967,295 arcs with this entry and this exit. Takes no memory.
    pub fn of_valid(alloc: Global, nodes: u32, entry: u32, exit: u32, edges: Vec<Edge>) -> Graph
        requires { IsKept (record { nodes = nodes; arcs = edges.items }) entry exit }
        ensures { result ≡ record { nodes = nodes; arcs = edges.items } }
    {
        Graph {
            alloc,
            nodes,
            entry,
            exit,
            edges,
        }
    }

    /// The chain of the trees from the node `from` to the node `to`, which are 1 and 2 in either order, with inner
    /// nodes from 3 on. There are 1 to 65,536 trees.
    pub fn line(alloc: Global, from: u32, to: u32, trees: Vec<Tree>) -> Result<Graph, AllocError>
        requires ends { from + to ≡ 3 }
        requires from_in { 0 < from }
        requires to_in { 0 < to }
        requires some { 0 < length trees.items }
        requires few { length trees.items ≤ most_read_arcs }
        ensures { IfOk result (λ g. g ≡ line_graph from trees.items to) }
    {
        let len = trees.len();
        let mut edges = Vec::with_capacity(alloc, len)?;
        let mut at = from;
        let mut next = 3;
        for tree in trees {
            let end = if edges.len() + 1 == len { to } else { next };
            edges.push(Edge::new(alloc, at, end, tree)?)?;
            at = end;
            next += 1;
        }
        Ok(Graph {
            alloc,
            nodes: len as u32 + 1,
            entry: from,
            exit: to,
            edges,
        })
    }

    /// An equal graph, whose arcs own the same trees. No tree is copied.
    pub fn copy(&self) -> Result<Graph, AllocError>
        ensures { IfOk result (λ g. g ≡ self.now) }
    {
        let edges = copies_of(self.alloc, &self.edges)?;
        Ok(Graph {
            alloc: self.alloc,
            nodes: self.nodes,
            entry: self.entry,
            exit: self.exit,
            edges,
        })
    }
}

// Equal arcs.
fn copies_of(alloc: Global, edges: &[Edge]) -> Result<Vec<Edge>, AllocError>
    ensures { IfOk result (λ v. v.items ≡ edges.now) }
{
    let mut copies = Vec::with_capacity(alloc, edges.len())?;
    for edge in edges {
        copies.push(edge.copy()?)?;
    }
    Ok(copies)
}
