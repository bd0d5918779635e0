//! Graphs made of arcs.

ghost use Rattle.std.specs.Prelude.{◌≡◌, ◌<◌, IfOk, IfErr, length};
ghost use Rattle.qs_tree.specs.Lists.{◌∈◌};
ghost use Rattle.qs_graph.specs.Graphs.{IsValid};
ghost use Rattle.qs_graph.specs.Limits.{arc_bound};
ghost use Rattle.qs_graph.specs.Validity.{LeadsInside, IsRefused};

use crate::edge::Edge;
use crate::ends::{only_entry, only_exit};
use crate::graph::Graph;
use crate::order::has_order;
use std::alloc::{AllocError, AllocFailed, Global};

/// Why a list of arcs makes no graph.
#[derive(Clone, Copy, Debug, PartialEq, Eq)]
pub enum GraphEnd {
    /// Some path comes back to the node from which it starts.
    Cycle,
    /// There is no cycle, but not exactly one node has no arc into it.
    Entries,
    /// There is no cycle and one entry, but not exactly one node has no arc out of it.
    Exits,
    /// There was no memory. It may come for any arcs.
    Memory,
}

impl From<AllocError> for GraphEnd {
    ghost use Rattle.std.specs.Prelude.{◌≡◌};
    ghost use Rattle.qs_graph.specs.declared.making.GraphEnd.TheVariants.{Memory};

    ghost from_gives = { λ _ e. e ≡ Memory };

    fn from(_: AllocError) -> GraphEnd {
        GraphEnd::Memory
    }
}

impl Graph {
    /// The graph with the nodes 1 to `nodes` and these arcs in this order. There is at least one arc, there are fewer
    /// than 4,294,967,295, and each leads from node to node. `Cycle` comes exactly where there is a cycle; else
    /// `Entries` exactly where the number of nodes without an arc into them is not one; else `Exits` exactly where the
    /// number of nodes without an arc out of them is not one; `Memory` may come for any arcs. Time and memory are
    /// linear in the nodes and the arcs. A list that is refused is dropped.
    pub fn new(alloc: Global, nodes: u32, edges: Vec<Edge>) -> Result<Graph, GraphEnd>
        requires some { 0 < length edges.items }
        requires few { length edges.items < arc_bound }
        requires inside { LeadsInside (record { nodes = nodes; arcs = edges.items }) }
        ensures graph { IfOk result (λ g. g ≡ record { nodes = nodes; arcs = edges.items }) }
        ensures valid { IfOk result IsValid }
        ensures refused { IfErr result (IsRefused (record { nodes = nodes; arcs = edges.items })) }
    {
        if !has_order(alloc, nodes, &edges)? {
            return Err(GraphEnd::Cycle);
        }
        let Some(entry) = only_entry(alloc, nodes, &edges)? else {
            return Err(GraphEnd::Entries);
        };
        let Some(exit) = only_exit(alloc, nodes, &edges)? else {
            return Err(GraphEnd::Exits);
        };
        Ok(Graph::of_valid(alloc, nodes, entry, exit, edges))
    }
}
