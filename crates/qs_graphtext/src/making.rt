//! The graph of written chains.

ghost use Rattle.std.specs.Prelude.{◌≡◌, ◌≤◌, ◌<◌, Some, IfOk, IfErr, IfSome, IfNone, length, slice_get};
ghost use Rattle.qs_tree.specs.Lists.{◌∈◌};
ghost use Rattle.qs_graph.specs.Graphs.{IsValid};
ghost use Rattle.qs_graph.specs.Limits.{most_read_arcs};
ghost use Rattle.qs_graphtext.specs.WrittenChains.{WrittenChain};
ghost use Rattle.qs_graphtext.specs.GraphOfChains.{IsWhole, trees_in, places_in, graph_of, AreFew, AreRefused};

use crate::chain::Chain;
use crate::chain_end::ChainEnd;
use crate::laying::lay;
use crate::nodes::nodes_of;
use qs_graph::Graph;
use std::alloc::{AllocError, Global};

/// The most arcs of a graph that is read.
const MOST_ARCS: usize = 65_536;

/// The graph of the chains. There is at least one chain, and each has at least one tree and a place for each tree.
/// Written numbers of nodes are made dense from 1 in ascending order, the inner nodes of chains follow in the order of
/// the text, and arcs are in the order of the text. `TooManyArcs` comes exactly where there are more than 65,536 trees,
/// with the byte at which the 65,537th begins; else `Cycle`, `Entries` and `Exits`, as for `Graph::new`, exactly where
/// the graph would have a cycle, not one entry, or not one exit; `Memory` may come for any chains.
pub fn graph_of(alloc: Global, chains: Vec<Chain>) -> Result<Graph, ChainEnd>
    requires some { 0 < length chains.items }
    requires whole { (chain : WrittenChain) → chain ∈ chains.items → IsWhole chain }
    ensures graph { IfOk result (λ g. g ≡ graph_of chains.items) }
    ensures valid { IfOk result IsValid }
    ensures few { IfOk result (λ _. AreFew chains.items) }
    ensures refused { IfErr result (AreRefused chains.items) }
{
    if let Some(at) = first_too_many(&chains) {
        return Err(ChainEnd::TooManyArcs { at });
    }
    let nodes = nodes_of(alloc, &chains)?;
    let laid = lay(alloc, &nodes, chains)?;
    let graph = Graph::new(alloc, laid.nodes, laid.edges)?;
    Ok(graph)
}

// The place of the first tree of the chains that is too many, if there is one.
fn first_too_many(chains: &[Chain]) -> Option<u32>
    requires { (chain : WrittenChain) → chain ∈ chains.now → IsWhole chain }
    ensures some { IfSome result (λ at. (most_read_arcs < length (trees_in chains.now))
        × (slice_get (places_in chains.now) most_read_arcs ≡ Some at)) }
    ensures none { IfNone result (AreFew chains.now) }
{
    let mut room = MOST_ARCS;
    for chain in chains {
        let trees = chain.trees.len();
        if trees > room {
            return Some(chain.at[room]);
        }
        room -= trees;
    }
    None
}
