//! The arcs that leave each node, from the least number up.

ghost use Rattle.std.specs.Prelude.{IfOk};
ghost use Rattle.qs_graph.specs.Graphs.{IsValid};
ghost use Rattle.qs_phrase.specs.working.Leaving.{IsIndex};

use qs_graph::Graph;
use std::alloc::{AllocError, Global};

/// For each node the least number of an arc that leaves it, and for each arc the least greater number of an arc that
/// leaves the same node.
#[derive(Drop)]
pub struct Leaving {
    pub first: Vec<Option<u32>>,
    pub next: Vec<Option<u32>>,
}

/// The arcs that leave each node of the graph. Time and memory are linear in the nodes and the arcs.
pub fn leaving_of(alloc: Global, g: &Graph) -> Result<Leaving, AllocError>
    ensures index { IfOk result (λ found. IsIndex g.now 0 found.first.items found.next.items) }
    ensures valid { IfOk result (λ _. IsValid g.now) }
{
    let edges = g.edges();
    let mut first = vec![in alloc; None; g.nodes() as usize + 1]?;
    let mut next = vec![in alloc; None; edges.len()]?;
    let mut arc = edges.len();
    while arc > 0 {
        arc -= 1;
        let edge = &edges[arc];
        next[arc] = first[edge.from as usize];
        first[edge.from as usize] = Some(arc as u32);
    }
    Ok(Leaving { first, next })
}
