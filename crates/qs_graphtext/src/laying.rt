//! Arcs of chains.

ghost use Rattle.std.specs.Prelude.{◌≡◌, ◌≤◌, ◌<◌, ◌+◌, [], OnOk, IfOk, length, nat_le};
ghost use Rattle.std.specs.List.{filter};
ghost use Rattle.std.specs.List.Sorted.{IsStrictlyIncreasing};
ghost use Rattle.qs_tree.specs.Lists.{◌∈◌};
ghost use Rattle.qs_graph.specs.Limits.{arc_bound};
ghost use Rattle.qs_graph.specs.Chains.{with_chain};
ghost use Rattle.qs_graphtext.specs.WrittenChains.{WrittenChain};
ghost use Rattle.qs_graphtext.specs.GraphOfChains.{IsWhole, trees_in, with_chains};

use crate::chain::Chain;
use crate::nodes::dense;
use qs_graph::Edge;
use qs_tree::Tree;
use std::alloc::{AllocError, Global};

/// A number of nodes, and arcs between them.
#[derive(Drop)]
pub struct Laid {
    pub nodes: u32,
    pub edges: Vec<Edge>,
}

// The chains between nodes with these numbers, ascending.
pub fn lay(alloc: Global, nodes: &[u32], chains: Vec<Chain>) -> Result<Laid, AllocError>
    requires rises { IsStrictlyIncreasing nodes.now }
    requires whole { (chain : WrittenChain) → chain ∈ chains.items → IsWhole chain }
    requires few { length nodes.now + length (trees_in chains.items) < arc_bound }
    ensures { IfOk result (λ l. record { nodes = l.nodes; arcs = l.edges.items }
        ≡ with_chains (λ n. length (filter (λ m. nat_le m n) nodes.now))
        (record { nodes = length nodes.now; arcs = [] })
        chains.items) }
{
    let mut laid = Laid {
        nodes: nodes.len() as u32,
        edges: Vec::new(alloc),
    };
    for chain in chains {
        let from = dense(nodes, chain.from);
        let to = dense(nodes, chain.to);
        laid.add(alloc, from, to, chain.trees)?;
    }
    Ok(laid)
}

impl Laid {
    // Adds a chain of the trees, through new nodes.
    fn add(&mut self, alloc: Global, from: u32, to: u32, trees: Vec<Tree>) -> Result<(), AllocError>
        requires some { 0 < length trees.items }
        requires few { self.old.nodes + length trees.items < arc_bound }
        ensures { OnOk result (record { nodes = self.new.nodes; arcs = self.new.edges.items }
            ≡ with_chain (record { nodes = self.old.nodes; arcs = self.old.edges.items }) from trees.items to) }
    {
        let mut left = trees.len();
        let inner = left as u32 - 1;
        let mut next = self.nodes + 1;
        let mut at = from;
        for tree in trees {
            left -= 1;
            let end = if left == 0 { to } else { next };
            self.edges.push(Edge::new(alloc, at, end, tree)?)?;
            at = end;
            next += 1;
        }
        self.nodes += inner;
        Ok(())
    }
}
