//! The nodes that have written numbers.

ghost use Rattle.std.specs.Prelude.{◌≡◌, ◌↔◌, ◌<◌, ◌≤◌, ◌^◌, ℕ, IfOk, Contains, length, nat_le};
ghost use Rattle.std.specs.List.{filter};
ghost use Rattle.std.specs.List.Sorted.{IsStrictlyIncreasing};
ghost use Rattle.qs_graphtext.specs.GraphOfChains.{numbers_in};

use crate::chain::Chain;
use std::alloc::{AllocError, Global};

// The different numbers that are written, ascending.
pub fn nodes_of(alloc: Global, chains: &[Chain]) -> Result<Vec<u32>, AllocError>
    ensures rises { IfOk result (λ v. IsStrictlyIncreasing v.items) }
    ensures members { IfOk result (λ v. (n : ℕ) → Contains v.items n ↔ Contains (numbers_in chains.now) n) }
    ensures few { IfOk result (λ v. length v.items ≤ length (numbers_in chains.now)) }
{
    let mut nodes = numbers_in(alloc, chains)?;
    nodes.sort_unstable();
    nodes.dedup();
    Ok(nodes)
}

// The numbers of the nodes in the order of the text.
fn numbers_in(alloc: Global, chains: &[Chain]) -> Result<Vec<u32>, AllocError>
    ensures { IfOk result (λ v. v.items ≡ numbers_in chains.now) }
{
    let mut numbers = Vec::new(alloc);
    for chain in chains {
        numbers.push(chain.from)?;
        numbers.push(chain.to)?;
    }
    Ok(numbers)
}

// The new number of a node: how many of the ascending numbers are at most its own.
pub fn dense(nodes: &[u32], written: u32) -> u32
    requires rises { IsStrictlyIncreasing nodes.now }
    requires few { length nodes.now < 2 ^ 32 }
    ensures { result ≡ length (filter (λ m. nat_le m written) nodes.now) }
{
    let is_at_most = |node: &u32| -> bool
        ensures { result ≡ nat_le node.now written }
    { *node <= written };
    nodes.partition_point(is_at_most) as u32
}
