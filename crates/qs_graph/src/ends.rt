//! The nodes at which no arc ends, or from which none begins.

ghost use Rattle.std.specs.Prelude.{◌≡◌, ◌≢◌, ◌↔◌, ◌<◌, ◌≤◌, ◌+◌, ◌^◌, ◌∷◌, [], ℕ, IfOk, IfSome, IfNone, length, map};
ghost use Rattle.std.specs.Prelude.{slice_index_or};
ghost use Rattle.qs_tree.specs.Lists.{◌∈◌};
ghost use Rattle.qs_graph.specs.Graphs.{IsEntry, IsExit};
ghost use Rattle.qs_graph.specs.Limits.{arc_bound};
ghost use Rattle.qs_graph.specs.Validity.{LeadsInside};
ghost use Rattle.qs_graph.specs.working.Orders.{times, AreApart, IsOutside, IsOnly};

use crate::edge::Edge;
use std::alloc::{AllocError, Global};

// The entry, if there is exactly one.
pub fn only_entry(alloc: Global, nodes: u32, edges: &[Edge]) -> Result<Option<u32>, AllocError>
    requires few { length edges.now < arc_bound }
    requires inside { LeadsInside (record { nodes = nodes; arcs = edges.now }) }
    ensures { IfOk result (IsOnly (IsEntry (record { nodes = nodes; arcs = edges.now }))) }
{
    let targets = targets_of(alloc, edges)?;
    only_node_without(alloc, nodes, &targets)
}

// The exit, if there is exactly one.
pub fn only_exit(alloc: Global, nodes: u32, edges: &[Edge]) -> Result<Option<u32>, AllocError>
    requires few { length edges.now < arc_bound }
    requires inside { LeadsInside (record { nodes = nodes; arcs = edges.now }) }
    ensures { IfOk result (IsOnly (IsExit (record { nodes = nodes; arcs = edges.now }))) }
{
    let sources = sources_of(alloc, edges)?;
    only_node_without(alloc, nodes, &sources)
}

// The nodes at which the arcs end.
pub fn targets_of(alloc: Global, edges: &[Edge]) -> Result<Vec<u32>, AllocError>
    ensures { IfOk result (λ v. v.items ≡ map (λ arc. arc.to) edges.now) }
{
    edges.iter().map(|edge| edge.to).collect(alloc)
}

// The nodes from which the arcs begin.
fn sources_of(alloc: Global, edges: &[Edge]) -> Result<Vec<u32>, AllocError>
    ensures { IfOk result (λ v. v.items ≡ map (λ arc. arc.from) edges.now) }
{
    edges.iter().map(|edge| edge.from).collect(alloc)
}

// The nodes up to `nodes` that are not in the list, if that is one node.
fn only_node_without(alloc: Global, nodes: u32, ends: &[u32]) -> Result<Option<u32>, AllocError>
    requires within { (n : ℕ) → n ∈ ends.now → n ≤ nodes }
    requires few { length ends.now < 2 ^ 32 }
    ensures { IfOk result (IsOnly (IsOutside nodes ends.now)) }
{
    let counts = tally(alloc, nodes, ends)?;
    let numbers = uncounted(alloc, &counts)?;
    Ok(only(&numbers))
}

// For each number from 0 to `nodes`, how often it is in the list.
pub fn tally(alloc: Global, nodes: u32, ends: &[u32]) -> Result<Vec<u32>, AllocError>
    requires within { (n : ℕ) → n ∈ ends.now → n ≤ nodes }
    requires few { length ends.now < 2 ^ 32 }
    ensures len { IfOk result (λ v. length v.items ≡ nodes + 1) }
    ensures counts { IfOk result (λ v. (n : ℕ) → slice_index_or v.items n 0 ≡ times n ends.now) }
{
    let mut counts = vec![in alloc; 0; nodes as usize + 1]?;
    for end in ends {
        counts[*end as usize] += 1;
    }
    Ok(counts)
}

// The numbers from 1 on whose count is 0, ascending.
pub fn uncounted(alloc: Global, counts: &[u32]) -> Result<Vec<u32>, AllocError>
    requires some { 0 < length counts.now }
    requires few { length counts.now ≤ 2 ^ 32 }
    ensures apart { IfOk result (λ v. AreApart v.items) }
    ensures are { IfOk result (λ v. (n : ℕ)
        → n ∈ v.items ↔ ((1 ≤ n) × (n < length counts.now) × (slice_index_or counts.now n 0 ≡ 0))) }
{
    let mut numbers = Vec::new(alloc);
    for number in 1..counts.len() {
        if counts[number] == 0 {
            numbers.push(number as u32)?;
        }
    }
    Ok(numbers)
}

// The node of a list of one node.
fn only(nodes: &[u32]) -> Option<u32>
    ensures some { IfSome result (λ n. nodes.now ≡ n ∷ []) }
    ensures none { IfNone result (length nodes.now ≢ 1) }
{
    match nodes {
        [node] => Some(*node),
        _ => None,
    }
}
