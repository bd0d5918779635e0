//! Taking nodes one by one, each when all arcs into it come from nodes that were taken before.

ghost use Rattle.std.specs.Prelude.{◌≡◌, ◌<◌, ◌≤◌, ◌+◌, ◌^◌, ℕ, true, false, List, [], IfOk, OnOk, length, map};
ghost use Rattle.std.specs.Prelude.{slice_index_or};
ghost use Rattle.qs_tree.specs.Lists.{◌∈◌};
ghost use Rattle.qs_graph.specs.Graphs.{Arc};
ghost use Rattle.qs_graph.specs.Limits.{arc_bound};
ghost use Rattle.qs_graph.specs.Validity.{LeadsInside, HasCycle};
ghost use Rattle.qs_graph.specs.working.Orders.{times, targets_from, IsLowered};

use crate::edge::Edge;
use crate::ends::{tally, targets_of, uncounted};
use std::alloc::{AllocError, Global};

// Whether the nodes have an order in which every arc leads forward. That is where there is no cycle.
pub fn has_order(alloc: Global, nodes: u32, edges: &[Edge]) -> Result<bool, AllocError>
    requires few { length edges.now < arc_bound }
    requires inside { LeadsInside (record { nodes = nodes; arcs = edges.now }) }
    ensures yes { IfOk result (λ has. has ≡ true → HasCycle edges.now → ⊥) }
    ensures no { IfOk result (λ has. has ≡ false → HasCycle edges.now) }
{
    let targets = targets_of(alloc, edges)?;
    let mut counts = tally(alloc, nodes, &targets)?;
    let groups = grouped(alloc, nodes, edges)?;
    let mut order = uncounted(alloc, &counts)?;
    for taken in 0..nodes as usize {
        if taken == order.len() {
            return Ok(false);
        }
        let node = order[taken] as usize;
        lower(&mut counts, &mut order, &groups[node])?;
    }
    Ok(true)
}

// Lowers the count of each target by one. A target whose count comes to 0 goes behind the order.
fn lower(counts: &mut [u32], order: &mut Vec<u32>, targets: &[u32]) -> Result<(), AllocError>
    requires { (n : ℕ) → times n targets.now ≤ slice_index_or counts.old n 0 }
    ensures { OnOk result (IsLowered targets.now counts.old counts.new order.old.items order.new.items) }
{
    for target in targets {
        let left = counts[*target as usize] - 1;
        counts[*target as usize] = left;
        if left == 0 {
            order.push(*target)?;
        }
    }
    Ok(())
}

// For each node up to `nodes`, the nodes to which arcs lead from it, one for each arc.
fn grouped(alloc: Global, nodes: u32, edges: &[Edge]) -> Result<Vec<Vec<u32>>, AllocError>
    requires { (arc : Arc) → arc ∈ edges.now → arc.from ≤ nodes }
    ensures len { IfOk result (λ v. length v.items ≡ nodes + 1) }
    ensures groups { IfOk result (λ v. (n : ℕ)
        → slice_index_or (map (λ group. group.items) v.items) n [] ≡ targets_from edges.now n) }
{
    let mut groups = empty_groups(alloc, nodes)?;
    for edge in edges {
        groups[edge.from as usize].push(edge.to)?;
    }
    Ok(groups)
}

// For each node up to `nodes`, an empty list.
fn empty_groups(alloc: Global, nodes: u32) -> Result<Vec<Vec<u32>>, AllocError>
    ensures len { IfOk result (λ v. length v.items ≡ nodes + 1) }
    ensures groups { IfOk result (λ v. (n : ℕ) → slice_index_or (map (λ group. group.items) v.items) n [] ≡ []) }
{
    let mut groups = Vec::with_capacity(alloc, nodes as usize + 1)?;
    for node in 0..nodes as usize + 1 {
        groups.push(Vec::new(alloc))?;
    }
    Ok(groups)
}
