//! The steps of cleaning over the arcs of a closure.

ghost use Rattle.std.specs.Prelude.{◌≡◌, ◌↔◌, ◌⊎◌, ◌<◌, ◌^◌, ℕ, IfOk, length};
ghost use Rattle.qs_tree.specs.Lists.{◌∈◌};
ghost use Rattle.qs_graph.specs.Graphs.{Arc};
ghost use Rattle.qs_canon.specs.Rounds.{Done};
ghost use Rattle.qs_clean.specs.Marks.{IsMarked};
ghost use Rattle.qs_clean.specs.working.Steps.{IsUsed, each_pair, free_link, keeps_mark, both, marked, numbering};
ghost use Rattle.qs_clean.specs.working.Steps.{if_kept};

use crate::links::Link;
use crate::marks::mark_path;
use qs_canon::Placed;
use qs_graph::Edge;
use std::alloc::{AllocError, Global};

/// The new numbers of nodes, and how many nodes have one.
#[derive(Drop)]
pub struct Numbers {
    pub of: Vec<u32>,
    pub count: u32,
}

// For each arc, whether the path of a firing uses it.
pub fn denoted_arcs(alloc: Global, firings: &[Placed], arcs: usize) -> Result<Vec<bool>, AllocError>
    requires { (done : Done) → done ∈ firings.now → (k : ℕ) → k ∈ done.firing.path → k < arcs }
    ensures len { IfOk result (λ v. length v.items ≡ arcs) }
    ensures marks { IfOk result (λ v. (k : ℕ) → IsMarked v.items k ↔ IsUsed firings.now k) }
{
    let mut marks = vec![in alloc; false; arcs]?;
    for placed in firings {
        mark_path(&mut marks, &placed.firing);
    }
    Ok(marks)
}

// The links of the arcs that are not denoted.
pub fn free_links(alloc: Global, edges: &[Edge], denoted: &[bool]) -> Result<Vec<Link>, AllocError>
    requires { length denoted.now ≡ length edges.now }
    ensures { IfOk result (λ v. v.items ≡ each_pair free_link edges.now denoted.now) }
{
    let mut links = Vec::new(alloc);
    for (k, edge) in edges.iter().enumerate() {
        if !denoted[k] {
            links.push(Link {
                from: edge.from,
                to: edge.to,
            })?;
        }
    }
    Ok(links)
}

// For each arc, whether it is kept.
pub fn kept_arcs(
    alloc: Global,
    edges: &[Edge],
    denoted: &[bool],
    from_entry: &[bool],
    to_exit: &[bool],
) -> Result<Vec<bool>, AllocError>
    requires len { length denoted.now ≡ length edges.now }
    requires from_in { (arc : Arc) → arc ∈ edges.now → arc.from < length from_entry.now }
    requires to_in { (arc : Arc) → arc ∈ edges.now → arc.to < length to_exit.now }
    ensures { IfOk result (λ v. v.items ≡ each_pair (keeps_mark from_entry.now to_exit.now) edges.now denoted.now) }
{
    let mut marks = Vec::with_capacity(alloc, edges.len())?;
    for (k, edge) in edges.iter().enumerate() {
        let keep = !denoted[k] && from_entry[edge.from as usize] && to_exit[edge.to as usize];
        marks.push(keep)?;
    }
    Ok(marks)
}

// The marks that stand in both lists.
pub fn in_both(alloc: Global, first: &[bool], second: &[bool]) -> Result<Vec<bool>, AllocError>
    requires { length second.now ≡ length first.now }
    ensures { IfOk result (λ v. v.items ≡ each_pair both first.now second.now) }
{
    let mut marks = Vec::with_capacity(alloc, first.len())?;
    for (n, mark) in first.iter().enumerate() {
        let stands = *mark && second[n];
        marks.push(stands)?;
    }
    Ok(marks)
}

// Numbers the marked places from 1.
pub fn numbered(alloc: Global, marks: &[bool]) -> Result<Numbers, AllocError>
    requires { marked marks.now < 2 ^ 32 }
    ensures of { IfOk result (λ n. n.of.items ≡ numbering 0 marks.now) }
    ensures count { IfOk result (λ n. n.count ≡ marked marks.now) }
{
    let mut of = Vec::with_capacity(alloc, marks.len())?;
    let mut count = 0;
    for mark in marks {
        if *mark {
            count += 1;
            of.push(count)?;
        } else {
            of.push(0)?;
        }
    }
    Ok(Numbers { of, count })
}

// The arcs that are kept, with the new numbers of their ends.
pub fn left_arcs(
    alloc: Global,
    edges: &[Edge],
    kept: &[bool],
    numbers: &[u32],
) -> Result<Vec<Edge>, AllocError>
    requires len { length kept.now ≡ length edges.now }
    requires from_in { (arc : Arc) → arc ∈ edges.now → arc.from < length numbers.now }
    requires to_in { (arc : Arc) → arc ∈ edges.now → arc.to < length numbers.now }
    ensures { IfOk result (λ v. v.items ≡ each_pair (if_kept numbers.now) edges.now kept.now) }
{
    let mut left = Vec::new(alloc);
    for (k, edge) in edges.iter().enumerate() {
        if kept[k] {
            left.push(Edge {
                from: numbers[edge.from as usize],
                to: numbers[edge.to as usize],
                tree: edge.tree.clone()?,
            })?;
        }
    }
    Ok(left)
}
