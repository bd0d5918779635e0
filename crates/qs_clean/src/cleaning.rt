//! Cleaning.

ghost use Rattle.std.specs.Prelude.{◌≡◌, ◌≤◌, ◌↔◌, ℕ, IfOk, length, slice_index_or, true, false};
ghost use Rattle.qs_clean.specs.Cleaning.{IsLeft, IsClosureOfValid, Stays};
ghost use Rattle.qs_clean.specs.working.Steps.{AreMarks};

use crate::arcs::{denoted_arcs, free_links, in_both, kept_arcs, left_arcs, numbered};
use crate::links::{all_turned, reached};
use qs_canon::Closure;
use qs_graph::Graph;
use std::alloc::{AllocError, Global};

// The arcs that are denoted, the nodes that undenoted arcs reach from the entry,
// and those from which they reach the exit.
#[derive(Drop)]
struct Marks {
    denoted: Vec<bool>,
    from_entry: Vec<bool>,
    to_exit: Vec<bool>,
}

/// What cleaning leaves of a closure over a valid graph, with its nodes numbered from 1 in ascending order. None
/// exactly where it leaves no arc. Time and memory are linear in the arcs, the nodes and the firings.
pub fn clean(alloc: Global, closure: &Closure) -> Result<Option<Graph>, AllocError>
    requires { IsClosureOfValid closure.now }
    ensures { IfOk result (IsLeft closure.now.stage) }
{
    let marks = marks_of(alloc, closure)?;
    let kept = kept_arcs(
        alloc,
        &closure.edges,
        &marks.denoted,
        &marks.from_entry,
        &marks.to_exit,
    )?;
    let left = in_both(alloc, &marks.from_entry, &marks.to_exit)?;
    let numbers = numbered(alloc, &left)?;
    let edges = left_arcs(alloc, &closure.edges, &kept, &numbers.of)?;
    if edges.is_empty() {
        return Ok(None);
    }
    let entry = numbers.of[closure.entry as usize];
    let exit = numbers.of[closure.exit as usize];
    Ok(Some(Graph::of_valid(alloc, numbers.count, entry, exit, edges)))
}

/// For each arc of a closure over a valid graph, whether cleaning keeps it. Time and memory are linear in the arcs, the
/// nodes and the firings.
pub fn kept(alloc: Global, closure: &Closure) -> Result<Vec<bool>, AllocError>
    requires { IsClosureOfValid closure.now }
    ensures len { IfOk result (λ kept. length kept.items ≡ length closure.now.stage.graph.arcs) }
    ensures stay { IfOk result (λ kept. (k : ℕ)
        → (slice_index_or kept.items k false ≡ true) ↔ Stays closure.now.stage k) }
{
    let marks = marks_of(alloc, closure)?;
    kept_arcs(
        alloc,
        &closure.edges,
        &marks.denoted,
        &marks.from_entry,
        &marks.to_exit,
    )
}

// The marks of a closure.
fn marks_of(alloc: Global, closure: &Closure) -> Result<Marks, AllocError>
    requires { IsClosureOfValid closure.now }
    ensures marks { IfOk result (λ m. AreMarks closure.now.stage closure.now.entry closure.now.exit m.denoted.items
        m.from_entry.items m.to_exit.items) }
    ensures few { IfOk result (λ m. length m.from_entry.items ≤ 4294967296) }
{
    let denoted = denoted_arcs(alloc, &closure.firings, closure.edges.len())?;
    let links = free_links(alloc, &closure.edges, &denoted)?;
    let from_entry = reached(alloc, closure.nodes, &links, closure.entry)?;
    let back = all_turned(alloc, &links)?;
    let to_exit = reached(alloc, closure.nodes, &back, closure.exit)?;
    Ok(Marks {
        denoted,
        from_entry,
        to_exit,
    })
}
