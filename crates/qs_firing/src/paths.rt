//! Paths over a view.

ghost use Rattle.std.specs.Prelude.{ℕ, ◌≡◌, ◌↔◌, IsTrue, IfOk, slice_get};
ghost use Rattle.std.specs.Option.{option_copied};
ghost use Rattle.qs_graph.specs.Graphs.{Leads, IsPath, trees_on};

use crate::view::View;
use qs_graph::Edge;
use qs_tree::Forest;
use std::alloc::{AllocError, Global};

// The arc of this number, where there is one.
fn arc_at(view: &View, arc: u32) -> Option<&Edge>
    ensures { option_copied result ≡ slice_get view.now arc }
{
    if arc < view.len() {
        Some(view.edge(arc))
    } else {
        None
    }
}

// Whether these arcs lead on from a node.
fn leads_on(view: &View, from: u32, path: &[u32]) -> bool
    ensures { IsTrue result ↔ ((b : ℕ) × Leads view.now from path.now b) }
{
    let mut at = from;
    for arc in path {
        let Some(edge) = arc_at(view, *arc) else {
            return false;
        };
        if edge.from != at {
            return false;
        }
        at = edge.to;
    }
    true
}

/// Whether these arcs are a path.
pub fn is_path(view: &View, path: &[u32]) -> bool
    ensures { IsTrue result ↔ ((a : ℕ) × (b : ℕ) × IsPath view.now a path.now b) }
{
    let Some(first) = path.first() else {
        return false;
    };
    match arc_at(view, *first) {
        Some(edge) => leads_on(view, edge.from, path),
        None => false,
    }
}

/// The trees on those of these arcs that the view has.
pub fn trees_on(alloc: Global, view: &View, path: &[u32]) -> Result<Forest, AllocError>
    ensures { IfOk result (λ f. f ≡ trees_on view.now path.now) }
{
    let mut trees = Forest::empty(alloc);
    for arc in path {
        if let Some(edge) = arc_at(view, *arc) {
            trees.push(edge.tree.view())?;
        }
    }
    Ok(trees)
}
