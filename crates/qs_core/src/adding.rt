//! What firings add to a graph.

ghost use Rattle.std.specs.Prelude.{◌≡◌, ◌<◌, ◌≤◌, ◌+◌, ◌-◌, ◌^◌, ℕ, if◌then◌else◌, List, length, map, None, IfOk};
ghost use Rattle.std.specs.Arc.{arc_value};
ghost use Rattle.qs_pattern.specs.Rules.{Rule, all_unique};
ghost use Rattle.qs_graph.specs.Graphs.{IsPath};
ghost use Rattle.qs_firing.specs.Adding.{standing, start_of, end_of, built};
ghost use Rattle.qs_core.specs.working.Additions.{IsAddition};

use crate::arcs::{Arcs, chain_of};
use qs_firing::Made;
use qs_graph::Edge;
use qs_tree::Tree;
use std::alloc::{AllocError, Global};
use std::sync::Arc;

// The node at which a path starts.
fn path_start(arcs: &Arcs, path: &[u32]) -> u32
    requires { (a : ℕ) × (b : ℕ) × IsPath arcs.now.arcs a path.now b }
    ensures { result ≡ start_of arcs.now.arcs path.now }
{
    arcs.edge(path[0]).from
}

// The node at which a path ends.
fn path_end(arcs: &Arcs, path: &[u32]) -> u32
    requires { (a : ℕ) × (b : ℕ) × IsPath arcs.now.arcs a path.now b }
    ensures { result ≡ end_of arcs.now.arcs path.now }
{
    arcs.edge(path[path.len() - 1]).to
}

// The arc that is met: where the rules are all unique, the one that stands already for one tree between these nodes.
fn met(unique: bool, arcs: &Arcs, from: u32, trees: &[Arc<Tree>], to: u32) -> Option<u32>
    ensures { result
        ≡ (if unique then standing arcs.now.arcs from (map (λ t. arc_value t) trees.now) to else None) }
{
    if !unique {
        return None;
    }
    match trees {
        [tree] => arcs.least(from, to, tree.view()),
        _ => None,
    }
}

/// What a firing adds: so many nodes, and these arcs; or nothing, where it meets an arc. The first arc is that of its
/// result.
#[derive(Drop)]
pub struct Addition {
    pub first: u32,
    pub met: bool,
    pub nodes: u32,
    pub edges: Vec<Edge>,
}

/// What a firing, of which the trees that it builds are given, adds to a graph. `unique` says whether the rules are all
/// unique.
pub fn added_by(
    alloc: Global,
    unique: bool,
    arcs: &Arcs,
    made: &Made,
) -> Result<Addition, AllocError>
    requires path { (a : ℕ) × (b : ℕ) × IsPath arcs.now.arcs a made.now.firing.path b }
    requires some { 0 < length made.now.trees }
    requires nodes { arcs.now.nodes + length made.now.trees < 2 ^ 32 }
    ensures { IfOk result (λ a. (R : List Rule) → unique ≡ all_unique R → made.now.trees ≡ built R made.now.firing
        → IsAddition R arcs.now made.now.firing a.first a.met a.nodes a.edges.items) }
{
    let from = path_start(arcs, &made.firing.path);
    let to = path_end(arcs, &made.firing.path);
    if let Some(first) = met(unique, arcs, from, &made.trees, to) {
        return Ok(Addition {
            first,
            met: true,
            nodes: 0,
            edges: Vec::new(alloc),
        });
    }
    let edges = chain_of(alloc, from, &made.trees, arcs.nodes(), to)?;
    Ok(Addition {
        first: arcs.len(),
        met: false,
        nodes: made.trees.len() as u32 - 1,
        edges,
    })
}
