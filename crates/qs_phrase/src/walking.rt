//! From one reading to the next.
//!
//! Each arc of a valid graph lies on a path from the entry to the exit. So from each node the least arcs lead to the
//! exit, and no path is begun that has to be given up.

ghost use Rattle.std.specs.Prelude.{◌≡◌, ℕ, true, false, IfOk, OnOk};
ghost use Rattle.qs_graph.specs.Graphs.{Leads, IsEntry};
ghost use Rattle.qs_phrase.specs.Readings.{IsReading};
ghost use Rattle.qs_phrase.specs.working.Leaving.{IsIndex};
ghost use Rattle.qs_phrase.specs.working.Walking.{GoesOn, IsNext, IsLast};

use crate::leaving::Leaving;
use qs_graph::Graph;
use std::alloc::AllocError;

/// Goes on from the node at which the path ends, by the least arc each time, to the exit.
pub fn go_on(g: &Graph, leaving: &Leaving, from: u32, path: &mut Vec<u32>) -> Result<(), AllocError>
    requires index { IsIndex g.now 0 leaving.now.first.items leaving.now.next.items }
    requires path { (a : ℕ) × IsEntry g.now a × Leads g.now.arcs a path.old.items from }
    ensures { OnOk result (GoesOn g.now from path.old.items path.new.items) }
{
    let edges = g.edges();
    let mut at = from;
    while let Some(arc) = leaving.first[at as usize] {
        path.push(arc)?;
        let edge = &edges[arc as usize];
        at = edge.to;
    }
    Ok(())
}

/// Goes over to the next reading in dictionary order, if there is one, and tells whether there is. It changes the last
/// arc of the path that can be changed for a greater one, and goes on from there.
pub fn go_over(g: &Graph, leaving: &Leaving, path: &mut Vec<u32>) -> Result<bool, AllocError>
    requires index { IsIndex g.now 0 leaving.now.first.items leaving.now.next.items }
    requires reading { IsReading g.now path.old.items }
    ensures next { IfOk result (λ went. went ≡ true → IsNext g.now path.old.items path.new.items) }
    ensures last { IfOk result (λ went. went ≡ false → IsLast g.now path.old.items) }
{
    let edges = g.edges();
    while let Some(arc) = path.pop() {
        if let Some(other) = leaving.next[arc as usize] {
            path.push(other)?;
            let edge = &edges[other as usize];
            go_on(g, leaving, edge.to, path)?;
            return Ok(true);
        }
    }
    Ok(false)
}
