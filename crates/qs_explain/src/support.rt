//! The support of a closure.

ghost use Rattle.std.specs.Prelude.{◌≡◌, ◌≤◌, ◌^◌, ◌↔◌, ℕ, IfOk, length};
ghost use Rattle.qs_clean.specs.Cleaning.{IsClosureOfValid, Stays};
ghost use Rattle.qs_clean.specs.Marks.{IsMarked};
ghost use Rattle.qs_explain.specs.Support.{IsSupport, IsSupportedArc, IsSupportedFiring};

use crate::marks::{mark_firing, places};
use qs_canon::Closure;
use qs_clean::kept;
use std::alloc::{AllocError, Global};
use std::marker::Model;

/// The support of a closure: the numbers of the supported arcs, and the places in the closure's list of the supported
/// firings, from 0. Both ascend.
#[derive(Drop)]
pub struct Support {
    pub arcs: Vec<u32>,
    pub firings: Vec<u32>,
}

impl Model for Support {
    ghost use Rattle.qs_explain.specs.Support.{SupportOf};
    ghost use Rattle.qs_explain.specs.working.Codes.{support_code};

    ghost Value = { SupportOf };

    ghost coded = { support_code };

    ghost view = { λ s. record { arcs = s.arcs.items; firings = s.firings.items } };
}

/// The support of a closure over a valid graph with at most 4,294,967,296 firings: the least lists of arcs and firings
/// such that each arc that cleaning keeps is supported, with each firing that added a supported arc, each arc in the
/// path of a supported firing, and each arc that a supported firing added. A firing that met its result added none.
/// Time and memory are linear in the arcs, the nodes and the firings with their paths.
pub fn explain(alloc: Global, closure: &Closure) -> Result<Support, AllocError>
    requires closure { IsClosureOfValid closure.now }
    requires few { length closure.now.stage.done ≤ 2 ^ 32 }
    ensures { IfOk result (IsSupport closure.now.stage) }
{
    let mut arcs = kept(alloc, closure)?;
    let firings = mark_supported(alloc, closure, &mut arcs)?;
    Ok(Support {
        arcs: places(alloc, &arcs)?,
        firings: places(alloc, &firings)?,
    })
}

// Where the arcs that stay are marked, marks all that are supported. Gives the marks of the supported firings. A firing
// is told by the arcs that it added, which later firings alone have in their paths: so it is looked at behind these.
fn mark_supported(
    alloc: Global,
    closure: &Closure,
    arcs: &mut [bool],
) -> Result<Vec<bool>, AllocError>
    requires closure { IsClosureOfValid closure.now }
    requires len { length arcs.old ≡ length closure.now.stage.graph.arcs }
    requires stay { (k : ℕ) → IsMarked arcs.old k ↔ Stays closure.now.stage k }
    ensures len { IfOk result (λ firings. length firings.items ≡ length closure.now.stage.done) }
    ensures arcs { IfOk result (λ firings. (k : ℕ) → IsMarked arcs.new k ↔ IsSupportedArc closure.now.stage k) }
    ensures firings { IfOk result (λ firings. (i : ℕ)
        → IsMarked firings.items i ↔ IsSupportedFiring closure.now.stage i) }
{
    let mut firings = vec![in alloc; false; closure.firings.len()]?;
    let mut behind = closure.edges.len() as u32;
    for place in (0..closure.firings.len()).rev() {
        let placed = &closure.firings[place];
        if placed.met {
            continue;
        }
        firings[place] = mark_firing(arcs, placed, behind);
        behind = placed.first;
    }
    Ok(firings)
}
