//! Marks of arcs and of firings.

ghost use Rattle.std.specs.Prelude.{◌≡◌, ◌≤◌, ◌<◌, ◌^◌, ◌↔◌, ◌⊎◌, ℕ, IfOk, IsTrue, IsFalse, length};
ghost use Rattle.qs_tree.specs.Lists.{◌∈◌, Ascends};
ghost use Rattle.qs_clean.specs.Marks.{IsMarked};
ghost use Rattle.qs_explain.specs.working.Marks.{IsFrom, HasMarked};

use qs_canon::Placed;
use qs_clean::mark_path;
use std::alloc::{AllocError, Global};

/// The marked places, ascending.
pub fn places(alloc: Global, marks: &[bool]) -> Result<Vec<u32>, AllocError>
    requires { length marks.now ≤ 2 ^ 32 }
    ensures ascend { IfOk result (λ v. Ascends ◌<◌ v.items) }
    ensures are { IfOk result (λ v. (k : ℕ) → k ∈ v.items ↔ IsMarked marks.now k) }
{
    let mut places = Vec::new(alloc);
    for (place, mark) in marks.iter().enumerate() {
        if *mark {
            places.push(place as u32)?;
        }
    }
    Ok(places)
}

// Whether one of the arcs from the one up to the other, and without it, is marked.
fn has_marked(marks: &[bool], from: u32, to: u32) -> bool
    requires { to ≤ length marks.now }
    ensures { IsTrue result ↔ HasMarked marks.now from to }
{
    for arc in from..to {
        if marks[arc as usize] {
            return true;
        }
    }
    false
}

// Marks these arcs.
fn mark_range(marks: &mut [bool], from: u32, to: u32)
    requires { to ≤ length marks.old }
    ensures { (k : ℕ) → IsMarked marks.new k ↔ (IsMarked marks.old k ⊎ IsFrom from to k) }
{
    for arc in from..to {
        marks[arc as usize] = true;
    }
}

/// Whether one of the arcs from a firing's first one up to `behind`, and without it, is marked. Then it marks all of
/// them, and the arcs of the firing's path.
pub fn mark_firing(marks: &mut [bool], placed: &Placed, behind: u32) -> bool
    requires behind { behind ≤ length marks.old }
    requires path { (k : ℕ) → k ∈ placed.now.firing.path → k < length marks.old }
    ensures whether { IsTrue result ↔ HasMarked marks.old placed.now.first behind }
    ensures marked { IsTrue result → (k : ℕ) → IsMarked marks.new k
        ↔ ((IsMarked marks.old k ⊎ IsFrom placed.now.first behind k) ⊎ (k ∈ placed.now.firing.path)) }
    ensures same { IsFalse result → marks.new ≡ marks.old }
{
    let supported = has_marked(marks, placed.first, behind);
    if supported {
        mark_range(marks, placed.first, behind);
        mark_path(marks, &placed.firing);
    }
    supported
}
