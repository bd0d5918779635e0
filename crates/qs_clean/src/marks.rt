//! Marks of arcs.

ghost use Rattle.std.specs.Prelude.{◌≡◌, ◌↔◌, ◌⊎◌, ◌<◌, ◌^◌, ℕ, length};
ghost use Rattle.qs_tree.specs.Lists.{◌∈◌};
ghost use Rattle.qs_clean.specs.Marks.{IsMarked};

use qs_firing::Firing;

/// Marks the arcs of a firing's path, in a list that has a place for each of them.
pub fn mark_path(marks: &mut [bool], firing: &Firing)
    requires { (k : ℕ) → k ∈ firing.now.path → k < length marks.old }
    ensures { (k : ℕ) → IsMarked marks.new k ↔ (IsMarked marks.old k ⊎ (k ∈ firing.now.path)) }
{
    let path = firing.path.as_slice();
    for arc in path {
        marks[*arc as usize] = true;
    }
}
