//! Which recorded firings come next: those of whose paths all arcs have passed.

ghost use Rattle.std.specs.Prelude.{◌≡◌, ◌<◌, ◌≤◌, ◌^◌, ℕ, List, [], length, map, slice_index, IfOk, OnOk};
ghost use Rattle.qs_tree.specs.Lists.{◌∈◌};
ghost use Rattle.qs_graph.specs.working.Orders.{times};
ghost use Rattle.qs_canon.specs.working.CanonCounts.{paths_of, users_at, AreUsers, uses, AreCountedDown};
ghost use Rattle.qs_canon.specs.working.CanonNumbers.{IsEntered};

use qs_core::Fired;
use qs_firing::Firing;
use std::alloc::{AllocError, Global};

/// The firing that is done.
pub fn firing_of(done: &Fired) -> &Firing
    ensures { result.now ≡ done.now.firing }
{
    &done.firing
}

// The path of a firing that is done.
fn path_of(done: &Fired) -> &[u32]
    ensures { result.now ≡ done.now.firing.path }
{
    let firing: &Firing = &done.firing;
    &firing.path
}

/// How many arcs the path of each firing has.
pub fn lengths_of(alloc: Global, fired: &[Fired]) -> Result<Vec<usize>, AllocError>
    ensures { IfOk result (λ v. v.items ≡ map (λ path. length path) (paths_of fired.now)) }
{
    let mut lengths = Vec::with_capacity(alloc, fired.len())?;
    for done in fired {
        lengths.push(path_of(done).len())?;
    }
    Ok(lengths)
}

// Enters the firing of this number at each arc of its path.
fn add_user(users: &mut [Vec<u32>], path: &[u32], number: u32) -> Result<(), AllocError>
    requires { (k : ℕ) → k ∈ path.now → k < length users.old }
    ensures { OnOk result (IsEntered number path.now users.old users.new) }
{
    for arc in path {
        users[*arc as usize].push(number)?;
    }
    Ok(())
}

// So many empty lists.
fn empty_lists(alloc: Global, len: u32) -> Result<Vec<Vec<u32>>, AllocError>
    ensures len { IfOk result (λ v. length v.items ≡ len) }
    ensures empty { IfOk result (λ v. (k : ℕ) → users_at v.items k ≡ []) }
{
    let mut lists = Vec::with_capacity(alloc, len as usize)?;
    for _ in 0..len {
        lists.push(Vec::new(alloc))?;
    }
    Ok(lists)
}

/// For each of so many arcs the numbers of the firings in whose paths it is, as often as it is there.
pub fn users_of(alloc: Global, arcs: u32, fired: &[Fired]) -> Result<Vec<Vec<u32>>, AllocError>
    requires few { length fired.now < 2 ^ 32 }
    requires arcs { (path : List ℕ) → path ∈ paths_of fired.now → (k : ℕ) → k ∈ path → k < arcs }
    ensures len { IfOk result (λ v. length v.items ≡ arcs) }
    ensures users { IfOk result (λ v. AreUsers (paths_of fired.now) v.items) }
{
    let mut users = empty_lists(alloc, arcs)?;
    for (number, done) in fired.iter().enumerate() {
        add_user(&mut users, path_of(done), number as u32)?;
    }
    Ok(users)
}

// One arc passes, which is in the paths of these firings. Those of whose paths all arcs have passed now are ready.
fn count_down(missing: &mut [usize], users: &[u32], ready: &mut Vec<u32>) -> Result<(), AllocError>
    requires { (i : ℕ) → times i users.now ≤ slice_index missing.old i }
    ensures { OnOk result (AreCountedDown missing.old users.now missing.new ready.old.items ready.new.items) }
{
    for user in users {
        let left = missing[*user as usize] - 1;
        missing[*user as usize] = left;
        if left == 0 {
            ready.push(*user)?;
        }
    }
    Ok(())
}

/// These arcs pass. The firings of whose paths all arcs have passed now, which before they hadn't, each once.
pub fn pass(
    alloc: Global,
    users: &[Vec<u32>],
    missing: &mut [usize],
    arcs: &[u32],
) -> Result<Vec<u32>, AllocError>
    requires arcs { (k : ℕ) → k ∈ arcs.now → k < length users.now }
    requires enough { (i : ℕ) → times i (uses users.now arcs.now) ≤ slice_index missing.old i }
    ensures { IfOk result (λ ready. AreCountedDown missing.old (uses users.now arcs.now) missing.new [] ready.items) }
{
    let mut ready = Vec::new(alloc);
    for arc in arcs {
        count_down(missing, &users[*arc as usize], &mut ready)?;
    }
    Ok(ready)
}
