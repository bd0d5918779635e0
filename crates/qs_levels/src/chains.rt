//! Chains of places: of each place of a list, the last place before it at which the same number stands.

ghost use Rattle.std.specs.Prelude.{ℕ, ◌≡◌, ◌<◌, IfOk, length};
ghost use Rattle.qs_tree.specs.Lists.{◌∈◌};
ghost use Rattle.qs_levels.specs.working.Steps.{AreChains};

use std::alloc::{AllocError, Global};

/// For a list of numbers: of each number, the last place at which it stands; of each place, the last place before it
/// at which the same number stands.
#[derive(Drop)]
pub struct Chains {
    pub last: Vec<Option<usize>>,
    pub before: Vec<Option<usize>>,
}

// The chains of a list of numbers below a limit.
pub fn chains_of(alloc: Global, limit: usize, numbers: &[usize]) -> Result<Chains, AllocError>
    requires { (n : ℕ) → n ∈ numbers.now → n < limit }
    ensures { IfOk result (λ chains. AreChains limit numbers.now chains.last.items chains.before.items) }
{
    let mut last = vec![in alloc; None; limit]?;
    let mut before = Vec::with_capacity(alloc, numbers.len())?;
    for (place, number) in numbers.iter().enumerate() {
        before.push(last[*number])?;
        last[*number] = Some(place);
    }
    Ok(Chains { last, before })
}
