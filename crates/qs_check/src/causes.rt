//! The cells at which rules aren't accepted.

ghost use Rattle.std.specs.Prelude.{◌≡◌, ◌≤◌, length, IfOk, MatchOption};
ghost use Rattle.qs_tree.specs.Lists.{◌∈◌};
ghost use Rattle.qs_pattern.specs.Limits.{most_patterns, most_variables};
ghost use Rattle.qs_pattern.specs.Variables.{firsts};
ghost use Rattle.qs_pattern.specs.Patterns.{patterns, count, head_variables};
ghost use Rattle.qs_check.specs.Cells.{variables_among};
ghost use Rattle.qs_check.specs.Causes.{Has17th, Has33rd, HasUnbound};

use crate::cells::cells_of;
use qs_pattern::{Head, Pattern, Var};
use std::alloc::{AllocError, Global};

// The most trees of a side.
const MOST_PATTERNS: usize = 16;

// The most different variables of a rule.
const MOST_VARIABLES: usize = 32;

/// The number, among the side's cells, of the root of its 17th tree. None where there are at most 16 trees.
pub fn root_of_17th(alloc: Global, side: &[Pattern]) -> Result<Option<usize>, AllocError>
    ensures { IfOk result
        (λ o. MatchOption o (count (patterns side.now) ≤ most_patterns) (λ place. Has17th (patterns side.now) place)) }
{
    if side.len() <= MOST_PATTERNS {
        return Ok(None);
    }
    let before = cells_of(alloc, &side[..MOST_PATTERNS])?;
    Ok(Some(before.len()))
}

// The variable that the cell is, where it is one that isn't among the known ones.
fn new_variable(cell: Head, known: &[Var]) -> Option<Var>
    ensures { MatchOption result ((v : Var) → v ∈ head_variables cell → v ∈ known.now) (λ v. (cell ≡ Head.Var v)
        × (v ∈ known.now → ⊥)) }
{
    match cell {
        Head::Label(_) => None,
        Head::Var(var) => {
            if known.contains(&var) {
                None
            } else {
                Some(var)
            }
        }
    }
}

/// The number of the cell at which the 33rd different variable occurs first. None where there are at most 32.
pub fn first_of_33rd(alloc: Global, cells: &[Head]) -> Result<Option<usize>, AllocError>
    ensures { IfOk result (λ o. MatchOption o (length (firsts (variables_among cells.now)) ≤ most_variables)
        (λ place. Has33rd cells.now place)) }
{
    let mut seen = Vec::new(alloc);
    for (place, cell) in cells.iter().enumerate() {
        let Some(var) = new_variable(*cell, &seen) else {
            continue;
        };
        if seen.len() == MOST_VARIABLES {
            return Ok(Some(place));
        }
        seen.push(var)?;
    }
    Ok(None)
}

/// The number of the first cell that is a variable other than these. None where there is none.
pub fn first_unbound(cells: &[Head], bound: &[Var]) -> Option<usize>
    ensures { MatchOption result ((v : Var) → v ∈ variables_among cells.now → v ∈ bound.now)
        (λ place. HasUnbound cells.now bound.now place) }
{
    for (place, cell) in cells.iter().enumerate() {
        if let Some(_) = new_variable(*cell, bound) {
            return Some(place);
        }
    }
    None
}
