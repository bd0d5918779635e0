//! Accepted rules, and the first cause why a rule isn't accepted.

ghost use Rattle.std.specs.Prelude.{◌≡◌, IfOk, IfErr, MatchOption};
ghost use Rattle.qs_pattern.specs.Rules.{IsAcceptable, IsAccepted, marked};
ghost use Rattle.qs_check.specs.Causes.{IsFirstCause};
ghost use Rattle.qs_check.specs.Checking.{CanBeChecked, EndsWith};

use crate::causes::{first_of_33rd, first_unbound, root_of_17th};
use crate::cells::{cells_of, cells_of_rule};
use qs_lex::Cause;
use qs_pattern::{Rule, written_variables};
use qs_ruletext::RawRule;
use std::alloc::{AllocError, AllocFailed, Global};

// The most labels and variables of a rule.
const MOST_CELLS: usize = 256;

/// Why `check` gives no rule.
#[derive(Clone, Copy, Debug, PartialEq, Eq)]
pub enum CheckEnd {
    /// The rule isn't accepted: the first cause that applies, and the byte of the label or variable at which it does.
    Refused { cause: Cause, at: u32 },
    /// There was no memory. It may come for any rule, accepted or not.
    Memory,
}

impl From<AllocError> for CheckEnd {
    ghost use Rattle.std.specs.Prelude.{◌≡◌};
    ghost use Rattle.qs_check.specs.declared.checking.CheckEnd.TheVariants.{Memory};

    ghost from_gives = { λ _ e. e ≡ Memory };

    fn from(_: AllocError) -> CheckEnd {
        CheckEnd::Memory
    }
}

impl<T: Drop> From<AllocFailed<T>> for CheckEnd {
    ghost use Rattle.std.specs.Prelude.{◌≡◌};
    ghost use Rattle.qs_check.specs.declared.checking.CheckEnd.TheVariants.{Memory};

    ghost from_gives = { λ _ e. e ≡ Memory };

    fn from(_: AllocFailed<T>) -> CheckEnd {
        CheckEnd::Memory
    }
}

// The first cause why the rule isn't accepted, and the number of its cell. None where the rule is accepted.
fn first_cause(alloc: Global, raw: &RawRule) -> Result<Option<(Cause, usize)>, AllocError>
    requires { CanBeChecked raw.now }
    ensures { IfOk result (λ o. MatchOption o (IsAcceptable raw.now.rule) (λ p. IsFirstCause raw.now.rule p.0 p.1)) }
{
    if let Some(place) = root_of_17th(alloc, &raw.left)? {
        return Ok(Some((Cause::SideTooLong, place)));
    }
    if let Some(place) = root_of_17th(alloc, &raw.right)? {
        let left = cells_of(alloc, &raw.left)?;
        return Ok(Some((Cause::SideTooLong, left.len() + place)));
    }
    let cells = cells_of_rule(alloc, raw)?;
    if cells.len() > MOST_CELLS {
        return Ok(Some((Cause::TooManyCells, MOST_CELLS)));
    }
    if let Some(place) = first_of_33rd(alloc, &cells)? {
        return Ok(Some((Cause::TooManyVariables, place)));
    }
    let bound = written_variables(alloc, &raw.left)?;
    match first_unbound(&cells, &bound) {
        Some(place) => Ok(Some((Cause::Unbound, place))),
        None => Ok(None),
    }
}

/// The rule that was read, where it is accepted; else the first cause why it isn't, and the byte at which that cause
/// applies: `SideTooLong` at the root of a side's 17th tree, the left side first; `TooManyCells` at the 257th label or
/// variable; `TooManyVariables` where the 33rd different variable occurs first; `Unbound` at the first variable that
/// isn't in the left side. The rule has the mark `unique`. One that isn't accepted is dropped.
pub fn check(alloc: Global, raw: RawRule, unique: bool) -> Result<Rule, CheckEnd>
    requires { CanBeChecked raw }
    ensures rule { IfOk result (λ rule. rule ≡ marked unique raw.rule) }
    ensures accepted { IfOk result IsAccepted }
    ensures refused { IfErr result (EndsWith raw) }
{
    if let Some((cause, place)) = first_cause(alloc, &raw)? {
        return Err(CheckEnd::Refused {
            cause,
            at: raw.at[place],
        });
    }
    let RawRule {
        left,
        right,
        cond,
        ..
    } = raw;
    Ok(Rule::new(alloc, left, right, cond, unique))
}
