//! Copies of patterns and of conditions.

ghost use Rattle.std.specs.Prelude.{◌≡◌, option_map, IfOk};
ghost use Rattle.qs_pattern.specs.Patterns.{patterns};
ghost use Rattle.qs_pattern.specs.working.Patterns.{one_pattern};
ghost use Rattle.qs_pattern.specs.Conditions.{condition_of};
ghost use Rattle.qs_pattern.specs.working.Conditions.{conditions};

use crate::condition::Cond;
use crate::pattern::Pattern;
use std::alloc::{AllocError, Global};

/// A pattern that is equal to this one.
pub fn copy_of(alloc: Global, pattern: &Pattern) -> Result<Pattern, AllocError>
    ensures { IfOk result (λ p. one_pattern p ≡ one_pattern pattern.now) }
{
    match pattern {
        Pattern::Node { head, kids } => {
            let mut copies = Vec::with_capacity(alloc, kids.len())?;
            for kid in kids {
                copies.push(copy_of(alloc, kid)?)?;
            }
            Ok(Pattern::Node {
                head: *head,
                kids: copies,
            })
        }
        Pattern::Tree(var) => Ok(Pattern::Tree(*var)),
        Pattern::Forest(var) => Ok(Pattern::Forest(*var)),
    }
}

/// Equal patterns.
pub fn copies_of(alloc: Global, list: &[Pattern]) -> Result<Vec<Pattern>, AllocError>
    ensures { IfOk result (λ v. patterns v.items ≡ patterns list.now) }
{
    let mut copies = Vec::with_capacity(alloc, list.len())?;
    for pattern in list {
        copies.push(copy_of(alloc, pattern)?)?;
    }
    Ok(copies)
}

/// A condition that is equal to this one.
#[cycle(copy_condition)]
pub fn copy_of_condition(alloc: Global, condition: &Cond) -> Result<Cond, AllocError>
    ensures { IfOk result (λ c. condition_of c ≡ condition_of condition.now) }
{
    match condition {
        Cond::Within { a, b } => Ok(Cond::Within {
            a: copies_of(alloc, a)?,
            b: copies_of(alloc, b)?,
        }),
        Cond::Outside { a, b } => Ok(Cond::Outside {
            a: copies_of(alloc, a)?,
            b: copies_of(alloc, b)?,
        }),
        Cond::Same { a, b } => Ok(Cond::Same {
            a: copies_of(alloc, a)?,
            b: copies_of(alloc, b)?,
        }),
        Cond::Not(member) => {
            let copy = copy_of_condition(alloc, member)?;
            Ok(Cond::Not(Box::new(alloc, copy)?))
        }
        Cond::All(members) => Ok(Cond::All(copies_of_conditions(alloc, members)?)),
        Cond::Any(members) => Ok(Cond::Any(copies_of_conditions(alloc, members)?)),
    }
}

// Equal conditions.
#[cycle(copy_condition)]
fn copies_of_conditions(alloc: Global, list: &[Cond]) -> Result<Vec<Cond>, AllocError>
    ensures { IfOk result (λ v. conditions v.items ≡ conditions list.now) }
{
    let mut copies = Vec::with_capacity(alloc, list.len())?;
    for condition in list {
        copies.push(copy_of_condition(alloc, condition)?)?;
    }
    Ok(copies)
}

/// An equal condition, or none where there is none.
pub fn copy_if_given(alloc: Global, condition: &Option<Cond>) -> Result<Option<Cond>, AllocError>
    ensures { IfOk result (λ c. option_map condition_of c ≡ option_map condition_of condition.now) }
{
    match condition {
        Some(condition) => Ok(Some(copy_of_condition(alloc, condition)?)),
        None => Ok(None),
    }
}
