//! The variables of patterns.

ghost use Rattle.std.specs.Prelude.{◌≡◌, ◌++◌, IfOk, OnOk};
ghost use Rattle.qs_pattern.specs.Patterns.{patterns, variables_in, head_variables};
ghost use Rattle.qs_pattern.specs.Variables.{firsts};
ghost use Rattle.qs_pattern.specs.Instances.{variables};

use crate::pattern::{Head, Pattern};
use crate::variable::Var;
use std::alloc::{AllocError, Global};

// Appends the variable of a head, where it is one.
fn add_head(head: Head, out: &mut Vec<Var>) -> Result<(), AllocError>
    ensures { OnOk result (out.new.items ≡ out.old.items ++ head_variables head) }
{
    match head {
        Head::Label(_) => {}
        Head::Var(var) => out.push(var)?,
    }
    Ok(())
}

// Appends the variables of the patterns in the order in which they are written, with repetitions.
fn add_variables(side: &[Pattern], out: &mut Vec<Var>) -> Result<(), AllocError>
    ensures { OnOk result (out.new.items ≡ out.old.items ++ variables_in (patterns side.now)) }
{
    match side {
        [] => Ok(()),
        [first, rest @ ..] => match first {
            Pattern::Node { head, kids } => {
                add_head(*head, out)?;
                add_variables(kids, out)?;
                add_variables(rest, out)
            }
            Pattern::Tree(var) => {
                out.push(*var)?;
                add_variables(rest, out)
            }
            Pattern::Forest(var) => {
                out.push(*var)?;
                add_variables(rest, out)
            }
        },
    }
}

/// The variables that are written in the patterns, in order, with repetitions.
pub fn written_variables(alloc: Global, side: &[Pattern]) -> Result<Vec<Var>, AllocError>
    ensures { IfOk result (λ v. v.items ≡ variables_in (patterns side.now)) }
{
    let mut out = Vec::new(alloc);
    add_variables(side, &mut out)?;
    Ok(out)
}

/// Each variable of a list once, where it first occurs.
pub fn first_occurrences(alloc: Global, list: &[Var]) -> Result<Vec<Var>, AllocError>
    ensures { IfOk result (λ v. v.items ≡ firsts list.now) }
{
    let mut seen = Vec::new(alloc);
    for var in list {
        if !seen.contains(var) {
            seen.push(*var)?;
        }
    }
    Ok(seen)
}

/// The variables of the patterns, each once, where it first occurs.
pub fn variables(alloc: Global, side: &[Pattern]) -> Result<Vec<Var>, AllocError>
    ensures { IfOk result (λ v. v.items ≡ variables (patterns side.now)) }
{
    let written = written_variables(alloc, side)?;
    first_occurrences(alloc, &written)
}
