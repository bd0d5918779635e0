//! The cells of patterns, conditions and rules, in the order of the text.

ghost use Rattle.std.specs.Prelude.{◌≡◌, ◌++◌, option_map, IfOk, OnOk};
ghost use Rattle.qs_pattern.specs.Patterns.{patterns};
ghost use Rattle.qs_pattern.specs.working.Patterns.{one_pattern};
ghost use Rattle.qs_pattern.specs.Conditions.{condition_of};
ghost use Rattle.qs_check.specs.Cells.{written, written_condition, written_if_given, written_rule};

use qs_pattern::{Cond, Head, Pattern};
use qs_ruletext::RawRule;
use std::alloc::{AllocError, Global};

// Appends the cells of the pattern.
fn add_pattern(pattern: &Pattern, out: &mut Vec<Head>) -> Result<(), AllocError>
    ensures { OnOk result (out.new.items ≡ out.old.items ++ written (one_pattern pattern.now)) }
{
    match pattern {
        Pattern::Node { head, kids } => {
            out.push(*head)?;
            for kid in kids {
                add_pattern(kid, out)?;
            }
        }
        Pattern::Tree(var) => out.push(Head::Var(*var))?,
        Pattern::Forest(var) => out.push(Head::Var(*var))?,
    }
    Ok(())
}

// Appends the cells of the patterns.
fn add_patterns(list: &[Pattern], out: &mut Vec<Head>) -> Result<(), AllocError>
    ensures { OnOk result (out.new.items ≡ out.old.items ++ written (patterns list.now)) }
{
    for pattern in list {
        add_pattern(pattern, out)?;
    }
    Ok(())
}

// Appends the cells of the condition.
fn add_condition(condition: &Cond, out: &mut Vec<Head>) -> Result<(), AllocError>
    ensures { OnOk result (out.new.items ≡ out.old.items ++ written_condition (condition_of condition.now)) }
{
    match condition {
        Cond::Within { a, b } | Cond::Outside { a, b } | Cond::Same { a, b } => {
            add_patterns(a, out)?;
            add_patterns(b, out)?;
        }
        Cond::Not(member) => add_condition(member, out)?,
        Cond::All(members) | Cond::Any(members) => {
            for member in members {
                add_condition(member, out)?;
            }
        }
    }
    Ok(())
}

/// The cells of the patterns.
pub fn cells_of(alloc: Global, list: &[Pattern]) -> Result<Vec<Head>, AllocError>
    ensures { IfOk result (λ v. v.items ≡ written (patterns list.now)) }
{
    let mut out = Vec::new(alloc);
    add_patterns(list, &mut out)?;
    Ok(out)
}

/// The cells of the rule.
pub fn cells_of_rule(alloc: Global, raw: &RawRule) -> Result<Vec<Head>, AllocError>
    ensures { IfOk result (λ v. v.items ≡ written_rule raw.now.rule) }
{
    let mut out = cells_of(alloc, &raw.left)?;
    add_patterns(&raw.right, &mut out)?;
    if let Some(condition) = &raw.cond {
        add_condition(condition, &mut out)?;
    }
    Ok(out)
}
