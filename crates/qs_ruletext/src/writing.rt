//! Rules as they are written, in UTF-8: the canonical spelling. (This project.)

ghost use Rattle.std.specs.Prelude.{◌≡◌, ◌<◌, ◌++◌, length, take, option_map, OnOk, OnErr};
ghost use Rattle.qs_pattern.specs.Patterns.{patterns, count};
ghost use Rattle.qs_pattern.specs.working.Patterns.{one_pattern};
ghost use Rattle.qs_pattern.specs.Conditions.{condition_of};
ghost use Rattle.qs_pattern.specs.Named.{IsHeadNamed, ArePatternsNamed, IsConditionNamed, IsNamedIfGiven};
ghost use Rattle.qs_ruletext.specs.Texts.{variable_text, head_text, pattern_texts, joined, side_text, list_text};
ghost use Rattle.qs_ruletext.specs.Texts.{tightness, member_text, condition_text, condition_part, rule_text};
ghost use Rattle.qs_ruletext.specs.working.Texts.{pattern_text, word_of};

use qs_pattern::{Cond, Head, Pattern, Var};
use qs_tree::{Names, write_label};
use std::alloc::{AllocError as Memory, Global};

// Appends the variable. After an error, a part of it may stand in `out`.
fn append_variable(alloc: Global, var: Var, out: &mut Vec<u8>) -> Result<(), Memory>
    ensures ok { OnOk result (out.new.items ≡ out.old.items ++ variable_text var) }
    ensures err { OnErr result (take (length out.old.items) out.new.items ≡ out.old.items) }
{
    out.push(var.letter)?;
    out.push(b'*')?;
    if var.number > 0 {
        out.extend_from_slice(var.number.to_string(alloc)?.as_bytes())?;
    }
    Ok(())
}

// Appends the label or variable at the root of a node.
fn append_head(alloc: Global, names: &Names, head: Head, out: &mut Vec<u8>) -> Result<(), Memory>
    requires { IsHeadNamed (length names.now) head }
    ensures ok { OnOk result (out.new.items ≡ out.old.items ++ head_text names.now head) }
    ensures err { OnErr result (take (length out.old.items) out.new.items ≡ out.old.items) }
{
    match head {
        Head::Label(label) => write_label(names, label, out),
        Head::Var(var) => append_variable(alloc, var, out),
    }
}

// Appends the pattern.
fn append_pattern(
    alloc: Global,
    names: &Names,
    pattern: &Pattern,
    out: &mut Vec<u8>,
) -> Result<(), Memory>
    requires { ArePatternsNamed (length names.now) (one_pattern pattern.now) }
    ensures ok { OnOk result (out.new.items ≡ out.old.items ++ pattern_text names.now pattern.now) }
    ensures err { OnErr result (take (length out.old.items) out.new.items ≡ out.old.items) }
{
    let (head, kids) = match pattern {
        Pattern::Node { head, kids } => (head, kids),
        Pattern::Tree(var) | Pattern::Forest(var) => return append_variable(alloc, *var, out),
    };
    append_head(alloc, names, *head, out)?;
    let mut before = b'(';
    for kid in kids {
        out.push(before)?;
        append_pattern(alloc, names, kid, out)?;
        before = b',';
    }
    if !kids.is_empty() {
        out.push(b')')?;
    }
    Ok(())
}

// Appends the patterns, with `between` between two of them.
fn append_patterns(
    alloc: Global,
    names: &Names,
    list: &[Pattern],
    between: &[u8],
    out: &mut Vec<u8>,
) -> Result<(), Memory>
    requires { ArePatternsNamed (length names.now) (patterns list.now) }
    ensures ok { OnOk result (out.new.items
        ≡ out.old.items ++ joined between.now (pattern_texts names.now (patterns list.now))) }
    ensures err { OnErr result (take (length out.old.items) out.new.items ≡ out.old.items) }
{
    let [first, rest @ ..] = list else {
        return Ok(());
    };
    append_pattern(alloc, names, first, out)?;
    for pattern in rest {
        out.extend_from_slice(between)?;
        append_pattern(alloc, names, pattern, out)?;
    }
    Ok(())
}

// How tightly a condition holds its members together.
fn tightness(condition: &Cond) -> u8
    ensures { result ≡ tightness (condition_of condition.now) }
{
    match condition {
        Cond::Within { .. } | Cond::Outside { .. } | Cond::Same { .. } => 4,
        Cond::Not(_) => 3,
        Cond::All(_) => 2,
        Cond::Any(_) => 1,
    }
}

// The word of a condition, as it stands between the lists or the members, or before the one member.
fn word(condition: &Cond) -> &'static [u8]
    ensures { result.now ≡ word_of (condition_of condition.now) }
{
    match condition {
        Cond::Within { .. } => b" -DANS- ",
        Cond::Outside { .. } => b" -HORS- ",
        Cond::Same { .. } => b" -EGAL- ",
        Cond::Not(_) => b"-NON- ",
        Cond::All(_) => b" -ET- ",
        Cond::Any(_) => b" -OU- ",
    }
}

// Appends the condition.
#[cycle(conditions)]
fn append_condition(
    alloc: Global,
    names: &Names,
    condition: &Cond,
    out: &mut Vec<u8>,
) -> Result<(), Memory>
    requires { IsConditionNamed (length names.now) (condition_of condition.now) }
    ensures ok { OnOk result (out.new.items ≡ out.old.items ++ condition_text names.now (condition_of condition.now)) }
    ensures err { OnErr result (take (length out.old.items) out.new.items ≡ out.old.items) }
{
    let outer = tightness(condition);
    let word = word(condition);
    match condition {
        Cond::Within { a, b } | Cond::Outside { a, b } | Cond::Same { a, b } => {
            append_patterns(alloc, names, a, b",", out)?;
            out.extend_from_slice(word)?;
            append_patterns(alloc, names, b, b",", out)
        }
        Cond::Not(member) => {
            out.extend_from_slice(word)?;
            append_member(alloc, names, outer, member, out)
        }
        Cond::All(members) | Cond::Any(members) => {
            let mut before: &[u8] = b"";
            for member in members {
                out.extend_from_slice(before)?;
                append_member(alloc, names, outer, member, out)?;
                before = word;
            }
            Ok(())
        }
    }
}

// Appends the condition as a member of one of this tightness.
#[cycle(conditions)]
fn append_member(
    alloc: Global,
    names: &Names,
    outer: u8,
    member: &Cond,
    out: &mut Vec<u8>,
) -> Result<(), Memory>
    requires { IsConditionNamed (length names.now) (condition_of member.now) }
    ensures ok { OnOk result (out.new.items ≡ out.old.items
        ++ member_text outer (condition_of member.now) (condition_text names.now (condition_of member.now))) }
    ensures err { OnErr result (take (length out.old.items) out.new.items ≡ out.old.items) }
{
    if tightness(member) > outer {
        return append_condition(alloc, names, member, out);
    }
    out.push(b'(')?;
    append_condition(alloc, names, member, out)?;
    out.push(b')')?;
    Ok(())
}

// Appends the rule.
fn append_rule(
    alloc: Global,
    left: &[Pattern],
    right: &[Pattern],
    condition: Option<&Cond>,
    names: &Names,
    out: &mut Vec<u8>,
) -> Result<(), Memory>
    requires left { ArePatternsNamed (length names.now) (patterns left.now) }
    requires right { ArePatternsNamed (length names.now) (patterns right.now) }
    requires condition { IsNamedIfGiven (length names.now) (option_map (λ c. condition_of c.now) condition) }
    ensures ok { OnOk result (out.new.items ≡ out.old.items ++ rule_text names.now (patterns left.now)
        (patterns right.now) (option_map (λ c. condition_of c.now) condition.entry)) }
    ensures err { OnErr result (take (length out.old.items) out.new.items ≡ out.old.items) }
{
    append_patterns(alloc, names, left, b" + ", out)?;
    out.extend_from_slice(b" == ")?;
    append_patterns(alloc, names, right, b" + ", out)?;
    if let Some(condition) = condition {
        out.extend_from_slice(b" / ")?;
        append_condition(alloc, names, condition, out)?;
    }
    out.push(b'.')?;
    Ok(())
}

/// Appends the rule in canonical spelling, as `A(U*,V*) == B / -NON- U* -DANS- V*.` Both sides have a pattern. After
/// `Memory`, `out` is as before.
pub fn write_rule(
    alloc: Global,
    left: &[Pattern],
    right: &[Pattern],
    condition: Option<&Cond>,
    names: &Names,
    out: &mut Vec<u8>,
) -> Result<(), Memory>
    requires some_left { 0 < count (patterns left.now) }
    requires some_right { 0 < count (patterns right.now) }
    requires left { ArePatternsNamed (length names.now) (patterns left.now) }
    requires right { ArePatternsNamed (length names.now) (patterns right.now) }
    requires condition { IsNamedIfGiven (length names.now) (option_map (λ c. condition_of c.now) condition) }
    ensures ok { OnOk result (out.new.items ≡ out.old.items ++ rule_text names.now (patterns left.now)
        (patterns right.now) (option_map (λ c. condition_of c.now) condition.entry)) }
    ensures err { OnErr result (out.new.items ≡ out.old.items) }
{
    let before = out.len();
    let written = append_rule(alloc, left, right, condition, names, out);
    if written.is_err() {
        out.truncate(before);
    }
    written
}
