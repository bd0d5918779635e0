//! Conditions, read from tokens.

ghost use Rattle.std.specs.Prelude.{◌≡◌, ◌^◌, ◌+◌, ◌<◌, IfOk, IfErr, length};
ghost use Rattle.qs_lex.specs.Grammar.{part};
ghost use Rattle.qs_pattern.specs.Conditions.{condition_of};
ghost use Rattle.qs_pattern.specs.working.Conditions.{conditions};
ghost use Rattle.qs_reader.specs.Names.{KeepsNames};
ghost use Rattle.qs_reader.specs.Readers.{rest_of};
ghost use Rattle.qs_ruletext.specs.Grammar.{cond, conj, neg, prim};
ghost use Rattle.qs_ruletext.specs.Reading.{any_of, all_of};
ghost use Rattle.qs_ruletext.specs.working.Readers.{a_comparison, IsRead, Ends, ACond, AConj, ANeg, APrim};

use crate::sides::list;
use qs_lex::{Kind, Word};
use qs_pattern::Cond;
use qs_reader::{Reader, TextEnd};
use qs_tree::Names;
use std::alloc::AllocError;

/// The first condition, or where there are more, that some of all of them holds.
fn first_or_any(first: Cond, more: Vec<Cond>) -> Result<Cond, AllocError>
    ensures { IfOk result (λ c. condition_of c ≡ any_of (condition_of first) (conditions more.items)) }
{
    let mut members = more;
    if members.is_empty() {
        return Ok(first);
    }
    members.insert(0, first)?;
    Ok(Cond::Any(members))
}

/// The first condition, or where there are more, that each of them holds.
fn first_or_all(first: Cond, more: Vec<Cond>) -> Result<Cond, AllocError>
    ensures { IfOk result (λ c. condition_of c ≡ all_of (condition_of first) (conditions more.items)) }
{
    let mut members = more;
    if members.is_empty() {
        return Ok(first);
    }
    members.insert(0, first)?;
    Ok(Cond::All(members))
}

/// Two lists, compared.
fn comparison(reader: &mut Reader<'_>, names: &mut Names) -> Result<Cond, TextEnd>
    requires room { length names.old + length (rest_of reader.old) < 2 ^ 32 }
    ensures keeps { KeepsNames names.old names.new }
    ensures read { IfOk result
        (λ found. IsRead a_comparison (APrim (condition_of found)) reader.old reader.new names.old names.new) }
    ensures ends { IfErr result (Ends a_comparison reader.old) }
{
    let a = list(reader, names)?;
    if reader.pass(Kind::Word(Word::Dans)) {
        let b = list(reader, names)?;
        return Ok(Cond::Within { a, b });
    }
    if reader.pass(Kind::Word(Word::Hors)) {
        let b = list(reader, names)?;
        return Ok(Cond::Outside { a, b });
    }
    reader.expect(Kind::Word(Word::Egal))?;
    let b = list(reader, names)?;
    Ok(Cond::Same { a, b })
}

/// A condition in parentheses, or two lists compared.
#[cycle(conditions)]
fn primary(reader: &mut Reader<'_>, names: &mut Names) -> Result<Cond, TextEnd>
    requires room { length names.old + length (rest_of reader.old) < 2 ^ 32 }
    ensures keeps { KeepsNames names.old names.new }
    ensures read { IfOk result
        (λ found. IsRead (part prim) (APrim (condition_of found)) reader.old reader.new names.old names.new) }
    ensures ends { IfErr result (Ends (part prim) reader.old) }
{
    if !reader.pass(Kind::Opening) {
        return comparison(reader, names);
    }
    let member = condition(reader, names)?;
    reader.expect(Kind::Closing)?;
    Ok(member)
}

/// What may be negated.
#[cycle(conditions)]
fn negation(reader: &mut Reader<'_>, names: &mut Names) -> Result<Cond, TextEnd>
    requires room { length names.old + length (rest_of reader.old) < 2 ^ 32 }
    ensures keeps { KeepsNames names.old names.new }
    ensures read { IfOk result
        (λ found. IsRead (part neg) (ANeg (condition_of found)) reader.old reader.new names.old names.new) }
    ensures ends { IfErr result (Ends (part neg) reader.old) }
{
    if !reader.pass(Kind::Word(Word::Non)) {
        return primary(reader, names);
    }
    let member = primary(reader, names)?;
    Ok(Cond::Not(Box::new(reader.alloc(), member)?))
}

/// Conditions all of which hold.
#[cycle(conditions)]
fn conjunction(reader: &mut Reader<'_>, names: &mut Names) -> Result<Cond, TextEnd>
    requires room { length names.old + length (rest_of reader.old) < 2 ^ 32 }
    ensures keeps { KeepsNames names.old names.new }
    ensures read { IfOk result
        (λ found. IsRead (part conj) (AConj (condition_of found)) reader.old reader.new names.old names.new) }
    ensures ends { IfErr result (Ends (part conj) reader.old) }
{
    let first = negation(reader, names)?;
    let mut more = Vec::new(reader.alloc());
    while reader.pass(Kind::Word(Word::Et)) {
        let next = negation(reader, names)?;
        more.push(next)?;
    }
    Ok(first_or_all(first, more)?)
}

/// Conditions some of which holds.
#[cycle(conditions)]
pub fn condition(reader: &mut Reader<'_>, names: &mut Names) -> Result<Cond, TextEnd>
    requires room { length names.old + length (rest_of reader.old) < 2 ^ 32 }
    ensures keeps { KeepsNames names.old names.new }
    ensures read { IfOk result
        (λ found. IsRead (part cond) (ACond (condition_of found)) reader.old reader.new names.old names.new) }
    ensures ends { IfErr result (Ends (part cond) reader.old) }
{
    let first = conjunction(reader, names)?;
    let mut more = Vec::new(reader.alloc());
    while reader.pass(Kind::Word(Word::Ou)) {
        let next = conjunction(reader, names)?;
        more.push(next)?;
    }
    Ok(first_or_any(first, more)?)
}
