//! Rules, read from tokens.

ghost use Rattle.std.specs.Prelude.{◌≡◌, ℕ, ◌^◌, ◌+◌, ◌<◌, ◌≤◌, length, drop, option_map};
ghost use Rattle.std.specs.Prelude.{IfOk, IfErr, IsErr};
ghost use Rattle.std.specs.List.{All};
ghost use Rattle.qs_lex.specs.Tokens.{AreTokensOf};
ghost use Rattle.qs_lex.specs.Nesting.{IsTooDeep};
ghost use Rattle.qs_lex.specs.Grammar.{part, repeated, IsWhole};
ghost use Rattle.qs_pattern.specs.Conditions.{condition_of};
ghost use Rattle.qs_reader.specs.Names.{KeepsNames, NamesGrow};
ghost use Rattle.qs_reader.specs.Readers.{rest_of, between};
ghost use Rattle.qs_ruletext.specs.Grammar.{rule, line};
ghost use Rattle.qs_ruletext.specs.Rules.{ReadsRules, is_cell, cell_bytes, CannotGoOn, NoRuleAt, EndsFrom, IsWellRead};
ghost use Rattle.qs_ruletext.specs.working.Readers.{condition_if_any, IsRead, Ends, ACondIfGiven, AWrittenRule};

use crate::conditions::condition;
use crate::raw::RawRule;
use crate::sides::{is_at_tree, side};
use qs_lex::{Kind, Token};
use qs_pattern::Cond;
use qs_reader::{Reader, TextEnd};
use qs_tree::Names;
use std::alloc::{AllocError, Global};

/// The condition of a rule, if one stands here.
fn condition_if_given(reader: &mut Reader<'_>, names: &mut Names) -> Result<Option<Cond>, TextEnd>
    requires room { length names.old + length (rest_of reader.old) < 2 ^ 32 }
    ensures keeps { KeepsNames names.old names.new }
    ensures read { IfOk result
        (λ found. IsRead condition_if_any (ACondIfGiven (option_map condition_of found)) reader.old reader.new
        names.old names.new) }
    ensures ends { IfErr result (Ends condition_if_any reader.old) }
{
    if !reader.pass(Kind::Slash) {
        return Ok(None);
    }
    let cond = condition(reader, names)?;
    Ok(Some(cond))
}

/// Whether the token is a label or a variable.
fn is_cell(kind: Kind) -> bool
    ensures { result ≡ is_cell kind }
{
    matches!(kind, Kind::Bare | Kind::Quoted | Kind::Variable { .. })
}

/// The bytes at which the cells among the tokens begin.
fn bytes_of_cells(alloc: Global, tokens: &[Token]) -> Result<Vec<u32>, AllocError>
    ensures { IfOk result (λ bytes. bytes.items ≡ cell_bytes tokens.now) }
{
    let mut bytes = Vec::new(alloc);
    for token in tokens {
        if is_cell(token.kind) {
            bytes.push(token.from)?;
        }
    }
    Ok(bytes)
}

/// A rule.
fn rule(reader: &mut Reader<'_>, names: &mut Names) -> Result<RawRule, TextEnd>
    requires room { length names.old + length (rest_of reader.old) < 2 ^ 32 }
    ensures keeps { KeepsNames names.old names.new }
    ensures read { IfOk result
        (λ raw. IsRead (part rule) (AWrittenRule raw) reader.old reader.new names.old names.new) }
    ensures shorter { IfOk result (λ _. length (rest_of reader.new) < length (rest_of reader.old)) }
    ensures ends { IfErr result (Ends (part rule) reader.old) }
{
    let from = reader.place();
    let left = side(reader, names)?;
    reader.expect(Kind::Equals)?;
    let right = side(reader, names)?;
    let cond = condition_if_given(reader, names)?;
    reader.expect(Kind::Stop)?;
    let at = bytes_of_cells(reader.alloc(), reader.since(from))?;
    Ok(RawRule {
        left,
        right,
        cond,
        at,
    })
}

/// The rules that stand in the tokens of the text from this place on, as far as the next token can begin one, and the
/// place behind them.
///
/// `Syntax` comes exactly where a rule that was begun can't go on, with the place of the first token that doesn't fit,
/// or the number of tokens where they end within a rule. `Memory` may come at any time. After every answer `names`
/// keeps its texts and numbers, and may hold further texts: on `Ok` exactly those of the labels that were read and that
/// it didn't hold, each once, in the order of their first occurrence. Every label that was read is below `names.len()`.
pub fn read_rules(
    alloc: Global,
    text: &str,
    tokens: &[Token],
    from: usize,
    names: &mut Names,
) -> Result<(Vec<RawRule>, usize), TextEnd>
    requires of_text { AreTokensOf text.now tokens.now }
    requires shallow { (index : ℕ) → IsTooDeep tokens.now index → ⊥ }
    requires within { from ≤ length tokens.now }
    requires room { length names.old + length tokens.now < 2 ^ 32 }
    ensures keeps { KeepsNames names.old names.new }
    // In these names, and in all that keep them.
    ensures read { IfOk result (λ found. (later : _) → KeepsNames names.new later
        → ReadsRules later text.now (drop from tokens.now) found.0.items (drop found.1 tokens.now)) }
    ensures made { IfOk result (λ found. All (λ raw. IsWellRead (length names.new) raw.rule) found.0.items) }
    ensures whole { IfOk result
        (λ found. IsWhole line (repeated (part rule)) (drop from tokens.now) (drop found.1 tokens.now)) }
    ensures place { IfOk result (λ found. (from ≤ found.1) × (found.1 ≤ length tokens.now)) }
    ensures behind { IfOk result (λ found. NoRuleAt tokens.now found.1) }
    ensures names { IfOk result (λ found. NamesGrow text.now (between tokens.now from found.1) names.old names.new) }
    ensures few { IfOk result (λ found. length names.new + from ≤ length names.old + found.1) }
    ensures ends { IfErr result (EndsFrom tokens.now from) }
    // A rule that was begun and can't go on is refused, and whole rules behind which none begins are read, if memory
    // lasts.
    ensures faulty { (at : ℕ) → CannotGoOn tokens.now from at → IsErr result }
    ensures faultless { (to : ℕ) → IsWhole line (repeated (part rule)) (drop from tokens.now) (drop to tokens.now)
        → NoRuleAt tokens.now to → IfErr result (λ end. end ≡ TextEnd.Memory) }
{
    let mut reader = Reader::new(alloc, text, tokens, from);
    let mut rules = Vec::new(alloc);
    while is_at_tree(&reader) {
        let raw = rule(&mut reader, names)?;
        rules.push(raw)?;
    }
    Ok((rules, reader.place()))
}
