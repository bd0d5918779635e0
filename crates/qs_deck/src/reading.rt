//! Decks, read from tokens.

ghost use Rattle.std.specs.Prelude.{◌≡◌, ℕ, ◌*◌, ◌^◌, ◌+◌, ◌<◌, ◌≤◌, IfOk, IfErr, [], length};
ghost use Rattle.qs_lex.specs.Tokens.{AreTokensOf};
ghost use Rattle.qs_lex.specs.Nesting.{IsTooDeep};
ghost use Rattle.qs_lex.specs.Grammar.{part};
ghost use Rattle.qs_reader.specs.Names.{KeepsNames};
ghost use Rattle.qs_reader.specs.Readers.{rest_of};
ghost use Rattle.qs_deck.specs.Grammar.{deck, system, grammars};
ghost use Rattle.qs_deck.specs.working.Versions.{IsReadAs, AreReadAs, EndsAt, EndsIn};
ghost use Rattle.qs_deck.specs.working.Readers.{IsRead, Ends, some_rules, some_systems, one_graph};
ghost use Rattle.qs_deck.specs.working.Readers.{Rules, ASystem, Systems, AGraph, ADeck};

use crate::version::pass_version;
use crate::written::{RawDeck, RawSystem};
use qs_graphtext::{Chain, read_chains};
use qs_lex::{Kind, Token, Word};
use qs_reader::{Reader, TextEnd};
use qs_ruletext::{RawRule, read_rules};
use qs_tree::Names;
use std::alloc::Global;

/// The rules that stand here.
fn rules(reader: &mut Reader<'_>, names: &mut Names) -> Result<Vec<RawRule>, TextEnd>
    requires shallow { (index : ℕ) → IsTooDeep reader.old.tokens index → ⊥ }
    requires room { length names.old + length (rest_of reader.old) + length reader.old.tokens < 2 ^ 32 }
    ensures keeps { KeepsNames names.old names.new }
    ensures read { IfOk result
        (λ found. IsRead some_rules (Rules found.items) reader.old reader.new names.old names.new) }
    ensures ends { IfErr result (Ends some_rules reader.old) }
{
    let (rules, end) = read_rules(
        reader.alloc(),
        reader.text(),
        reader.tokens(),
        reader.place(),
        names,
    )?;
    reader.go_to(end);
    Ok(rules)
}

/// A system.
fn system(reader: &mut Reader<'_>, names: &mut Names) -> Result<RawSystem, TextEnd>
    requires shallow { (index : ℕ) → IsTooDeep reader.old.tokens index → ⊥ }
    requires room { length names.old + length (rest_of reader.old) + length reader.old.tokens < 2 ^ 32 }
    ensures keeps { KeepsNames names.old names.new }
    ensures read { IfOk result
        (λ found. IsRead (part system) (ASystem found) reader.old reader.new names.old names.new) }
    ensures shorter { IfOk result (λ _. length (rest_of reader.new) < length (rest_of reader.old)) }
    ensures ends { IfErr result (Ends (part system) reader.old) }
{
    let word = reader.next_token()?;
    reader.expect(Kind::Word(Word::Systeme))?;
    let name = reader.label(names)?;
    let unique = reader.pass(Kind::Word(Word::Unique));
    reader.expect(Kind::Stop)?;
    let rules = rules(reader, names)?;
    let system = RawSystem {
        at: word.from,
        name,
        unique,
        rules,
    };
    Ok(system)
}

/// Systems, one behind the other.
fn systems(reader: &mut Reader<'_>, names: &mut Names) -> Result<Vec<RawSystem>, TextEnd>
    requires shallow { (index : ℕ) → IsTooDeep reader.old.tokens index → ⊥ }
    requires room { length names.old + length (rest_of reader.old) + length reader.old.tokens < 2 ^ 32 }
    ensures keeps { KeepsNames names.old names.new }
    ensures read { IfOk result
        (λ found. IsRead some_systems (Systems found.items) reader.old reader.new names.old names.new) }
    ensures ends { IfErr result (Ends some_systems reader.old) }
{
    let first = system(reader, names)?;
    let mut systems = vec![in reader.alloc(); first]?;
    while reader.is_at(Kind::Word(Word::Systeme)) {
        let next = system(reader, names)?;
        systems.push(next)?;
    }
    Ok(systems)
}

/// The chains of the graph that stands here.
fn graph(reader: &mut Reader<'_>, names: &mut Names) -> Result<Vec<Chain>, TextEnd>
    requires shallow { (index : ℕ) → IsTooDeep reader.old.tokens index → ⊥ }
    requires room { length names.old + length (rest_of reader.old) + length reader.old.tokens < 2 ^ 32 }
    ensures keeps { KeepsNames names.old names.new }
    ensures read { IfOk result
        (λ found. IsRead one_graph (AGraph found.items) reader.old reader.new names.old names.new) }
    ensures ends { IfErr result (Ends one_graph reader.old) }
{
    let (chains, end) = read_chains(
        reader.alloc(),
        reader.text(),
        reader.tokens(),
        reader.place(),
        names,
    )?;
    reader.go_to(end);
    Ok(chains)
}

/// A deck.
fn deck(reader: &mut Reader<'_>, names: &mut Names) -> Result<RawDeck, TextEnd>
    requires shallow { (index : ℕ) → IsTooDeep reader.old.tokens index → ⊥ }
    requires room { length names.old + length (rest_of reader.old) + length reader.old.tokens < 2 ^ 32 }
    ensures keeps { KeepsNames names.old names.new }
    ensures read { IfOk result
        (λ found. IsRead (part deck) (ADeck found) reader.old reader.new names.old names.new) }
    ensures ends { IfErr result (Ends (part deck) reader.old) }
{
    let systems = systems(reader, names)?;
    let word = reader.next_token()?;
    let chains = graph(reader, names)?;
    let deck = RawDeck {
        systems,
        graph_at: word.from,
        chains,
    };
    Ok(deck)
}

/// Reads the deck that these tokens of the text are, before it is checked, and the version of the text. None of them
/// opens a 1,001st parenthesis, and there are numbers for two more labels for each token.
///
/// `Ok` gives the version and the deck, whose systems may be too many, whose rules may not be accepted,
/// and whose chains may make no graph.
/// `Syntax` comes with the first place at which the tokens can't go on to a deck, which is the number of tokens where
/// they end within one. `Memory` may come at any time. After every answer `names` keeps its texts and numbers, and may
/// hold further texts: on `Ok` exactly those of the labels that were read and that it didn't hold, each once, in the
/// order of their first occurrence.
pub fn read_written(
    alloc: Global,
    text: &str,
    tokens: &[Token],
    names: &mut Names,
) -> Result<(u8, RawDeck), TextEnd>
    requires of_text { AreTokensOf text.now tokens.now }
    requires shallow { (index : ℕ) → IsTooDeep tokens.now index → ⊥ }
    requires room { length names.old + 2 * length tokens.now < 2 ^ 32 }
    ensures read { IfOk result (λ found. IsReadAs text.now tokens.now found.0 found.1 names.old names.new) }
    ensures ends { IfErr result (EndsAt text.now tokens.now) }
    ensures keeps { KeepsNames names.old names.new }
{
    let mut reader = Reader::new(alloc, text, tokens, 0);
    let version = pass_version(&mut reader)?;
    let deck = deck(&mut reader, names)?;
    if let Some(_next) = reader.peek() {
        return Err(reader.fault());
    }
    Ok((version, deck))
}

/// Reads the grammars that these tokens of the text are, before they are checked, and the version of the text. There is
/// at least one. It answers as `read_written` does, of a list of grammars in place of a deck.
pub fn read_grammars(
    alloc: Global,
    text: &str,
    tokens: &[Token],
    names: &mut Names,
) -> Result<(u8, Vec<RawSystem>), TextEnd>
    requires of_text { AreTokensOf text.now tokens.now }
    requires shallow { (index : ℕ) → IsTooDeep tokens.now index → ⊥ }
    requires room { length names.old + 2 * length tokens.now < 2 ^ 32 }
    ensures read { IfOk result (λ found. AreReadAs text.now tokens.now found.0 found.1.items names.old names.new) }
    ensures few { IfOk result (λ _. length names.new ≤ length names.old + length tokens.now) }
    ensures ends { IfErr result (EndsIn grammars text.now tokens.now) }
    ensures keeps { KeepsNames names.old names.new }
{
    let mut reader = Reader::new(alloc, text, tokens, 0);
    let version = pass_version(&mut reader)?;
    let systems = systems(&mut reader, names)?;
    match reader.peek() {
        Some(_token) => Err(reader.fault()),
        None => Ok((version, systems)),
    }
}
