//! Chains and graphs, read from tokens.

ghost use Rattle.std.specs.Prelude.{◌≡◌, ℕ, ◌^◌, ◌+◌, ◌<◌, ◌≤◌, List, length, drop, IsTrue, IsFalse};
ghost use Rattle.std.specs.Prelude.{IfOk, IfErr, IsErr};
ghost use Rattle.qs_lex.specs.declared.token.Token.{Token};
ghost use Rattle.qs_lex.specs.Tokens.{AreTokensOf};
ghost use Rattle.qs_lex.specs.Nesting.{IsTooDeep};
ghost use Rattle.qs_lex.specs.Grammar.{a_node_mark, plus, part, IsWhole};
ghost use Rattle.qs_lex.specs.Expecting.{same_sort, NextIsNo};
ghost use Rattle.qs_reader.specs.Names.{KeepsNames, NamesGrow};
ghost use Rattle.qs_reader.specs.Readers.{rest_of, between, IsAt, EndsHere};
ghost use Rattle.qs_graphtext.specs.Grammar.{chain, graph, line};
ghost use Rattle.qs_graphtext.specs.Reading.{ReadsGraph, AreNamed};
ghost use Rattle.qs_graphtext.specs.Refusals.{CannotGoOn, EndsFrom};
ghost use Rattle.qs_graphtext.specs.working.Readers.{IsRead, Ends, PassesMark, plains_with, some_chains};
ghost use Rattle.qs_graphtext.specs.working.Readers.{Trees, AChain, Chains, AGraph};

use crate::chain::Chain;
use crate::plain::rooted;
use qs_lex::{Kind, Token, Word};
use qs_reader::{Reader, TextEnd};
use qs_tree::{Names, Tree};
use std::alloc::Global;

/// The number of the next token, which has to be a node mark. It passes it.
fn mark(reader: &mut Reader<'_>) -> Result<u32, TextEnd>
    ensures passes { IfOk result (λ number. PassesMark number reader.old reader.new) }
    ensures ends { IfErr result (EndsHere a_node_mark reader.old) }
{
    let next = reader.next_token()?;
    let Kind::Node(number) = next.kind else {
        return Err(reader.fault());
    };
    reader.take();
    Ok(number)
}

/// Whether the next token is a node mark.
fn is_at_mark(reader: &Reader<'_>) -> bool
    ensures yes { IsTrue result → IsAt a_node_mark reader.now }
    ensures no { IsFalse result → NextIsNo (same_sort a_node_mark) (rest_of reader.now) }
{
    match reader.peek() {
        Some(next) => matches!(next.kind, Kind::Node(_)),
        None => false,
    }
}

/// Trees with a `+` between two, and the bytes at which they begin.
fn trees(reader: &mut Reader<'_>, names: &mut Names) -> Result<(Vec<Tree>, Vec<u32>), TextEnd>
    requires room { length names.old + length (rest_of reader.old) < 2 ^ 32 }
    ensures keeps { KeepsNames names.old names.new }
    ensures read { IfOk result (λ found. IsRead (plains_with plus) (Trees found.0.items found.1.items)
        reader.old reader.new names.old names.new) }
    ensures ends { IfErr result (Ends (plains_with plus) reader.old) }
{
    let (first, byte) = rooted(reader, names)?;
    let mut trees = vec![in reader.alloc(); first]?;
    let mut at = vec![in reader.alloc(); byte]?;
    while reader.pass(Kind::Plus) {
        let (next, byte) = rooted(reader, names)?;
        trees.push(next)?;
        at.push(byte)?;
    }
    Ok((trees, at))
}

/// A chain.
fn chain(reader: &mut Reader<'_>, names: &mut Names) -> Result<Chain, TextEnd>
    requires room { length names.old + length (rest_of reader.old) < 2 ^ 32 }
    ensures keeps { KeepsNames names.old names.new }
    ensures read { IfOk result
        (λ found. IsRead (part chain) (AChain found) reader.old reader.new names.old names.new) }
    ensures shorter { IfOk result (λ _. length (rest_of reader.new) < length (rest_of reader.old)) }
    ensures ends { IfErr result (Ends (part chain) reader.old) }
{
    let from = mark(reader)?;
    let (trees, at) = trees(reader, names)?;
    let to = mark(reader)?;
    reader.expect(Kind::Stop)?;
    let chain = Chain {
        from,
        trees,
        to,
        at,
    };
    Ok(chain)
}

/// Chains, one behind the other.
fn chains(reader: &mut Reader<'_>, names: &mut Names) -> Result<Vec<Chain>, TextEnd>
    requires room { length names.old + length (rest_of reader.old) < 2 ^ 32 }
    ensures keeps { KeepsNames names.old names.new }
    ensures read { IfOk result
        (λ found. IsRead some_chains (Chains found.items) reader.old reader.new names.old names.new) }
    ensures ends { IfErr result (Ends some_chains reader.old) }
{
    let first = chain(reader, names)?;
    let mut chains = vec![in reader.alloc(); first]?;
    while is_at_mark(reader) {
        let next = chain(reader, names)?;
        chains.push(next)?;
    }
    Ok(chains)
}

/// A graph.
fn graph(reader: &mut Reader<'_>, names: &mut Names) -> Result<Vec<Chain>, TextEnd>
    requires room { length names.old + length (rest_of reader.old) < 2 ^ 32 }
    ensures keeps { KeepsNames names.old names.new }
    ensures read { IfOk result
        (λ found. IsRead (part graph) (AGraph found.items) reader.old reader.new names.old names.new) }
    ensures shorter { IfOk result (λ _. length (rest_of reader.new) < length (rest_of reader.old)) }
    ensures ends { IfErr result (Ends (part graph) reader.old) }
{
    reader.expect(Kind::Word(Word::Graphe))?;
    let chains = chains(reader, names)?;
    reader.expect(Kind::Word(Word::Fin))?;
    Ok(chains)
}

/// Reads a graph, from `-GRAPHE-` to `-FIN-`, that begins at the place `from` of the list of tokens. The tokens are
/// those of the text, none opens a 1,001st parenthesis, and there is a number for one more label for each token.
///
/// `Ok` gives the chains, of which there is at least one, and the place behind `-FIN-`. `Syntax` comes with the first
/// place at which the tokens from `from` on can't go on to a graph, which may be the number of tokens. `Memory` may
/// come at any time. After every answer the labels of `names` keep their numbers, and there may be new ones: on `Ok`
/// exactly those that were read and weren't there, each once, in the order of their first occurrence.
pub fn read_chains(
    alloc: Global,
    text: &str,
    tokens: &[Token],
    from: usize,
    names: &mut Names,
) -> Result<(Vec<Chain>, usize), TextEnd>
    requires of_text { AreTokensOf text.now tokens.now }
    requires shallow { (index : ℕ) → IsTooDeep tokens.now index → ⊥ }
    requires within { from ≤ length tokens.now }
    requires room { length names.old + length tokens.now < 2 ^ 32 }

    // In these names, and in all that keep them.
    ensures read { IfOk result (λ found. (later : _) → KeepsNames names.new later
        → ReadsGraph later text.now (drop from tokens.now) found.0.items (drop found.1 tokens.now)) }
    ensures behind { IfOk result (λ found. (from < found.1) × (found.1 ≤ length tokens.now)) }
    ensures ends { IfErr result (EndsFrom tokens.now from) }

    // Tokens that can't go on to a graph are refused, and a whole graph is read, if memory lasts.
    ensures faulty { (at : ℕ) → CannotGoOn tokens.now from at → IsErr result }
    ensures faultless { (rest : List Token) → IsWhole line (part graph) (drop from tokens.now) rest
        → IfErr result (λ end. end ≡ TextEnd.Memory) }

    // The labels.
    ensures keeps { KeepsNames names.old names.new }
    ensures names { IfOk result (λ found. NamesGrow text.now (between tokens.now from found.1) names.old names.new) }
    ensures few { IfOk result (λ found. length names.new + from ≤ length names.old + found.1) }
    ensures named { IfOk result (λ found. AreNamed (length names.new) found.0.items) }
{
    let mut reader = Reader::new(alloc, text, tokens, from);
    let chains = graph(&mut reader, names)?;
    Ok((chains, reader.place()))
}
