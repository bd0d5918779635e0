//! Decks, read from a text.

ghost use Rattle.std.specs.Prelude.{◌≡◌, ◌≤◌, ◌^◌, ◌<◌, ℕ, List, [], IfOk, IfErr, IsErr, IsCharBoundary, length, map};
ghost use Rattle.std.specs.Str.{IsUtf8, IsValidUpTo};
ghost use Rattle.qs_io.specs.Limits.{most_text_bytes};
ghost use Rattle.qs_lex.specs.Tokens.{AreTokensOf, AreSpansFrom};
ghost use Rattle.qs_lex.specs.Nesting.{IsTooDeep};
ghost use Rattle.qs_lex.specs.Refusals.{Tells};
ghost use Rattle.qs_graph.specs.Graphs.{QGraph};
ghost use Rattle.qs_lex.specs.declared.refusal.Refusal.{Refusal};
ghost use Rattle.qs_deck.specs.Decks.{Grammar, grammar_of, IsDeckOf, IsWritten};
ghost use Rattle.qs_deck.specs.Refusals.{byte_of, IsRefusalOf, EndsFor};
ghost use Rattle.qs_deck.specs.working.Answers.{IsEndOf, IsEndOfGrammars, IsEndOfList, IsEndOfPhrases, IsBetween};
ghost use Rattle.qs_deck.specs.working.Answers.{end_of_chains};
ghost use Rattle.qs_deck.specs.GrammarLists.{EndsForGrammars};
ghost use Rattle.qs_deck.specs.PhraseTexts.{EndsForPhrases};
ghost use Rattle.qs_deck.specs.Texts.{deck_text};

use crate::checking::checked;
use crate::deck::{Deck, DeckEnd};
use crate::fault::FaultEnd;
use crate::laws::{one_answer, what_is_written_is_read};
use crate::reading::read_written;
use crate::written::RawDeck;
use qs_graphtext::{ChainEnd, graph_of};
use qs_lex::{Cause, Refusal, Token, tokens, too_deep};
use qs_ruletext::TextEnd;
use qs_tree::Names;
use std::alloc::Global;
use std::str;

/// The refusal of bytes that aren't UTF-8. The longest front that is has so many bytes.
pub fn not_utf8(bytes: &[u8], valid: usize) -> Refusal
    requires valid { IsValidUpTo bytes.now valid }
    requires short { length bytes.now ≤ most_text_bytes }
    ensures { Tells bytes.now valid Cause.NotUtf8 result }
{
    let text = str::from_utf8(&bytes[..valid]).unwrap();
    Refusal::at(text, valid as u32, Cause::NotUtf8)
}

/// The byte at which the token with this index begins; the length of the text where there is no such token.
pub fn byte_of(text: &str, tokens: &[Token], index: usize) -> u32
    requires spans { AreSpansFrom text.now 0 tokens.now }
    requires short { length text.now ≤ most_text_bytes }
    ensures value { result ≡ byte_of text.now tokens.now index }
    ensures border { IsCharBoundary text.now result }
{
    match tokens.get(index) {
        Some(token) => token.from,
        None => text.len() as u32,
    }
}

/// Nothing, where at most 1,000 parentheses are open at a time; else the fault at the first that is one too many.
pub fn shallow(text: &str, tokens: &[Token]) -> Result<(), FaultEnd>
    requires of_text { AreTokensOf text.now tokens.now }
    requires spans { AreSpansFrom text.now 0 tokens.now }
    requires short { length text.now ≤ most_text_bytes }
    requires utf8 { IsUtf8 text.now }
    ensures shallow { IfOk result (λ _. (index : ℕ) → IsTooDeep tokens.now index → ⊥) }
    ensures end { IfErr result (IsEndOf text.now) }
    ensures end_of_list { IfErr result (IsEndOfList text.now) }
{
    match too_deep(tokens) {
        Some(index) => Err(FaultEnd::Fault {
            byte: byte_of(text, tokens, index),
            cause: Cause::TooDeep,
        }),
        None => Ok(()),
    }
}

/// The version of the text, the written deck that these tokens of it are, and the names of its labels.
fn written_deck(
    alloc: Global,
    text: &str,
    tokens: &[Token],
) -> Result<(u8, Names, RawDeck), FaultEnd>
    requires of_text { AreTokensOf text.now tokens.now }
    requires spans { AreSpansFrom text.now 0 tokens.now }
    requires short { length text.now ≤ most_text_bytes }
    requires utf8 { IsUtf8 text.now }
    requires shallow { (index : ℕ) → IsTooDeep tokens.now index → ⊥ }
    ensures written { IfOk result (λ found. IsWritten text.now found.0 found.1 found.2) }
    ensures end { IfErr result (IsEndOf text.now) }
{
    let mut names = Names::new(alloc);
    match read_written(alloc, text, tokens, &mut names) {
        Ok((version, deck)) => Ok((version, names, deck)),
        Err(TextEnd::Syntax(index)) => Err(FaultEnd::Fault {
            byte: byte_of(text, tokens, index),
            cause: Cause::Syntax,
        }),
        Err(TextEnd::Memory) => Err(FaultEnd::Memory),
    }
}

/// Why the chains make no graph, of which the word `-GRAPHE-` stands at this byte.
fn graph_end(graph_at: u32, end: ChainEnd) -> FaultEnd
    ensures { result ≡ end_of_chains graph_at end }
{
    let (byte, cause) = match end {
        ChainEnd::TooManyArcs { at } => (at, Cause::TooManyArcs),
        ChainEnd::Cycle => (graph_at, Cause::Cycle),
        ChainEnd::Entries => (graph_at, Cause::Entries),
        ChainEnd::Exits => (graph_at, Cause::Exits),
        ChainEnd::Memory => return FaultEnd::Memory,
    };
    FaultEnd::Fault { byte, cause }
}

/// The deck that a text with these tokens means, or its first fault.
fn deck_of_tokens(alloc: Global, text: &str, tokens: &[Token]) -> Result<Deck, FaultEnd>
    requires of_text { AreTokensOf text.now tokens.now }
    requires spans { AreSpansFrom text.now 0 tokens.now }
    requires short { length text.now ≤ most_text_bytes }
    requires utf8 { IsUtf8 text.now }
    ensures deck { IfOk result (λ deck. IsDeckOf text.now deck.version deck.names
        (map grammar_of deck.systems.items) deck.graph) }
    ensures end { IfErr result (IsEndOf text.now) }
{
    shallow(text, tokens)?;
    let (version, names, deck) = written_deck(alloc, text, tokens)?;
    let RawDeck {
        systems,
        graph_at,
        chains,
    } = deck;
    let systems = checked(alloc, systems)?;
    match graph_of(alloc, chains) {
        Ok(graph) => Ok(Deck {
            version,
            names,
            systems,
            graph,
        }),
        Err(end) => Err(graph_end(graph_at, end)),
    }
}

/// What is told of a text that means no deck, no list of grammars, or no phrase text.
pub fn told(text: &str, end: FaultEnd) -> DeckEnd
    requires between { IsBetween text.now end }
    requires short { length text.now ≤ most_text_bytes }
    ensures deck { IsEndOf text.now end → EndsFor text.now result }
    ensures grammars { IsEndOfGrammars text.now end → EndsForGrammars text.now result }
    ensures phrases { IsEndOfPhrases text.now end → EndsForPhrases text.now result }
{
    match end {
        FaultEnd::Fault { byte, cause } => DeckEnd::Refused(Refusal::at(text, byte, cause)),
        FaultEnd::Memory => DeckEnd::Memory,
    }
}

/// The deck that a text in UTF-8 means, or its first fault.
fn deck_of_text(alloc: Global, text: &str) -> Result<Deck, DeckEnd>
    requires short { length text.now ≤ most_text_bytes }
    requires utf8 { IsUtf8 text.now }
    ensures deck { IfOk result (λ deck. IsDeckOf text.now deck.version deck.names
        (map grammar_of deck.systems.items) deck.graph) }
    ensures end { IfErr result (EndsFor text.now) }
{
    let tokens = tokens(alloc, text)?;
    match deck_of_tokens(alloc, text, &tokens) {
        Ok(deck) => Ok(deck),
        Err(end) => Err(told(text, end)),
    }
}

/// The deck that the text means, or its first fault.
fn deck_of_bytes(alloc: Global, bytes: &[u8]) -> Result<Deck, DeckEnd>
    requires { length bytes.now ≤ most_text_bytes }
    ensures deck { IfOk result (λ deck. IsDeckOf bytes.now deck.version deck.names
        (map grammar_of deck.systems.items) deck.graph) }
    ensures end { IfErr result (EndsFor bytes.now) }
{
    match str::from_utf8(bytes) {
        Ok(text) => deck_of_text(alloc, text),
        Err(error) => Err(DeckEnd::Refused(not_utf8(bytes, error.valid_up_to()))),
    }
}

/// The deck that the text means, which has at most 4,194,304 bytes.
///
/// `Refused` comes exactly where the text isn't accepted, with the line, the column and the cause of its first fault.
/// The bytes are looked at first, then tokens, nesting, syntax, the checks of grammars and rules, and at last the
/// graph; the first of these that finds a fault answers. `Memory` may come for any text.
///
/// What `write_deck` writes of a deck that was read is itself accepted, and means the same deck.
pub fn read_deck(alloc: Global, bytes: &[u8]) -> Result<Deck, DeckEnd>
    requires { length bytes.now ≤ most_text_bytes }
    ensures deck { IfOk result (λ deck. IsDeckOf bytes.now deck.version deck.names
        (map grammar_of deck.systems.items) deck.graph) }
    ensures end { IfErr result (EndsFor bytes.now) }

    // An accepted text is read, if memory lasts, and one that isn't accepted is refused for its first fault.
    ensures accepted { (version : ℕ) (names : List (List ℕ)) (grammars : List Grammar) (graph : QGraph)
        → IsDeckOf bytes.now version names grammars graph → IfErr result (λ end. end ≡ DeckEnd.Memory) }
    ensures faulty { (refusal : Refusal) → IsRefusalOf bytes.now refusal → IsErr result }

    // The text of a deck that was read is accepted, with this deck: the same version, grammars and graph, with the same
    // names.
    ensures read_back { IfOk result (λ deck.
        IsDeckOf (deck_text deck.version deck.names (map grammar_of deck.systems.items) deck.graph)
        deck.version deck.names (map grammar_of deck.systems.items) deck.graph) }
{
    one_answer();
    what_is_written_is_read();
    deck_of_bytes(alloc, bytes)
}
