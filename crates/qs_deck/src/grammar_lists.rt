//! Lists of grammars, read from a text.

ghost use Rattle.std.specs.Prelude.{◌≡◌, ◌≤◌, ℕ, List, IfOk, IfErr, IsErr, length, map};
ghost use Rattle.std.specs.Str.{IsUtf8};
ghost use Rattle.qs_io.specs.Limits.{most_text_bytes};
ghost use Rattle.qs_lex.specs.Tokens.{AreTokensOf, AreSpansFrom};
ghost use Rattle.qs_deck.specs.Decks.{Grammar, grammar_of};
ghost use Rattle.qs_deck.specs.Named.{AreSystemsNamed};
ghost use Rattle.qs_deck.specs.GrammarLists.{AreWritten, AreGrammarsOf, IsGrammarsFault, EndsForGrammars};
ghost use Rattle.qs_lex.specs.Refusals.{IsRefusedFor};
ghost use Rattle.qs_lex.specs.declared.refusal.Refusal.{Refusal};
ghost use Rattle.qs_deck.specs.working.Answers.{IsEndOfGrammars, IsEndOfList};

use crate::checking::checked;
use crate::deck::DeckEnd;
use crate::decks::{byte_of, not_utf8, shallow, told};
use crate::fault::FaultEnd;
use crate::laws::one_list_of_grammars;
use crate::reading::read_grammars;
use crate::system::System;
use crate::written::RawSystem;
use qs_lex::{Cause, Token, tokens};
use qs_ruletext::TextEnd;
use qs_tree::Names;
use std::alloc::Global;
use std::str;

/// The version of the text, the written grammars that these tokens of it are, and the names of their labels.
pub fn written_grammars(
    alloc: Global,
    text: &str,
    tokens: &[Token],
) -> Result<(u8, Names, Vec<RawSystem>), FaultEnd>
    requires of_text { AreTokensOf text.now tokens.now }
    requires spans { AreSpansFrom text.now 0 tokens.now }
    requires short { length text.now ≤ most_text_bytes }
    requires utf8 { IsUtf8 text.now }
    ensures written { IfOk result (λ found. AreWritten text.now found.0 found.1 found.2.items) }
    ensures few { IfOk result (λ found. length found.1 ≤ length text.now) }
    ensures end { IfErr result (IsEndOfList text.now) }
{
    shallow(text, tokens)?;
    let mut names = Names::new(alloc);
    match read_grammars(alloc, text, tokens, &mut names) {
        Ok((version, systems)) => Ok((version, names, systems)),
        Err(TextEnd::Syntax(index)) => Err(FaultEnd::Fault {
            byte: byte_of(text, tokens, index),
            cause: Cause::Syntax,
        }),
        Err(TextEnd::Memory) => Err(FaultEnd::Memory),
    }
}

/// The grammars that a text with these tokens means, or its first fault.
fn systems_of_tokens(
    alloc: Global,
    text: &str,
    tokens: &[Token],
) -> Result<(Names, Vec<System>, u8), FaultEnd>
    requires of_text { AreTokensOf text.now tokens.now }
    requires spans { AreSpansFrom text.now 0 tokens.now }
    requires short { length text.now ≤ most_text_bytes }
    requires utf8 { IsUtf8 text.now }
    ensures systems { IfOk result (λ found. AreGrammarsOf text.now found.2 found.0 (map grammar_of found.1.items)) }
    ensures named { IfOk result (λ found. AreSystemsNamed (length found.0) found.1.items) }
    ensures few { IfOk result (λ found. length found.0 ≤ length text.now) }
    ensures end { IfErr result (IsEndOfGrammars text.now) }
{
    let (version, names, raws) = written_grammars(alloc, text, tokens)?;
    let systems = checked(alloc, raws)?;
    Ok((names, systems, version))
}

/// The grammars that a text in UTF-8 means, or its first fault.
fn systems_of_text(alloc: Global, text: &str) -> Result<(Names, Vec<System>, u8), DeckEnd>
    requires short { length text.now ≤ most_text_bytes }
    requires utf8 { IsUtf8 text.now }
    ensures systems { IfOk result (λ found. AreGrammarsOf text.now found.2 found.0 (map grammar_of found.1.items)) }
    ensures named { IfOk result (λ found. AreSystemsNamed (length found.0) found.1.items) }
    ensures few { IfOk result (λ found. length found.0 ≤ length text.now) }
    ensures end { IfErr result (EndsForGrammars text.now) }
{
    let tokens = tokens(alloc, text)?;
    match systems_of_tokens(alloc, text, &tokens) {
        Ok(found) => Ok(found),
        Err(end) => Err(told(text, end)),
    }
}

/// The grammars that the text means, or its first fault.
fn systems_of_bytes(alloc: Global, bytes: &[u8]) -> Result<(Names, Vec<System>, u8), DeckEnd>
    requires { length bytes.now ≤ most_text_bytes }
    ensures systems { IfOk result (λ found. AreGrammarsOf bytes.now found.2 found.0 (map grammar_of found.1.items)) }
    ensures named { IfOk result (λ found. AreSystemsNamed (length found.0) found.1.items) }
    ensures few { IfOk result (λ found. length found.0 ≤ length bytes.now) }
    ensures end { IfErr result (EndsForGrammars bytes.now) }
{
    match str::from_utf8(bytes) {
        Ok(text) => systems_of_text(alloc, text),
        Err(error) => Err(DeckEnd::Refused(not_utf8(bytes, error.valid_up_to()))),
    }
}

/// The grammars that the text means, of which there is at least one, with the names of their labels and the version of
/// the text, 1 or 2. The text has at most 4,194,304 bytes, and each label in the grammars is one of the names, of which
/// there are no more than the text has bytes.
///
/// `Refused` comes exactly where the text isn't a list of grammars, as the front of a deck is one, or where a grammar
/// isn't accepted, with the line, the column and the cause of its first fault. The bytes are looked at first, then
/// tokens, nesting, syntax, and the checks of grammars and rules. `Memory` may come for any text.
pub fn read_systems(alloc: Global, bytes: &[u8]) -> Result<(Names, Vec<System>, u8), DeckEnd>
    requires { length bytes.now ≤ most_text_bytes }
    ensures systems { IfOk result (λ found. AreGrammarsOf bytes.now found.2 found.0 (map grammar_of found.1.items)) }
    ensures named { IfOk result (λ found. AreSystemsNamed (length found.0) found.1.items) }
    ensures few { IfOk result (λ found. length found.0 ≤ length bytes.now) }
    ensures end { IfErr result (EndsForGrammars bytes.now) }

    // A text that means a list of grammars is read, if memory lasts, and one with a fault is refused for it.
    ensures accepted { (version : ℕ) (names : List (List ℕ)) (grammars : List Grammar)
        → AreGrammarsOf bytes.now version names grammars → IfErr result (λ end. end ≡ DeckEnd.Memory) }
    ensures faulty { (refusal : Refusal) → IsRefusedFor IsGrammarsFault bytes.now refusal → IsErr result }
{
    one_list_of_grammars();
    systems_of_bytes(alloc, bytes)
}
