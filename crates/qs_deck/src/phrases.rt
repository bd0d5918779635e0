//! Phrase texts: grammars and lines of words, read from a text.

ghost use Rattle.std.specs.Prelude.{◌≡◌, ◌≤◌, ℕ, List, IfOk, IfErr, IfSome, IsErr, IsCharBoundary, length, map};
ghost use Rattle.std.specs.Str.{IsUtf8};
ghost use Rattle.qs_io.specs.Limits.{most_text_bytes};
ghost use Rattle.qs_lex.specs.Tokens.{AreTokensOf, AreSpansFrom};
ghost use Rattle.qs_lex.specs.declared.refusal.Refusal.{Refusal};
ghost use Rattle.qs_lex.specs.Refusals.{IsRefusedFor};
ghost use Rattle.qs_tree.specs.declared.cell.Label.{Label};
ghost use Rattle.qs_deck.specs.Decks.{Grammar, grammar_of};
ghost use Rattle.qs_deck.specs.Named.{AreSystemsNamed, AreLinesNamed};
ghost use Rattle.qs_deck.specs.PhraseTexts.{border_of, grammar_part, IsPhraseText, IsPhraseFault, EndsForPhrases};
ghost use Rattle.qs_deck.specs.working.Answers.{IsEndOfPhrases};
ghost use Rattle.qs_deck.specs.working.Named.{AreSystemsNamed-prop, AreLinesNamed-prop};

use crate::checking::checked;
use crate::deck::DeckEnd;
use crate::decks::{not_utf8, told};
use crate::fault::FaultEnd;
use crate::grammar_lists::written_grammars;
use crate::laws::one_phrase_text;
use crate::lines::{border_of, read_lines};
use crate::system::System;
use crate::word_lines::WordLines;
use qs_lex::{Cause, Token, tokens};
use qs_tree::Names;
use std::alloc::Global;
use std::str;

/// A phrase text: the version of its grammars, 1 or 2, the texts of its labels, its grammars in the order of the text,
/// of which there is at least one, and its lines that have words. Each label in it is one of the names.
#[derive(Drop)]
pub struct Phrases {
    pub version: u8,
    pub names: Names,
    pub systems: Vec<System>,
    pub lines: WordLines,
    ghost systems_named: { AreSystemsNamed (length names) systems.items } by { AreSystemsNamed-prop (length names)
        systems.items },
    ghost lines_named: { AreLinesNamed (length names) lines } by { AreLinesNamed-prop (length names) lines },
}

/// The grammar part of a text with this border line.
fn part_of(text: &str, border: Option<usize>) -> &str
    requires { border ≡ border_of text.now }
    ensures { result.now ≡ grammar_part text.now }
{
    match border {
        Some(at) => &text[..at],
        None => text,
    }
}

/// The phrase text that a text means, of which these are the border line, the grammar part, and its tokens; or its
/// first fault.
fn phrases_of_tokens(
    alloc: Global,
    text: &str,
    border: Option<usize>,
    part: &str,
    tokens: &[Token],
) -> Result<Phrases, FaultEnd>
    requires short { length text.now ≤ most_text_bytes }
    requires utf8 { IsUtf8 text.now }
    requires border { border ≡ border_of text.now }
    requires part { part.now ≡ grammar_part text.now }
    requires part_utf8 { IsUtf8 part.now }
    requires of_part { AreTokensOf part.now tokens.now }
    requires spans { AreSpansFrom part.now 0 tokens.now }
    ensures phrases { IfOk result (λ found. IsPhraseText text.now found.version found.names
        (map grammar_of found.systems.items) found.lines) }
    ensures few { IfOk result (λ found. length found.names ≤ length text.now) }
    ensures end { IfErr result (IsEndOfPhrases text.now) }
{
    let (version, mut names, raws) = written_grammars(alloc, part, tokens)?;
    let Some(at) = border else {
        return Err(FaultEnd::Fault {
            byte: text.len() as u32,
            cause: Cause::Syntax,
        });
    };
    let systems = checked(alloc, raws)?;
    let lines = read_lines(alloc, text, at, &mut names)?;
    Ok(Phrases {
        version,
        names,
        systems,
        lines,
    })
}

/// The phrase text that a text in UTF-8 means, or its first fault.
fn phrases_of_text(alloc: Global, text: &str) -> Result<Phrases, DeckEnd>
    requires short { length text.now ≤ most_text_bytes }
    requires utf8 { IsUtf8 text.now }
    ensures phrases { IfOk result (λ found. IsPhraseText text.now found.version found.names
        (map grammar_of found.systems.items) found.lines) }
    ensures few { IfOk result (λ found. length found.names ≤ length text.now) }
    ensures end { IfErr result (EndsForPhrases text.now) }
{
    let border = border_of(text);
    let part = part_of(text, border);
    let tokens = tokens(alloc, part)?;
    match phrases_of_tokens(alloc, text, border, part, &tokens) {
        Ok(found) => Ok(found),
        Err(end) => Err(told(text, end)),
    }
}

/// The phrase text that the text means, or its first fault.
fn phrases_of_bytes(alloc: Global, bytes: &[u8]) -> Result<Phrases, DeckEnd>
    requires { length bytes.now ≤ most_text_bytes }
    ensures phrases { IfOk result (λ found. IsPhraseText bytes.now found.version found.names
        (map grammar_of found.systems.items) found.lines) }
    ensures few { IfOk result (λ found. length found.names ≤ length bytes.now) }
    ensures end { IfErr result (EndsForPhrases bytes.now) }
{
    match str::from_utf8(bytes) {
        Ok(text) => phrases_of_text(alloc, text),
        Err(error) => Err(DeckEnd::Refused(not_utf8(bytes, error.valid_up_to()))),
    }
}

/// The grammars and the lines of words that the text means, which has at most 4,194,304 bytes. The grammar part, which
/// is read as `read_systems` reads a text, stands before the first line that is exactly `-PHRASES-`. In the lines
/// behind it the longest runs of characters other than a space, a tab and a carriage return are the words. A line ends
/// at a line feed, or at the end of the text, and a line without words is passed over. There are no more names than the
/// text has bytes.
///
/// `Refused` comes exactly where the text isn't a phrase text, with the line, the column and the cause of its first
/// fault: the bytes of the whole text are looked at first, then tokens, nesting and syntax of the grammar part, which
/// is the whole text where there is no line `-PHRASES-`. That this line is wanting is a fault of syntax at the end.
/// Then come the checks of grammars and rules, and at last the lines: the 65,537th word of a line is one too many.
/// `Memory` may come for any text.
pub fn read_phrases(alloc: Global, bytes: &[u8]) -> Result<Phrases, DeckEnd>
    requires { length bytes.now ≤ most_text_bytes }
    ensures phrases { IfOk result (λ found. IsPhraseText bytes.now found.version found.names
        (map grammar_of found.systems.items) found.lines) }
    ensures few { IfOk result (λ found. length found.names ≤ length bytes.now) }
    ensures end { IfErr result (EndsForPhrases bytes.now) }

    // A phrase text is read, if memory lasts, and any other is refused for its first fault.
    ensures accepted { (version : ℕ) (names : List (List ℕ)) (grammars : List Grammar) (lines : List (List Label))
        → IsPhraseText bytes.now version names grammars lines → IfErr result (λ end. end ≡ DeckEnd.Memory) }
    ensures faulty { (refusal : Refusal) → IsRefusedFor IsPhraseFault bytes.now refusal → IsErr result }
{
    one_phrase_text();
    phrases_of_bytes(alloc, bytes)
}
