//! The lines of a phrase text, and their words.

ghost use Rattle.std.specs.Prelude.{◌≡◌, ◌≤◌, ◌<◌, ◌+◌, ◌==◌, not, IfOk, IfErr, IfSome, OnOk, IsCharBoundary, Some};
ghost use Rattle.std.specs.Prelude.{length, ◌++◌, ◌∷◌, []};
ghost use Rattle.std.specs.List.{prefix_len};
ghost use Rattle.std.specs.Str.{IsUtf8};
ghost use Rattle.qs_io.specs.Limits.{most_text_bytes};
ghost use Rattle.qs_lex.specs.Characters.{line_feed};
ghost use Rattle.qs_deck.specs.PhraseTexts.{is_blank, border_of, lines_behind};
ghost use Rattle.qs_deck.specs.working.Phrases.{AddsWord, ReadsWords, ReadsWordsTo, ReadsLines, ReadsLinesTo};
ghost use Rattle.qs_deck.specs.working.Phrases.{IsEndOfWords, IsEndOfLines};

use crate::fault::FaultEnd;
use crate::word_lines::WordLines;
use qs_lex::Cause;
use qs_tree::{Label, Names};
use std::alloc::{AllocError, Global};

/// The line between the grammars and the lines of words.
const BORDER: &[u8] = b"-PHRASES-";

/// The most words of a line.
const MOST_WORDS: usize = 65_536;

/// How many bytes stand in front of the first line feed; all, where there is none.
fn line_len(bytes: &[u8]) -> usize
    ensures value { result ≡ prefix_len (λ b. not (b == line_feed)) bytes.now }
    ensures bound { result ≤ length bytes.now }
{
    bytes.iter().take_while(|b| **b != b'\n').count()
}

/// Whether the byte stands between words.
fn is_blank(byte: u8) -> bool
    ensures { result ≡ is_blank byte }
{
    byte == b' ' || byte == b'\t' || byte == b'\r'
}

/// How many bytes stand in front of the first that stands between words; all, where there is none.
fn word_len(bytes: &[u8]) -> usize
    ensures value { result ≡ prefix_len (λ b. not (is_blank b)) bytes.now }
    ensures bound { result ≤ length bytes.now }
{
    bytes.iter().take_while(|b| !is_blank(**b)).count()
}

/// The byte at which the first line begins that is exactly `-PHRASES-`.
pub fn border_of(text: &str) -> Option<usize>
    requires short { length text.now ≤ most_text_bytes }
    ensures { result ≡ border_of text.now }
{
    let bytes = text.as_bytes();
    let mut at = 0;
    while at <= bytes.len() {
        let end = at + line_len(&bytes[at..]);
        if &bytes[at..end] == BORDER {
            return Some(at);
        }
        at = end + 1;
    }
    None
}

/// Names the word, and puts its label behind the words.
fn push_word(word: &str, names: &mut Names, words: &mut Vec<Label>) -> Result<(), AllocError>
    requires room { length names.old < 4294967295 }
    ensures { OnOk result (AddsWord word.now names.old names.new words.old.items words.new.items) }
{
    let label = names.intern(word)?;
    words.push(label)?;
    Ok(())
}

/// Reads the words of the line that begins at this byte and goes to the end of the text, and puts their labels behind
/// the words.
fn read_words(
    text: &str,
    from: usize,
    names: &mut Names,
    words: &mut Vec<Label>,
) -> Result<(), FaultEnd>
    requires short { length text.now ≤ most_text_bytes }
    requires utf8 { IsUtf8 text.now }
    requires border { IsCharBoundary text.now from }
    requires few_names { length names.old < from }
    requires few_words { length words.old.items < from }
    ensures ok { OnOk result (ReadsWords text.now from names.old names.new words.old.items words.new.items) }
    ensures end { IfErr result (IsEndOfWords text.now from) }
{
    let bytes = text.as_bytes();
    let mut at = from;
    let mut count = 0;
    while at <= bytes.len() {
        let end = at + word_len(&bytes[at..]);
        if end > at {
            if count == MOST_WORDS {
                return Err(FaultEnd::Fault {
                    byte: at as u32,
                    cause: Cause::TooManyArcs,
                });
            }
            count += 1;
            push_word(&text[at..end], names, words)?;
        }
        at = end + 1;
    }
    Ok(())
}

/// Puts the end of a line behind the ends.
fn push_end(end: u32, ends: &mut Vec<u32>) -> Result<(), AllocError>
    ensures { OnOk result (ends.new.items ≡ ends.old.items ++ end ∷ []) }
{
    ends.push(end)?;
    Ok(())
}

/// Reads the lines behind the line `-PHRASES-` that begins at this byte of the text.
pub fn read_lines(
    alloc: Global,
    text: &str,
    border: usize,
    names: &mut Names,
) -> Result<WordLines, FaultEnd>
    requires short { length text.now ≤ most_text_bytes }
    requires utf8 { IsUtf8 text.now }
    requires border { border_of text.now ≡ Some border }
    requires room { length names.old ≤ border }
    ensures ok { IfOk result (λ lines. ReadsLines (lines_behind text.now border) names.old names.new lines) }
    ensures few { IfOk result (λ _. length names.new ≤ length text.now) }
    ensures end { IfErr result (IsEndOfLines text.now (lines_behind text.now border)) }
{
    let bytes = text.as_bytes();
    let mut words = Vec::new(alloc);
    let mut ends = Vec::new(alloc);
    let mut at = border + BORDER.len() + 1;
    while at <= bytes.len() {
        let end = at + line_len(&bytes[at..]);
        let before = words.len();
        read_words(&text[..end], at, names, &mut words)?;
        if words.len() > before {
            push_end(words.len() as u32, &mut ends)?;
        }
        at = end + 1;
    }
    Ok(WordLines::new(words, ends))
}
