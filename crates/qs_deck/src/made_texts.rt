//! The texts of made decks.

ghost use Rattle.std.specs.Prelude.{◌≡◌, ◌≤◌, ◌<◌, ◌-◌, ◌^◌, ◌++◌, IfOk, OnOk, decimal, codes, flat_map};
ghost use Rattle.std.specs.List.{range_with_len};
ghost use Rattle.qs_deck.specs.Limits.{most_size};
ghost use Rattle.qs_deck.specs.MadeDecks.{level_line, word_text, words_text, made_text};

use crate::made_decks::word_count;
use std::alloc::{AllocError, Global};

/// Appends the number in decimal.
fn append_number(alloc: Global, number: u32, out: &mut Vec<u8>) -> Result<(), AllocError>
    ensures { OnOk result (out.new.items ≡ out.old.items ++ decimal number) }
{
    let digits = number.to_string(alloc)?;
    out.extend_from_slice(digits.as_bytes())?;
    Ok(())
}

/// Appends the line of the rule that joins two trees of this level.
fn append_level(alloc: Global, level: u32, out: &mut Vec<u8>) -> Result<(), AllocError>
    requires { level < most_size }
    ensures { OnOk result (out.new.items ≡ out.old.items ++ level_line level) }
{
    out.extend_from_slice(b"T")?;
    append_number(alloc, level, out)?;
    out.extend_from_slice(b"(I*) + T")?;
    append_number(alloc, level, out)?;
    out.extend_from_slice(b"(J*) == T")?;
    append_number(alloc, level + 1, out)?;
    out.extend_from_slice(b"(I*).\n")?;
    Ok(())
}

/// Appends the lines of the rules.
fn append_levels(alloc: Global, size: u32, out: &mut Vec<u8>) -> Result<(), AllocError>
    requires { size ≤ most_size }
    ensures { OnOk result (out.new.items ≡ out.old.items ++ flat_map level_line (range_with_len 0 size)) }
{
    for level in 0..size {
        append_level(alloc, level, out)?;
    }
    Ok(())
}

/// Appends the text of a word's tree.
fn append_word(alloc: Global, word: u32, out: &mut Vec<u8>) -> Result<(), AllocError>
    ensures { OnOk result (out.new.items ≡ out.old.items ++ word_text word) }
{
    out.extend_from_slice(b"T0(M")?;
    append_number(alloc, word, out)?;
    out.extend_from_slice(b")")?;
    Ok(())
}

/// Appends the texts of the words' trees with plus signs between them.
fn append_words(alloc: Global, size: u32, out: &mut Vec<u8>) -> Result<(), AllocError>
    requires { size ≤ most_size }
    ensures { OnOk result (out.new.items ≡ out.old.items ++ words_text size) }
{
    append_word(alloc, 1, out)?;
    for word in 2..1 + word_count(size) {
        out.extend_from_slice(b" + ")?;
        append_word(alloc, word, out)?;
    }
    Ok(())
}

/// The text of the made deck of this size, from 0 to 13. The error comes where memory was wanting.
pub fn made_deck(alloc: Global, size: u32) -> Result<Vec<u8>, AllocError>
    requires { size ≤ most_size }
    ensures { IfOk result (λ text. text.items ≡ made_text size) }
{
    let mut text = Vec::new(alloc);
    text.extend_from_slice(b"-SYSTEME- M.\n")?;
    append_levels(alloc, size, &mut text)?;
    text.extend_from_slice(b"-GRAPHE-\n-1- ")?;
    append_words(alloc, size, &mut text)?;
    text.extend_from_slice(b" -2-.\n-FIN-\n")?;
    Ok(text)
}
