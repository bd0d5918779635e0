//! Reading the token at the front of a text, from the left.

ghost use Rattle.std.specs.Prelude.{◌≡◌, ◌+◌, ◌<◌, ◌≤◌, IfSome, length, drop, option_map};
ghost use Rattle.qs_lex.specs.working.Scan.{number_after, quote_len, with_digits, variable_of, label_at, mark_at, scan};
ghost use Rattle.qs_lex.specs.working.Scan.{punctuation};

use crate::characters::{capital_or_digit_len, digit_len, is_variable_letter, label_len};
use crate::refusal::Cause;
use crate::token::{Kind, Word};
use qs_tree::is_label_byte;

/// The greatest number of a variable.
const MOST_VARIABLE_NUMBER: u32 = 99;

/// The greatest number of a node mark.
const MOST_NODE_NUMBER: u32 = 999_999_999;

/// The number from 1 to `most` that the bytes write in decimal, without leading zero.
fn number(bytes: &[u8], most: u32) -> Option<u32>
    ensures value { result ≡ number_after most 0 bytes.now }
    ensures bound { IfSome result (λ n. n ≤ most) }
{
    let mut n = 0u64;
    for byte in bytes {
        if !byte.is_ascii_digit() || (n == 0 && *byte == b'0') {
            return None;
        }
        n = n * 10 + u64::from(*byte - b'0');
        if n > u64::from(most) {
            return None;
        }
    }
    if n == 0 { None } else { Some(n as u32) }
}

/// The variable of this letter that has these digits behind its star, and how many bytes it takes.
fn with_digits(letter: u8, digits: &[u8]) -> Result<(Kind, usize), Cause>
    ensures { result ≡ with_digits letter digits.now }
{
    if digits.is_empty() {
        return Ok((Kind::Variable { letter, number: 0 }, 2));
    }
    match number(digits, MOST_VARIABLE_NUMBER) {
        Some(n) => Ok((
            Kind::Variable {
                letter,
                number: n as u8,
            },
            digits.len() + 2,
        )),
        None => Err(Cause::BadVariable),
    }
}

/// The variable that has this run before its star, where these bytes stand behind the star.
fn variable(run: &[u8], behind: &[u8]) -> Result<(Kind, usize), Cause>
    ensures { result ≡ variable_of run.now behind.now }
{
    match run {
        [letter] if is_variable_letter(*letter) => {
            with_digits(*letter, &behind[..digit_len(behind)])
        }
        _ => Err(Cause::BadVariable),
    }
}

/// The bare label or the variable at the front of the bytes.
fn label(bytes: &[u8]) -> Result<(Kind, usize), Cause>
    ensures { result ≡ label_at bytes.now }
{
    let len = label_len(bytes);
    if len < bytes.len() && bytes[len] == b'*' {
        variable(&bytes[..len], &bytes[len + 1..])
    } else {
        Ok((Kind::Bare, len))
    }
}

/// How many bytes a quoted label has behind its opening quote; `None` where no quote closes it on its line.
#[tactic(auto, using(crate::proofs::Quotes::further_laws))]
fn quote_len(bytes: &[u8]) -> Option<usize>
    ensures value { result ≡ quote_len bytes.now }
    ensures bound { IfSome result (λ n. n ≤ length bytes.now) }
{
    let mut behind_quote = false;
    for (i, byte) in bytes.iter().enumerate() {
        match *byte {
            b'"' => behind_quote = !behind_quote,
            _ if behind_quote => return Some(i),
            b'\n' | b'\r' => return None,
            _ => {}
        }
    }
    if behind_quote {
        Some(bytes.len())
    } else {
        None
    }
}

/// The node mark or the word, in a text of this version, whose first dash stands before these bytes.
fn mark(bytes: &[u8], version: u8) -> Result<(Kind, usize), Cause>
    ensures { result ≡ mark_at version bytes.now }
{
    let len = capital_or_digit_len(bytes);
    if len == bytes.len() || bytes[len] != b'-' {
        return Err(Cause::BadWord);
    }
    let name = &bytes[..len];
    if let Some(word) = Word::named(name, version) {
        return Ok((Kind::Word(word), len + 2));
    }
    match number(name, MOST_NODE_NUMBER) {
        Some(n) => Ok((Kind::Node(n), len + 2)),
        None => Err(Cause::BadWord),
    }
}

/// The token that is this one character.
fn punctuation(byte: u8) -> Result<(Kind, usize), Cause>
    ensures { result ≡ punctuation byte }
{
    match byte {
        b'(' => Ok((Kind::Opening, 1)),
        b')' => Ok((Kind::Closing, 1)),
        b',' => Ok((Kind::Comma, 1)),
        b'+' => Ok((Kind::Plus, 1)),
        b'.' => Ok((Kind::Stop, 1)),
        b'/' => Ok((Kind::Slash, 1)),
        _ => Err(Cause::BadCharacter),
    }
}

/// The token at the front of the bytes, in a text of this version, and how many of them it takes, or the cause why none
/// stands there.
pub fn scan(bytes: &[u8], version: u8) -> Result<(Kind, usize), Cause>
    ensures { result ≡ scan version bytes.now }
{
    match bytes {
        [] => Err(Cause::BadCharacter),
        [b'"', rest @ ..] => match quote_len(rest) {
            Some(len) => Ok((Kind::Quoted, len + 1)),
            None => Err(Cause::OpenQuote),
        },
        [b'-', rest @ ..] => mark(rest, version),
        [b'=', b'=', ..] => Ok((Kind::Equals, 2)),
        [first, ..] if is_label_byte(*first) => label(bytes),
        [first, ..] => punctuation(*first),
    }
}
