//! The tokens of a text, or its first fault.

ghost use Rattle.std.specs.Prelude.{◌≡◌, ◌<◌, ◌≤◌, ℕ, List, length, IfOk, IfErr, IsErr, slice_index};
ghost use Rattle.qs_io.specs.Limits.{most_text_bytes};
ghost use Rattle.qs_lex.specs.declared.token.Token.{Token};
ghost use Rattle.qs_lex.specs.declared.refusal.Cause.{Cause};
ghost use Rattle.qs_lex.specs.Tokens.{version_of, StandsIn, AreTokensOf, AreSpansFrom};
ghost use Rattle.qs_lex.specs.Refusals.{IsFaulty, cause_at, EndsFor, IsFirstFault};

use crate::characters::blank_len;
use crate::refusal::{Cause, LexEnd, Refusal};
use crate::scanner::scan;
use crate::token::Token;
use std::alloc::Global;

/// The version of a text: 2 where, behind white space and comments, it begins with `-VERSION-`; otherwise 1. It takes
/// no memory.
pub fn version(bytes: &[u8]) -> u8
    ensures { result ≡ version_of bytes.now }
{
    if bytes[blank_len(bytes)..].starts_with(b"-VERSION-") {
        2
    } else {
        1
    }
}

/// The token that stands at a place of a text of this version, or the cause why none does.
fn token_at(bytes: &[u8], version: u8, at: usize) -> Result<Token, Cause>
    requires of_text { version ≡ version_of bytes.now }
    requires inside { at < length bytes.now }
    requires short { length bytes.now ≤ most_text_bytes }

    ensures token { IfOk result (λ t. (t.from ≡ at) × StandsIn bytes.now t) }
    ensures some { IfOk result (λ t. at < t.to) }
    ensures within { IfOk result (λ t. t.to ≤ length bytes.now) }
    ensures fault { IfErr result (λ cause. IsFaulty bytes.now at × (cause ≡ cause_at (slice_index bytes.now at))) }
{
    match scan(&bytes[at..], version) {
        Ok((kind, len)) => Ok(Token {
            kind,
            from: at as u32,
            to: (at + len) as u32,
        }),
        Err(cause) => Err(cause),
    }
}

/// The tokens of the text, which has at most 4,194,304 bytes. Their spans ascend and begin and end between characters.
///
/// `Refused` comes exactly where the text has a faulty place, with the first one and its cause. `Memory` may come for
/// any text.
pub fn tokens(alloc: Global, text: &str) -> Result<Vec<Token>, LexEnd>
    requires { length text.now ≤ most_text_bytes }

    ensures tokens { IfOk result (λ found. AreTokensOf text.now found.items) }
    ensures end { IfErr result (λ end. EndsFor text.now end) }

    // Each begins and ends between characters, and none before the one in front of it ends.
    ensures spans { IfOk result (λ found. AreSpansFrom text.now 0 found.items) }

    // A text with a fault has no tokens, and one with tokens has no fault.
    ensures faulty { (place : ℕ) (cause : Cause) → IsFirstFault text.now place cause → IsErr result }
    ensures faultless { (ts : List Token) → AreTokensOf text.now ts → IfErr result (λ end. end ≡ LexEnd.Memory) }
{
    let bytes = text.as_bytes();
    let version = version(bytes);
    let mut tokens = Vec::new(alloc);
    let mut at = blank_len(bytes);
    while at < bytes.len() {
        match token_at(bytes, version, at) {
            Ok(token) => {
                tokens.push(token)?;
                let to = token.to as usize;
                at = to + blank_len(&bytes[to..]);
            }
            Err(cause) => {
                let refusal = Refusal::at(text, at as u32, cause);
                return Err(LexEnd::Refused(refusal));
            }
        }
    }
    Ok(tokens)
}
