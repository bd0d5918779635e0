//! The line of a deck's version, read from tokens.

ghost use Rattle.std.specs.Prelude.{◌≡◌, IfOk, IfErr, IsTrue, IsFalse, Some, slice_get};
ghost use Rattle.qs_lex.specs.declared.token.Token.{Token};
ghost use Rattle.qs_lex.specs.Tokens.{IsTokenOf};
ghost use Rattle.qs_reader.specs.Readers.{rest_of, IsNext};
ghost use Rattle.qs_deck.specs.Versions.{IsTwo};
ghost use Rattle.qs_deck.specs.working.Versions.{PassesLine, EndsInLine};

use qs_lex::{Kind, Token, Word, version};
use qs_reader::{Reader, TextEnd};

/// Whether the token is the bare label 2.
fn is_two(text: &str, token: &Token) -> bool
    requires { IsTokenOf text.now token.now }
    ensures yes { IsTrue result → IsTwo text.now token.now }
    ensures no { IsFalse result → IsTwo text.now token.now → ⊥ }
{
    let bytes = &text[token.from as usize..token.to as usize];
    token.kind == Kind::Bare && bytes == "2"
}

/// Whether the next token is the bare label 2.
fn is_at_two(reader: &Reader<'_>) -> bool
    ensures yes { IsTrue result → (t : Token) × IsNext t reader.now × IsTwo reader.now.text t }
    ensures no { IsFalse result
        → (t : Token) → slice_get (rest_of reader.now) 0 ≡ Some t → IsTwo reader.now.text t → ⊥ }
{
    match reader.peek() {
        Some(next) => is_two(reader.text(), &next),
        None => false,
    }
}

/// The version of the text, whose line it passes: in version 1 there is none, in version 2 it is `-VERSION- 2.` The
/// reader stands at the first token.
pub fn pass_version(reader: &mut Reader<'_>) -> Result<u8, TextEnd>
    requires { reader.old.place ≡ 0 }
    ensures passes { IfOk result (PassesLine reader.old reader.new) }
    ensures ends { IfErr result (EndsInLine reader.old.text reader.old.tokens) }
{
    if version(reader.text().as_bytes()) == 1 {
        return Ok(1);
    }
    reader.expect(Kind::Word(Word::Version))?;
    if !is_at_two(reader) {
        return Err(reader.fault());
    }
    reader.take();
    reader.expect(Kind::Stop)?;
    Ok(2)
}
