//! The texts of labels.

ghost use Rattle.std.specs.Prelude.{◌≡◌, IfOk, string_bytes};
ghost use Rattle.qs_tree.specs.Text.{between_quotes};
ghost use Rattle.qs_lex.specs.Spelling.{Spells};
ghost use Rattle.qs_lex.specs.Tokens.{IsTokenOf, IsLabel, HasLabelText};

use crate::Memory;
use crate::token::{Kind, Token};
use std::alloc::Global;

/// The text of a quoted label, with one quote for each two.
fn unquoted(alloc: Global, label: &str) -> Result<String, Memory>
    requires { Spells Kind.Quoted label.now }
    ensures { IfOk result (λ text. label.now ≡ between_quotes (string_bytes text)) }
{
    let inside = &label[1..label.len() - 1];
    inside.replace(alloc, "\"\"", "\"")
}

/// The text of a label: of a bare one its characters; of a quoted one what stands between its quotes, with one quote
/// for each two. The token is a label, bare or quoted, of this text.
pub fn label_text(alloc: Global, text: &str, token: &Token) -> Result<String, Memory>
    requires of_text { IsTokenOf text.now token.now }
    requires label { IsLabel token.now }

    ensures { IfOk result (λ label. HasLabelText text.now token.now (string_bytes label)) }
{
    let label = &text[token.from as usize..token.to as usize];
    match token.kind {
        Kind::Bare => String::from_str(alloc, label),
        _ => unquoted(alloc, label),
    }
}
