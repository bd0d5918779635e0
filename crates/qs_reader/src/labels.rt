//! The labels that tokens are.

ghost use Rattle.std.specs.Prelude.{◌^◌, ◌+◌, ◌<◌, ◌≤◌, IfOk, length};
ghost use Rattle.qs_lex.specs.Tokens.{IsTokenOf, IsLabel};
ghost use Rattle.qs_reader.specs.Names.{IsLabelOf, KeepsNames, AddsNameOf};

use qs_lex::{Token, label_text};
use qs_tree::{Label, Names};
use std::alloc::{AllocError, Global};

/// The label that the token is.
pub fn label_of(
    alloc: Global,
    text: &str,
    token: &Token,
    names: &mut Names,
) -> Result<Label, AllocError>
    requires of_text { IsTokenOf text.now token.now }
    requires label { IsLabel token.now }
    requires room { length names.old + 1 < 2 ^ 32 }
    ensures keeps { KeepsNames names.old names.new }
    ensures label { IfOk result
        (λ label. (later : _) → KeepsNames names.new later → IsLabelOf later text.now token.now label) }
    ensures adds { IfOk result (λ _. AddsNameOf text.now token.now names.old names.new) }
    ensures few { IfOk result (λ _. length names.new ≤ length names.old + 1) }
{
    names.intern(&label_text(alloc, text, token)?)
}
