//! The reader.

ghost use Rattle.std.specs.Prelude.{◌≡◌, ◌^◌, ◌+◌, ◌<◌, ◌≤◌, [], length, OnOk, IfOk, IfErr, IfSome, IfNone, IsTrue};
ghost use Rattle.std.specs.Prelude.{IsFalse};
ghost use Rattle.qs_lex.specs.declared.token.Token.{Token};
ghost use Rattle.qs_lex.specs.Tokens.{AreTokensOf};
ghost use Rattle.qs_lex.specs.Grammar.{Sort, a_label, sort_of};
ghost use Rattle.qs_lex.specs.Expecting.{same_sort, NextIsNo};
ghost use Rattle.qs_reader.specs.Names.{KeepsNames};
ghost use Rattle.qs_reader.specs.Readers.{rest_of, IsSign, IsNext, IsPassed, Passes, Stays, NamesLabel, EndsHere};
ghost use Rattle.qs_reader.specs.Readers.{between, IsAt};

use crate::labels::label_of;
use crate::text_end::TextEnd;
use qs_lex::{Kind, Token};
use qs_tree::{Label, Names};
use std::alloc::Global;
use std::marker::Model;

/// A text, its tokens, and the place among them at which the reader stands: so many of them it has passed.
#[derive(Drop)]
pub struct Reader<'a> {
    alloc: Global,
    text: &'a str,
    tokens: &'a [Token],
    place: usize,
}

impl<'a> Model for Reader<'a> {
    ghost use Rattle.std.specs.Prelude.{◌≤◌, length};
    ghost use Rattle.qs_lex.specs.Tokens.{AreTokensOf};
    ghost use Rattle.qs_reader.specs.Readers.{Reading};

    ghost Value = { Reading };

    ghost view = { λ r. record { text = r.text.now; tokens = r.tokens.now; place = r.place } };

    ghost invariant = { λ r. AreTokensOf r.text.now r.tokens.now × (r.place ≤ length r.tokens.now) };
}

impl<'a> Reader<'a> {
    /// A reader at this place among the tokens of the text.
    pub fn new(alloc: Global, text: &'a str, tokens: &'a [Token], place: usize) -> Reader<'a>
        requires of_text { AreTokensOf text.now tokens.now }
        requires within { place ≤ length tokens.now }
        ensures { result ≡ record { text = text.now; tokens = tokens.now; place = place } }
    {
        Reader {
            alloc,
            text,
            tokens,
            place,
        }
    }

    /// Where what is read takes its memory.
    pub fn alloc(&self) -> Global {
        self.alloc
    }

    /// The text.
    pub fn text(&self) -> &'a str
        ensures { result.now ≡ self.now.text }
    {
        self.text
    }

    /// All tokens of the text.
    pub fn tokens(&self) -> &'a [Token]
        ensures tokens { result.now ≡ self.now.tokens }
        ensures of_text { AreTokensOf self.now.text self.now.tokens }
    {
        self.tokens
    }

    /// The place.
    pub fn place(&self) -> usize
        ensures place { result ≡ self.now.place }
        ensures within { result ≤ length self.now.tokens }
    {
        self.place
    }

    /// The tokens that it has passed since this place.
    pub fn since(&self, from: usize) -> &'a [Token]
        requires { from ≤ self.now.place }
        ensures { result.now ≡ between self.now.tokens from self.now.place }
    {
        &self.tokens[from..self.place]
    }

    /// The fault that the next token doesn't fit.
    pub fn fault(&self) -> TextEnd
        ensures place { result ≡ TextEnd.Syntax self.now.place }
        ensures within { self.now.place ≤ length self.now.tokens }
    {
        TextEnd::Syntax(self.place)
    }

    /// The next token. None at the end.
    pub fn peek(&self) -> Option<Token>
        ensures some { IfSome result (λ token. IsNext token self.now) }
        ensures none { IfNone result (rest_of self.now ≡ []) }
        ensures within { self.now.place ≤ length self.now.tokens }
    {
        let next = self.tokens.get(self.place)?;
        Some(*next)
    }

    /// The next token, which there has to be.
    pub fn next_token(&self) -> Result<Token, TextEnd>
        ensures next { IfOk result (λ token. IsNext token self.now) }
        ensures ends { IfErr result (λ end. (sort : Sort) → EndsHere sort self.now end) }
    {
        match self.peek() {
            Some(next) => Ok(next),
            None => Err(self.fault()),
        }
    }

    /// Passes the next token, which there is.
    pub fn take(&mut self)
        requires { self.old.place < length self.old.tokens }
        ensures taken { self.new ≡ record self.old { place = self.old.place + 1 } }
    {
        self.place += 1;
    }

    /// Goes to another place, up to which something else has read.
    pub fn go_to(&mut self, place: usize)
        requires { place ≤ length self.old.tokens }
        ensures { self.new ≡ record self.old { place = place } }
    {
        self.place = place;
    }

    /// Whether the next token is of this kind, a word or a sign.
    pub fn is_at(&self, kind: Kind) -> bool
        requires { IsSign kind }
        ensures yes { IsTrue result → IsAt (sort_of kind) self.now }
        ensures no { IsFalse result → NextIsNo (same_sort (sort_of kind)) (rest_of self.now) }
        ensures within { self.now.place ≤ length self.now.tokens }
    {
        match self.peek() {
            Some(next) => next.kind == kind,
            None => false,
        }
    }

    /// Whether the next token is of this kind, a word or a sign. If so it passes it.
    pub fn pass(&mut self, kind: Kind) -> bool
        requires { IsSign kind }
        ensures yes { IsTrue result → Passes (sort_of kind) self.old self.new }
        ensures no { IsFalse result → Stays (sort_of kind) self.old self.new }
    {
        if !self.is_at(kind) {
            return false;
        }
        self.take();
        true
    }

    /// Passes the next token, which has to be of this kind, a word or a sign.
    pub fn expect(&mut self, kind: Kind) -> Result<(), TextEnd>
        requires { IsSign kind }
        ensures ok { OnOk result (Passes (sort_of kind) self.old self.new) }
        ensures ends { IfErr result (EndsHere (sort_of kind) self.old) }
    {
        if !self.pass(kind) {
            return Err(self.fault());
        }
        Ok(())
    }

    /// The label that the next token is, which has to be one. It passes it.
    pub fn label(&mut self, names: &mut Names) -> Result<Label, TextEnd>
        requires room { length names.old + length (rest_of self.old) < 2 ^ 32 }
        ensures keeps { KeepsNames names.old names.new }
        ensures names { IfOk result (λ label. NamesLabel label self.old self.new names.old names.new) }
        ensures ends { IfErr result (EndsHere a_label self.old) }
    {
        match self.peek() {
            Some(next) if matches!(next.kind, Kind::Bare | Kind::Quoted) => {
                let label = label_of(self.alloc, self.text, &next, names)?;
                self.take();
                Ok(label)
            }
            _ => Err(self.fault()),
        }
    }
}
