//! Where and why a text is refused.

use crate::places::place;
use std::alloc::{AllocError, AllocFailed};

/// Why a text is refused. `tokens` gives `BadCharacter`, `OpenQuote`, `BadWord` and `BadVariable`; the others are for
/// those who read the bytes before it and the tokens after it.
#[derive(Clone, Copy, Debug, PartialEq, Eq)]
pub enum Cause {
    /// The bytes are not UTF-8.
    NotUtf8,
    /// A character begins no token, or a `=` stands alone.
    BadCharacter,
    /// A line feed, a carriage return or the end comes before the quote that closes a label.
    OpenQuote,
    /// A `-` begins neither a word nor a node mark.
    BadWord,
    /// A `*` follows label characters, and they are no variable.
    BadVariable,
    /// More than 1,000 parentheses are open.
    TooDeep,
    /// The tokens are not a deck.
    Syntax,
    /// There are more than 256 grammars.
    TooManySystems,
    /// A side of a rule has more than 16 trees.
    SideTooLong,
    /// A rule has more than 256 labels and variables.
    TooManyCells,
    /// A rule has more than 32 different variables.
    TooManyVariables,
    /// A variable of a rule's right side or condition is not in its left side.
    Unbound,
    /// A graph has more than 65,536 arcs.
    TooManyArcs,
    /// The arcs have a cycle.
    Cycle,
    /// Not exactly one node has no arc into it.
    Entries,
    /// Not exactly one node has no arc out of it.
    Exits,
}

impl Cause {
    ghost use Rattle.std.specs.Prelude.{◌≡◌};
    ghost use Rattle.qs_lex.specs.Refusals.{cause_name};

    /// The name by which the cause is told.
    pub fn name(self) -> &'static str
        ensures { result.now ≡ cause_name self }
    {
        match self {
            Cause::NotUtf8 => "NotUtf8",
            Cause::BadCharacter => "BadCharacter",
            Cause::OpenQuote => "OpenQuote",
            Cause::BadWord => "BadWord",
            Cause::BadVariable => "BadVariable",
            Cause::TooDeep => "TooDeep",
            Cause::Syntax => "Syntax",
            Cause::TooManySystems => "TooManySystems",
            Cause::SideTooLong => "SideTooLong",
            Cause::TooManyCells => "TooManyCells",
            Cause::TooManyVariables => "TooManyVariables",
            Cause::Unbound => "Unbound",
            Cause::TooManyArcs => "TooManyArcs",
            Cause::Cycle => "Cycle",
            Cause::Entries => "Entries",
            Cause::Exits => "Exits",
        }
    }
}

/// The first fault of a text: its line and its column, each counted from 1 and the column in characters, and its cause.
#[derive(Clone, Copy, Debug, PartialEq, Eq)]
pub struct Refusal {
    pub line: u32,
    pub column: u32,
    pub cause: Cause,
}

impl Refusal {
    ghost use Rattle.std.specs.Prelude.{◌≤◌, length, IsCharBoundary};
    ghost use Rattle.qs_io.specs.Limits.{most_text_bytes};
    ghost use Rattle.qs_lex.specs.Refusals.{Tells};

    /// What is told of a fault at this byte of the text, of this cause. The byte is between characters, and the text
    /// has at most 4,194,304 bytes. It takes no memory.
    pub fn at(text: &str, byte: u32, cause: Cause) -> Refusal
        requires border { IsCharBoundary text.now byte }
        requires short { length text.now ≤ most_text_bytes }

        ensures { Tells text.now byte cause result }
    {
        let (line, column) = place(text, byte);
        Refusal {
            line,
            column,
            cause,
        }
    }
}

/// Why `tokens` gives none.
#[derive(Clone, Copy, Debug, PartialEq, Eq)]
pub enum LexEnd {
    /// The text has a faulty place, and this is the first.
    Refused(Refusal),
    /// There was no memory. It may come for any text, with or without a fault.
    Memory,
}

impl From<AllocError> for LexEnd {
    ghost use Rattle.std.specs.Prelude.{◌≡◌};
    ghost use Rattle.qs_lex.specs.declared.refusal.LexEnd.TheVariants.{Memory};

    ghost from_gives = { λ _ e. e ≡ Memory };

    fn from(_: AllocError) -> LexEnd {
        LexEnd::Memory
    }
}

impl<T: Drop> From<AllocFailed<T>> for LexEnd {
    ghost use Rattle.std.specs.Prelude.{◌≡◌};
    ghost use Rattle.qs_lex.specs.declared.refusal.LexEnd.TheVariants.{Memory};

    ghost from_gives = { λ _ e. e ≡ Memory };

    fn from(_: AllocFailed<T>) -> LexEnd {
        LexEnd::Memory
    }
}
