//! Why reading ends.

use std::alloc::{AllocError, AllocFailed};

/// Why nothing was read.
#[derive(Clone, Copy, Debug, PartialEq, Eq)]
pub enum TextEnd {
    /// What was begun can't go on with the token at this place of the list of tokens; the length of the list where the
    /// tokens end within it.
    Syntax(usize),
    /// There was no memory. It may come at any time.
    Memory,
}

impl From<AllocError> for TextEnd {
    ghost use Rattle.std.specs.Prelude.{◌≡◌};
    ghost use Rattle.qs_reader.specs.declared.text_end.TextEnd.TheVariants.{Memory};

    ghost from_gives = { λ _ e. e ≡ Memory };

    fn from(_: AllocError) -> TextEnd {
        TextEnd::Memory
    }
}

impl<T: Drop> From<AllocFailed<T>> for TextEnd {
    ghost use Rattle.std.specs.Prelude.{◌≡◌};
    ghost use Rattle.qs_reader.specs.declared.text_end.TextEnd.TheVariants.{Memory};

    ghost from_gives = { λ _ e. e ≡ Memory };

    fn from(_: AllocFailed<T>) -> TextEnd {
        TextEnd::Memory
    }
}
