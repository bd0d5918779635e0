//! Faults of a text, before they are told.

use qs_check::CheckEnd;
use qs_lex::Cause;
use std::alloc::AllocError;

/// Why a text with tokens means no deck.
#[derive(Clone, Copy, Debug, PartialEq, Eq)]
pub enum FaultEnd {
    /// The text has a fault: the byte of its place, and its cause.
    Fault { byte: u32, cause: Cause },
    /// There was no memory.
    Memory,
}

impl From<CheckEnd> for FaultEnd {
    ghost use Rattle.std.specs.Prelude.{◌≡◌};
    ghost use Rattle.qs_deck.specs.working.Answers.{end_of_check};

    ghost from_gives = { λ x e. e ≡ end_of_check x };

    fn from(end: CheckEnd) -> FaultEnd {
        match end {
            CheckEnd::Refused { cause, at } => FaultEnd::Fault { byte: at, cause },
            CheckEnd::Memory => FaultEnd::Memory,
        }
    }
}

impl From<AllocError> for FaultEnd {
    ghost use Rattle.std.specs.Prelude.{◌≡◌};
    ghost use Rattle.qs_deck.specs.declared.fault.FaultEnd.TheVariants.{Memory};

    ghost from_gives = { λ _ e. e ≡ Memory };

    fn from(_: AllocError) -> FaultEnd {
        FaultEnd::Memory
    }
}
