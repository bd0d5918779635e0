//! A board: the machine of steps behind turns, so that threads may run it.
//!
//! Each seat of the machine has a pass. A call of the board with a pass takes one turn, whatever it answers: it finds
//! the machine with all that was entered before, does what the like call of the machine does, and enters the one step
//! or stop that this makes, or none. What a pass has seen of its own claim still holds at its next turn, whatever
//! others have entered between; the laws say so.
#![tactic(auto)]

mod board;
mod entry;
mod kept;
pub mod laws;

pub use board::{Board, Pass};
pub use entry::Entry;
pub use kept::Kept;
pub use std::alloc::AllocError as Memory;
