//! A value that threads take in turn, with one history of what their turns entered.
//!
//! A `Turns` is a ticket lock round a value. A thread takes turns with a `Pass`: `Turns::enter` draws a ticket, waits
//! until the ticket is served and hands out the value; `Turns::leave` takes it back, with the entry that the turn adds
//! to the history, and serves the next ticket. So each pass knows a beginning of the one history: all that stood there
//! at its last turn. `Turns::close` gives the value back, once all passes are there.
#![tactic(auto)]

mod protocol;
mod told;
mod turns;

pub use std::alloc::AllocError as Memory;
pub use told::Told;
pub use turns::{Held, Pass, Turns};
