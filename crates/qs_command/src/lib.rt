//! What the words of a call say, and the status with which it ends.
#![tactic(auto)]

mod job;
pub mod laws;
mod status;
mod words;

pub use job::{Command, Job};
pub use status::{Status, exit_code};
pub use words::{WordsEnd, read_words};
