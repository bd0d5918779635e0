//! The texts that tell what grammars leave: blocks with their supports, readings, levels and summaries. And the line
//! that tells why a text is refused.
#![tactic(auto)]

mod blocks;
pub mod laws;
mod levels;
mod phrasing;
mod reading_lines;
mod refusals;
mod summaries;
mod telling;

pub use levels::levels_text;
pub use phrasing::{LineEnd, PhraseTeller, ToldPhrase, grammars_of};
pub use refusals::refusal_line;
pub use std::alloc::AllocError as Memory;
pub use summaries::{made_end, summary};
pub use telling::{Teller, Telling, Told};
