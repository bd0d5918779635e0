//! Level certificates: they bound the rounds of a grammar on every graph.
#![tactic(auto)]

mod accepting;
mod chains;
mod finding;
pub mod laws;
mod levels;
mod ordering;
mod steps;
mod tops;

pub use accepting::accepts;
pub use finding::find;
pub use levels::Levels;
pub use std::alloc::AllocError as Memory;
