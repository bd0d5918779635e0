//! Lines of words as graphs, and the readings of a graph.
#![tactic(auto)]

pub mod laws;
mod leaving;
mod listing;
mod walking;
mod words;

pub use listing::{ReadingList, readings};
pub use std::alloc::AllocError as Memory;
pub use words::linear;
