//! Cleaning: what a closure leaves.
#![tactic(auto)]

mod arcs;
mod cleaning;
pub mod examples;
pub mod laws;
mod links;
mod marks;

pub use cleaning::{clean, kept};
pub use marks::mark_path;
pub use std::alloc::AllocError as Memory;
