//! Where the arcs that cleaning keeps come from.
#![tactic(auto)]

pub mod laws;
mod marks;
mod support;
mod writing;

pub use std::alloc::AllocError as Memory;
pub use support::{Support, explain};
pub use writing::write_support;
