//! One grammar: the closure of its rules over a graph, and what cleaning leaves of it.
#![tactic(auto)]

mod closing;
pub mod laws;
mod stages;

pub use closing::{closure, closure_alone, closure_by};
pub use stages::{StageEnd, end_behind, stage, stage_alone, stage_by};
pub use std::alloc::AllocError as Memory;
