//! The rounds of a grammar, and their closure.
#![tactic(auto)]

mod closure;
pub mod examples;
pub mod laws;
mod numbering;
mod numbers;
mod record_laws;
pub mod run_laws;
mod waiting;

pub use closure::{Closure, Placed};
pub use numbering::{Numbering, canon};
pub use std::alloc::AllocError as Memory;
