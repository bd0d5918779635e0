//! Which rules that were read are accepted.
#![tactic(auto)]

mod causes;
mod cells;
mod checking;
pub mod laws;

pub use checking::{CheckEnd, check};
pub use std::alloc::AllocError as Memory;
