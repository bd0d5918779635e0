//! Workers: they claim the arcs of a machine, and do the firings that are their work, until nothing is left to do.
#![tactic(auto)]

mod alone;
mod crews;
mod grammar;
mod several;

pub use alone::saturate_alone;
pub use crews::{ByCall, Crew, OneWorker};
pub use grammar::Grammar;
pub use several::{run_together, saturate};
pub use std::alloc::AllocError as Memory;
