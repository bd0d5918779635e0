//! The machine of steps in which seats claim arcs and do the firings that are their work.
#![tactic(auto)]

mod adding;
mod answers;
mod arcs;
mod fired;
pub mod laws;
mod sharing;
mod state;
mod statuses;
mod step;
mod stepping;

pub use answers::{Claim, End, Put};
pub use fired::Fired;
pub use sharing::share_rules;
pub use state::State;
pub use std::alloc::AllocError as Memory;
pub use step::{Status, Step, Stop};
