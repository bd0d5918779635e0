//! All substitutions under which a list of patterns stands for a list of trees.
#![tactic(auto)]

mod apart;
mod bindings;
mod counts;
mod fitting;
pub mod laws;
mod matches;
mod remaining;
mod search;
mod state;

pub use apart::all_matches_apart;
pub use fitting::can_stand_for;
pub use matches::all_matches;
pub use std::alloc::AllocError as Memory;
