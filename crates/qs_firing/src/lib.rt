//! Firings of rules over the arcs of a graph, their keys, and what they add.
#![tactic(auto)]

mod deciding;
mod firing;
mod joined;
mod key;
mod last_places;
pub mod laws;
mod paths;
mod places;
mod view;

pub use deciding::{fires, is_allowed};
pub use firing::Firing;
pub use joined::{Joined, Made};
pub use key::order;
pub use paths::trees_on;
pub use std::alloc::AllocError as Memory;
pub use view::View;
