//! The work of one arc: the firings of which it is the newest arc, found from the arc itself.
#![tactic(auto)]

mod heads;
mod joining;
mod lists;
mod search;

pub use heads::Heads;
pub use joining::{joined, joined_by};
pub use std::alloc::AllocError as Memory;
