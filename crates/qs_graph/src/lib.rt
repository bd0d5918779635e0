//! Q-graphs.
#![tactic(auto)]

mod edge;
mod ends;
mod graph;
pub mod laws;
mod making;
mod order;

pub use edge::Edge;
pub use graph::Graph;
pub use making::GraphEnd;
pub use std::alloc::AllocError as Memory;
