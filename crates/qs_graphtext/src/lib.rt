//! Graphs, read from the tokens of a text, made of the chains that were read, and written.
//!
//! ```text
//! graph = -GRAPHE- chain { chain } -FIN-
//! chain = mark plain { "+" plain } mark "."
//! plain = label [ "(" [ plain { "," plain } ] ")" ]
//! ```
#![tactic(auto)]

mod chain;
mod chain_end;
pub mod graph_laws;
pub mod laws;
mod laying;
mod making;
mod nodes;
mod plain;
mod reading;
mod writing;

pub use chain::Chain;
pub use chain_end::ChainEnd;
pub use making::graph_of;
pub use reading::read_chains;
pub use std::alloc::AllocError as Memory;
pub use writing::{write_arc, write_graph};
