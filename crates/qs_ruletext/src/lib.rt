//! Rules, read from the tokens of a text and written in canonical spelling.
//!
//! ```text
//! rule = side "==" side [ "/" cond ] "."
//! side = tree { "+" tree }
//! tree = ( label | labelvar ) [ "(" [ list ] ")" ] | treevar
//! list = item { "," item }
//! item = tree | forestvar
//! cond = conj { -OU- conj }
//! conj = neg { -ET- neg }
//! neg  = [ -NON- ] prim
//! prim = "(" cond ")" | list ( -DANS- | -HORS- ) list
//! ```
#![tactic(auto)]

mod conditions;
pub mod laws;
mod raw;
mod rules;
mod sides;
mod writing;

pub use qs_reader::TextEnd;
pub use raw::RawRule;
pub use rules::read_rules;
pub use std::alloc::AllocError as Memory;
pub use writing::write_rule;
