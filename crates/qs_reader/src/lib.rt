//! A reader of the tokens of a text: it stands at a place among them, looks at the next token, and passes it.
//!
//! Whoever reads by a grammar takes one. A fault is the place of the token that doesn't fit. It is made once, where
//! that is seen, and handed on by `?`.
#![tactic(auto)]

mod labels;
mod reader;
mod text_end;

pub use labels::label_of;
pub use reader::Reader;
pub use std::alloc::AllocError as Memory;
pub use text_end::TextEnd;
