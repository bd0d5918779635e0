//! Decks: grammars and a Q-graph, read from a text and written in canonical spelling.
//!
//! ```text
//! deck   = system { system } graph
//! system = -SYSTEME- label "." { rule }
//! ```
#![tactic(auto)]

mod checking;
mod deck;
mod decks;
pub mod examples;
mod fault;
mod grammar_lists;
pub mod laws;
mod lines;
mod made_decks;
mod made_texts;
mod phrases;
mod reading;
mod system;
mod version;
mod word_lines;
mod writing;
mod written;

pub use deck::{Deck, DeckEnd};
pub use decks::read_deck;
pub use grammar_lists::read_systems;
pub use made_decks::made;
pub use made_texts::made_deck;
pub use phrases::{Phrases, read_phrases};
pub use std::alloc::AllocError as Memory;
pub use system::System;
pub use word_lines::WordLines;
pub use writing::write_deck;
pub use written::{RawDeck, RawSystem};
