//! Accepted decks.

ghost use Rattle.std.specs.Prelude.{◌≤◌, length};
ghost use Rattle.std.specs.Coded.{le_prop};
ghost use Rattle.qs_graphtext.specs.Texts.{AreArcsNamed};
ghost use Rattle.qs_deck.specs.Named.{AreSystemsNamed};
ghost use Rattle.qs_deck.specs.working.Named.{AreSystemsNamed-prop, AreArcsNamed-prop};

use crate::system::System;
use qs_graph::Graph;
use qs_lex::{LexEnd, Refusal};
use qs_tree::Names;
use thiserror::Error;

/// A deck: the version of its text, 1 or 2, the texts of its labels, its grammars in the order of the text, and its
/// graph. Each label in it is one of the names.
#[derive(Drop)]
pub struct Deck {
    pub version: u8,
    pub names: Names,
    pub systems: Vec<System>,
    pub graph: Graph,
    ghost systems_named: { AreSystemsNamed (length names) systems.items } by { AreSystemsNamed-prop (length names)
        systems.items },
    ghost graph_named: { AreArcsNamed (length names) graph.arcs } by { AreArcsNamed-prop (length names) graph.arcs },
}

/// Why there is no deck.
#[derive(Clone, Copy, Debug, PartialEq, Eq, Drop, Error)]
pub enum DeckEnd {
    /// The text isn't accepted: its first fault.
    #[error("line {}, column {}: {:?}", .0.line, .0.column, .0.cause)]
    Refused(Refusal),
    /// There was no memory. It may come for any text, accepted or not.
    #[error("there is no memory")]
    Memory,
}

impl From<LexEnd> for DeckEnd {
    ghost use Rattle.std.specs.Prelude.{◌≡◌};
    ghost use Rattle.qs_deck.specs.Answers.{end_of_tokens};

    ghost from_gives = { λ x e. e ≡ end_of_tokens x };

    fn from(end: LexEnd) -> DeckEnd {
        match end {
            LexEnd::Refused(refusal) => DeckEnd::Refused(refusal),
            LexEnd::Memory => DeckEnd::Memory,
        }
    }
}
