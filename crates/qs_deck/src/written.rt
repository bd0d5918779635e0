//! Decks as they are read, before they are checked.

use qs_graphtext::Chain;
use qs_ruletext::RawRule;
use qs_tree::Label;
use std::marker::Model;

/// A grammar as it was read: the byte of the text at which its word `-SYSTEME-` begins, its name, whether it is marked
/// with the word `-UNIQUE-`, and its rules, which may or may not be accepted.
#[derive(Drop)]
pub struct RawSystem {
    pub at: u32,
    pub name: Label,
    pub unique: bool,
    pub rules: Vec<RawRule>,
}

impl Model for RawSystem {
    ghost use Rattle.qs_deck.specs.WrittenDecks.{WrittenSystem};
    ghost use Rattle.qs_deck.specs.working.Codes.{system_code};

    ghost Value = { WrittenSystem };

    ghost coded = { system_code };

    ghost view = { λ s. record { at = s.at; name = s.name; unique = s.unique; rules = s.rules.items } };
}

/// A deck as it was read: its grammars, of which there may be too many, the byte of the text at which the word
/// `-GRAPHE-` begins, and its chains, which may or may not make a graph.
#[derive(Drop)]
pub struct RawDeck {
    pub systems: Vec<RawSystem>,
    pub graph_at: u32,
    pub chains: Vec<Chain>,
}

impl Model for RawDeck {
    ghost use Rattle.qs_deck.specs.WrittenDecks.{WrittenDeck};
    ghost use Rattle.qs_deck.specs.working.Codes.{deck_code};

    ghost Value = { WrittenDeck };

    ghost coded = { deck_code };

    ghost view = { λ d. record { systems = d.systems.items; graph_at = d.graph_at; chains = d.chains.items } };
}
