//! The rules of a deck.

use qs_deck::Deck;
use qs_pattern::Rule;

/// The rules of the first grammar, none where there is no grammar.
pub fn rules_of(deck: &Deck) -> &[Rule] {
    match deck.systems.first() {
        Some(system) => &system.rules,
        None => &[],
    }
}
