//! Tests of how texts are read: what only calls show of tokens, of rules and chains with their bytes, of decks with
//! the numbers of their labels, of lists of grammars, and of phrase texts.
#![tactic(auto)]

#[cfg(test)]
mod deck_tests;
#[cfg(test)]
mod grammar_tests;
#[cfg(test)]
mod graph_tests;
#[cfg(test)]
mod made_tests;
#[cfg(test)]
mod phrase_tests;
#[cfg(test)]
mod rule_tests;
#[cfg(test)]
mod token_tests;
