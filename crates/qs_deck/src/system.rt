//! Grammars with their names.

ghost use Rattle.std.specs.Prelude.{◌<◌, length};
ghost use Rattle.qs_pattern.specs.Limits.{rule_bound};
ghost use Rattle.qs_deck.specs.Marks.{HaveMark};
ghost use Rattle.qs_deck.specs.working.Marks.{HaveMark-prop};

use qs_pattern::Rule;
use qs_tree::Label;

/// A grammar: its name, whether it is marked with the word `-UNIQUE-`, and its rules in the order of the text, each
/// with this mark, of which there are fewer than 4,294,967,295.
#[derive(Drop)]
pub struct System {
    pub name: Label,
    pub unique: bool,
    pub rules: Vec<Rule>,
    ghost few: { length rules.items < rule_bound },
    ghost marked: { HaveMark unique rules.items } by { HaveMark-prop unique rules.items },
}
