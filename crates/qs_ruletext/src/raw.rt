//! Rules as they are read.

use qs_pattern::{Cond, Pattern};
use std::marker::Model;

/// A rule as it was read, with no limit on its sides, cells and variables.
#[derive(Drop)]
pub struct RawRule {
    /// The patterns of the left side.
    pub left: Vec<Pattern>,
    /// The patterns of the right side, whose trees are added beside those of the left.
    pub right: Vec<Pattern>,
    /// The condition, if there is one.
    pub cond: Option<Cond>,
    /// The byte of the text at which each cell, a label or a variable, begins, in the order of the text.
    pub at: Vec<u32>,
}

impl Model for RawRule {
    ghost use Rattle.std.specs.Prelude.{option_map};
    ghost use Rattle.qs_pattern.specs.Patterns.{patterns};
    ghost use Rattle.qs_pattern.specs.Conditions.{condition_of};
    ghost use Rattle.qs_ruletext.specs.WrittenRules.{WrittenRule};
    ghost use Rattle.qs_ruletext.specs.working.Codes.{written_rule_code};

    ghost Value = { WrittenRule };

    ghost coded = { written_rule_code };

    ghost view = { λ r. record {
      rule = record {
        left = patterns r.left.items;
        right = patterns r.right.items;
        condition = option_map condition_of r.cond;
      };
      at = r.at.items;
    } };
}
