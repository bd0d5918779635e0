//! Rules.

ghost use Rattle.std.specs.Prelude.{◌≡◌, length, option_map, IfOk};
ghost use Rattle.std.specs.Option.{option_copied};
ghost use Rattle.qs_pattern.specs.Patterns.{patterns};
ghost use Rattle.qs_pattern.specs.Conditions.{condition_of};
ghost use Rattle.qs_pattern.specs.Rules.{IsAccepted};

use crate::condition::Cond;
use crate::copies::{copies_of, copy_if_given};
use crate::pattern::Pattern;
use std::alloc::{AllocError, Global};
use std::marker::Model;

/// An accepted rule: the patterns of its left side, those of its right side, whose trees it adds on a path beside the
/// one that its left side stands for, and maybe a condition. Each side has 1 to 16 patterns and no forest variable at
/// its top, the rule has at most 256 labels and variables and at most 32 different variables, each variable of the
/// right side and of the condition occurs in the left side, and the condition joins at least two wherever it joins.
///
/// A rule is marked unique or isn't. In a grammar whose rules are all unique, a firing with one right tree whose arc
/// already stands adds none.
#[derive(Drop)]
pub struct Rule {
    alloc: Global,
    left: Vec<Pattern>,
    right: Vec<Pattern>,
    condition: Option<Cond>,
    unique: bool,
}

impl Model for Rule {
    ghost use Rattle.std.specs.Prelude.{option_map};
    ghost use Rattle.qs_pattern.specs.Rules.{Rule as RuleOfPatterns, IsAccepted};
    ghost use Rattle.qs_pattern.specs.working.Codes.{rule_code};
    ghost use Rattle.qs_pattern.specs.Patterns.{patterns};
    ghost use Rattle.qs_pattern.specs.Conditions.{condition_of};

    ghost Value = { RuleOfPatterns };

    ghost coded = { rule_code };

    ghost view = { λ r. record {
      left = patterns r.left.items;
      right = patterns r.right.items;
      condition = option_map condition_of r.condition;
      unique = r.unique;
    } };

    ghost invariant = { λ r. IsAccepted (record {
      left = patterns r.left.items;
      right = patterns r.right.items;
      condition = option_map condition_of r.condition;
      unique = r.unique;
    }) };
}

impl Rule {
    /// The rule of these two sides and this condition, which have to make an accepted rule, with this mark. Takes no
    /// memory.
    pub fn new(
        alloc: Global,
        left: Vec<Pattern>,
        right: Vec<Pattern>,
        condition: Option<Cond>,
        unique: bool,
    ) -> Rule
        requires { IsAccepted (record {
          left = patterns left.items;
          right = patterns right.items;
          condition = option_map condition_of condition;
          unique = unique;
        }) }
        ensures { result ≡ record {
          left = patterns left.items;
          right = patterns right.items;
          condition = option_map condition_of condition;
          unique = unique;
        } }
    {
        Rule {
            alloc,
            left,
            right,
            condition,
            unique,
        }
    }

    /// The patterns of the left side. Takes no memory.
    pub fn left(&self) -> &[Pattern]
        ensures value { patterns result.now ≡ self.now.left }
        ensures accepted { IsAccepted self.now }
    {
        &self.left
    }

    /// The patterns of the right side. Takes no memory.
    pub fn right(&self) -> &[Pattern]
        ensures value { patterns result.now ≡ self.now.right }
        ensures accepted { IsAccepted self.now }
    {
        &self.right
    }

    /// The condition, if the rule has one. Takes no memory.
    pub fn cond(&self) -> Option<&Cond>
        ensures value { option_map condition_of (option_copied result) ≡ self.now.condition }
        ensures accepted { IsAccepted self.now }
    {
        self.condition.as_ref()
    }

    /// Whether the rule is marked unique. Takes no memory.
    pub fn unique(&self) -> bool
        ensures value { result ≡ self.now.unique }
        ensures accepted { IsAccepted self.now }
    {
        self.unique
    }

    /// An equal rule, with its mark.
    pub fn copy(&self) -> Result<Rule, AllocError>
        ensures { IfOk result (λ r. r ≡ self.now) }
    {
        let alloc = self.alloc;
        let left = copies_of(alloc, &self.left)?;
        let right = copies_of(alloc, &self.right)?;
        let condition = copy_if_given(alloc, &self.condition)?;
        Ok(Rule {
            alloc,
            left,
            right,
            condition,
            unique: self.unique,
        })
    }
}
