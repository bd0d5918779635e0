//! Grammars that are ready for runs.

ghost use Rattle.std.specs.Prelude.{◌≡◌, ◌<◌, length, IfOk};
ghost use Rattle.std.specs.Arc.{arc_value};
ghost use Rattle.qs_pattern.specs.Limits.{rule_bound};
ghost use Rattle.qs_join.specs.Heads.{AreHeadsOf};

use qs_core::share_rules;
use qs_join::Heads;
use qs_pattern::Rule;
use std::alloc::{AllocError, Global};
use std::marker::Model;
use std::sync::Arc;

/// A grammar that is ready for runs: its rules, and the places of their left sides by the roots that they ask for. It
/// is made once for all graphs on which the grammar runs. For contracts it is its list of rules, of which there are
/// fewer than 4,294,967,295.
#[derive(Drop)]
pub struct Grammar {
    rules: Arc<Vec<Rule>>,
    heads: Heads,
}

impl Model for Grammar {
    ghost use Rattle.std.specs.Prelude.{◌<◌, List, length};
    ghost use Rattle.std.specs.Arc.{arc_value};
    ghost use Rattle.std.specs.Coded.{coded_list};
    ghost use Rattle.qs_pattern.specs.Limits.{rule_bound};
    ghost use Rattle.qs_pattern.specs.Rules.{Rule as RuleOfPatterns};
    ghost use Rattle.qs_pattern.specs.working.Codes.{rule_code};
    ghost use Rattle.qs_join.specs.Heads.{AreHeadsOf};

    ghost Value = { List RuleOfPatterns };

    ghost coded = { coded_list rule_code };

    ghost view = { λ g. (arc_value g.rules).items };

    ghost invariant = { λ g. AreHeadsOf (arc_value g.rules).items g.heads
        × (length (arc_value g.rules).items < rule_bound) };
}

impl Grammar {
    /// The grammar with these rules, which are copied. There are fewer than 4,294,967,295 of them.
    pub fn new(alloc: Global, rules: &[Rule]) -> Result<Grammar, AllocError>
        requires { length rules.now < rule_bound }
        ensures { IfOk result (λ g. g ≡ rules.now) }
    {
        let heads = Heads::new(alloc, rules)?;
        let rules = share_rules(alloc, rules)?;
        Ok(Grammar { rules, heads })
    }

    /// Its rules, in their order. Takes no memory.
    pub fn rules(&self) -> &[Rule]
        ensures value { result.now ≡ self.now }
        ensures few { length self.now < rule_bound }
    {
        &self.rules
    }

    /// The places of its rules' left sides. Takes no memory.
    pub(crate) fn heads(&self) -> &Heads
        ensures { AreHeadsOf self.now result.now }
    {
        &self.heads
    }

    /// Its rules, with one owner more. None is copied.
    pub(crate) fn shared_rules(&self) -> Result<Arc<Vec<Rule>>, AllocError>
        ensures { IfOk result (λ rules. ((arc_value rules).items ≡ self.now)
            × (length (arc_value rules).items < rule_bound)) }
    {
        Arc::try_clone(&self.rules)
    }
}
