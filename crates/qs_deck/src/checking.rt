//! The checks of the grammars of a written deck.

ghost use Rattle.std.specs.Prelude.{◌≡◌, ◌<◌, ◌≤◌, IfOk, IfErr, length, map};
ghost use Rattle.std.specs.List.{All};
ghost use Rattle.qs_pattern.specs.Limits.{rule_bound};
ghost use Rattle.qs_deck.specs.Limits.{most_systems};
ghost use Rattle.qs_check.specs.Checking.{CanBeChecked};
ghost use Rattle.qs_deck.specs.Decks.{rule_of, grammar_of, meaning_of};
ghost use Rattle.qs_deck.specs.WrittenDecks.{rules_of};
ghost use Rattle.qs_deck.specs.working.Checked.{AreAccepted, IsFirstRefused, IsFirstFault};

use crate::system::System;
use crate::written::RawSystem;
use qs_check::{CheckEnd, check};
use qs_lex::Cause;
use qs_pattern::Rule;
use qs_ruletext::RawRule;
use std::alloc::Global;

/// The most grammars of a deck.
const MOST_SYSTEMS: usize = 256;

/// The rules, each of which is accepted, with this mark; or the first cause why the first that isn't accepted isn't.
fn checked_rules(alloc: Global, raws: Vec<RawRule>, unique: bool) -> Result<Vec<Rule>, CheckEnd>
    requires { All CanBeChecked raws.items }
    ensures rules { IfOk result (λ rules. rules.items ≡ map (rule_of unique) raws.items) }
    ensures accepted { IfOk result (λ _. AreAccepted raws.items) }
    ensures refused { IfErr result (IsFirstRefused raws.items) }
{
    let mut rules = Vec::new(alloc);
    for raw in raws {
        let rule = check(alloc, raw, unique)?;
        rules.push(rule)?;
    }
    Ok(rules)
}

/// The grammar, where each of its rules is accepted; or the first cause why the first that isn't accepted isn't.
fn checked_system(alloc: Global, system: RawSystem) -> Result<System, CheckEnd>
    requires can { All CanBeChecked system.rules }
    requires few { length system.rules < rule_bound }
    ensures system { IfOk result (λ checked. grammar_of checked ≡ meaning_of system) }
    ensures accepted { IfOk result (λ _. AreAccepted system.rules) }
    ensures refused { IfErr result (IsFirstRefused system.rules) }
{
    let RawSystem {
        name,
        unique,
        rules,
        ..
    } = system;
    let rules = checked_rules(alloc, rules, unique)?;
    Ok(System {
        name,
        unique,
        rules,
    })
}

/// The grammars, where each of their rules is accepted; or the first cause why the first that isn't accepted isn't.
fn checked_systems(alloc: Global, systems: Vec<RawSystem>) -> Result<Vec<System>, CheckEnd>
    requires can { All CanBeChecked (rules_of systems.items) }
    requires few { All (λ system. length system.rules < rule_bound) systems.items }
    ensures systems { IfOk result (λ checked. map grammar_of checked.items ≡ map meaning_of systems.items) }
    ensures accepted { IfOk result (λ _. AreAccepted (rules_of systems.items)) }
    ensures refused { IfErr result (IsFirstRefused (rules_of systems.items)) }
{
    let mut checked = Vec::new(alloc);
    for system in systems {
        let next = checked_system(alloc, system)?;
        checked.push(next)?;
    }
    Ok(checked)
}

/// The grammars of a written deck, where there are at most 256 and each of their rules is accepted; or the first fault:
/// the word `-SYSTEME-` of the 257th grammar, or the first cause why the first rule that isn't accepted isn't.
pub fn checked(alloc: Global, systems: Vec<RawSystem>) -> Result<Vec<System>, CheckEnd>
    requires can { All CanBeChecked (rules_of systems.items) }
    requires few { All (λ system. length system.rules < rule_bound) systems.items }
    ensures systems { IfOk result (λ checked. map grammar_of checked.items ≡ map meaning_of systems.items) }
    ensures few { IfOk result (λ _. length systems.items ≤ most_systems) }
    ensures accepted { IfOk result (λ _. AreAccepted (rules_of systems.items)) }
    ensures refused { IfErr result (IsFirstFault systems.items) }
{
    if let Some(system) = systems.get(MOST_SYSTEMS) {
        return Err(CheckEnd::Refused {
            cause: Cause::TooManySystems,
            at: system.at,
        });
    }
    checked_systems(alloc, systems)
}
