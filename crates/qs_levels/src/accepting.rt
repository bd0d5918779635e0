//! Whether a level certificate fits rules.

ghost use Rattle.std.specs.Prelude.{◌≡◌, ◌<◌, ◌-◌, ◌^◌, ◌↔◌, ℕ, IsTrue, IfOk, MatchOption, length, nat_eq};
ghost use Rattle.std.specs.HashMap.{get};
ghost use Rattle.qs_pattern.specs.Patterns.{patterns};
ghost use Rattle.qs_pattern.specs.Rules.{IsAccepted};
ghost use Rattle.qs_graph.specs.Graphs.{QGraph};
ghost use Rattle.qs_levels.specs.Certificates.{Fits, ClosesBefore};
ghost use Rattle.qs_levels.specs.working.Accepting.{IsWellFormed, AreLevels, HasLevels, IsGreatestOf, AreAbove, Rises};

use crate::levels::Levels;
use crate::tops::top_label;
use qs_pattern::{Pattern, Rule};
use std::alloc::{AllocError, Global};
use std::collections::HashMap;

/// Whether a level certificate fits rules, of which there are fewer than 4,294,967,295. Where it does, the rules close
/// on every graph before the m-th round, with m its number of levels: the m-th round is empty. `Memory` comes only
/// where memory is wanting.
pub fn accepts(alloc: Global, rules: &[Rule], levels: &Levels) -> Result<bool, AllocError>
    requires { length rules.now < 2 ^ 32 - 1 }
    ensures fits { IfOk result (λ b. IsTrue b ↔ Fits rules.now levels.now) }
    ensures bound { IfOk result (λ b. IsTrue b → (G : QGraph) → ClosesBefore rules.now G levels.now.count) }
{
    let Some(known) = known_levels(alloc, levels)? else {
        return Ok(false);
    };
    for rule in rules {
        if !rises(&known, rule) {
            return Ok(false);
        }
    }
    Ok(true)
}

// The levels by the numbers of their labels. None where there is no level, where one isn't below their number, or
// where a label has two.
fn known_levels(alloc: Global, levels: &Levels) -> Result<Option<HashMap<u32, u32>>, AllocError>
    ensures { IfOk result (λ o. MatchOption o (IsWellFormed levels.now → ⊥) (λ known. IsWellFormed levels.now
        × AreLevels levels.now.of (λ n. get nat_eq known n))) }
{
    if levels.count == 0 {
        return Ok(None);
    }
    let mut known = HashMap::new(alloc);
    for (label, level) in &levels.of {
        if *level >= levels.count {
            return Ok(None);
        }
        if known.insert(label.0, *level)?.is_some() {
            return Ok(None);
        }
    }
    Ok(Some(known))
}

// Whether each level at the top of a rule's right side is greater than each at the top of its left side.
fn rises(known: &HashMap<u32, u32>, rule: &Rule) -> bool
    ensures rises { IsTrue result ↔ Rises (λ n. get nat_eq known.now n) rule.now }
    ensures accepted { IsAccepted rule.now }
{
    match greatest_level(known, rule.left()) {
        Some(greatest) => are_above(known, rule.right(), greatest),
        None => false,
    }
}

// The greatest level at the top of a side. None where a pattern there isn't a node with a label as head that has one.
fn greatest_level(known: &HashMap<u32, u32>, side: &[Pattern]) -> Option<u32>
    ensures { MatchOption result (HasLevels (λ n. get nat_eq known.now n) (patterns side.now) → ⊥)
        (λ greatest. IsGreatestOf (λ n. get nat_eq known.now n) (patterns side.now) greatest) }
{
    let mut greatest: u32 = 0;
    for pattern in side {
        let Some(label) = top_label(pattern) else {
            return None;
        };
        let Some(level) = known.get(&label.0) else {
            return None;
        };
        greatest = greatest.max(*level);
    }
    Some(greatest)
}

// Whether each pattern at the top of a side is a node with a label as head that has a level above the floor.
fn are_above(known: &HashMap<u32, u32>, side: &[Pattern], floor: u32) -> bool
    ensures { IsTrue result ↔ AreAbove (λ n. get nat_eq known.now n) (patterns side.now) floor }
{
    for pattern in side {
        let Some(label) = top_label(pattern) else {
            return false;
        };
        let Some(level) = known.get(&label.0) else {
            return false;
        };
        if *level <= floor {
            return false;
        }
    }
    true
}
