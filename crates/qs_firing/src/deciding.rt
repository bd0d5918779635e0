//! Whether a firing fires.

ghost use Rattle.std.specs.Prelude.{◌≡◌, ◌<◌, ◌↔◌, List, length, IsTrue, IfOk};
ghost use Rattle.qs_tree.specs.Trees.{Tree};
ghost use Rattle.qs_tree.specs.Cells.{trees_of};
ghost use Rattle.qs_pattern.specs.Limits.{rule_bound};
ghost use Rattle.qs_pattern.specs.Patterns.{patterns, AreInClass};
ghost use Rattle.qs_pattern.specs.Substitutions.{variables_of};
ghost use Rattle.qs_pattern.specs.Instances.{variables, IsMatch};
ghost use Rattle.qs_pattern.specs.Conditions.{HoldsIfGiven};
ghost use Rattle.qs_pattern.specs.Rules.{Rule as RuleOfPatterns, IsAccepted};
ghost use Rattle.qs_graph.specs.Graphs.{IsPath, trees_on};
ghost use Rattle.qs_firing.specs.Firings.{Fires};

use crate::firing::Firing;
use crate::paths::{is_path, trees_on};
use crate::view::View;
use qs_pattern::{Pattern, Rule, Subst, Value, Var, forest_of, holds, variables};
use qs_tree::{ForestRef, same_forest};
use std::alloc::{AllocError, Global};

// The variables of the pairs, in order.
fn variables_of(alloc: Global, pairs: &[(Var, Value)]) -> Result<Vec<Var>, AllocError>
    ensures { IfOk result (λ v. v.items ≡ variables_of pairs.now) }
{
    pairs.iter().map(|pair| pair.0).collect(alloc)
}

// Whether the pairs have exactly the variables of the side, in the order of their first occurrences.
fn has_variables(
    alloc: Global,
    side: &[Pattern],
    pairs: &[(Var, Value)],
) -> Result<bool, AllocError>
    ensures { IfOk result (λ b. IsTrue b ↔ (variables_of pairs.now ≡ variables (patterns side.now))) }
{
    let given = variables_of(alloc, pairs)?;
    Ok(given == variables(alloc, side)?)
}

// Whether the substitution is a match of the side with these trees.
fn is_match(
    alloc: Global,
    side: &[Pattern],
    trees: ForestRef<'_>,
    subst: &Subst,
) -> Result<bool, AllocError>
    requires { AreInClass (patterns side.now) }
    ensures { IfOk result (λ b. IsTrue b ↔ IsMatch (patterns side.now) (trees_of trees.entry.cells.now) subst.now) }
{
    if !has_variables(alloc, side, subst.pairs())? {
        return Ok(false);
    }
    let instance = forest_of(alloc, side, subst)?;
    Ok(same_forest(instance.view(), trees))
}

/// Whether the rule's condition, if it has one, holds under a match of the rule's left side.
pub fn is_allowed(alloc: Global, rule: &Rule, subst: &Subst) -> Result<bool, AllocError>
    requires { (trees : List Tree) × IsMatch rule.now.left trees subst.now }
    ensures { IfOk result (λ b. IsTrue b ↔ HoldsIfGiven rule.now.condition subst.now) }
{
    match rule.cond() {
        Some(condition) => holds(alloc, condition, subst),
        None => Ok(true),
    }
}

/// Whether the firing fires: it is one of these rules over the arcs of the view. A firing of a rule or an arc that
/// isn't there doesn't fire. There are fewer than 4,294,967,295 rules.
pub fn fires(
    alloc: Global,
    rules: &[Rule],
    view: &View,
    firing: &Firing,
) -> Result<bool, AllocError>
    requires { length rules.now < rule_bound }
    ensures { IfOk result (λ b. IsTrue b ↔ Fires rules.now view.now firing.now) }
{
    let Some(rule) = rules.get(firing.rule as usize) else {
        return Ok(false);
    };
    if firing.path.len() != rule.left().len() || !is_path(view, &firing.path) {
        return Ok(false);
    }
    let trees = trees_on(alloc, view, &firing.path)?;
    if !is_match(alloc, rule.left(), trees.view(), &firing.subst)? {
        return Ok(false);
    }
    is_allowed(alloc, rule, &firing.subst)
}
