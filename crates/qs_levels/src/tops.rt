//! The labels at the tops of rules.

ghost use Rattle.std.specs.Prelude.{◌≡◌, ◌≤◌, ◌*◌, ◌++◌, IfOk, OnOk, MatchOption, IfSome, Ok, true, false, length};
ghost use Rattle.qs_tree.specs.Lists.{◌∈◌};
ghost use Rattle.qs_pattern.specs.Patterns.{patterns};
ghost use Rattle.qs_pattern.specs.Rules.{Rule as RuleOfPatterns, IsAccepted};
ghost use Rattle.qs_levels.specs.Tops.{HasLabelsAtTop};
ghost use Rattle.qs_levels.specs.working.Tops.{label_at_top, tops_of_side, tops_from, HaveLabelsAtTops};

use qs_pattern::{Head, Pattern, Rule};
use qs_tree::Label;
use std::alloc::{AllocError, Global};

/// A label at the top of a rule: the number of the rule, whether it stands in the right side, and the label.
#[derive(Clone, Copy)]
pub struct Top {
    pub rule: usize,
    pub right: bool,
    pub label: Label,
}

// The label of a node with a label as head. None for every other pattern.
pub fn top_label(pattern: &Pattern) -> Option<Label>
    ensures { result ≡ label_at_top pattern.now }
{
    match pattern {
        Pattern::Node { head, .. } => match head {
            Head::Label(label) => Some(*label),
            Head::Var(_) => None,
        },
        _ => None,
    }
}

// The labels at the tops of the rules, rule after rule, those of a left side before those of its right side. None
// where a pattern at a top isn't a node with a label as head.
pub fn tops_of(alloc: Global, rules: &[Rule]) -> Result<Option<Vec<Top>>, AllocError>
    ensures none { IfOk result (λ o. MatchOption o (¬ HaveLabelsAtTops rules.now) (λ v. HaveLabelsAtTops rules.now)) }
    ensures tops { IfOk result (λ o. IfSome o (λ v. v.items ≡ tops_from 0 rules.now)) }
    ensures accepted { IfOk result (λ o. IfSome o (λ v. (rule : RuleOfPatterns) → rule ∈ rules.now → IsAccepted rule)) }
{
    let mut tops = Vec::new(alloc);
    for (number, rule) in rules.iter().enumerate() {
        if !add_side(&mut tops, number, false, rule.left())? {
            return Ok(None);
        }
        if !add_side(&mut tops, number, true, rule.right())? {
            return Ok(None);
        }
    }
    Ok(Some(tops))
}

// Appends the labels at the top of a side. False where one of its patterns isn't a node with a label as head.
fn add_side(
    tops: &mut Vec<Top>,
    rule: usize,
    right: bool,
    side: &[Pattern],
) -> Result<bool, AllocError>
    ensures no { result ≡ Ok false → ¬ HasLabelsAtTop (patterns side.now) }
    ensures yes { result ≡ Ok true → HasLabelsAtTop (patterns side.now) }
    ensures tops { result ≡ Ok true → tops.new.items ≡ tops.old.items ++ tops_of_side rule right (patterns side.now) }
{
    for pattern in side {
        let Some(label) = top_label(pattern) else {
            return Ok(false);
        };
        tops.push(Top { rule, right, label })?;
    }
    Ok(true)
}
