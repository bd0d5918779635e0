//! The steps between rules and the labels at their tops.

ghost use Rattle.std.specs.Prelude.{◌≡◌, ◌<◌, ◌≤◌, ◌+◌, ◌^◌, ℕ, List, map, IfOk, OnOk, length, Some, slice_get, nat_eq};
ghost use Rattle.std.specs.HashMap.{get};
ghost use Rattle.qs_levels.specs.Tops.{with_label};
ghost use Rattle.qs_levels.specs.working.Steps.{AreStepsOf, AreNumbered};

use crate::tops::Top;
use qs_tree::Label;
use std::alloc::{AllocError, Global};
use std::collections::HashMap;

/// The labels at the tops of rules, each once, in order of first occurrence, and steps between nodes, which are first
/// the rules and then the labels: from each label at the top of a left side to its rule, and from each rule to the
/// labels at the top of its right side.
#[derive(Drop)]
pub struct Steps {
    pub labels: Vec<Label>,
    pub sources: Vec<usize>,
    pub targets: Vec<usize>,
}

// The steps of these tops of so many rules.
pub fn steps_of(alloc: Global, rules: usize, tops: &[Top]) -> Result<Steps, AllocError>
    requires { rules + length tops.now < 2 ^ 64 }
    ensures steps { IfOk result (λ steps.
        AreStepsOf rules tops.now steps.labels.items steps.sources.items steps.targets.items) }
    ensures few { IfOk result (λ steps. length steps.labels.items ≤ length tops.now) }
{
    let mut labels = Vec::new(alloc);
    let mut numbers = HashMap::new(alloc);
    let mut sources = Vec::with_capacity(alloc, tops.len())?;
    let mut targets = Vec::with_capacity(alloc, tops.len())?;
    for top in tops {
        let node = rules + number_of(&mut labels, &mut numbers, top.label)?;
        if top.right {
            sources.push(top.rule)?;
            targets.push(node)?;
        } else {
            sources.push(node)?;
            targets.push(top.rule)?;
        }
    }
    Ok(Steps {
        labels,
        sources,
        targets,
    })
}

// The number of a label, which is put behind the labels where it is new.
fn number_of(
    labels: &mut Vec<Label>,
    numbers: &mut HashMap<u32, usize>,
    label: Label,
) -> Result<usize, AllocError>
    requires { AreNumbered labels.old.items (λ n. get nat_eq numbers.old n) }
    ensures labels { OnOk result (labels.new.items ≡ with_label labels.old.items label) }
    ensures numbered { OnOk result (AreNumbered labels.new.items (λ n. get nat_eq numbers.new n)) }
    ensures number { IfOk result (λ number. slice_get labels.new.items number ≡ Some label) }
{
    if let Some(number) = numbers.get(&label.0) {
        return Ok(*number);
    }
    let number = labels.len();
    numbers.insert(label.0, number)?;
    labels.push(label)?;
    Ok(number)
}
