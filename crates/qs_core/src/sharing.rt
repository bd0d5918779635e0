//! Rules with several owners.

ghost use Rattle.std.specs.Prelude.{◌≡◌, IfOk};
ghost use Rattle.std.specs.Arc.{arc_value};

use qs_pattern::Rule;
use std::alloc::{AllocError, Global};
use std::sync::Arc;

/// Copies of these rules, which may have further owners.
pub fn share_rules(alloc: Global, rules: &[Rule]) -> Result<Arc<Vec<Rule>>, AllocError>
    ensures { IfOk result (λ shared. (arc_value shared).items ≡ rules.now) }
{
    let mut copies = Vec::with_capacity(alloc, rules.len())?;
    for rule in rules {
        copies.push(rule.copy()?)?;
    }
    Ok(Arc::new(alloc, copies)?)
}
