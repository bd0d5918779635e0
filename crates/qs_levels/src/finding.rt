//! The least level certificate of rules.

ghost use Rattle.std.specs.Prelude.{◌≡◌, ◌<◌, ◌-◌, ◌^◌, IfOk, IfSome, length};
ghost use Rattle.qs_graph.specs.Graphs.{QGraph};
ghost use Rattle.qs_levels.specs.Certificates.{ClosesBefore, IsFound};

use crate::levels::Levels;
use crate::ordering::depths_of;
use crate::steps::steps_of;
use crate::tops::tops_of;
use qs_pattern::Rule;
use std::alloc::{AllocError, Global};

/// The least level certificate that fits rules, of which there are fewer than 4,294,967,295: the labels at their tops
/// in order of first occurrence, left side before right side, rule after rule, each with the least level that it has in
/// any certificate that fits, and as number of levels one more than the greatest of them, or 1 where there is no label.
/// None exactly where no certificate fits. Where there is one, the rules close on every graph before the m-th round,
/// with m its number of levels: the m-th round is empty. `Memory` comes only where memory is wanting.
pub fn find(alloc: Global, rules: &[Rule]) -> Result<Option<Levels>, AllocError>
    requires { length rules.now < 2 ^ 32 - 1 }
    ensures found { IfOk result (λ o. IsFound rules.now o) }
    ensures bound { IfOk result (λ o. IfSome o (λ levels. (G : QGraph) → ClosesBefore rules.now G levels.count)) }
{
    let Some(tops) = tops_of(alloc, rules)? else {
        return Ok(None);
    };
    let steps = steps_of(alloc, rules.len(), &tops)?;
    let Some(nodes) = depths_of(alloc, rules.len() + steps.labels.len(), &steps)? else {
        return Ok(None);
    };
    let mut of = Vec::with_capacity(alloc, steps.labels.len())?;
    let mut count: u32 = 1;
    for (place, label) in steps.labels.iter().enumerate() {
        let level = (nodes[rules.len() + place].depth / 2) as u32;
        of.push((*label, level))?;
        count = count.max(level + 1);
    }
    Ok(Some(Levels { count, of }))
}
