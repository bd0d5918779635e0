//! How many parentheses are open.

ghost use Rattle.std.specs.Prelude.{◌≡◌, ℕ, ◌<◌, IsNone, IfSome, IfNone};
ghost use Rattle.qs_lex.specs.Nesting.{IsTooDeep};

use crate::token::{Kind, Token};

/// How many parentheses may be open.
const MOST_OPEN: u32 = 1000;

/// The index of the first opening parenthesis behind which more than 1,000 are open; `None` exactly where there is
/// none. A closing one lowers the number, never below 0. It takes no memory.
pub fn too_deep(tokens: &[Token]) -> Option<usize>
    ensures some { IfSome result (IsTooDeep tokens.now) }
    ensures first { IfSome result (λ index. (earlier : ℕ) → earlier < index → IsTooDeep tokens.now earlier → ⊥) }
    ensures none { IfNone result ((index : ℕ) → IsTooDeep tokens.now index → ⊥) }
{
    let mut open = 0;
    for (i, token) in tokens.iter().enumerate() {
        match token.kind {
            Kind::Opening => {
                open += 1;
                if open > MOST_OPEN {
                    return Some(i);
                }
            }
            Kind::Closing => open = open.saturating_sub(1),
            _ => {}
        }
    }
    None
}
