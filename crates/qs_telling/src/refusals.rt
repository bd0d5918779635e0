//! Writing why a text is refused.

ghost use Rattle.std.specs.Prelude.{◌≡◌, IfOk};
ghost use Rattle.qs_telling.specs.Texts.{refusal_line};

use crate::blocks::append_number;
use qs_lex::Refusal;
use std::alloc::{AllocError, Global};

/// The line that tells the first fault of a text.
pub fn refusal_line(alloc: Global, refusal: &Refusal) -> Result<Vec<u8>, AllocError>
    ensures { IfOk result (λ line. line.items ≡ refusal_line refusal.now) }
{
    let mut line = b"-REFUS- ".to_vec(alloc)?;
    append_number(alloc, refusal.line, &mut line)?;
    line.extend_from_slice(b" ")?;
    append_number(alloc, refusal.column, &mut line)?;
    line.extend_from_slice(b" ")?;
    line.extend_from_slice(refusal.cause.name().as_bytes())?;
    line.extend_from_slice(b".\n")?;
    Ok(line)
}
