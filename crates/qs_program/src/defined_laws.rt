//! A law of what is defined, over its definition alone.

ghost use Rattle.std.specs.Prelude.{◌≡◌, ℕ, List};
ghost use Rattle.qs_command.specs.declared.job.Job.{Job};
ghost use Rattle.qs_command.specs.declared.status.Status.{Status};
ghost use Rattle.qs_program.specs.Defined.{IsDefined};

use qs_clean::laws::one_cascade;
use qs_deck::laws::{one_answer, one_phrase_text};
use qs_telling::laws::one_outcome;

/// For each job and all bytes one text is defined, with one status.
pub fn one_definition()
    ensures some { (job : Job) (bytes : List ℕ)
        → (text : List ℕ) × (status : Status) × IsDefined job bytes text status }
    ensures one { (job : Job) (bytes t u : List ℕ) (s r : Status)
        → IsDefined job bytes t s → IsDefined job bytes u r → (t ≡ u) × (s ≡ r) }
{
    one_answer();
    one_phrase_text();
    one_cascade();
    one_outcome();
}
