//! The status of a run, by how its last grammar ends.

ghost use Rattle.std.specs.Prelude.{◌≡◌, ◌⊎◌};
ghost use Rattle.qs_program.specs.Defined.{status_of};
ghost use Rattle.qs_program.specs.Answers.{IsOfWholeText};
ghost use Rattle.qs_program.specs.working.Ends.{ending_of};

use qs_cascade::StageEnd;
use qs_command::Status;

/// The status of a run whose last grammar ends so.
pub(crate) fn status_of(end: &StageEnd) -> Status
    ensures value { result ≡ status_of (ending_of end.now) }
    ensures whole { IsOfWholeText result }
    ensures kinds { (result ≡ Status.Done) ⊎ (result ≡ Status.Limit) }
{
    match end {
        StageEnd::Left { .. } | StageEnd::Empty { .. } => Status::Done,
        StageEnd::Over => Status::Limit,
    }
}
