//! Steps, stops and the statuses of arcs.

ghost use Rattle.std.specs.Prelude.{◌≡◌};
ghost use Rattle.qs_core.specs.Answers.{end_of_stop};

use crate::answers::End;

/// A step that a seat makes: it claims an arc, and what it had claimed before is done; or what it had claimed is done,
/// and no arc waits; or it publishes, so that the next firing of the work of its arc is done.
#[derive(Clone, Copy, Debug, PartialEq, Eq)]
pub enum Step {
    Claim { seat: u32, arc: u32 },
    Rest { seat: u32 },
    Publish { seat: u32 },
}

/// How a seat stops a run: more firings are needed than the limit, or the seat can't go on.
#[derive(Clone, Copy, Debug, PartialEq, Eq)]
pub enum Stop {
    Over { seat: u32 },
    Halted { seat: u32 },
}

impl Stop {
    /// The end to which it leads. Takes no memory.
    pub fn end(self) -> End
        ensures { result ≡ end_of_stop self }
    {
        match self {
            Stop::Over { .. } => End::Over,
            Stop::Halted { .. } => End::Halted,
        }
    }
}

/// Of an arc: it waits; a seat has claimed it, with this number of firings of its work published; or all of its work is
/// done.
#[derive(Clone, Copy, Debug, PartialEq, Eq)]
pub enum Status {
    Waiting,
    Claimed { seat: u32, published: u32 },
    Done,
}
