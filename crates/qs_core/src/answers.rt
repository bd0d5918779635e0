//! What the machine answers.

/// How a run has ended: every arc is done; more firings are needed than the limit; or a seat couldn't go on.
#[derive(Clone, Copy, Debug, PartialEq, Eq)]
pub enum End {
    Closed,
    Over,
    Halted,
}

/// What a claim gives: the arc with this number is claimed; no arc waits, but another seat may still add some; or the
/// run has ended.
#[derive(Clone, Copy, Debug, PartialEq, Eq)]
pub enum Claim {
    Took(u32),
    NotYet,
    Ended(End),
}

/// What a publication gives: the firing is done, and its result begins with the arc of this number; the limit's firings
/// are done already, which stops the run; or the run has ended before.
#[derive(Clone, Copy, Debug, PartialEq, Eq)]
pub enum Put {
    Published(u32),
    Over,
    Ended(End),
}
