//! What is entered.

use qs_core::{Step, Stop};

/// What a turn enters in the history of a machine: a step that a seat makes, or the stop of a seat, behind which
/// nothing is entered. It names the pass whose number is its seat.
#[derive(Clone, Copy, Debug, PartialEq, Eq)]
pub enum Entry {
    Step(Step),
    Stop(Stop),
}
