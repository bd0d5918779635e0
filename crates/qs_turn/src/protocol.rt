//! How turns go: what a seat knows, the rule of the table, and what each step tells.
//!
//! The kinds of atomic step are: draw a ticket (`Draw`); look at the serving word, and take the value where it says the
//! own ticket (`Look`); enter the history (`Enter`); give the value back, and serve the next ticket (`Serve`); split a
//! seat (`SplitFirst`); join a seat (`JoinPasses`).
ghost use Rattle.std.specs.Prelude.{ℕ, List};

use crate::told::Told;
use atomic_table::{Join, Play, Split, TableRule};
use std::collections::LinkedList;
use std::marker::PhantomData;
use std::snapshot::Snapshot;

/// What one pass knows. It exists in proofs alone.
pub struct PassView<T, E> {
    pub number: u32,
    /// How many passes were made.
    pub pass_count: u32,
    /// A value with the base that the pass knows.
    pub origin: T,
    /// The history that it has seen.
    pub seen: LinkedList<E>,
    /// How many turns it has taken.
    pub turns: u64,
}

/// How far a seat has come in a turn.
pub enum Stage {
    Idle,
    /// It has drawn this ticket.
    Waiting(u64),
    /// It is the turn of this ticket, and the value is out with the seat.
    Served(u64),
}

/// What a seat knows: what each pass knows that it stands for, and its stage. It exists in proofs alone.
pub struct SeatView<T, E> {
    pub known: LinkedList<PassView<T, E>>,
    pub stage: Stage,
}

/// What the table is told once, when it is made: the value, which this keeps in proofs alone, and the number of passes.
#[derive(Drop)]
pub struct Opening<T> {
    pub value: Snapshot<T>,
    pub passes: u32,
}

pub struct TicketRule<T> {
    marker: PhantomData<T>,
}

impl<T: Told> TableRule<Option<T>, SeatView<T, T::Entry>, Opening<T>> for TicketRule<T> {
    ghost use Rattle.qs_turn.specs.working.Protocol.{TurnRule, opening_view};

    ghost holds = { λ k. TurnRule T.base T.history T.pass_of (T.base k.value.value)
        (T.history k.value.value) k.passes };

    ghost first = { λ k. opening_view k.value.value (T.history k.value.value) k.passes };
}

pub struct Draw;

impl<T, E> Play<Option<T>, SeatView<T, E>> for Draw {
    ghost use Rattle.qs_turn.specs.working.Protocol.{Draws};

    ghost then = { Draws };
}

pub struct Look<T> {
    marker: PhantomData<T>,
}

impl<T: Told> Play<Option<T>, SeatView<T, T::Entry>> for Look<T> {
    ghost use Rattle.qs_turn.specs.working.Protocol.{Looks};

    ghost then = { Looks T.base T.history T.pass_of };
}

pub struct Enter<T> {
    marker: PhantomData<T>,
}

impl<T: Told> Play<Option<T>, SeatView<T, T::Entry>> for Enter<T> {
    ghost use Rattle.qs_turn.specs.working.Protocol.{Enters};

    ghost then = { Enters T.history };
}

pub struct Serve;

impl<T, E> Play<Option<T>, SeatView<T, E>> for Serve {
    ghost use Rattle.qs_turn.specs.working.Protocol.{Serves};

    ghost then = { Serves };
}

/// The first pass goes to a seat of its own.
pub struct SplitFirst;

impl<T, E> Split<SeatView<T, E>> for SplitFirst {
    ghost use Rattle.qs_turn.specs.working.Protocol.{later_passes, first_pass};

    ghost left = { later_passes };

    ghost right = { first_pass };
}

/// One seat takes in the passes of another, which then stands for none.
pub struct JoinPasses;

impl<T, E> Join<SeatView<T, E>> for JoinPasses {
    ghost use Rattle.qs_turn.specs.working.Protocol.{together, no_pass};

    ghost both = { together };

    ghost spent = { no_pass };
}
