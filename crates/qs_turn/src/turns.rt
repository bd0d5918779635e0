//! The value behind its turns, the passes that take them, and the value while it is held.
ghost use Rattle.std.specs.Prelude.{◌≡◌, ◌<◌, ◌≤◌, ◌+◌, ◌-◌, ◌^◌, [], length, IfSome, IfNone, IfOk, All, vec_len};
ghost use Rattle.std.specs.Prelude.{vec_capacity};
ghost use Rattle.qs_turn.specs.Protocol.{first_number};

use crate::Memory;
use crate::protocol::{
    Draw, Enter, JoinPasses, Look, Opening, SeatView, Serve, SplitFirst, TicketRule,
};
use crate::told::Told;
use atomic_table::{Seat, Table};
use std::alloc::Global;
use std::marker::Model;
use std::snapshot::Snapshot;
use std::sync::Wait;
use std::thread;

// The words of the table: the next ticket, the ticket whose turn it is, and how many entries turns have added.
const TICKET: usize = 0;

const SERVING: usize = 1;

const HISTORY: usize = 2;

// How often a pass looks whether its ticket is served before it gives way to other threads. A turn is short, and a
// thread that gave way comes back much later where there is other work.
const MOST_LOOKS: u32 = 1000;

// Its one slot, which has the value while no pass holds a turn.
const VALUE: usize = 0;

/// A value that passes take turns on, by tickets. Tickets are counted modulo 2^64; at most as many are out as there are
/// passes, so the last ticket is no end.
///
/// Where the value may be dropped, the turns may be, with the value in them.
#[derive(Drop)]
pub struct Turns<T: Told> {
    table: Table<Option<T>, SeatView<T, T::Entry>, Opening<T>, TicketRule<T>, Global>,
    ghost words: { table.shared.table_id.words ≡ 3 },
    ghost slots: { table.shared.table_id.slots ≡ 1 },
    ghost some_pass: { 0 < table.shared.key.passes },
}

/// The right to take turns on the value of one `Turns`. It knows its number, the base of the value and the history that
/// it has seen. Contracts alone see its number of turns, which is 0 at the opening and rises with each `Turns::enter`.
///
/// No call changes its number, the base that it knows or which turns it is of. Once a pass is dropped, its turns can't
/// be closed.
pub struct Pass<T: Told> {
    number: u32,
    seat: Seat<Option<T>, SeatView<T, T::Entry>>,
    ghost one: { length seat.me.0.known ≡ 1 },
    ghost number_is: { first_number seat.me.0.known ≡ number },
}

/// The value, for one turn. It can't be dropped: `Turns::leave` takes it back.
pub struct Held<T: Told> {
    value: T,
}

impl<T: Told> Model for Held<T> {
    ghost Value = { T };

    ghost view = { λ h. h.value };
}

impl<T: Told> Turns<T> {
    ghost use Rattle.qs_turn.specs.Protocol.{first_pass_count, first_base, first_seen};
    ghost use Rattle.qs_turn.specs.working.Protocol.{seat_view, opening_view, having_seen, without_first, only_first};
    ghost use Rattle.qs_turn.specs.working.Protocol.{SeesSlot};
    ghost use Rattle.qs_turn.specs.declared.protocol.Stage.TheVariants.{Idle};
    ghost use Rattle.qs_turn.specs.History.{ContinuedByOthers, followed_by};
    ghost use Rattle.qs_turn.specs.Seats.{IsIdle, IsServed};
    ghost use Rattle.qs_turn.specs.working.Seats.{IsSameSeat, IsWaiting, HasTaken, IsGivingBack};
    ghost use Rattle.qs_turn.specs.Passes.{passes_of, IsPassOf, IsSamePass, HoldsNoTurn, HoldsTurn, KnowsBase};
    ghost use Rattle.qs_turn.specs.Passes.{opened_value, number_of, seen_of, turns_of, AreNewPasses};

    /// The turns on a value, and their passes, as many as `passes` says. These are numbered from 0 in order, know the
    /// value's base, have seen the value's history, have taken no turn and hold none.
    ///
    /// `Memory` comes where there was none for the table or the passes. The value is then dropped.
    pub fn open(alloc: Global, value: T, passes: u32) -> Result<(Turns<T>, Vec<Pass<T>>), Memory>
    where
        T: Drop,
        requires { 1 ≤ passes }
        ensures count { IfOk result (λ r. (passes_of r.0 ≡ passes) × (vec_len r.1 ≡ passes)) }
        ensures opened { IfOk result (λ r. opened_value r.0 ≡ value) }
        ensures own { IfOk result (λ r. All (λ p. IsPassOf r.0 p × HoldsNoTurn p) r.1.items) }
        ensures each { IfOk result (λ r. AreNewPasses T.base r.0 (T.base value) (T.history value) r.1.items) }
    {
        let opening = Opening {
            value: Snapshot::of(&value),
            passes,
        };
        let mut slots = Vec::with_capacity(alloc, 1)?;
        slots.push_reserved(Some(value));
        let mut dealt = Vec::with_capacity(alloc, passes as usize)?;
        match Table::new(alloc, &[0, 0, 0], slots, &opening) {
            Ok((table, seat)) => {
                let turns = Turns { table };
                turns.deal(seat, passes, &mut dealt);
                Ok((turns, dealt))
            }
            Err(_refused) => {
                dealt.destroy_empty();
                Err(Memory)
            }
        }
    }

    // One pass for each that the first seat stands for.
    fn deal(
        &self,
        mut seat: Seat<Option<T>, SeatView<T, T::Entry>>,
        passes: u32,
        dealt: &mut Vec<Pass<T>>,
    )
        requires own { (seat.table_id ≡ self.now.table.shared.table_id) × (passes ≡ passes_of self.now) }
        requires seat { let opened = self.now.table.shared.key.value.value in
            seat.me ≡ (opening_view opened (T.history opened) passes, []) }
        requires room { (dealt.old.items ≡ []) × (passes ≤ vec_capacity dealt.old) }
        ensures count { vec_len dealt.new ≡ passes }
        ensures own { All (λ p. IsPassOf self.now p × HoldsNoTurn p) dealt.new.items }
        ensures each { let opened = self.now.table.shared.key.value.value in
            AreNewPasses T.base self.now (T.base opened) (T.history opened) dealt.new.items }
    {
        for number in 0..passes {
            let pass = self.split_first(&mut seat, number);
            dealt.push_reserved(pass);
        }
    }

    // The first pass that the seat stands for, in a seat of its own.
    fn split_first(&self, seat: &mut Seat<Option<T>, SeatView<T, T::Entry>>, number: u32) -> Pass<T>
        requires own { seat.old.table_id ≡ self.now.table.shared.table_id }
        requires idle { IsIdle seat.old }
        requires first { (0 < length seat.old.me.0.known) × (first_number seat.old.me.0.known ≡ number)
            × (first_pass_count seat.old.me.0.known ≡ passes_of self.now) }
        ensures own { IsSameSeat seat.old seat.new }
        ensures others { seat.new.me ≡ (seat_view (without_first seat.old.me.0.known) Idle, []) }
        ensures pass { (result.number ≡ number) × IsPassOf self.now result × HoldsNoTurn result }
        ensures knows { result.seat.me.0.known ≡ only_first seat.old.me.0.known }
    {
        Pass {
            number,
            seat: self.table.shared.split_seat::<SplitFirst>(seat),
        }
    }

    /// Draws a ticket, waits until it is served, and hands out the value. It may wait, also forever: each turn lasts
    /// until its `leave`, and no contract says that a ticket is ever served.
    ///
    /// The value has the base that the pass knows. The pass has then seen the whole history that the value stands for;
    /// what is new in it was entered by other passes.
    pub fn enter<R: Wait>(&self, rt: &R, pass: &mut Pass<T>) -> Held<T>
        requires own { IsPassOf self.now pass.old }
        requires idle { HoldsNoTurn pass.old }
        ensures own { IsPassOf self.now pass.new }
        ensures same { IsSamePass T.base pass.old pass.new }
        ensures turn { HoldsTurn pass.new }
        ensures turns { turns_of pass.new ≡ turns_of pass.old + 1 }
        ensures base { KnowsBase T.base pass.new (T.base result) }
        ensures history { T.history result ≡ seen_of pass.new }
        ensures others { ContinuedByOthers T.pass_of (passes_of self.now) (number_of pass.old) (seen_of pass.old)
            (seen_of pass.new) }
    {
        let ticket = self.draw(&mut pass.seat);
        let mut looks = 0;
        for _ in rt.forever() {
            if let Some(held) = self.take_if_served(&mut pass.seat, ticket) {
                return held;
            }
            if looks < MOST_LOOKS {
                looks += 1;
            } else {
                thread::yield_now();
            }
        }
        unreachable!()
    }

    // A ticket, modulo 2^64.
    fn draw(&self, seat: &mut Seat<Option<T>, SeatView<T, T::Entry>>) -> u64
        requires own { seat.old.table_id ≡ self.now.table.shared.table_id }
        requires idle { IsIdle seat.old × (length seat.old.me.0.known ≡ 1) }
        ensures own { IsSameSeat seat.old seat.new }
        ensures waits { IsWaiting seat.new result }
        ensures known { seat.new.me.0.known ≡ seat.old.me.0.known }
    {
        self.table.shared.fetch_add::<Draw>(seat, TICKET, 1)
    }

    // Looks at the serving word once. Where it says this ticket, the value is taken.
    fn take_if_served(
        &self,
        seat: &mut Seat<Option<T>, SeatView<T, T::Entry>>,
        ticket: u64,
    ) -> Option<Held<T>>
        requires own { seat.old.table_id ≡ self.now.table.shared.table_id }
        requires waits { IsWaiting seat.old ticket }
        ensures own { IsSameSeat seat.old seat.new }
        ensures none { IfNone result (seat.new.me ≡ seat.old.me) }
        ensures some { IfSome result (λ h. HasTaken T.base T.history T.pass_of seat.old seat.new h) }
    {
        if self.table.shared.load::<Look<T>>(seat, SERVING) != ticket {
            return None;
        }
        match self.table.shared.exchange(seat, VALUE, None) {
            Some(value) => Some(Held { value }),
            None => unreachable!(),
        }
    }

    /// Takes the value back, adds the entry to the history where one is given, and serves the next ticket. The pass has
    /// then seen the history to its end, and holds no turn.
    ///
    /// The value is to have the base that it was handed out with. It is to stand for the history that it was handed out
    /// with, followed by the entry, which names this pass: in all fewer than 2^64 - 1 entries.
    pub fn leave(&self, pass: &mut Pass<T>, held: Held<T>, entry: Option<T::Entry>)
        requires own { IsPassOf self.now pass.old }
        requires turn { HoldsTurn pass.old }
        requires base { KnowsBase T.base pass.old (T.base held) }
        requires history { T.history held ≡ followed_by (seen_of pass.old) entry }
        requires names { IfSome entry (λ e. T.pass_of e ≡ number_of pass.old) }
        requires room { length (T.history held) < 2 ^ 64 - 1 }
        ensures own { IsPassOf self.now pass.new }
        ensures same { IsSamePass T.base pass.old pass.new }
        ensures idle { HoldsNoTurn pass.new }
        ensures turns { turns_of pass.new ≡ turns_of pass.old }
        ensures seen { seen_of pass.new ≡ followed_by (seen_of pass.old) entry }
    {
        let Held { value } = held;
        self.give_back(&mut pass.seat, value, entry);
    }

    // The value goes back into the slot, and the slot home, behind the entry.
    fn give_back(
        &self,
        seat: &mut Seat<Option<T>, SeatView<T, T::Entry>>,
        value: T,
        entry: Option<T::Entry>,
    )
        requires own { seat.old.table_id ≡ self.now.table.shared.table_id }
        requires turn { IsServed seat.old × (length seat.old.me.0.known ≡ 1) }
        requires base { first_base T.base seat.old.me.0.known ≡ Some (T.base value) }
        requires history { T.history value ≡ followed_by (first_seen seat.old.me.0.known) entry }
        requires names { IfSome entry (λ e. T.pass_of e ≡ first_number seat.old.me.0.known) }
        requires room { length (T.history value) < 2 ^ 64 - 1 }
        ensures own { IsSameSeat seat.old seat.new }
        ensures idle { seat.new.me ≡ (seat_view (having_seen (T.history value) seat.old.me.0.known) Idle, []) }
    {
        let nothing = self.table.shared.exchange(seat, VALUE, Some(value));
        let None = nothing else { unreachable!() };
        self.enter_history(seat, entry);
        self.table.shared.fetch_add::<Serve>(seat, SERVING, 1);
    }

    // Adds the entry to the history, where there is one. The value lies in the slot by now, which is still out with the
    // seat.
    fn enter_history(
        &self,
        seat: &mut Seat<Option<T>, SeatView<T, T::Entry>>,
        entry: Option<T::Entry>,
    )
        requires own { seat.old.table_id ≡ self.now.table.shared.table_id }
        requires turn { IsGivingBack T.history T.pass_of seat.old entry }
        ensures own { IsSameSeat seat.old seat.new }
        ensures seen { SeesSlot T.history seat.old.me seat.new.me }
    {
        if let Some(_entry) = entry {
            self.table.shared.fetch_add::<Enter<T>>(seat, HISTORY, 1);
        }
    }

    /// Gives the value back, once all passes that `open` gave are there and none holds a turn. It has the base that the
    /// passes know. Its history begins with what each pass has seen; what follows was entered by other passes.
    pub fn close(self, mut passes: Vec<Pass<T>>) -> T
        requires own { All (λ p. IsPassOf self p × HoldsNoTurn p) passes.items }
        requires all { vec_len passes ≡ passes_of self }
        ensures base { All (λ p. KnowsBase T.base p (T.base result)) passes.items }
        ensures history { All (λ p. ContinuedByOthers T.pass_of (passes_of self) (number_of p) (seen_of p)
            (T.history result)) passes.items }
    {
        let Turns { table } = self;
        let Some(last) = passes.pop() else {
            unreachable!()
        };
        let mut seat = last.into_seat();
        while let Some(pass) = passes.pop() {
            table
                .shared
                .join_seat::<JoinPasses>(&mut seat, pass.into_seat());
        }
        passes.destroy_empty();
        let mut closed = table.close_with(seat);
        let slot = closed.take(VALUE);
        closed.free();
        let Some(value) = slot else { unreachable!() };
        value
    }
}

impl<T: Told> Pass<T> {
    ghost use Rattle.qs_turn.specs.Passes.{number_of};

    /// The number of the pass, which is below the number of passes. The entries that it enters name it by this.
    pub fn number(&self) -> u32
        ensures { result ≡ number_of self.now }
    {
        self.number
    }

    fn into_seat(self) -> Seat<Option<T>, SeatView<T, T::Entry>>
        ensures { result ≡ self.seat }
    {
        let Self { number: _, seat } = self;
        seat
    }
}

impl<T: Told> Held<T> {
    ghost use Rattle.std.specs.Borrow.{sem};
    ghost use Rattle.qs_turn.specs.Lending.{LendsValue};

    /// The value, which may be changed through this. Its base is to stay.
    pub fn value(&mut self) -> &mut T
        ensures* writes_back { sem 𝓛 (LendsValue T.row T.Entry.row T.Told self.entry result) }
        ensures value { result.now ≡ self.old }
    {
        &mut self.value
    }
}

// By hand, since a derive would ask for `T: Drop`.
impl<T: Told> Drop for Pass<T> {
    fn drop(self) {
        let Self { number: _, seat: _ } = self;
    }
}
