//! A machine that lies behind turns.

ghost use Rattle.std.specs.Prelude.{◌≡◌, ◌<◌, ◌-◌, ◌^◌, ◌++◌, ◌⊎◌, List, length, slice_get, None, IfOk, OnErr};
ghost use Rattle.qs_graph.specs.Graphs.{Arc};
ghost use Rattle.qs_firing.specs.Work.{IsRightFor};
ghost use Rattle.qs_core.specs.Core.{IsFree, HasClaim};
ghost use Rattle.qs_core.specs.Runs.{IsReplayed};
ghost use Rattle.qs_core.specs.Answers.{IsClaimed, IsPublished, IsHalted};
ghost use Rattle.qs_board.specs.History.{history_of};
ghost use Rattle.qs_board.specs.Calls.{HasAllIfTook};

use crate::entry::Entry;
use qs_core::{Claim, Put, State};
use qs_firing::{Joined, View};
use qs_turn::{Held, Told};
use std::alloc::AllocError;
use std::marker::Model;

/// A machine that lies behind turns. Contracts see it as the machine. Its base is what no step of the machine changes:
/// its rules, the graph from which it starts, its limit and its number of seats. It stands for the history of the
/// machine.
#[derive(Drop)]
pub struct Kept {
    // It stands on the heap, since a turn moves it there and back.
    pub(crate) state: Box<State>,
}

impl Model for Kept {
    ghost use Rattle.qs_core.specs.Runs.{MachineWithRoom};
    ghost use Rattle.qs_core.specs.working.Codes.{machine_code};

    ghost Value = { MachineWithRoom };

    ghost coded = { machine_code };

    ghost view = { λ k. k.state.value };
}

impl Told for Kept {
    type Entry = Entry;

    ghost use Rattle.qs_core.specs.Core as core;
    ghost use Rattle.qs_board.specs.History.{kept_base, kept_history, entry_seat};

    ghost Base = { core.Base };

    ghost base = { kept_base };

    ghost history = { kept_history };

    ghost pass_of = { entry_seat };
}

// How many entries the history of the machine has.
pub(crate) fn entry_count(state: &State) -> usize
    ensures count { result ≡ length (history_of state.now.machine) }
    ensures replayed { IsReplayed state.now.machine }
{
    let steps = state.journal().len();
    match state.stop() {
        None => steps,
        Some(_) => steps + 1,
    }
}

// The entry at this place of the history of the machine, where there is one.
pub(crate) fn entry_at(state: &State, at: usize) -> Option<Entry>
    ensures value { result ≡ slice_get (history_of state.now.machine) at }
    ensures replayed { IsReplayed state.now.machine }
    ensures few { length (history_of state.now.machine) < 2 ^ 64 - 1 }
{
    let journal = state.journal();
    if let Some(step) = journal.get(at) {
        return Some(Entry::Step(*step));
    }
    match state.stop() {
        Some(stop) if at == journal.len() => Some(Entry::Stop(stop)),
        _ => None,
    }
}

// The seat claims an arc, once the view has all arcs, if one waits: else the view stays as it was. After `Memory` the
// machine is as before.
pub(crate) fn claim_held(
    held: &mut Held<Kept>,
    seat: u32,
    view: &mut View,
) -> Result<Claim, AllocError>
    requires view { (more : List Arc) × (held.old.machine.state.graph.arcs ≡ view.old ++ more) }
    requires seat { seat < held.old.machine.base.seats }
    requires free { IsFree held.old.machine.base held.old.machine.state seat }
    ensures ok { IfOk result (λ a. IsClaimed held.old.machine seat a held.new.machine
        × HasAllIfTook a held.old.machine.state.graph.arcs view.new) }
    ensures err { OnErr result (held.new.machine ≡ held.old.machine) }
    ensures view { (view.new ≡ view.old) ⊎ (view.new ≡ held.old.machine.state.graph.arcs) }
{
    let state = &mut held.value().state;
    if state.has_waiting() {
        state.catch_up(view)?;
    }
    state.reserve_step()?;
    Ok(state.claim(seat))
}

// The seat publishes the k-th firing of this work. After `Memory` the machine is as before.
pub(crate) fn publish_held(
    held: &mut Held<Kept>,
    seat: u32,
    work: &Joined,
    k: u32,
) -> Result<Put, AllocError>
    requires claim { held.old.machine.state.stop ≡ None → HasClaim held.old.machine.state seat work.now.arc k }
    requires more { held.old.machine.state.stop ≡ None → k < length work.now.made }
    requires right { held.old.machine.state.stop ≡ None
        → IsRightFor held.old.machine.base.rules held.old.machine.state.graph.arcs work.now }
    ensures ok { IfOk result (λ a. IsPublished held.old.machine seat work.now k a held.new.machine) }
    ensures err { OnErr result (held.new.machine ≡ held.old.machine) }
{
    held.value().state.publish(seat, work, k)
}

// The seat halts the run.
pub(crate) fn halt_held(held: &mut Held<Kept>, seat: u32)
    requires { seat < held.old.machine.base.seats }
    ensures { IsHalted held.old.machine seat held.new.machine }
{
    held.value().state.halt(seat);
}
