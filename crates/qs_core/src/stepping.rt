//! Steps of the machine.

ghost use Rattle.std.specs.Prelude.{◌≡◌, ◌<◌, ◌≤◌, ◌↔◌, length, slice_get, None, Some, IsTrue, IfOk, OnOk};
ghost use Rattle.std.specs.Prelude.{OnErr, if◌then◌else◌, replicate, ◌+◌, ◌^◌, ◌++◌};
ghost use Rattle.qs_firing.specs.Work.{IsRightFor};
ghost use Rattle.qs_core.specs.declared.step.Step.TheVariants as step;
ghost use Rattle.qs_core.specs.declared.step.Status.TheVariants as status;
ghost use Rattle.qs_core.specs.Core.{IsFree, HasClaim, NoneWaits, after_claim, after_rest};
ghost use Rattle.qs_core.specs.Runs.{with_step};
ghost use Rattle.qs_core.specs.declared.answers.Put.TheVariants as put;
ghost use Rattle.qs_core.specs.Answers.{IsClaimed, IsPublished, IsHalted, HasAnyClaim, RestsIfClaimed, HasWaiting};

use crate::adding::added_by;
use crate::answers::{Claim, End, Put};
use crate::arcs::Arcs;
use crate::fired::Fired;
use crate::state::State;
use crate::statuses::Statuses;
use crate::step::{Status, Step, Stop};
use qs_firing::Joined;
use qs_graph::Edge;
use std::alloc::AllocError;
use std::sync::Arc;

impl State {
    /// Makes the next claim ready. Nothing else changes, also after `Memory`. No other call promises that a claim is
    /// ready.
    pub fn reserve_step(&mut self) -> Result<(), AllocError>
        ensures same { self.new.machine ≡ self.old.machine }
        ensures ready { OnOk result (0 < self.new.room) }
    {
        self.journal.reserve(1)?;
        Ok(())
    }

    /// Whether a claim takes an arc: no stop stands, and an arc waits. Nothing changes. Takes no memory.
    pub fn has_waiting(&mut self) -> bool
        ensures value { IsTrue result ↔ HasWaiting self.old.machine.state }
        ensures same { self.new ≡ self.old }
    {
        self.stop.is_none() && self.statuses.waiting().is_some()
    }

    /// The seat claims an arc. A claim is ready; there is such a seat; and it has no claim, or its work on the arc that
    /// it has claimed is all done. Afterwards no claim is ready.
    ///
    /// `Ended` with `Over` or `Halted` exactly where that stop stands; then nothing changes. Else what the seat had
    /// claimed is done, and it is `Took` exactly where an arc waits: that one is claimed, and none of its work is done.
    /// It is `NotYet` exactly where none waits and another seat has a claim, and `Ended` with `Closed` exactly where
    /// none waits and no other seat has one; on these two the step is `Rest` where the seat had a claim, and none where
    /// it had none. Takes no memory.
    pub fn claim(&mut self, seat: u32) -> Claim
        requires ready { 0 < self.old.room }
        requires seat { seat < self.old.machine.base.seats }
        requires free { IsFree self.old.machine.base self.old.machine.state seat }
        ensures { IsClaimed self.old.machine seat result self.new.machine }
    {
        if let Some(stop) = self.stop {
            return Claim::Ended(stop.end());
        }
        match self.statuses.waiting() {
            Some(arc) => {
                self.take(seat, arc);
                Claim::Took(arc)
            }
            None => self.rest_at_end(seat),
        }
    }

    /// The seat claims this arc. There is such a seat, and it has no claim, or its work on the arc that it has claimed
    /// is all done. True exactly where no stop stands and the arc waits; then what the seat had claimed is done, and
    /// the step is `Claim`. Else nothing changes, nor after `Memory`.
    pub fn claim_this(&mut self, seat: u32, arc: u32) -> Result<bool, AllocError>
        requires seat { seat < self.old.machine.base.seats }
        requires free { IsFree self.old.machine.base self.old.machine.state seat }
        ensures took { IfOk result (λ took. IsTrue took ↔ ((self.old.machine.state.stop ≡ None)
            × (slice_get self.old.machine.state.status arc ≡ Some status.Waiting))) }
        ensures step { IfOk result (λ took. self.new.machine ≡ (if took
            then with_step self.old.machine (step.Claim seat arc) (after_claim self.old.machine.state seat arc)
            else self.old.machine)) }
        ensures err { OnErr result (self.new.machine ≡ self.old.machine) }
    {
        if self.stop.is_some() || self.statuses.status(arc) != Some(Status::Waiting) {
            return Ok(false);
        }
        self.reserve_step()?;
        self.take(seat, arc);
        Ok(true)
    }

    /// The seat rests. There is such a seat, and it has no claim, or its work on the arc that it has claimed is all
    /// done. True exactly where no stop stands, no arc waits and the seat has a claim; then the arc that it has claimed
    /// is done, and the step is `Rest`. Else nothing changes, nor after `Memory`.
    pub fn rest(&mut self, seat: u32) -> Result<bool, AllocError>
        requires seat { seat < self.old.machine.base.seats }
        requires free { IsFree self.old.machine.base self.old.machine.state seat }
        ensures rested { IfOk result (λ rested. IsTrue rested ↔ ((self.old.machine.state.stop ≡ None)
            × NoneWaits self.old.machine.state × HasAnyClaim self.old.machine.state seat)) }
        ensures step { IfOk result (λ rested. self.new.machine ≡ (if rested
            then with_step self.old.machine (step.Rest seat) (after_rest self.old.machine.state seat)
            else self.old.machine)) }
        ensures err { OnErr result (self.new.machine ≡ self.old.machine) }
    {
        if self.stop.is_some() || self.statuses.waiting().is_some() {
            return Ok(false);
        }
        self.reserve_step()?;
        Ok(self.rest_if_claimed(seat))
    }

    /// Halts the run for the seat, which there is. Where the run has ended, nothing changes; else the stop becomes
    /// `Halted` of this seat. Takes no memory.
    pub fn halt(&mut self, seat: u32)
        requires { seat < self.old.machine.base.seats }
        ensures { IsHalted self.old.machine seat self.new.machine }
    {
        if self.end().is_none() {
            self.stop = Some(Stop::Halted { seat });
        }
    }

    /// Publishes the next firing of the seat's claim. Where no stop stands, the seat has claimed the arc of this work,
    /// with its first `k` firings done, there are more of them, and the work is right for the rules and the arcs.
    ///
    /// `Ended` exactly where a stop stands, as it says; then nothing changes. Else it is `Over` exactly where the
    /// limit's firings are done; then the stop becomes `Over` of this seat. Else it is `Published`: the `k`-th firing,
    /// from 0, is done, what it adds is added, the arcs that are added wait, the claim has one firing more done, and
    /// the step is `Publish`; the number is that of the first arc of the firing's result. After `Memory` nothing has
    /// changed.
    pub fn publish(&mut self, seat: u32, work: &Joined, k: u32) -> Result<Put, AllocError>
        requires claim { self.old.machine.state.stop ≡ None
            → HasClaim self.old.machine.state seat work.now.arc k }
        requires more { self.old.machine.state.stop ≡ None → k < length work.now.made }
        requires right { self.old.machine.state.stop ≡ None
            → IsRightFor self.old.machine.base.rules self.old.machine.state.graph.arcs work.now }
        ensures answer { IfOk result (λ put. IsPublished self.old.machine seat work.now k put self.new.machine) }
        ensures err { OnErr result (self.new.machine ≡ self.old.machine) }
    {
        if let Some(stop) = self.stop {
            return Ok(Put::Ended(stop.end()));
        }
        if self.fired.len() >= self.limit as usize {
            self.stop = Some(Stop::Over { seat });
            return Ok(Put::Over);
        }
        let first = self.add_firing(seat, work, k)?;
        Ok(Put::Published(first))
    }

    // Does the k-th firing of this work, which is that of the arc that the seat has claimed. The first arc of its
    // result.
    fn add_firing(&mut self, seat: u32, work: &Joined, k: u32) -> Result<u32, AllocError>
        requires going { self.old.machine.state.stop ≡ None }
        requires few { length self.old.machine.state.done < self.old.machine.base.limit }
        requires claim { HasClaim self.old.machine.state seat work.now.arc k }
        requires more { k < length work.now.made }
        requires right { IsRightFor self.old.machine.base.rules self.old.machine.state.graph.arcs work.now }
        ensures ok { IfOk result (λ first.
            IsPublished self.old.machine seat work.now k (put.Published first) self.new.machine) }
        ensures err { OnErr result (self.new.machine ≡ self.old.machine) }
    {
        let made = &work.made()[k as usize];
        let added = added_by(self.alloc, self.unique, &self.arcs, made)?;
        let first = added.first;
        let fired = Fired {
            firing: Arc::try_clone(&made.firing)?,
            first,
            met: added.met,
        };
        self.journal.reserve(1)?;
        self.fired.reserve(1)?;
        grow(
            &mut self.arcs,
            &mut self.statuses,
            added.nodes,
            &added.edges,
        )?;
        self.statuses.publish(seat, work.arc(), k + 1);
        self.fired.push_reserved(fired);
        self.journal.push_reserved(Step::Publish { seat });
        Ok(first)
    }

    // The seat claims an arc that waits, and what it had claimed is done.
    fn take(&mut self, seat: u32, arc: u32)
        requires ready { 0 < self.old.room }
        requires seat { seat < self.old.machine.base.seats }
        requires going { self.old.machine.state.stop ≡ None }
        requires free { IsFree self.old.machine.base self.old.machine.state seat }
        requires waits { slice_get self.old.machine.state.status arc ≡ Some status.Waiting }
        ensures { self.new.machine
            ≡ with_step self.old.machine (step.Claim seat arc) (after_claim self.old.machine.state seat arc) }
    {
        self.statuses.rest(seat);
        self.statuses.claim(seat, arc);
        self.journal.push_reserved(Step::Claim { seat, arc });
    }

    // What the seat has claimed is done. Whether it had a claim. No arc waits.
    fn rest_if_claimed(&mut self, seat: u32) -> bool
        requires ready { 0 < self.old.room }
        requires seat { seat < self.old.machine.base.seats }
        requires going { self.old.machine.state.stop ≡ None }
        requires free { IsFree self.old.machine.base self.old.machine.state seat }
        requires none_waits { NoneWaits self.old.machine.state }
        ensures had { IsTrue result ↔ HasAnyClaim self.old.machine.state seat }
        ensures step { self.new.machine ≡ (if result
            then with_step self.old.machine (step.Rest seat) (after_rest self.old.machine.state seat)
            else self.old.machine) }
    {
        if !self.statuses.rest(seat) {
            return false;
        }
        self.journal.push_reserved(Step::Rest { seat });
        true
    }

    // The seat rests where no arc waits, and is told whether the run goes on.
    fn rest_at_end(&mut self, seat: u32) -> Claim
        requires ready { 0 < self.old.room }
        requires seat { seat < self.old.machine.base.seats }
        requires going { self.old.machine.state.stop ≡ None }
        requires free { IsFree self.old.machine.base self.old.machine.state seat }
        requires none_waits { NoneWaits self.old.machine.state }
        ensures { IsClaimed self.old.machine seat result self.new.machine }
    {
        self.rest_if_claimed(seat);
        if self.statuses.all_done() {
            Claim::Ended(End::Closed)
        } else {
            Claim::NotYet
        }
    }
}

// So many nodes and these arcs more, which wait. After an error both are as before.
fn grow(
    arcs: &mut Arcs,
    statuses: &mut Statuses,
    nodes: u32,
    edges: &[Edge],
) -> Result<(), AllocError>
    requires nodes { arcs.old.nodes + nodes < 2 ^ 32 }
    requires arcs { length arcs.old.arcs + length edges.now < 2 ^ 32 }
    requires statuses { length statuses.old.list ≡ length arcs.old.arcs }
    ensures arcs { OnOk result (arcs.new ≡ record {
      nodes = arcs.old.nodes + nodes;
      arcs = arcs.old.arcs ++ edges.now;
    }) }
    ensures statuses { OnOk result (statuses.new ≡ record {
      list = statuses.old.list ++ replicate (length edges.now) status.Waiting;
      seats = statuses.old.seats;
    }) }
    ensures same_arcs { OnErr result (arcs.new ≡ arcs.old) }
    ensures same_statuses { OnErr result (statuses.new ≡ statuses.old) }
{
    let count = edges.len() as u32;
    statuses.add(count)?;
    if arcs.add(nodes, edges).is_err() {
        statuses.remove(count);
        return Err(AllocError);
    }
    Ok(())
}
