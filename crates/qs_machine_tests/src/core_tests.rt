//! The machine of steps: what two seats are answered, the steps that they make, and the states behind them.

ghost use Rattle.std.specs.Prelude.{◌≡◌, ◌<◌, length};
ghost use Rattle.qs_firing.specs.Work.{IsRightFor};
ghost use Rattle.qs_core.specs.Core.{IsFree};
ghost use Rattle.qs_machine_tests.specs.working.Claims.{AreHeld};

use crate::reading::rules_of;
use qs_core::{Claim, End, Put, State, Step, Stop};
use qs_deck::read_deck;
use qs_firing::{Joined, View};
use qs_graph::Graph;
use qs_join::joined;
use qs_pattern::Rule;
use qs_tree::Label;
use std::alloc::Global;
use std::process::Abort;

/// A machine, and what each of its seats has claimed: an arc, with the number of the firings of its work that are done.
#[derive(Drop)]
pub struct Run {
    pub state: State,
    held: Vec<Option<(u32, u32)>>,
}

/// The machine with these rules, which starts from this graph, with two seats. Neither has claimed an arc.
fn opened<R: Abort>(rt: &R, alloc: Global, rules: &[Rule], start: &Graph, limit: u32) -> Run
    ensures { AreHeld result.held.items result.state.machine.state }
{
    assert!(rt; 0 < limit && limit < 10 && rules.len() < 10);
    assert!(rt; start.edges().len() < 10 && start.nodes() < 10);
    let state = State::open(alloc, rules, start, limit, 2).expect(rt, "a machine");
    let mut held = Vec::new(alloc);
    held.push(None).expect(rt, "a seat");
    held.push(None).expect(rt, "a seat more");
    Run { state, held }
}

/// The machine of the first grammar and the graph of this text, with two seats. Neither has claimed an arc.
pub fn open<R: Abort>(rt: &R, alloc: Global, text: &str, limit: u32) -> Run
    ensures { AreHeld result.held.items result.state.machine.state }
{
    assert!(rt; text.len() <= 4_194_304);
    let deck = read_deck(alloc, text.as_bytes()).expect(rt, "a deck");
    opened(rt, alloc, rules_of(&deck), &deck.graph, limit)
}

/// The work of this arc over the arcs that stand.
fn work_of<R: Abort>(rt: &R, alloc: Global, state: &State, arc: u32) -> Joined
    ensures arc { result.arc ≡ arc }
    ensures right { IsRightFor state.now.machine.base.rules state.now.machine.state.graph.arcs result }
{
    let rules = state.rules();
    assert!(rt; arc < state.arcs() && rules.len() < 10);
    let mut view = View::empty(alloc);
    state.catch_up(&mut view).expect(rt, "the arcs");
    joined(alloc, rules, &view, arc).expect(rt, "the work of an arc")
}

/// Sees to it that there is this seat, and that the work on what it has claimed is all done.
fn see_free<R: Abort>(rt: &R, alloc: Global, run: &Run, seat: u32)
    requires { AreHeld run.now.held.items run.now.state.machine.state }
    ensures seat { seat < run.now.state.machine.base.seats }
    ensures held { seat < length run.now.held.items }
    ensures free { IsFree run.now.state.machine.base run.now.state.machine.state seat }
{
    assert!(rt; seat < run.state.seats() && (seat as usize) < run.held.len());
    if let Some((arc, done)) = run.held[seat as usize] {
        let work = work_of(rt, alloc, &run.state, arc);
        assert!(rt; work.made().len() == done as usize);
        // Its contract says that the journal leads to this state; so the state keeps what every state of a run keeps.
        let _journal = run.state.journal();
    }
}

/// The seat claims an arc, and takes this one.
fn take<R: Abort>(rt: &R, alloc: Global, run: &mut Run, seat: u32, arc: u32)
    requires { AreHeld run.old.held.items run.old.state.machine.state }
    ensures { AreHeld run.new.held.items run.new.state.machine.state }
{
    see_free(rt, alloc, run, seat);
    run.state.reserve_step().expect(rt, "room");
    let Claim::Took(taken) = run.state.claim(seat) else {
        panic!(rt; "an arc waits");
    };
    assert!(rt; taken == arc);
    run.held[seat as usize] = Some((taken, 0));
}

/// The seat claims an arc, and none waits, but the other seat may still add some.
fn find_none<R: Abort>(rt: &R, alloc: Global, run: &mut Run, seat: u32)
    requires { AreHeld run.old.held.items run.old.state.machine.state }
    ensures { AreHeld run.new.held.items run.new.state.machine.state }
{
    see_free(rt, alloc, run, seat);
    run.state.reserve_step().expect(rt, "room");
    let Claim::NotYet = run.state.claim(seat) else {
        panic!(rt; "the other seat has claimed an arc");
    };
    run.held[seat as usize] = None;
}

/// The seat claims an arc, and the run is closed.
pub fn close<R: Abort>(rt: &R, alloc: Global, run: &mut Run, seat: u32)
    requires { AreHeld run.old.held.items run.old.state.machine.state }
    ensures { AreHeld run.new.held.items run.new.state.machine.state }
{
    see_free(rt, alloc, run, seat);
    run.state.reserve_step().expect(rt, "room");
    let Claim::Ended(End::Closed) = run.state.claim(seat) else {
        panic!(rt; "every arc is done");
    };
    run.held[seat as usize] = None;
}

/// The seat claims an arc, and is told that more firings are needed than the limit.
fn claim_behind_limit<R: Abort>(rt: &R, alloc: Global, run: &mut Run, seat: u32)
    requires { AreHeld run.old.held.items run.old.state.machine.state }
    ensures { AreHeld run.new.held.items run.new.state.machine.state }
{
    see_free(rt, alloc, run, seat);
    run.state.reserve_step().expect(rt, "room");
    let Claim::Ended(End::Over) = run.state.claim(seat) else {
        panic!(rt; "the limit stopped the run");
    };
}

/// The seat claims this arc, which waits.
pub fn take_this<R: Abort>(rt: &R, alloc: Global, run: &mut Run, seat: u32, arc: u32)
    requires { AreHeld run.old.held.items run.old.state.machine.state }
    ensures { AreHeld run.new.held.items run.new.state.machine.state }
{
    see_free(rt, alloc, run, seat);
    let took = run.state.claim_this(seat, arc).expect(rt, "room");
    assert!(rt; took);
    run.held[seat as usize] = Some((arc, 0));
}

/// The seat claims this arc, and can't have it.
fn miss_this<R: Abort>(rt: &R, alloc: Global, run: &mut Run, seat: u32, arc: u32)
    requires { AreHeld run.old.held.items run.old.state.machine.state }
    ensures { AreHeld run.new.held.items run.new.state.machine.state }
{
    see_free(rt, alloc, run, seat);
    let took = run.state.claim_this(seat, arc).expect(rt, "room");
    assert!(rt; !took);
}

/// The seat rests, and what it had claimed is done.
pub fn rest<R: Abort>(rt: &R, alloc: Global, run: &mut Run, seat: u32)
    requires { AreHeld run.old.held.items run.old.state.machine.state }
    ensures { AreHeld run.new.held.items run.new.state.machine.state }
{
    see_free(rt, alloc, run, seat);
    let rested = run.state.rest(seat).expect(rt, "room");
    assert!(rt; rested);
    run.held[seat as usize] = None;
}

/// The seat rests, which changes nothing.
fn rest_in_vain<R: Abort>(rt: &R, alloc: Global, run: &mut Run, seat: u32)
    requires { AreHeld run.old.held.items run.old.state.machine.state }
    ensures { AreHeld run.new.held.items run.new.state.machine.state }
{
    see_free(rt, alloc, run, seat);
    let rested = run.state.rest(seat).expect(rt, "room");
    assert!(rt; !rested);
}

/// The seat publishes the next firing of the work of its arc, whose result begins with the arc of this number.
pub fn publish<R: Abort>(rt: &R, alloc: Global, run: &mut Run, seat: u32, first: u32)
    requires { AreHeld run.old.held.items run.old.state.machine.state }
    ensures { AreHeld run.new.held.items run.new.state.machine.state }
{
    assert!(rt; (seat as usize) < run.held.len());
    let Some((arc, done)) = run.held[seat as usize] else {
        panic!(rt; "the seat has claimed an arc");
    };
    let work = work_of(rt, alloc, &run.state, arc);
    assert!(rt; done < 10 && (done as usize) < work.made().len());
    let put = run.state.publish(seat, &work, done).expect(rt, "memory");
    let Put::Published(number) = put else {
        panic!(rt; "the run goes on");
    };
    assert!(rt; number == first);
    run.held[seat as usize] = Some((arc, done + 1));
}

/// The seat has a firing more, behind the limit, which stops the run.
fn pass_limit<R: Abort>(rt: &R, alloc: Global, run: &mut Run, seat: u32)
    requires { AreHeld run.old.held.items run.old.state.machine.state }
    ensures { AreHeld run.new.held.items run.new.state.machine.state }
{
    assert!(rt; (seat as usize) < run.held.len());
    let Some((arc, done)) = run.held[seat as usize] else {
        panic!(rt; "the seat has claimed an arc");
    };
    let work = work_of(rt, alloc, &run.state, arc);
    assert!(rt; (done as usize) < work.made().len());
    let put = run.state.publish(seat, &work, done).expect(rt, "memory");
    let Put::Over = put else {
        panic!(rt; "the limit stops the run");
    };
    let put = run.state.publish(seat, &work, done).expect(rt, "memory");
    let Put::Ended(End::Over) = put else {
        panic!(rt; "the limit has stopped the run");
    };
}

/// The seat halts the run, where it hasn't ended.
fn halt<R: Abort>(rt: &R, run: &mut Run, seat: u32)
    requires { AreHeld run.old.held.items run.old.state.machine.state }
    ensures { AreHeld run.new.held.items run.new.state.machine.state }
{
    assert!(rt; seat < run.state.seats());
    run.state.halt(seat);
}

/// One rule, and the arc A, whose label is 1; that of B is 2.
const ONE: &str = "-SYSTEME- S. A == B. -GRAPHE- -1- A -2-. -FIN-";

#[test]
fn two_seats_close_a_run(rt: HostRuntime) {
    let alloc = rt.alloc();
    let mut run = open(&rt, alloc, ONE, 1);
    take(&rt, alloc, &mut run, 0, 0);
    find_none(&rt, alloc, &mut run, 1);
    assert!(rt; run.state.journal() == [Step::Claim { seat: 0, arc: 0 }].as_slice());
    publish(&rt, alloc, &mut run, 0, 1);
    assert!(rt; run.state.end().is_none());
    take(&rt, alloc, &mut run, 1, 1);
    find_none(&rt, alloc, &mut run, 0);
    close(&rt, alloc, &mut run, 1);
    halt(&rt, &mut run, 1);
    let wanted = [
        Step::Claim { seat: 0, arc: 0 },
        Step::Publish { seat: 0 },
        Step::Claim { seat: 1, arc: 1 },
        Step::Rest { seat: 0 },
        Step::Rest { seat: 1 },
    ];
    let state = &run.state;
    assert!(rt; state.journal() == wanted.as_slice());
    assert!(rt; state.end() == Some(End::Closed) && state.stop().is_none());
    assert!(rt; state.fired().len() == 1 && state.arcs() == 2 && state.nodes() == 2);
    assert!(rt; state.edge(1).tree.view().root() == Label(2));
}

#[test]
fn the_limit_stops_a_run_once(rt: HostRuntime) {
    let alloc = rt.alloc();
    let text = "-SYSTEME- S. A == B. A == C. -GRAPHE- -1- A -2-. -FIN-";
    let mut run = open(&rt, alloc, text, 1);
    take(&rt, alloc, &mut run, 0, 0);
    publish(&rt, alloc, &mut run, 0, 1);
    assert!(rt; run.state.end().is_none());
    pass_limit(&rt, alloc, &mut run, 0);
    claim_behind_limit(&rt, alloc, &mut run, 1);
    miss_this(&rt, alloc, &mut run, 1, 1);
    halt(&rt, &mut run, 1);
    let wanted = [Step::Claim { seat: 0, arc: 0 }, Step::Publish { seat: 0 }];
    let state = &run.state;
    assert!(rt; state.journal() == wanted.as_slice());
    assert!(rt; state.stop() == Some(Stop::Over { seat: 0 }) && state.end() == Some(End::Over));
    assert!(rt; state.fired().len() == 1 && state.arcs() == 2);
}

#[test]
fn a_seat_takes_an_arc_out_of_turn_and_rests_at_the_end(rt: HostRuntime) {
    let alloc = rt.alloc();
    let text = "-SYSTEME- S. A == B. -GRAPHE- -1- B + B -2-. -FIN-";
    let mut run = open(&rt, alloc, text, 1);
    miss_this(&rt, alloc, &mut run, 0, 2);
    take_this(&rt, alloc, &mut run, 0, 1);
    miss_this(&rt, alloc, &mut run, 1, 1);
    rest_in_vain(&rt, alloc, &mut run, 0);
    take_this(&rt, alloc, &mut run, 1, 0);
    rest(&rt, alloc, &mut run, 0);
    rest_in_vain(&rt, alloc, &mut run, 0);
    assert!(rt; run.state.end().is_none());
    halt(&rt, &mut run, 0);
    rest_in_vain(&rt, alloc, &mut run, 1);
    miss_this(&rt, alloc, &mut run, 1, 1);
    let wanted = [
        Step::Claim { seat: 0, arc: 1 },
        Step::Claim { seat: 1, arc: 0 },
        Step::Rest { seat: 0 },
    ];
    let state = &run.state;
    assert!(rt; state.journal() == wanted.as_slice());
    assert!(rt; state.stop() == Some(Stop::Halted { seat: 0 }) && state.end() == Some(End::Halted));
}

#[test]
fn a_firing_meets_the_arc_that_the_other_seat_published(rt: HostRuntime) {
    let alloc = rt.alloc();
    let text =
        "-VERSION- 2. -SYSTEME- S -UNIQUE-. A == C. B == C.\n-GRAPHE- -1- A -2-. -1- B -2-. -FIN-";
    let mut run = open(&rt, alloc, text, 2);
    take(&rt, alloc, &mut run, 0, 0);
    take(&rt, alloc, &mut run, 1, 1);
    publish(&rt, alloc, &mut run, 0, 2);
    publish(&rt, alloc, &mut run, 1, 2);
    let [first, second] = run.state.fired() else {
        panic!(rt; "two firings");
    };
    assert!(rt; !first.met && first.firing.rule == 0 && first.first == 2);
    assert!(rt; second.met && second.firing.rule == 1 && second.first == 2);
    assert!(rt; run.state.arcs() == 3 && run.state.nodes() == 2);
    take(&rt, alloc, &mut run, 1, 2);
    find_none(&rt, alloc, &mut run, 0);
    close(&rt, alloc, &mut run, 1);
    assert!(rt; run.state.end() == Some(End::Closed) && run.state.arcs() == 3);
}
