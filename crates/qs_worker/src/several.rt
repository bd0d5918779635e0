//! Several workers, as threads, beside each other on one board.

ghost use Rattle.std.specs.Prelude.{◌≡◌, ◌<◌, ◌≤◌, ◌+◌, ◌*◌, ◌^◌, List, [], length, IfOk, OnOk, OnErr, All, vec_len};
ghost use Rattle.qs_pattern.specs.Limits.{most_patterns, rule_bound};
ghost use Rattle.qs_graph.specs.Graphs.{Arc};
ghost use Rattle.qs_firing.specs.Work.{IsRightFor};
ghost use Rattle.qs_core.specs.Core.{HasClaim, IsFree, HasEnded};
ghost use Rattle.qs_core.specs.Runs.{IsReplayed};
ghost use Rattle.qs_turn.specs.Passes.{number_of, seen_of};
ghost use Rattle.qs_board.specs.Seats.{board_base, IsSeatOf, Sees, SeesArcs, SeesEnd};
ghost use Rattle.qs_worker.specs.Crews.{CanRunOn};
ghost use Rattle.qs_worker.specs.Saturation.{IsSaturated};

use crate::grammar::Grammar;
use qs_board::{Board, Pass};
use qs_core::{Claim, End, Put, State};
use qs_firing::{Joined, View};
use qs_graph::Graph;
use qs_io::Gate;
use qs_join::joined_by;
use qs_pattern::Rule;
use std::alloc::{AllocError, Global};
use std::sync::Wait;
use std::sync::atomic::{AtomicU64, Ordering};
use std::thread;
use std::thread::Threads;
use std::time::Duration;

// How often, at most, a worker gives way to other threads before it asks the board again.
const MOST_YIELDS: u32 = 64;

// How long, at most, a worker other than the first pauses behind one of its works, in microseconds.
const MOST_PAUSE: u32 = 32_768;

// So many times as long is a pause as the one before it, or so many times as short.
const LONGER: u32 = 8;

// Works are small where the others publish an arc in so many microseconds.
const SMALL: u32 = 8;

// A pause of so many microseconds or more is slept. Falling asleep takes too long for a shorter one.
const SLEPT: u32 = 256;

// Nobody has seen the end of the run as yet, or somebody has.
const RUNNING: u32 = 0;

const ENDED: u32 = 1;

// For so many arcs of the start a further thread is worth while.
const ARCS_EACH: usize = 16;

// The worker has seen that the run has ended.
#[derive(Drop)]
struct Ended;

// What the workers of a run share: the board, and beside it whether one of them has seen the end. Nothing that is
// proved rests on that: it spares the others their pauses, and each of them sees the end in a turn of its own.
struct Desk {
    board: Board,
    ended: AtomicU64,
}

// Gives way to other threads so often. How often to do so if there is then still nothing to do: twice as often, up to a
// bound.
fn give_way(times: u32) -> u32 {
    for _ in 0..times {
        thread::yield_now();
    }
    if times < MOST_YIELDS {
        times * 2
    } else {
        times
    }
}

// How many microseconds a worker other than the first pauses behind a work: it paused so long behind the work before,
// and so many arcs have come since. Where works are small, nearly all of their time is turns, which hold up each other,
// and a worker has to take all arcs along that came meanwhile: so it pauses longer and leaves the works to the first
// worker. Where they take long, it soon makes no pause at all.
fn next_pause(pause: u32, come: u32) -> u32 {
    if come <= pause / SMALL {
        pause / LONGER
    } else if pause < MOST_PAUSE / LONGER {
        pause * LONGER + 1
    } else {
        MOST_PAUSE
    }
}

// Pauses for about so many microseconds, or until a worker has seen the end.
fn pause_for<R: Wait>(rt: &R, pause: u32, ended: &AtomicU64) {
    if pause >= SLEPT {
        ended.park_timeout(rt, RUNNING, Duration::from_micros(u64::from(pause)));
        return;
    }
    for _ in 0..pause {
        thread::yield_now();
    }
}

// Tells the workers that pause that one has seen the end.
fn tell_end(ended: &AtomicU64) {
    ended.store(u64::from(ENDED), Ordering::SeqCst);
    ended.wake_all();
}

// Publishes the firings of this work, in their order, each in a turn of its own, where its arc is claimed and none of
// them is done. Where there is no memory for one, it halts the run.
fn publish_all<R: Wait>(rt: &R, board: &Board, pass: &mut Pass, work: &Joined) -> Result<(), Ended>
    requires own { IsSeatOf board.now pass.old }
    requires claim { Sees board.now pass.old (λ S. HasClaim S (number_of pass.old) work.now.arc 0) }
    requires right { Sees board.now pass.old
        (λ S. IsRightFor (board_base board.now).rules S.graph.arcs work.now) }
    requires limit { (board_base board.now).limit < 2 ^ 32 }
    ensures own { IsSeatOf board.now pass.new }
    ensures same { number_of pass.new ≡ number_of pass.old }
    ensures arcs { OnOk result ((view : List Arc) → SeesArcs board.now pass.old view
        → SeesArcs board.now pass.new view) }
    ensures free { OnOk result (Sees board.now pass.new
        (λ S. IsFree (board_base board.now) S (number_of pass.old))) }
    ensures ended { OnErr result (SeesEnd board.now pass.new) }
{
    let mut k: u32 = 0;
    while (k as usize) < work.made().len() {
        match board.publish(rt, pass, work, k) {
            Ok(Put::Published(_)) => k += 1,
            Ok(_) => return Err(Ended),
            Err(_) => {
                board.halt(rt, pass);
                return Err(Ended);
            }
        }
    }
    Ok(())
}

// The work on the arc that the pass's seat has claimed: it is joined outside every turn, and published. Where there is
// no memory for it, the worker halts the run.
fn work_out<R: Wait>(
    rt: &R,
    alloc: Global,
    grammar: &Grammar,
    board: &Board,
    pass: &mut Pass,
    view: &View,
    arc: u32,
) -> Result<(), Ended>
    requires rules { grammar.now ≡ (board_base board.now).rules }
    requires limit { (board_base board.now).limit < 2 ^ 32 }
    requires own { IsSeatOf board.now pass.old }
    requires within { arc < length view.now }
    requires claim { Sees board.now pass.old (λ S. HasClaim S (number_of pass.old) arc 0) }
    requires view { Sees board.now pass.old (λ S. S.graph.arcs ≡ view.now) }
    ensures own { IsSeatOf board.now pass.new }
    ensures same { number_of pass.new ≡ number_of pass.old }
    ensures arcs { OnOk result (SeesArcs board.now pass.new view.now) }
    ensures free { OnOk result (Sees board.now pass.new
        (λ S. IsFree (board_base board.now) S (number_of pass.old))) }
    ensures ended { OnErr result (SeesEnd board.now pass.new) }
{
    match joined_by(alloc, grammar.rules(), grammar.heads(), view, arc) {
        Ok(work) => publish_all(rt, board, pass, &work),
        Err(_) => {
            board.halt(rt, pass);
            Err(Ended)
        }
    }
}

// One claim, and what follows from it: the gate, and the work on the arc. False where there is nothing to do as yet. It
// is an error that the worker has seen the end of the run.
fn round<R: Wait, G: Gate>(
    rt: &R,
    alloc: Global,
    grammar: &Grammar,
    board: &Board,
    gate: &G,
    pass: &mut Pass,
    view: &mut View,
) -> Result<bool, Ended>
    requires rules { grammar.now ≡ (board_base board.now).rules }
    requires limit { (board_base board.now).limit < 2 ^ 32 }
    requires own { IsSeatOf board.now pass.old }
    requires arcs { SeesArcs board.now pass.old view.old }
    requires free { Sees board.now pass.old (λ S. IsFree (board_base board.now) S (number_of pass.old)) }
    ensures own { IsSeatOf board.now pass.new }
    ensures same { number_of pass.new ≡ number_of pass.old }
    ensures arcs { OnOk result (SeesArcs board.now pass.new view.new) }
    ensures free { OnOk result (Sees board.now pass.new
        (λ S. IsFree (board_base board.now) S (number_of pass.old))) }
    ensures ended { OnErr result (SeesEnd board.now pass.new) }
{
    match board.claim(rt, pass, view) {
        Ok(Claim::Took(arc)) => {
            gate.pass(pass.number(), arc);
            work_out(rt, alloc, grammar, board, pass, view, arc)?;
            Ok(true)
        }
        Ok(Claim::NotYet) => Ok(false),
        Ok(Claim::Ended(_)) => Err(Ended),
        Err(_) => {
            board.halt(rt, pass);
            Err(Ended)
        }
    }
}

// A worker. It returns only once its pass has seen that the run has ended, and tells the others.
fn work_on<R: Wait, G: Gate>(
    rt: &R,
    alloc: Global,
    grammar: &Grammar,
    desk: &Desk,
    gate: &G,
    pass: &mut Pass,
)
    requires rules { grammar.now ≡ (board_base desk.now.board).rules }
    requires limit { (board_base desk.now.board).limit < 2 ^ 32 }
    requires own { IsSeatOf desk.now.board pass.old }
    requires new { seen_of pass.old ≡ [] }
    ensures own { IsSeatOf desk.now.board pass.new }
    ensures ended { SeesEnd desk.now.board pass.new }
{
    let mut view = View::empty(alloc);
    let mut times = 1;
    let mut pause = 0;
    for _ in rt.forever() {
        let seen = view.len();
        match round(rt, alloc, grammar, &desk.board, gate, pass, &mut view) {
            Ok(true) => {
                times = 1;
                if pass.number() != 0 {
                    pause = next_pause(pause, view.len().saturating_sub(seen));
                    pause_for(rt, pause, &desk.ended);
                }
            }
            Ok(false) => times = give_way(times),
            Err(_) => {
                tell_end(&desk.ended);
                return;
            }
        }
    }
    unreachable!()
}

// How many of so many workers are to be threads beside each other, on a graph of so many arcs: no more than there are
// processors, since one that waits for its processor keeps all others waiting for its turn, but two in any case; and on
// few arcs fewer, since a thread costs more than the work on some arcs.
fn threads_for<R: Threads>(rt: &R, workers: usize, arcs: usize) -> usize
    requires { 1 ≤ workers }
    ensures { 1 ≤ result }
{
    let worth = workers.min(arcs / ARCS_EACH + 1);
    if worth == 1 {
        return 1;
    }
    match thread::available_parallelism(rt) {
        Ok(processors) => worth.min(processors.get().max(2)),
        Err(_) => worth,
    }
}

// A worker for each pass, so many of them beside each other, as threads. What gets no thread is done behind another.
fn work_beside<R: Threads + Wait + Sync, G: Gate + Sync>(
    rt: &R,
    alloc: Global,
    grammar: &Grammar,
    desk: &Desk,
    gate: &G,
    threads: usize,
    passes: &mut Vec<Pass>,
)
    requires rules { grammar.now ≡ (board_base desk.now.board).rules }
    requires limit { (board_base desk.now.board).limit < 2 ^ 32 }
    requires new { All (λ p. IsSeatOf desk.now.board p × (seen_of p ≡ [])) passes.old.items }
    requires some { 1 ≤ threads }
    ensures count { vec_len passes.new ≡ vec_len passes.old }
    ensures ended { All (λ p. IsSeatOf desk.now.board p × SeesEnd desk.now.board p) passes.new.items }
{
    thread::for_each_mut(
        rt,
        passes.as_mut_slice(),
        threads,
        &|_: usize, pass: &mut Pass|
            requires { (grammar.now ≡ (board_base desk.now.board).rules)
                × ((board_base desk.now.board).limit < 2 ^ 32)
                × IsSeatOf desk.now.board pass.now × (seen_of pass.now ≡ []) }
            ensures { IsSeatOf desk.entry.now.board pass.exit.now × SeesEnd desk.entry.now.board pass.exit.now }
        { work_on(rt, alloc, grammar, desk, gate, pass) },
    );
}

// The machine behind the workers. Its run has ended, since their passes have seen so.
fn finish(board: Board, passes: Vec<Pass>) -> State
    requires own { All (λ p. IsSeatOf board p × SeesEnd board p) passes.items }
    requires all { vec_len passes ≡ (board_base board).seats }
    requires some { 1 ≤ (board_base board).seats }
    ensures base { result.machine.base ≡ board_base board }
    ensures ended { HasEnded result.machine.state }
{
    board.close(passes)
}

// The machine, whose run has ended. It is an error that a worker without memory halted it.
fn unless_halted(state: State) -> Result<State, AllocError>
    requires { HasEnded state.machine.state }
    ensures { IfOk result (λ s. IsSaturated state.machine.base.rules state.machine.base.start state.machine.base.limit
        state.machine.base.seats s.machine) }
{
    let _accepted = state.rules();
    let _valid = state.entry();
    let _replayed = state.journal();
    match state.end() {
        Some(End::Closed) => Ok(state),
        Some(End::Over) => Ok(state),
        Some(End::Halted) => Err(AllocError),
        None => unreachable!(),
    }
}

/// The machine with these rules, which starts from this graph, may do this number of firings and has a seat for each of
/// so many workers, behind a run that the workers make, as threads beside each other: each claims arc after arc, passes
/// the gate with it, and does all firings of which that arc is the newest. There are no more threads than processors,
/// but two, and fewer where the graph has few arcs; what gets no thread is done behind the others.
/// The limit and the number of workers are at least 1, there are fewer than 4,294,967,295 rules, and the numbers of
/// arcs and of nodes of the graph, each with 16 times the limit, fit a `u32`.
///
/// The run has ended: closed, exactly where the rules don't need more firings than the limit, or over, exactly where
/// they do. A worker that finds no memory halts the run, and then `Memory` is the answer, the only error. It may wait,
/// also forever.
pub fn saturate<R: Threads + Wait + Sync, G: Gate + Sync>(
    rt: &R,
    alloc: Global,
    rules: &[Rule],
    start: &Graph,
    limit: u32,
    workers: u32,
    gate: &G,
) -> Result<State, AllocError>
    requires limit { 1 ≤ limit }
    requires workers { 1 ≤ workers }
    requires rules { length rules.now < rule_bound }
    requires arcs { length start.now.arcs + most_patterns * limit < 2 ^ 32 }
    requires nodes { start.now.nodes + most_patterns * limit < 2 ^ 32 }
    ensures { IfOk result (λ state. IsSaturated rules.now start.now limit workers state.machine) }
{
    let grammar = Grammar::new(alloc, rules)?;
    run_together(rt, alloc, &grammar, start, limit, workers, gate)
}

/// Does what `saturate` does, with the rules of this grammar.
pub fn run_together<R: Threads + Wait + Sync, G: Gate + Sync>(
    rt: &R,
    alloc: Global,
    grammar: &Grammar,
    start: &Graph,
    limit: u32,
    workers: u32,
    gate: &G,
) -> Result<State, AllocError>
    requires workers { 1 ≤ workers }
    requires can_run { CanRunOn start.now limit }
    ensures { IfOk result (λ state. IsSaturated grammar.now start.now limit workers state.machine) }
{
    let rules = grammar.shared_rules()?;
    let (board, mut passes) = Board::open_shared(alloc, rules, start, limit, workers)?;
    let threads = threads_for(rt, workers as usize, start.edges().len());
    let desk = Desk {
        board,
        ended: AtomicU64::new(u64::from(RUNNING)),
    };
    work_beside(rt, alloc, grammar, &desk, gate, threads, &mut passes);
    let Desk { board, ended: _ } = desk;
    unless_halted(finish(board, passes))
}
