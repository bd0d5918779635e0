//! The closure of a grammar.

ghost use Rattle.std.specs.Prelude.{◌≡◌, ◌<◌, ◌≤◌, length, IfOk};
ghost use Rattle.qs_pattern.specs.Limits.{rule_bound};
ghost use Rattle.qs_worker.specs.Crews.{CanRunOn};
ghost use Rattle.qs_cascade.specs.ClosureEnds.{IsAnswerOfClosure};

use qs_canon::{Closure, canon};
use qs_core::End;
use qs_graph::Graph;
use qs_io::Gate;
use qs_pattern::Rule;
use qs_worker::{ByCall, Crew, Grammar, OneWorker, run_together};
use std::alloc::{AllocError, Global};
use std::sync::Wait;
use std::thread::Threads;

/// The closure of the grammar's rules from a graph; or None exactly where the rules need more firings than the limit.
/// The crew runs the machine of steps to its end, and where that is closed, the closure is found from the firings that
/// were done: it is the same whoever makes the run. The limit is at least 1, and the numbers of arcs and of nodes of
/// the graph, each with 16 times the limit, fit a `u32`. The closure is one over a valid graph, as cleaning takes it;
/// it has no more arcs and nodes than these numbers, and no labels but those of the graph and of the rules' right
/// sides. It returns if the crew does.
pub fn closure_by<C: Crew>(
    alloc: Global,
    crew: &C,
    grammar: &Grammar,
    start: &Graph,
    limit: u32,
) -> Result<Option<Closure>, AllocError>
    requires crew { C.ready crew.now }
    requires can_run { CanRunOn start.now limit }
    ensures { IfOk result (IsAnswerOfClosure grammar.now start.now limit) }
{
    let state = crew.saturate(alloc, grammar, start, limit)?;
    if state.end() != Some(End::Closed) {
        return Ok(None);
    }
    Ok(Some(canon(alloc, &state)?.closure))
}

/// Does what `closure_by` does, for these rules, by one worker, alone. There are fewer than 4,294,967,295 rules. It
/// always returns.
pub fn closure_alone(
    alloc: Global,
    rules: &[Rule],
    start: &Graph,
    limit: u32,
) -> Result<Option<Closure>, AllocError>
    requires rules { length rules.now < rule_bound }
    requires can_run { CanRunOn start.now limit }
    ensures { IfOk result (IsAnswerOfClosure rules.now start.now limit) }
{
    let grammar = Grammar::new(alloc, rules)?;
    closure_by(alloc, &OneWorker, &grammar, start, limit)
}

/// Does what `closure_alone` does, by so many workers, at least 1, as threads beside each other, which pass the gate
/// with each arc that they claim. It may wait, also forever.
pub fn closure<R: Threads + Wait + Sync, G: Gate + Sync>(
    rt: &R,
    alloc: Global,
    rules: &[Rule],
    start: &Graph,
    limit: u32,
    workers: u32,
    gate: &G,
) -> Result<Option<Closure>, AllocError>
    requires workers { 1 ≤ workers }
    requires rules { length rules.now < rule_bound }
    requires can_run { CanRunOn start.now limit }
    ensures { IfOk result (IsAnswerOfClosure rules.now start.now limit) }
{
    let run = |alloc: Global, grammar: &Grammar, start: &Graph, limit: u32|
        requires { CanRunOn start.now limit × (1 ≤ workers) }
    { run_together(rt, alloc, grammar, start, limit, workers, gate) };
    let grammar = Grammar::new(alloc, rules)?;
    closure_by(alloc, &ByCall { run }, &grammar, start, limit)
}
