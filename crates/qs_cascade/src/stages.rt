//! What a grammar leaves.

ghost use Rattle.std.specs.Prelude.{◌≡◌, ◌<◌, ◌≤◌, ◌^◌, length, IfOk, IfSome};
ghost use Rattle.qs_pattern.specs.Limits.{rule_bound};
ghost use Rattle.qs_clean.specs.Cleaning.{IsClosureOfValid};
ghost use Rattle.qs_worker.specs.Crews.{CanRunOn};
ghost use Rattle.qs_cascade.specs.Stages.{IsAnswerOfStage, IsEndBehind};

use crate::closing::closure_by;
use qs_canon::Closure;
use qs_clean::clean;
use qs_graph::Graph;
use qs_io::Gate;
use qs_pattern::Rule;
use qs_worker::{ByCall, Crew, Grammar, OneWorker, run_together};
use std::alloc::{AllocError, Global};
use std::sync::Wait;
use std::thread::Threads;

/// What a grammar leaves: a graph, or no arc, each with the number of firings that were done; or its rules need more
/// firings than the limit.
#[derive(Drop)]
pub enum StageEnd {
    Left { graph: Graph, firings: u32 },
    Empty { firings: u32 },
    Over,
}

/// Runs one grammar on a graph: the closure of its rules, of which the crew makes the run, and what cleaning leaves of
/// it. The limit is at least 1, and the numbers of arcs and of nodes of the graph, each with 16 times the limit, fit a
/// `u32`. A graph that is left has no more than these numbers, and no labels but those of the graph and of the rules'
/// right sides. It returns if the crew does.
pub fn stage_by<C: Crew>(
    alloc: Global,
    crew: &C,
    grammar: &Grammar,
    start: &Graph,
    limit: u32,
) -> Result<StageEnd, AllocError>
    requires crew { C.ready crew.now }
    requires can_run { CanRunOn start.now limit }
    ensures { IfOk result (IsAnswerOfStage grammar.now start.now limit) }
{
    let closure = closure_by(alloc, crew, grammar, start, limit)?;
    end_behind(alloc, &closure)
}

/// Does what `stage_by` does, for these rules, by one worker, alone. There are fewer than 4,294,967,295 rules. It
/// always returns.
pub fn stage_alone(
    alloc: Global,
    rules: &[Rule],
    start: &Graph,
    limit: u32,
) -> Result<StageEnd, AllocError>
    requires rules { length rules.now < rule_bound }
    requires can_run { CanRunOn start.now limit }
    ensures { IfOk result (IsAnswerOfStage rules.now start.now limit) }
{
    let grammar = Grammar::new(alloc, rules)?;
    stage_by(alloc, &OneWorker, &grammar, start, limit)
}

/// Does what `stage_alone` does, by so many workers, at least 1, as threads beside each other, which pass the gate with
/// each arc that they claim. It may wait, also forever.
pub fn stage<R: Threads + Wait + Sync, G: Gate + Sync>(
    rt: &R,
    alloc: Global,
    rules: &[Rule],
    start: &Graph,
    limit: u32,
    workers: u32,
    gate: &G,
) -> Result<StageEnd, AllocError>
    requires workers { 1 ≤ workers }
    requires rules { length rules.now < rule_bound }
    requires can_run { CanRunOn start.now limit }
    ensures { IfOk result (IsAnswerOfStage rules.now start.now limit) }
{
    let run = |alloc: Global, grammar: &Grammar, start: &Graph, limit: u32|
        requires { CanRunOn start.now limit × (1 ≤ workers) }
    { run_together(rt, alloc, grammar, start, limit, workers, gate) };
    let grammar = Grammar::new(alloc, rules)?;
    stage_by(alloc, &ByCall { run }, &grammar, start, limit)
}

/// What a grammar leaves by the closure of its rules, where it has one: what cleaning leaves of it. It has fewer than
/// 4,294,967,296 firings.
pub fn end_behind(alloc: Global, closure: &Option<Closure>) -> Result<StageEnd, AllocError>
    requires valid { IfSome closure.now IsClosureOfValid }
    requires few { IfSome closure.now (λ c. length c.stage.done < 2 ^ 32) }
    ensures { IfOk result (IsEndBehind closure.now) }
{
    let Some(closure) = closure else {
        return Ok(StageEnd::Over);
    };
    let firings = closure.firings.len() as u32;
    match clean(alloc, closure)? {
        Some(graph) => Ok(StageEnd::Left { graph, firings }),
        None => Ok(StageEnd::Empty { firings }),
    }
}
