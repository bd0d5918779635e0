//! Who makes the run of a grammar.

ghost use Rattle.std.specs.Prelude.{ℕ, ⊤, IfOk};
ghost use Rattle.qs_worker.specs.Crews.{CanRunOn};
ghost use Rattle.qs_worker.specs.Saturation.{IsSaturated};

use crate::alone::run_alone;
use crate::grammar::Grammar;
use qs_core::State;
use qs_graph::Graph;
use std::alloc::{AllocError, Global};

/// Those who make the runs of machines. What holds of a run whoever makes it is said, and proved, once for all crews.
pub trait Crew {
    // Holds of a crew that can be called.
    ghost ready: { Self → Type 0 };

    /// The machine with the rules of this grammar, which starts from this graph and may do this number of firings,
    /// behind a run that the crew makes; how many seats it has is the crew's own affair. The limit is at least 1, and
    /// the numbers of arcs and of nodes of the graph, each with 16 times the limit, fit a `u32`.
    ///
    /// The run has ended: closed, exactly where the rules don't need more firings than the limit, or over, exactly
    /// where they do. `Memory` is the only error.
    fn saturate(
        &self,
        alloc: Global,
        grammar: &Grammar,
        start: &Graph,
        limit: u32,
    ) -> Result<State, AllocError>
        requires ready { ready self.now }
        requires can_run { CanRunOn start.now limit }
        ensures { IfOk result (λ state. (seats : ℕ) × IsSaturated grammar.now start.now limit seats state.machine) };
}

/// One worker, alone. It never waits.
#[derive(Drop)]
pub struct OneWorker;

impl Crew for OneWorker {
    ghost ready = { λ _. ⊤ };

    fn saturate(
        &self,
        alloc: Global,
        grammar: &Grammar,
        start: &Graph,
        limit: u32,
    ) -> Result<State, AllocError> {
        run_alone(alloc, grammar, start, limit)
    }
}

/// A crew that is told by the call that makes the run, as one of `run_together`, which may wait.
#[derive(Drop)]
pub struct ByCall<F> {
    pub run: F,
}

impl<F: Fn(Global, &Grammar, &Graph, u32) -> Result<State, AllocError>> Crew for ByCall<F> {
    ghost ready = { λ crew.
        ((alloc : _) (grammar : _) (start : _) (limit : _) → CanRunOn start.now limit
        → F.pre crew.run alloc grammar start limit)
        × ((alloc : _) (grammar : _) (start : _) (limit : _) (result : _)
        → F.post crew.run alloc grammar start limit result
        → IfOk result (λ state. (seats : ℕ) × IsSaturated grammar.now start.now limit seats state.machine)) };

    fn saturate(
        &self,
        alloc: Global,
        grammar: &Grammar,
        start: &Graph,
        limit: u32,
    ) -> Result<State, AllocError> {
        (self.run)(alloc, grammar, start, limit)
    }
}
