//! One worker, alone.

ghost use Rattle.std.specs.Prelude.{◌≡◌, ◌<◌, ◌≤◌, ◌+◌, ◌*◌, ◌^◌, length, IfOk};
ghost use Rattle.qs_pattern.specs.Limits.{most_patterns, rule_bound};
ghost use Rattle.qs_worker.specs.Crews.{CanRunOn};
ghost use Rattle.qs_worker.specs.Saturation.{IsSaturated};
ghost use Rattle.qs_worker.specs.working.Turns.{IsBetween, IsNext, IsPartly, IsWorked, AreAccepted};

use crate::grammar::Grammar;
use qs_core::{Claim, Put, State};
use qs_firing::Joined;
use qs_graph::Graph;
use qs_join::joined_by;
use qs_pattern::Rule;
use std::alloc::{AllocError, Global};

// The only seat.
const SEAT: u32 = 0;

// Claims an arc that waits. None where every arc is done.
fn claim_next(state: &mut State) -> Result<Option<u32>, AllocError>
    requires between { IsBetween state.old.machine.base state.old.machine }
    requires alone { state.old.machine.base.seats ≡ 1 }
    ensures { IfOk result (λ next. IsNext state.old.machine next state.new.machine) }
{
    state.reserve_step()?;
    match state.claim(SEAT) {
        Claim::Took(arc) => Ok(Some(arc)),
        _ => Ok(None),
    }
}

// Publishes the firings of this work, in their order, where its arc is claimed and none of them is done. False where
// more firings are needed than the limit, which stops the run.
fn publish_all(state: &mut State, work: &Joined) -> Result<bool, AllocError>
    requires claimed { IsPartly state.old.machine work.now 0 state.old.machine }
    requires accepted { AreAccepted state.old.machine.base.rules }
    requires limit { state.old.machine.base.limit < 2 ^ 32 }
    ensures { IfOk result (λ all. IsWorked state.old.machine all state.new.machine) }
{
    let mut k: u32 = 0;
    while (k as usize) < work.made().len() {
        let Put::Published(_) = state.publish(SEAT, work, k)? else {
            return Ok(false);
        };
        k += 1;
    }
    Ok(true)
}

/// Does what `saturate_alone` does, with the rules of this grammar.
pub(crate) fn run_alone(
    alloc: Global,
    grammar: &Grammar,
    start: &Graph,
    limit: u32,
) -> Result<State, AllocError>
    requires { CanRunOn start.now limit }
    ensures { IfOk result (λ state. IsSaturated grammar.now start.now limit 1 state.machine) }
{
    let _valid = start.edges();
    let rules = grammar.rules();
    let heads = grammar.heads();
    let mut state = State::open_shared(alloc, grammar.shared_rules()?, start, limit, 1)?;
    'arcs: while let Some(arc) = claim_next(&mut state)? {
        let work = joined_by(alloc, rules, heads, state.view(), arc)?;
        if !publish_all(&mut state, &work)? {
            return Ok(state);
        }
    }
    Ok(state)
}

/// The machine with these rules, which starts from this graph, may do this number of firings and has one seat, behind a
/// run that one worker makes: it claims arc after arc, and does all firings of which that arc is the newest. The limit
/// is at least 1, there are fewer than 4,294,967,295 rules, and the numbers of arcs and of nodes of the graph, each
/// with 16 times the limit, fit a `u32`.
///
/// The run has ended: closed, exactly where the rules don't need more firings than the limit, or over, exactly where
/// they do. It always returns. `Memory` is the only error.
pub fn saturate_alone(
    alloc: Global,
    rules: &[Rule],
    start: &Graph,
    limit: u32,
) -> Result<State, AllocError>
    requires limit { 1 ≤ limit }
    requires rules { length rules.now < rule_bound }
    requires arcs { length start.now.arcs + most_patterns * limit < 2 ^ 32 }
    requires nodes { start.now.nodes + most_patterns * limit < 2 ^ 32 }
    ensures { IfOk result (λ state. IsSaturated rules.now start.now limit 1 state.machine) }
{
    let grammar = Grammar::new(alloc, rules)?;
    run_alone(alloc, &grammar, start, limit)
}
