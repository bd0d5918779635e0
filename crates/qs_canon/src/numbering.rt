//! The closure, in canonical numbers, from a run that ended closed.

ghost use Rattle.std.specs.Prelude.{◌≡◌, IfOk};
ghost use Rattle.qs_core.specs.Core.{IsClosed};
ghost use Rattle.qs_canon.specs.working.CanonSteps.{IsFinished};
ghost use Rattle.qs_canon.specs.Numbering.{IsNumbering};

use crate::closure::Closure;
use crate::numbers::{Numbers, sorted};
use crate::waiting::{lengths_of, pass, users_of};
use qs_core::{Fired, State};
use std::alloc::{AllocError, Global};

/// A closure, and the number in it of each arc of a run, in order, and of each node, from 1.
#[derive(Drop)]
pub struct Numbering {
    pub closure: Closure,
    pub arcs: Vec<u32>,
    pub nodes: Vec<u32>,
}

// The firings that are done in a run that ended closed: all firings over its graph.
fn all_done(end: &State) -> &[Fired]
    requires { IsClosed end.now.machine.state }
    ensures value { result.now ≡ end.now.machine.state.done }
    ensures finished { IsFinished end.now.machine }
{
    // What is known of the run is told where these are read.
    let _journal = end.journal();
    let _rules = end.rules();
    let _entry = end.entry();
    let _start_arcs = end.start_arcs();
    let _arcs = end.arcs();
    let _nodes = end.nodes();
    end.fired()
}

/// The closure of the rules from the graph from which a run started that ended closed, in canonical numbers, with the
/// numbers in it of the arcs and nodes of the run. It is found from the firings that were done, round by round: no rule
/// is matched and no trees are compared. So it costs what it costs to sort them.
pub fn canon(alloc: Global, end: &State) -> Result<Numbering, AllocError>
    requires { IsClosed end.now.machine.state }
    ensures { IfOk result (λ n. IsNumbering end.now.machine n.closure n.arcs.items n.nodes.items) }
{
    let fired = all_done(end);
    let users = users_of(alloc, end.arcs(), fired)?;
    let mut missing = lengths_of(alloc, fired)?;
    let mut numbers = Numbers::of_start(alloc, end)?;
    let mut passed = 0;
    let mut round = 0;
    'rounds: loop {
        let ready = pass(alloc, &users, &mut missing, numbers.origins_from(passed))?;
        if ready.is_empty() {
            return numbers.into_numbering(alloc, end);
        }
        passed = numbers.arcs();
        round += 1;
        let firings = sorted(numbers.in_numbers(alloc, fired, &ready)?)?;
        numbers.do_round(end, firings, round)?;
    }
}
