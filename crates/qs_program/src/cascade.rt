//! Running the grammars of a deck one after another.

ghost use Rattle.std.specs.Prelude.{length, map};
ghost use Rattle.qs_deck.specs.Decks.{grammar_of};
ghost use Rattle.qs_deck.specs.Named.{AreSystemsNamed};
ghost use Rattle.qs_command.specs.Limits.{IsLimit};
ghost use Rattle.qs_telling.specs.Cascading.{AreAccepted};
ghost use Rattle.qs_telling.specs.working.Cascading.{CanGoOn};
ghost use Rattle.qs_program.specs.Calls.{TellsWriteFaults};
ghost use Rattle.qs_program.specs.working.Cascading.{DeliversCascade};

use qs_cascade::StageEnd;
use qs_command::Status;
use qs_deck::System;
use qs_graph::Graph;
use qs_io::{Sink, write_all};
use qs_telling::{Teller, Told};
use qs_worker::Crew;
use std::alloc::Global;

/// Runs the grammars one after another, each on the graph that the one before it left, and writes what is told of each,
/// whole and at once, when it has ended. The crew makes the runs. A grammar that leaves no arc, or that needs more
/// firings than the limit, is the last one.
///
/// `Done` and `Limit` come where the whole text was written; `WriteFault` only where the sink's count of faults rose; a
/// proper prefix of the text was written then. `Memory` comes where memory was wanting; the first blocks were written
/// then, each of them whole, and fewer than all. With every answer but `WriteFault` that count stays as it was.
pub(crate) fn cascade<C: Crew, K: Sink>(
    alloc: Global,
    crew: &C,
    teller: &Teller<'_>,
    systems: &[System],
    start: Graph,
    sink: &mut K,
) -> Status
    requires crew { C.ready crew.now }
    requires limit { IsLimit teller.now.limit }
    requires named { AreSystemsNamed (length teller.now.names.now) systems.now }
    requires accepted { AreAccepted (map grammar_of systems.now) }
    requires can_go_on { CanGoOn teller.now.names.now start (length systems.now) }
    ensures delivers { DeliversCascade teller.now.telling teller.now.limit teller.now.names.now start
        (map grammar_of systems.now) (K.written sink.old) (K.written sink.new) result }
    ensures writes { TellsWriteFaults (K.faults sink.old) (K.faults sink.new) result }
{
    let mut graph = start;
    for system in systems {
        let Ok(told) = teller.tell(alloc, crew, system, &graph) else {
            return Status::Memory;
        };
        let Told { end, text } = told;
        let Ok(()) = write_all(sink, &text) else {
            return Status::WriteFault;
        };
        match end {
            StageEnd::Left { graph: left, .. } => graph = left,
            StageEnd::Empty { .. } => return Status::Done,
            StageEnd::Over => return Status::Limit,
        }
    }
    Status::Done
}
