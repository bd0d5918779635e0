//! Answering the lines of words of a phrase text, one after another.

ghost use Rattle.std.specs.Prelude.{◌≡◌, ◌≤◌, ◌<◌, List, length, map};
ghost use Rattle.qs_tree.specs.Lists.{◌∈◌};
ghost use Rattle.qs_tree.specs.declared.cell.Label.{Label};
ghost use Rattle.qs_deck.specs.Limits.{most_systems};
ghost use Rattle.qs_deck.specs.Decks.{grammar_of};
ghost use Rattle.qs_deck.specs.Named.{AreSystemsNamed};
ghost use Rattle.qs_command.specs.Limits.{IsLimit};
ghost use Rattle.qs_telling.specs.Cascading.{AreAccepted};
ghost use Rattle.qs_telling.specs.Phrasing.{AreReady};
ghost use Rattle.qs_program.specs.Calls.{TellsWriteFaults};
ghost use Rattle.qs_program.specs.working.Phrasing.{DeliversPhrases, status_with};

use qs_command::Status;
use qs_deck::WordLines;
use qs_io::{Sink, write_all};
use qs_telling::{LineEnd, PhraseTeller};
use qs_worker::Crew;
use std::alloc::Global;

/// Runs the grammars on each line of words, and writes the block of each, whole and at once, when it has ended. The
/// crew makes the runs. Lines count from 1.
///
/// `Done` and `Limit` come where the whole text was written: `Limit` where some line met the limit. `WriteFault` comes
/// only where the sink's count of faults rose; a proper prefix of the text was written then. `Memory` comes where
/// memory was wanting; the first blocks were written then, each of them whole, and fewer than all. With every answer
/// but `WriteFault` that count stays as it was.
pub(crate) fn phrases<C: Crew, K: Sink>(
    alloc: Global,
    crew: &C,
    teller: &PhraseTeller<'_>,
    lines: &WordLines,
    sink: &mut K,
) -> Status
    requires crew { C.ready crew.now }
    requires limit { IsLimit teller.now.limit }
    requires readings { 1 ≤ teller.now.readings }
    requires ready { AreReady teller.now.systems.now teller.now.grammars.now }
    requires named { AreSystemsNamed (length teller.now.names.now) teller.now.systems.now }
    requires accepted { AreAccepted (map grammar_of teller.now.systems.now) }
    requires systems { length teller.now.systems.now ≤ most_systems }
    requires lines { (words : List Label) → words ∈ lines.now → (word : Label) → word ∈ words
        → word.0 < length teller.now.names.now }
    requires some { (words : List Label) → words ∈ lines.now → 0 < length words }
    ensures delivers { DeliversPhrases teller.now.limit teller.now.readings teller.now.names.now
        (map grammar_of teller.now.systems.now) lines.now (K.written sink.old) (K.written sink.new) result }
    ensures writes { TellsWriteFaults (K.faults sink.old) (K.faults sink.new) result }
{
    let mut status = Status::Done;
    for index in 0..lines.len() {
        let Ok(told) = teller.tell(alloc, crew, index + 1, lines.line(index)) else {
            return Status::Memory;
        };
        let Ok(()) = write_all(sink, &told.text) else {
            return Status::WriteFault;
        };
        status = status_with(status, &told.end);
    }
    status
}

/// The status of lines that ended so, with one more that did.
fn status_with(status: Status, end: &LineEnd) -> Status
    ensures { result ≡ status_with status end.now }
{
    match end {
        LineEnd::Over => Status::Limit,
        LineEnd::Left(_) | LineEnd::Empty => status,
    }
}
