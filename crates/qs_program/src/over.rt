//! The whole program over a reader and a writer of std.

ghost use Rattle.std.specs.Prelude.{◌≡◌, ◌⊎◌, [], ◌≤◌, Some, IsTrue, length, map};
ghost use Rattle.std.specs.String.{string_bytes};
ghost use Rattle.qs_io.specs.Limits.{most_text_bytes};
ghost use Rattle.qs_command.specs.declared.job.Job.{Job};
ghost use Rattle.qs_command.specs.declared.job.Command.TheVariants.{Made};
ghost use Rattle.qs_command.specs.Words.{IsJobOf, AreRefused};
ghost use Rattle.qs_program.specs.Defined.{Reads};
ghost use Rattle.qs_program.specs.Answers.{EndsAsDefined, IsOfWholeText, WritesDefined};
ghost use Rattle.qs_program.specs.Calls.{AnswersWords, IsAnswerOfMade, TellsReadFaults, TellsWriteFaults, WritesUsage};

use crate::top::{qsys, write_usage};
use qs_command::Status;
use qs_io::{OpenGate, StdSink, StdSource, TracedSink};
use std::alloc::Global;
use std::io::{Read, Write};
use std::sync::Wait;
use std::thread::Threads;

/// A run that has ended: its status, and the reader and the writer that it had, with what its reads gave and what its
/// writes took.
#[derive(Drop)]
pub struct EndedRun<R, W> {
    pub status: Status,
    pub source: StdSource<R>,
    pub sink: TracedSink<StdSink<W>>,
}

/// Does what `qsys` does, over this reader and this writer, and with a gate that holds no worker.
///
/// Whatever bytes the reads of this run gave, from the first to the last, the bytes that its writes took, from the
/// first to the last, are exactly the text that is defined for the job and these bytes, with its status; or a proper
/// prefix of it where the writer failed; or nothing or its first blocks, each of them whole, where memory was wanting;
/// or nothing where the reader failed or gave more bytes than a text may have. Where a whole text was written, the last
/// read said that the input has ended, and neither the reader nor the writer failed.
pub fn run_over<T: Threads + Wait + Sync, R: Read, W: Write>(
    rt: &T,
    alloc: Global,
    words: &[String],
    reader: R,
    writer: W,
) -> EndedRun<R, W>
    ensures headline { (job : Job) → IsJobOf (map string_bytes words.now) job
        → EndsAsDefined job result.source.given (Some []) (Some result.sink.taken) result.status }
    ensures ended { (job : Job) → IsJobOf (map string_bytes words.now) job → Reads job.command
        → IsOfWholeText result.status → IsTrue result.source.ended }
    // The command that makes a deck reads nothing.
    ensures nothing_read_by_made { (job : Job) → IsJobOf (map string_bytes words.now) job → job.command ≡ Made
        → result.source.given ≡ [] }
    ensures made_answers { (job : Job) → IsJobOf (map string_bytes words.now) job → job.command ≡ Made
        → IsAnswerOfMade result.status }
    // With no fault and not too many bytes, only memory can be wanting.
    ensures complete { (job : Job) → IsJobOf (map string_bytes words.now) job
        → length result.source.given ≤ most_text_bytes → result.source.faults ≡ 0 → result.sink.sink.faults ≡ 0
        → WritesDefined job result.source.given (Some []) (Some result.sink.taken) result.status
        ⊎ (result.status ≡ Status.Memory) }

    // Words that give no job are answered with the usage line, where there is memory to read them, and nothing is
    // read for them.
    ensures words { AnswersWords (map string_bytes words.now) (Some []) (Some result.sink.taken) result.status }
    ensures nothing_read { AreRefused (map string_bytes words.now) → result.source.given ≡ [] }

    // A fault is answered exactly where the reader or the writer failed. At most one byte more than a text may have is
    // given, and a text is too long exactly where it is.
    ensures reads { TellsReadFaults 0 result.source.faults [] result.source.given result.status }
    ensures writes { TellsWriteFaults 0 result.sink.sink.faults result.status }
{
    let mut source = StdSource::new(reader);
    let mut sink = TracedSink::new(StdSink::new(writer));
    let status = qsys(rt, alloc, words, &mut source, &mut sink, &OpenGate);
    EndedRun {
        status,
        source,
        sink,
    }
}

/// A run for words that no text tells, which has ended: its status, and the writer that it had, with what its writes
/// took.
#[derive(Drop)]
pub struct RefusedRun<W> {
    pub status: Status,
    pub sink: TracedSink<StdSink<W>>,
}

/// Answers words of which one isn't a text, over this writer: the usage line is written, as for all words that give
/// no job. `WriteFault` comes only where the writer failed; then a proper prefix of the line was written. Nothing is
/// read, and no memory is taken.
pub fn refuse_over<W: Write>(writer: W) -> RefusedRun<W>
    ensures usage { WritesUsage (Some []) (Some result.sink.taken) result.status }
    ensures writes { TellsWriteFaults 0 result.sink.sink.faults result.status }
{
    let mut sink = TracedSink::new(StdSink::new(writer));
    let status = write_usage(&mut sink);
    RefusedRun { status, sink }
}
