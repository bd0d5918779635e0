//! The whole program, but for its devices.

ghost use Rattle.std.specs.Prelude.{◌≡◌, ◌≢◌, ◌↔◌, ℕ, List, Some, IsTrue, map};
ghost use Rattle.std.specs.String.{string_bytes};
ghost use Rattle.qs_command.specs.declared.job.Job.{Job};
ghost use Rattle.qs_command.specs.Words.{IsInRange, IsJobOf, AreRefused};
ghost use Rattle.qs_program.specs.Defined.{IsForOneWorker};
ghost use Rattle.qs_program.specs.Answers.{EndsAsDefined};
ghost use Rattle.qs_program.specs.Calls.{AnswersWords, DoesJob, HasCause, TellsWriteFaults, WritesUsage};

use crate::run::{run_still, run_with};
use qs_command::{Command, Job, Status, WordsEnd, read_words};
use qs_io::{Gate, Sink, Source, write_all};
use std::alloc::Global;
use std::sync::Wait;
use std::thread::Threads;

/// What is written for words that give no job.
const USAGE: &[u8] =
    b"usage: qsys run|check|graph|made|explain|levels|phrase [--limit N] [--workers N] [--size N] [--readings N]\n";

/// Writes the usage line. `WriteFault` comes only where the sink failed; then a proper prefix of the line was written.
pub fn write_usage<K: Sink>(sink: &mut K) -> Status
    ensures usage { WritesUsage (K.written sink.old) (K.written sink.new) result }
    ensures writes { TellsWriteFaults (K.faults sink.old) (K.faults sink.new) result }
{
    match write_all(sink, USAGE) {
        Ok(()) => Status::Usage,
        Err(_) => Status::WriteFault,
    }
}

/// Whether one worker does the job alone: it says so, or has nothing that workers do.
fn is_for_one_worker(job: &Job) -> bool
    ensures { IsTrue result ↔ IsForOneWorker job.now }
{
    match job.command {
        Command::Run | Command::Made | Command::Explain | Command::Phrase => job.workers == 1,
        Command::Check | Command::Graph | Command::Levels => true,
    }
}

/// Does the job, by `run_still` exactly where it is for one worker, and else by `run_with`. `run_still` tells the
/// answers.
fn do_job<S: Source, K: Sink, R: Threads + Wait + Sync, G: Gate + Sync>(
    rt: &R,
    alloc: Global,
    job: &Job,
    source: &mut S,
    sink: &mut K,
    gate: &G,
) -> Status
    requires { IsInRange job.now }

    ensures headline { (bytes : List ℕ) → S.left source.old ≡ Some bytes
        → EndsAsDefined job.now bytes (K.written sink.old) (K.written sink.new) result }
    ensures does_job { DoesJob S.Source K.Sink job.now source.old source.new sink.old sink.new result }
    ensures cause { HasCause S.Source K.Sink source.old source.new sink.old sink.new result }
    ensures not_usage { result ≢ Status.Usage }
{
    if is_for_one_worker(job) {
        run_still(alloc, job, source, sink)
    } else {
        run_with(rt, alloc, job, source, sink, gate)
    }
}

/// Reads the words that follow the program's name, and does the job that they give, as `read_words` says. A job that
/// has nothing that workers do, or is for one worker, is done by `run_still`, which never waits and always returns;
/// every other one by `run_with`, which may wait, also forever: the workers are threads beside each other. Whatever
/// they do first, the same is written.
///
/// For other words the usage line is written and nothing is read; the answer is `Usage` then, or `WriteFault` where the
/// sink failed. Where there was no memory to read the words, the answer is `Memory`, and nothing is read or written.
/// For the answers of a job see `run_still`.
pub fn qsys<S: Source, K: Sink, R: Threads + Wait + Sync, G: Gate + Sync>(
    rt: &R,
    alloc: Global,
    words: &[String],
    source: &mut S,
    sink: &mut K,
    gate: &G,
) -> Status
    // Where the source tells its bytes, exactly what is defined for them is written; only too many bytes, a fault that
    // is counted or want of memory stops it, at a prefix, and want of memory between two blocks.
    ensures headline { (job : Job) → IsJobOf (map string_bytes words.now) job
        → (bytes : List ℕ) → S.left source.old ≡ Some bytes
        → EndsAsDefined job bytes (K.written sink.old) (K.written sink.new) result }
    // The same of the bytes that the reads of this call gave; with no fault and not too many bytes, only memory can be
    // wanting; and how far each command reads.
    ensures does_job { (job : Job) → IsJobOf (map string_bytes words.now) job
        → DoesJob S.Source K.Sink job source.old source.new sink.old sink.new result }

    // Words that give no job are answered with the usage line, where there is memory to read them, and nothing is read
    // for them.
    ensures words { AnswersWords (map string_bytes words.now) (K.written sink.old) (K.written sink.new) result }
    ensures nothing_read { AreRefused (map string_bytes words.now) → source.new ≡ source.old }

    // A fault is answered exactly where it was counted, and a text is too long exactly where too many bytes were taken.
    ensures cause { HasCause S.Source K.Sink source.old source.new sink.old sink.new result }
{
    match read_words(alloc, words) {
        Ok(job) => do_job(rt, alloc, &job, source, sink, gate),
        Err(WordsEnd::Usage) => write_usage(sink),
        Err(WordsEnd::Memory) => Status::Memory,
    }
}
