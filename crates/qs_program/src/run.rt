//! A run: from the bytes of a source to those of a sink.

ghost use Rattle.std.specs.Prelude.{◌≡◌, ◌≢◌, ◌⊎◌, ◌≤◌, ℕ, List, Some, Result, Ok, Err, IfOk, length, map};
ghost use Rattle.qs_graphtext.specs.Texts.{graph_text};
ghost use Rattle.qs_io.specs.Limits.{most_text_bytes};
ghost use Rattle.qs_deck.specs.Decks.{grammar_of, IsDeckOf};
ghost use Rattle.qs_deck.specs.Texts.{deck_text};
ghost use Rattle.qs_worker.specs.Crews.{CanRunOn};
ghost use Rattle.qs_command.specs.Limits.{IsLimit};
ghost use Rattle.qs_program.specs.Defined.{Reads, ReadsDeck, IsForOneWorker};
ghost use Rattle.qs_program.specs.Answers.{EndsAsDefined, IsOfWholeText};
ghost use Rattle.qs_program.specs.Calls.{DoesJob, HasCause, TellsWriteFaults};
ghost use Rattle.qs_program.specs.working.Cascading.{DeliversCascade, IsAnswered, IsWritten};

use crate::cascade::cascade;
use crate::endings::status_of;
use crate::phrases::phrases;
use qs_command::{Command, Job, Status};
use qs_deck::{Deck, DeckEnd, read_deck, read_phrases, write_deck};
use qs_graph::Graph;
use qs_graphtext::write_graph;
use qs_io::{Gate, ReadEnd, Sink, Source, read_all, write_all};
use qs_telling::{
    PhraseTeller, Teller, Telling, grammars_of, levels_text, made_end, refusal_line, summary,
};
use qs_worker::{ByCall, Crew, Grammar, OneWorker, run_together};
use std::alloc::{AllocError, Global};
use std::sync::Wait;
use std::thread::Threads;

/// The text of the deck.
fn deck_text(alloc: Global, deck: &Deck) -> Result<Vec<u8>, AllocError>
    ensures { IfOk result (λ text. text.items
        ≡ deck_text deck.now.version deck.now.names (map grammar_of deck.now.systems.items) deck.now.graph) }
{
    let mut text = Vec::new(alloc);
    write_deck(alloc, deck, &mut text)?;
    Ok(text)
}

/// The text of the deck's graph.
fn graph_text(alloc: Global, deck: &Deck) -> Result<Vec<u8>, AllocError>
    ensures { IfOk result (λ text. text.items ≡ graph_text deck.now.names deck.now.graph) }
{
    let mut text = Vec::new(alloc);
    write_graph(alloc, &deck.graph, &deck.names, &mut text)?;
    Ok(text)
}

/// Writes the text, where memory was there for it, and answers with the status of its whole text. `WriteFault` comes
/// only where the sink failed; then a proper prefix of the text was written.
fn write_text<K: Sink>(sink: &mut K, text: Result<Vec<u8>, AllocError>, status: Status) -> Status
    requires { IsOfWholeText status }
    ensures written { IsWritten text (K.written sink.old) (K.written sink.new) status result }
    ensures writes { TellsWriteFaults (K.faults sink.old) (K.faults sink.new) result }
{
    let Ok(text) = text else {
        return Status::Memory;
    };
    match write_all(sink, &text) {
        Ok(()) => status,
        Err(_) => Status::WriteFault,
    }
}

/// Runs the grammars of the deck on its graph, and writes what is told of each; `cascade` tells the answers.
fn run_deck<C: Crew, K: Sink>(
    alloc: Global,
    crew: &C,
    deck: Deck,
    limit: u32,
    telling: Telling,
    sink: &mut K,
) -> Status
    requires crew { C.ready crew.now }
    requires limit { IsLimit limit }
    requires deck { (bytes : List ℕ) × IsDeckOf bytes deck.version deck.names (map grammar_of deck.systems.items)
        deck.graph }
    ensures delivers { DeliversCascade telling limit deck.names deck.graph (map grammar_of deck.systems.items)
        (K.written sink.old) (K.written sink.new) result }
    ensures writes { TellsWriteFaults (K.faults sink.old) (K.faults sink.new) result }
{
    let Deck {
        names,
        systems,
        graph,
        ..
    } = deck;
    let teller = Teller {
        names: &names,
        limit,
        telling,
    };
    cascade(alloc, crew, &teller, &systems, graph, sink)
}

/// Does the job, which reads a deck, with the text that was read. `Memory` comes where memory was wanting: before
/// anything was written, or with the first blocks of the text that is defined, fewer than all.
fn answer_deck<C: Crew, K: Sink>(
    alloc: Global,
    crew: &C,
    job: &Job,
    bytes: &[u8],
    sink: &mut K,
) -> Status
    requires crew { C.ready crew.now }
    requires limit { IsLimit job.now.limit }
    requires reads { ReadsDeck job.now.command }
    requires bytes { length bytes.now ≤ most_text_bytes }
    ensures answered { IsAnswered job.now bytes.now (K.written sink.old) (K.written sink.new) result }
    ensures kinds { IsOfWholeText result ⊎ (result ≡ Status.WriteFault) ⊎ (result ≡ Status.Memory) }
    ensures writes { TellsWriteFaults (K.faults sink.old) (K.faults sink.new) result }
{
    let deck = match read_deck(alloc, bytes) {
        Ok(deck) => deck,
        Err(DeckEnd::Refused(refusal)) => {
            return write_text(sink, refusal_line(alloc, &refusal), Status::Refused);
        }
        Err(DeckEnd::Memory) => return Status::Memory,
    };
    match job.command {
        Command::Run => run_deck(alloc, crew, deck, job.limit, Telling::Blocks, sink),
        Command::Explain => run_deck(alloc, crew, deck, job.limit, Telling::Supports, sink),
        Command::Check => write_text(sink, deck_text(alloc, &deck), Status::Done),
        Command::Graph => write_text(sink, graph_text(alloc, &deck), Status::Done),
        Command::Levels => {
            write_text(
                sink,
                levels_text(alloc, &deck.names, &deck.systems),
                Status::Done,
            )
        }
        Command::Made | Command::Phrase => unreachable!(),
    }
}

/// Runs the grammars of a phrase text on its lines of words, with the text that was read. `Memory` comes where memory
/// was wanting: before anything was written, or with the first blocks of the text that is defined, fewer than all.
fn answer_phrases<C: Crew, K: Sink>(
    alloc: Global,
    crew: &C,
    job: &Job,
    bytes: &[u8],
    sink: &mut K,
) -> Status
    requires crew { C.ready crew.now }
    requires limit { IsLimit job.now.limit }
    requires readings { 1 ≤ job.now.readings }
    requires command { job.now.command ≡ Command.Phrase }
    requires bytes { length bytes.now ≤ most_text_bytes }
    ensures answered { IsAnswered job.now bytes.now (K.written sink.old) (K.written sink.new) result }
    ensures kinds { IsOfWholeText result ⊎ (result ≡ Status.WriteFault) ⊎ (result ≡ Status.Memory) }
    ensures writes { TellsWriteFaults (K.faults sink.old) (K.faults sink.new) result }
{
    let read = match read_phrases(alloc, bytes) {
        Ok(read) => read,
        Err(DeckEnd::Refused(refusal)) => {
            return write_text(sink, refusal_line(alloc, &refusal), Status::Refused);
        }
        Err(DeckEnd::Memory) => return Status::Memory,
    };
    let Ok(grammars) = grammars_of(alloc, &read.systems) else {
        return Status::Memory;
    };
    let teller = PhraseTeller {
        names: &read.names,
        systems: &read.systems,
        grammars: &grammars,
        limit: job.limit,
        readings: job.readings,
    };
    phrases(alloc, crew, &teller, &read.lines, sink)
}

/// Does the job with the text that was read.
fn answer<C: Crew, K: Sink>(
    alloc: Global,
    crew: &C,
    job: &Job,
    bytes: &[u8],
    sink: &mut K,
) -> Status
    requires crew { C.ready crew.now }
    requires limit { IsLimit job.now.limit }
    requires readings { 1 ≤ job.now.readings }
    requires reads { Reads job.now.command }
    requires bytes { length bytes.now ≤ most_text_bytes }
    ensures answered { IsAnswered job.now bytes.now (K.written sink.old) (K.written sink.new) result }
    ensures kinds { IsOfWholeText result ⊎ (result ≡ Status.WriteFault) ⊎ (result ≡ Status.Memory) }
    ensures writes { TellsWriteFaults (K.faults sink.old) (K.faults sink.new) result }
{
    match job.command {
        Command::Phrase => answer_phrases(alloc, crew, job, bytes, sink),
        _ => answer_deck(alloc, crew, job, bytes, sink),
    }
}

/// Runs the made deck of the job's size, and writes a line that tells what is left. `Memory` comes where memory was
/// wanting.
fn tell_made<C: Crew, K: Sink>(alloc: Global, crew: &C, job: &Job, sink: &mut K) -> Status
    requires crew { C.ready crew.now }
    requires limit { IsLimit job.now.limit }
    requires size { job.now.size ≤ 13 }
    requires command { job.now.command ≡ Command.Made }
    ensures headline { (bytes : List ℕ) → EndsAsDefined job.now bytes (K.written sink.old) (K.written sink.new) result }
    ensures kinds { (result ≡ Status.Done) ⊎ (result ≡ Status.Limit)
        ⊎ (result ≡ Status.WriteFault) ⊎ (result ≡ Status.Memory) }
    ensures writes { TellsWriteFaults (K.faults sink.old) (K.faults sink.new) result }
{
    let Ok(end) = made_end(alloc, crew, job.size, job.limit) else {
        return Status::Memory;
    };
    let status = status_of(&end);
    write_text(sink, summary(alloc, job.size, job.limit, &end), status)
}

/// Reads the source to its end and what its bytes mean, a deck or a phrase text, and writes to the sink what is
/// defined; `run_still` tells the answers.
fn read_and_answer<C: Crew, S: Source, K: Sink>(
    alloc: Global,
    crew: &C,
    job: &Job,
    source: &mut S,
    sink: &mut K,
) -> Status
    requires crew { C.ready crew.now }
    requires limit { IsLimit job.now.limit }
    requires readings { 1 ≤ job.now.readings }
    requires reads { Reads job.now.command }

    ensures headline { (bytes : List ℕ) → S.left source.old ≡ Some bytes
        → EndsAsDefined job.now bytes (K.written sink.old) (K.written sink.new) result }
    ensures does_job { DoesJob S.Source K.Sink job.now source.old source.new sink.old sink.new result }
    ensures cause { HasCause S.Source K.Sink source.old source.new sink.old sink.new result }
    ensures not_usage { result ≢ Status.Usage }
{
    let bytes = match read_all(alloc, source) {
        Ok(bytes) => bytes,
        Err(ReadEnd::Fault) => return Status::ReadFault,
        Err(ReadEnd::TooLong) => return Status::TooLong,
        Err(ReadEnd::Memory) => return Status::Memory,
    };
    answer(alloc, crew, job, &bytes, sink)
}

/// Does the job, of which the crew makes the runs; `run_still` tells the answers. It returns if the crew does.
fn run_by<C: Crew, S: Source, K: Sink>(
    alloc: Global,
    crew: &C,
    job: &Job,
    source: &mut S,
    sink: &mut K,
) -> Status
    requires crew { C.ready crew.now }
    requires limit { IsLimit job.now.limit }
    requires size { job.now.size ≤ 13 }
    requires readings { 1 ≤ job.now.readings }

    ensures headline { (bytes : List ℕ) → S.left source.old ≡ Some bytes
        → EndsAsDefined job.now bytes (K.written sink.old) (K.written sink.new) result }
    ensures does_job { DoesJob S.Source K.Sink job.now source.old source.new sink.old sink.new result }
    ensures cause { HasCause S.Source K.Sink source.old source.new sink.old sink.new result }
    ensures not_usage { result ≢ Status.Usage }
{
    match job.command {
        Command::Run
        | Command::Check
        | Command::Graph
        | Command::Explain
        | Command::Levels
        | Command::Phrase => read_and_answer(alloc, crew, job, source, sink),
        Command::Made => tell_made(alloc, crew, job, sink),
    }
}

/// Does the job: reads the source to its end and the deck that it means, and writes to the sink what is defined; or
/// makes a deck, and reads nothing. The limit is from 1 to 1,000,000, the size from 0 to 13, and the number of readings
/// from 1 on. The job is for one worker, or has nothing that workers do, as `check`, `graph` and `levels`. It always
/// returns, and never waits.
///
/// - `run` runs the grammars one after another and writes what each leaves, when it has ended, and `explain` tells
///   behind each graph that is left where its arcs come from; `levels` tells of each grammar the levels that bound its
///   rounds; `check` writes the deck and `graph` its graph. `phrase` reads grammars and lines of words, runs the
///   grammars on each line, and writes the first readings of what they leave, as many as the job says. For a text that
///   isn't accepted its first fault is told. `made` runs the made deck of the job's size, and tells in one line what is
///   left; `Refused`, `ReadFault` and `TooLong` don't come for it.
/// - `Done`, `Refused` and `Limit` come where the whole text that is defined was written, and, but for `made`, the
///   source was read to its end. `Limit` comes where a grammar met the limit, for `phrase` on some line.
/// - `ReadFault` comes only where the source's count of faults rose in this call, and `TooLong` exactly where
///   4,194,305 bytes were taken; nothing is written then.
/// - `WriteFault` comes only where the sink's count of faults rose in this call; a proper prefix of the text that is
///   defined is written then. `Memory` comes where memory was wanting; nothing is written then, or, for `run`,
///   `explain` and `phrase`, the first blocks of the text, a whole number of them, with all their lines, and fewer than
///   all.
/// - With every answer but `ReadFault` the source's count of faults stays as it was, and with every answer but
///   `WriteFault` the sink's: so where a whole text was written, no fault was counted.
pub fn run_still<S: Source, K: Sink>(
    alloc: Global,
    job: &Job,
    source: &mut S,
    sink: &mut K,
) -> Status
    requires limit { IsLimit job.now.limit }
    requires size { job.now.size ≤ 13 }
    requires readings { 1 ≤ job.now.readings }
    requires workers { IsForOneWorker job.now }

    // Where the source tells its bytes, exactly what is defined for them is written; only too many bytes, a fault that
    // is counted or want of memory stops it, at a prefix, and want of memory between two blocks.
    ensures headline { (bytes : List ℕ) → S.left source.old ≡ Some bytes
        → EndsAsDefined job.now bytes (K.written sink.old) (K.written sink.new) result }
    // The same of the bytes that the reads of this call gave; with no fault and not too many bytes, only memory can be
    // wanting; and how far each command reads.
    ensures does_job { DoesJob S.Source K.Sink job.now source.old source.new sink.old sink.new result }
    // A fault is answered exactly where it was counted, and a text is too long exactly where too many bytes were taken.
    ensures cause { HasCause S.Source K.Sink source.old source.new sink.old sink.new result }
    ensures not_usage { result ≢ Status.Usage }
{
    run_by(alloc, &OneWorker, job, source, sink)
}

/// Does what `run_still` does, for every job, by as many workers as it says, at least 1, as threads beside each other,
/// which pass the gate with each arc that they claim. Whatever they do first, the same is written. It may wait, also
/// forever.
pub fn run_with<S: Source, K: Sink, R: Threads + Wait + Sync, G: Gate + Sync>(
    rt: &R,
    alloc: Global,
    job: &Job,
    source: &mut S,
    sink: &mut K,
    gate: &G,
) -> Status
    requires limit { IsLimit job.now.limit }
    requires size { job.now.size ≤ 13 }
    requires readings { 1 ≤ job.now.readings }
    requires workers { 1 ≤ job.now.workers }

    // Where the source tells its bytes, exactly what is defined for them is written; only too many bytes, a fault that
    // is counted or want of memory stops it, at a prefix, and want of memory between two blocks.
    ensures headline { (bytes : List ℕ) → S.left source.old ≡ Some bytes
        → EndsAsDefined job.now bytes (K.written sink.old) (K.written sink.new) result }
    // The same of the bytes that the reads of this call gave; with no fault and not too many bytes, only memory can be
    // wanting; and how far each command reads.
    ensures does_job { DoesJob S.Source K.Sink job.now source.old source.new sink.old sink.new result }
    // A fault is answered exactly where it was counted, and a text is too long exactly where too many bytes were taken.
    ensures cause { HasCause S.Source K.Sink source.old source.new sink.old sink.new result }
    ensures not_usage { result ≢ Status.Usage }
{
    let workers = job.workers;
    let run = |alloc: Global, grammar: &Grammar, start: &Graph, limit: u32|
        requires { CanRunOn start.now limit × (1 ≤ workers) }
    { run_together(rt, alloc, grammar, start, limit, workers, gate) };
    run_by(alloc, &ByCall { run }, job, source, sink)
}
