// The edge to the outside: a source over a reader of std and a sink over a writer.
ghost use Rattle.std.specs.Prelude.{◌≡◌, ◌<◌, ◌≤◌, ◌+◌, ◌-◌, ◌^◌, ◌++◌, ◌↔◌, [], false, ℕ, length, min, take};
ghost use Rattle.std.specs.Prelude.{IfOk, IsTrue, None, OnErr, OnOk};
ghost use Rattle.std.specs.Io.KnownBytes.{Appends, ReadConsumes};

use crate::{Failed, Sink, Source, Trace};
use std::io;
use std::io::{Read, Write};
use std::marker::Model;

/// A source over a reader. Each error of the reader is a fault. It tells no bytes that are left; what its reads do to
/// the reader is said where the reader's own contract tells its bytes. The bytes that were given are those that the
/// reader's calls put into the room, and the input has ended where the last of these calls that didn't fail put none.
#[derive(Drop)]
pub struct StdSource<R> {
    reader: R,
    faults: u64,
    given: Trace,
    // The last call that didn't fail gave nothing.
    ended: bool,
}

impl<R> Model for StdSource<R> {
    ghost use Rattle.qs_io.specs.Standard.{OverReader};

    ghost Value = { OverReader R };

    ghost view = { λ s. record { device = s.reader; faults = s.faults; given = s.given.bytes; ended = s.ended } };
}

impl<R: Read> StdSource<R> {
    /// A source over this reader, with no faults yet, which has given nothing.
    pub fn new(reader: R) -> StdSource<R>
        ensures { result ≡ record { device = reader; faults = 0; given = []; ended = false } }
    {
        StdSource {
            reader,
            faults: 0,
            given: Trace::new(),
            ended: false,
        }
    }
}

impl<R: Read> Source for StdSource<R> {
    ghost left = { λ _. None };

    ghost given = { λ s. s.given };

    ghost has_ended = { λ s. IsTrue s.ended };

    ghost faults = { λ s. s.faults };

    fn read(&mut self, room: &mut [u8]) -> Result<usize, Failed>
        requires { 0 < length room.old }

        ensures bound { IfOk result (λ n. n ≤ length room.new) }
        ensures reader { ReadConsumes (R.remaining self.old.device) (R.remaining self.new.device) result room.new }

        ensures given { IfOk result (λ n. self.new.given ≡ self.old.given ++ take n room.new) }
        ensures ended { IfOk result (λ n. IsTrue self.new.ended ↔ (n ≡ 0)) }
        ensures gives_nothing { OnErr result (self.new.given ≡ self.old.given) }

        ensures ok { OnOk result (self.new.faults ≡ self.old.faults) }
        ensures err { OnErr result (self.new.faults ≡ min (self.old.faults + 1) (2 ^ 64 - 1)) }
        ensures count { self.old.faults ≤ self.new.faults }
    {
        let Ok(taken) = self.reader.read(room) else {
            self.faults = self.faults.saturating_add(1);
            return Err(Failed);
        };
        self.given.note(&room[..taken]);
        self.ended = taken == 0;
        Ok(taken)
    }
}

/// A sink over a writer, which it flushes after each write. An error of the writer is a fault, whether it comes from
/// the write or from the flush, and so is a write that takes nothing. As a sink it tells no bytes; what its writes do
/// to the writer is said where the writer's own contract tells its bytes. A `TracedSink` over it tells what it took.
#[derive(Drop)]
pub struct StdSink<W> {
    writer: W,
    faults: u64,
}

impl<W> Model for StdSink<W> {
    ghost use Rattle.qs_io.specs.Standard.{OverWriter};

    ghost Value = { OverWriter W };

    ghost view = { λ s. record { device = s.writer; faults = s.faults } };
}

impl<W: Write> StdSink<W> {
    /// A sink over this writer, with no faults yet.
    pub fn new(writer: W) -> StdSink<W>
        ensures { result ≡ record { device = writer; faults = 0 } }
    {
        StdSink { writer, faults: 0 }
    }
}

impl<W: Write> Sink for StdSink<W> {
    ghost written = { λ _. None };

    ghost faults = { λ s. s.faults };

    fn write(&mut self, piece: &[u8]) -> Result<usize, Failed>
        requires { 0 < length piece.now }

        ensures some { IfOk result (λ n. 0 < n) }
        ensures bound { IfOk result (λ n. n ≤ length piece.now) }
        ensures writer { IfOk result
            (λ n. Appends (W.contents self.old.device) (W.contents self.new.device) (take n piece.now)) }

        ensures ok { OnOk result (self.new.faults ≡ self.old.faults) }
        ensures err { OnErr result (self.new.faults ≡ min (self.old.faults + 1) (2 ^ 64 - 1)) }
        ensures count { self.old.faults ≤ self.new.faults }

        // A flush may fail after the writer took some bytes.
        ensures prefix { OnErr result ((n : ℕ) × (n ≤ length piece.now)
            × Appends (W.contents self.old.device) (W.contents self.new.device) (take n piece.now)) }
    {
        match write_and_flush(&mut self.writer, piece) {
            Ok(taken) if taken > 0 => Ok(taken),
            _ => {
                self.faults = self.faults.saturating_add(1);
                Err(Failed)
            }
        }
    }
}

/// Writes the first bytes of `piece`, flushes the writer, and answers how many bytes it took.
fn write_and_flush<W: Write>(writer: &mut W, piece: &[u8]) -> io::Result<usize>
    ensures bound { IfOk result (λ n. n ≤ length piece.now) }
    ensures ok { IfOk result (λ n. Appends (W.contents writer.old) (W.contents writer.new) (take n piece.now)) }
    ensures err { OnErr result ((n : ℕ) × (n ≤ length piece.now)
        × Appends (W.contents writer.old) (W.contents writer.new) (take n piece.now)) }
{
    let taken = writer.write(piece)?;
    writer.flush()?;
    Ok(taken)
}
