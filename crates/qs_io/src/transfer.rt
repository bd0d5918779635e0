// Whole texts, read from a source and written to a sink.
ghost use Rattle.std.specs.Prelude.{◌≡◌, ◌⊎◌, ◌≤◌, ◌↔◌, ◌++◌, ℕ, List, ◌+◌, IfOk, IsErrOf, OnOk, OnErr, length};
ghost use Rattle.std.specs.Io.KnownBytes.{IsAtEnd, append_known, prepend_known};
ghost use Rattle.qs_io.specs.declared.transfer.ReadEnd.TheVariants as end;
ghost use Rattle.qs_io.specs.Devices.{AppendsProperPrefix, Gives, HasRisen, TakesBytes};
ghost use Rattle.qs_io.specs.Limits.{most_text_bytes};

use crate::{Memory, Sink, Source};
use std::alloc::Global;

/// The most bytes that a text may have.
pub const MAX_TEXT_BYTES: usize = 4_194_304;

// How many bytes are asked for at a time.
const CHUNK_BYTES: usize = 4096;

/// Why a text wasn't read to its end.
#[derive(Clone, Copy, Debug, PartialEq, Eq)]
pub enum ReadEnd {
    /// The source failed.
    Fault,
    /// The source gave one byte more than a text may have.
    TooLong,
    /// There was no memory for the bytes.
    Memory,
}

impl From<Memory> for ReadEnd {
    ghost from_gives = { λ _ e. e ≡ end.Memory };

    fn from(_: Memory) -> Self {
        ReadEnd::Memory
    }
}

/// The number of `MAX_TEXT_BYTES` is the one that contracts say.
pub fn max_text_bytes_is_the_most()
    ensures { MAX_TEXT_BYTES ≡ most_text_bytes }
{}

/// A text wasn't written to its end, since the sink failed.
#[derive(Clone, Copy, Debug, PartialEq, Eq)]
pub struct WriteFault;

/// Reads to the end of input: the answer is the bytes that the source had left, at most `MAX_TEXT_BYTES`.
///
/// - `Fault` comes only where the source's count of faults rose in this call.
/// - `TooLong` comes exactly where `MAX_TEXT_BYTES + 1` bytes were taken; no more are asked for.
/// - `Memory` comes where the bytes find no memory.
///
/// After each of these the source has lost the bytes that were taken, and they aren't given back; `given` tells them.
/// At most `MAX_TEXT_BYTES + 1` reads are made. With every answer but `Fault` the count of faults stays as it was.
pub fn read_all<S: Source>(alloc: Global, source: &mut S) -> Result<Vec<u8>, ReadEnd>
    ensures bytes { IfOk result (λ text. S.left source.old ≡ prepend_known text.items (S.left source.new)) }
    ensures end { IfOk result (λ text. IsAtEnd (S.left source.new)) }
    ensures bound { IfOk result (λ text. length text.items ≤ most_text_bytes) }

    ensures given { IfOk result (λ text. S.given source.new ≡ S.given source.old ++ text.items) }
    ensures ended { OnOk result (S.has_ended source.new) }

    ensures fault { IsErrOf result ReadEnd.Fault → HasRisen (S.faults source.old) (S.faults source.new) }
    // Whatever the answer, at most one byte more than a text may have is taken,
    // and a text is too long exactly where it is.
    ensures taken { (n : ℕ) × TakesBytes (S.left source.old) (S.left source.new) n × (n ≤ most_text_bytes + 1)
        × (IsErrOf result ReadEnd.TooLong ↔ (n ≡ most_text_bytes + 1)) }

    // The same of what was given, which every source tells.
    ensures gives { Gives (S.given source.old) (S.given source.new) (most_text_bytes + 1)
        (IsErrOf result ReadEnd.TooLong) }

    ensures no_fault { OnOk result (S.faults source.new ≡ S.faults source.old) }
    ensures no_other_fault { OnErr result (IsErrOf result ReadEnd.Fault ⊎ (S.faults source.new ≡ S.faults source.old)) }
    ensures count { S.faults source.old ≤ S.faults source.new }
{
    let mut text = Vec::new(alloc);
    let mut chunk = [0; CHUNK_BYTES];
    loop {
        let wanted = CHUNK_BYTES.min(MAX_TEXT_BYTES + 1 - text.len());
        let room = &mut chunk[..wanted];
        let Ok(taken) = source.read(room) else {
            return Err(ReadEnd::Fault);
        };
        if taken == 0 {
            return Ok(text);
        }
        // Before the bytes are kept, so that want of memory can't hide that the text is too long.
        if text.len() + taken > MAX_TEXT_BYTES {
            return Err(ReadEnd::TooLong);
        }
        text.extend_from_slice(&room[..taken])?;
    }
}

/// Writes all the bytes. Takes no memory.
///
/// `WriteFault` comes only where the sink's count of faults rose in this call; then a proper prefix of the bytes was
/// appended, where the sink tells its bytes, so all are written exactly where the answer is `Ok`. With `Ok` the count
/// stays as it was. Each write is given all that is left to be written, so a sink that takes whole pieces gets one
/// write, and empty bytes make none.
pub fn write_all<K: Sink>(sink: &mut K, bytes: &[u8]) -> Result<(), WriteFault>
    ensures bytes { OnOk result (K.written sink.new ≡ append_known (K.written sink.old) bytes.now) }

    ensures fault { OnErr result (HasRisen (K.faults sink.old) (K.faults sink.new)) }
    ensures prefix { OnErr result (AppendsProperPrefix (K.written sink.old) (K.written sink.new) bytes.now) }

    ensures no_fault { OnOk result (K.faults sink.new ≡ K.faults sink.old) }
    ensures count { K.faults sink.old ≤ K.faults sink.new }
{
    let mut rest = bytes;
    while !rest.is_empty() {
        let Ok(taken) = sink.write(rest) else {
            return Err(WriteFault);
        };
        rest = &rest[taken..];
    }
    Ok(())
}
