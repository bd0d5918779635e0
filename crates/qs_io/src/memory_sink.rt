// A sink that keeps its bytes in memory.
ghost use Rattle.std.specs.Prelude.{◌≡◌, ◌⊎◌, ◌<◌, ◌≤◌, ◌+◌, ◌-◌, ◌^◌, ◌++◌, ◌↔◌, [], IsErr, IfOk, OnErr, Some, length};
ghost use Rattle.std.specs.Prelude.{min, take};
ghost use Rattle.std.specs.List.Sorted.{IsStrictlyIncreasing};
ghost use Rattle.qs_io.specs.InMemory.{FailsNext, calls_after};

use crate::failing::fails_next;
use crate::{Failed, Memory, Sink};
use std::alloc::Global;
use std::marker::Model;

/// A sink that keeps a bounded number of bytes in memory, takes at most `piece` bytes at a call, and whose calls with
/// certain numbers fail. It tells its bytes; its count of faults is the least of the number of calls that failed and
/// the greatest `u64`.
#[derive(Debug, Drop)]
pub struct MemSink {
    bytes: Vec<u8>,
    // How many more bytes the sink takes.
    room: usize,
    piece: usize,
    failing: Vec<u64>,
    calls: u64,
    faults: u64,
}

impl Model for MemSink {
    ghost use Rattle.std.specs.Prelude.{◌+◌, ◌≤◌, ◌<◌, length, vec_capacity};
    ghost use Rattle.qs_io.specs.InMemory.{SinkState};

    ghost Value = { SinkState };

    ghost view = { λ s. record {
      written = s.bytes.items;
      room = s.room;
      piece = s.piece;
      failing = s.failing.items;
      calls = s.calls;
      faults = s.faults;
    } };

    ghost invariant = { λ s. (length s.bytes.items + s.room ≤ vec_capacity s.bytes) × (0 < s.piece) };
}

impl MemSink {
    /// Keeps at most `room` bytes, and takes at most `piece` at a call. Counted from 1, the k-th call fails for each k
    /// in `failing`, and so does each call that finds no room left.
    ///
    /// `Memory` comes where the room can't be had. All of it is taken here, so a write takes no memory.
    pub fn new(
        alloc: Global,
        room: usize,
        piece: usize,
        failing: Vec<u64>,
    ) -> Result<MemSink, Memory>
        requires piece { 0 < piece }
        requires failing { IsStrictlyIncreasing failing.items }
        ensures { IfOk result (λ sink. sink
            ≡ record { written = []; room = room; piece = piece; failing = failing.items; calls = 0; faults = 0 }) }
    {
        let bytes = Vec::with_capacity(alloc, room)?;
        Ok(MemSink {
            bytes,
            room,
            piece,
            failing,
            calls: 0,
            faults: 0,
        })
    }

    /// The bytes that were written. Takes no memory.
    pub fn written(&self) -> &[u8]
        ensures { result.now ≡ self.now.written }
    {
        &self.bytes
    }

    /// How many calls have failed, or the greatest `u64` where more have. Takes no memory.
    pub fn faults(&self) -> u64
        ensures { result ≡ self.now.faults }
    {
        self.faults
    }
}

impl Sink for MemSink {
    ghost written = { λ s. Some s.written };

    ghost faults = { λ s. s.faults };

    fn write(&mut self, piece: &[u8]) -> Result<usize, Failed>
        requires { 0 < length piece.now }

        ensures fails { IsErr result ↔ (FailsNext self.old.calls self.old.failing ⊎ (self.old.room ≡ 0)) }
        ensures err { OnErr result (self.new
            ≡ record self.old { calls = calls_after self.old.calls; faults = min (self.old.faults + 1) (2 ^ 64 - 1) }) }

        ensures amount { IfOk result (λ n. n ≡ min (length piece.now) (min self.old.piece self.old.room)) }
        ensures ok { IfOk result (λ n. self.new ≡ record self.old {
          written = self.old.written ++ take n piece.now;
          room = self.old.room - n;
          calls = calls_after self.old.calls;
        }) }
        ensures some { IfOk result (λ n. 0 < n) }
        ensures count { self.old.faults ≤ self.new.faults }
    {
        let fails = fails_next(self.calls, &self.failing);
        self.calls = self.calls.saturating_add(1);
        if fails || self.room == 0 {
            self.faults = self.faults.saturating_add(1);
            return Err(Failed);
        }
        let amount = piece.len().min(self.piece).min(self.room);
        // The room was taken when the sink was made, so this can't fail.
        self.bytes.extend_from_slice(&piece[..amount]).unwrap();
        self.room -= amount;
        Ok(amount)
    }
}
