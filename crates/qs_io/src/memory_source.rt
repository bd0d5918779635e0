// Sources over bytes that lie in memory.
ghost use Rattle.std.specs.Prelude.{◌≡◌, ◌<◌, ◌≤◌, ◌+◌, ◌++◌, ◌↔◌, [], IsErr, IsOkAnd, IfOk, OnErr, Some, drop, length};
ghost use Rattle.std.specs.Prelude.{min, take};
ghost use Rattle.std.specs.List.Sorted.{IsStrictlyIncreasing};
ghost use Rattle.qs_io.specs.InMemory.{FailsNext, calls_after};

use crate::failing::fails_next;
use crate::{Failed, Source};
use std::alloc::Global;
use std::marker::Model;

/// A source over bytes in memory that gives at most `piece` bytes at a call, and whose calls with certain numbers
/// fail. It tells its bytes; its count of faults is the number of calls that failed.
#[derive(Debug, Drop)]
pub struct MemSource {
    // Kept as in each type that holds a list. No call of the source takes memory.
    alloc: Global,
    bytes: Vec<u8>,
    // How many of the bytes were taken.
    taken: usize,
    piece: usize,
    failing: Vec<u64>,
    calls: u64,
    faults: u64,
}

impl Model for MemSource {
    ghost use Rattle.std.specs.Prelude.{◌≤◌, ◌<◌, drop, length, take};
    ghost use Rattle.qs_io.specs.InMemory.{SourceState};

    ghost Value = { SourceState };

    ghost view = { λ s. record {
      left = drop s.taken s.bytes.items;
      given = take s.taken s.bytes.items;
      piece = s.piece;
      failing = s.failing.items;
      calls = s.calls;
      faults = s.faults;
    } };

    ghost invariant = { λ s. (s.taken ≤ length s.bytes.items) × (0 < s.piece) × (s.faults ≤ s.calls) };
}

impl MemSource {
    /// Gives these bytes, at most `piece` of them at a call. Counted from 1, the k-th call fails exactly for each k
    /// in `failing`. Takes no memory.
    pub fn new(alloc: Global, bytes: Vec<u8>, piece: usize, failing: Vec<u64>) -> MemSource
        requires piece { 0 < piece }
        requires failing { IsStrictlyIncreasing failing.items }
        ensures { result ≡ record {
          left = bytes.items;
          given = [];
          piece = piece;
          failing = failing.items;
          calls = 0;
          faults = 0;
        } }
    {
        MemSource {
            alloc,
            bytes,
            taken: 0,
            piece,
            failing,
            calls: 0,
            faults: 0,
        }
    }

    /// The bytes that are left. Takes no memory.
    pub fn left(&self) -> &[u8]
        ensures { result.now ≡ self.now.left }
    {
        &self.bytes[self.taken..]
    }

    /// How many calls have failed. Takes no memory.
    pub fn faults(&self) -> u64
        ensures { result ≡ self.now.faults }
    {
        self.faults
    }
}

impl Source for MemSource {
    ghost left = { λ s. Some s.left };

    ghost given = { λ s. s.given };

    ghost has_ended = { λ s. s.left ≡ [] };

    ghost faults = { λ s. s.faults };

    fn read(&mut self, room: &mut [u8]) -> Result<usize, Failed>
        requires { 0 < length room.old }

        ensures fails { IsErr result ↔ FailsNext self.old.calls self.old.failing }
        ensures err { OnErr result (self.new
            ≡ record self.old { calls = calls_after self.old.calls; faults = self.old.faults + 1 }) }

        ensures amount { IfOk result (λ n. n ≡ min (length room.new) (min self.old.piece (length self.old.left))) }
        ensures bytes { IfOk result (λ n. take n room.new ≡ take n self.old.left) }
        ensures ok { IfOk result (λ n. self.new ≡ record self.old {
          left = drop n self.old.left;
          given = self.old.given ++ take n self.old.left;
          calls = calls_after self.old.calls;
        }) }
        ensures end { IfOk result (λ n. n ≡ 0 → self.old.left ≡ []) }
    {
        let fails = fails_next(self.calls, &self.failing);
        self.calls = self.calls.saturating_add(1);
        if fails {
            self.faults += 1;
            return Err(Failed);
        }
        let amount = copy_front(&self.bytes[self.taken..], self.piece, room);
        self.taken += amount;
        Ok(amount)
    }
}

/// A source over bytes in memory that gives at most `piece` bytes at a call and never fails. It tells its bytes; its
/// count of faults is always 0.
#[derive(Debug, Drop)]
pub struct SureSource {
    // Kept as in each type that holds a list. No call of the source takes memory.
    alloc: Global,
    bytes: Vec<u8>,
    // How many of the bytes were taken.
    taken: usize,
    piece: usize,
}

impl Model for SureSource {
    ghost use Rattle.std.specs.Prelude.{◌≤◌, ◌<◌, drop, length, take};
    ghost use Rattle.qs_io.specs.InMemory.{SureSourceState};

    ghost Value = { SureSourceState };

    ghost view = { λ s. record {
      left = drop s.taken s.bytes.items;
      given = take s.taken s.bytes.items;
      piece = s.piece;
    } };

    ghost invariant = { λ s. (s.taken ≤ length s.bytes.items) × (0 < s.piece) };
}

impl SureSource {
    /// Gives these bytes, at most `piece` of them at a call. Takes no memory.
    pub fn new(alloc: Global, bytes: Vec<u8>, piece: usize) -> SureSource
        requires { 0 < piece }
        ensures { result ≡ record { left = bytes.items; given = []; piece = piece } }
    {
        SureSource {
            alloc,
            bytes,
            taken: 0,
            piece,
        }
    }
}

impl Source for SureSource {
    ghost left = { λ s. Some s.left };

    ghost given = { λ s. s.given };

    ghost has_ended = { λ s. s.left ≡ [] };

    ghost faults = { λ _. 0 };

    fn read(&mut self, room: &mut [u8]) -> Result<usize, Failed>
        requires { 0 < length room.old }

        ensures amount { IsOkAnd result (λ n. n ≡ min (length room.new) (min self.old.piece (length self.old.left))) }
        ensures bytes { IfOk result (λ n. take n room.new ≡ take n self.old.left) }
        ensures ok { IfOk result (λ n. self.new ≡ record self.old {
          left = drop n self.old.left;
          given = self.old.given ++ take n self.old.left;
        }) }
        ensures end { IfOk result (λ n. n ≡ 0 → self.old.left ≡ []) }
    {
        let amount = copy_front(&self.bytes[self.taken..], self.piece, room);
        self.taken += amount;
        Ok(amount)
    }
}

/// Copies the first of `bytes` to the front of `room`, as many as both and `piece` allow, and answers how many.
fn copy_front(bytes: &[u8], piece: usize, room: &mut [u8]) -> usize
    ensures amount { result ≡ min (length room.new) (min piece (length bytes.now)) }
    ensures bytes { take result room.new ≡ take result bytes.now }
{
    let amount = room.len().min(piece).min(bytes.len());
    room[..amount].copy_from_slice(&bytes[..amount]);
    amount
}
