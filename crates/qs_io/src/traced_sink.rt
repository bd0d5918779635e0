// A sink that tells what another sink took.
ghost use Rattle.std.specs.Prelude.{◌≡◌, ◌<◌, ◌≤◌, ◌++◌, [], ℕ, IfOk, OnErr, OnOk, Some, length, take};
ghost use Rattle.std.specs.Io.KnownBytes.{append_known};
ghost use Rattle.qs_io.specs.Devices.{HasRisen};

use crate::{Failed, Sink, Trace};
use std::marker::Model;

/// A sink over another one, whether that one tells its bytes or not. It tells the bytes that its own writes appended
/// since it was made. It keeps none of them in memory: they are there for contracts alone.
#[derive(Drop)]
pub struct TracedSink<K> {
    sink: K,
    taken: Trace,
}

impl<K> Model for TracedSink<K> {
    ghost use Rattle.qs_io.specs.TracedSinks.{Traced};

    ghost Value = { Traced K };

    ghost view = { λ s. record { sink = s.sink; taken = s.taken.bytes } };
}

impl<K: Sink> TracedSink<K> {
    /// A sink over this one, through which nothing was written yet.
    pub fn new(sink: K) -> TracedSink<K>
        ensures { result ≡ record { sink = sink; taken = [] } }
    {
        TracedSink {
            sink,
            taken: Trace::new(),
        }
    }
}

impl<K: Sink> Sink for TracedSink<K> {
    ghost written = { λ s. Some s.taken };

    ghost faults = { λ s. K.faults s.sink };

    fn write(&mut self, piece: &[u8]) -> Result<usize, Failed>
        requires { 0 < length piece.now }

        ensures some { IfOk result (λ n. 0 < n) }
        ensures bound { IfOk result (λ n. n ≤ length piece.now) }
        ensures bytes { IfOk result (λ n. self.new.taken ≡ self.old.taken ++ take n piece.now) }
        ensures below { IfOk result (λ n.
            K.written self.new.sink ≡ append_known (K.written self.old.sink) (take n piece.now)) }

        ensures no_fault { OnOk result (K.faults self.new.sink ≡ K.faults self.old.sink) }
        ensures failed { OnErr result (HasRisen (K.faults self.old.sink) (K.faults self.new.sink)) }
        ensures stays { OnErr result (self.new.taken ≡ self.old.taken) }
        ensures stays_below { OnErr result (K.written self.new.sink ≡ K.written self.old.sink) }
        ensures count { K.faults self.old.sink ≤ K.faults self.new.sink }
    {
        let amount = self.sink.write(piece)?;
        self.taken.note(&piece[..amount]);
        Ok(amount)
    }
}
