// A source and a sink as their callers see them.
ghost use Rattle.std.specs.Prelude.{◌≡◌, ◌<◌, ◌≤◌, ◌++◌, List, ℕ, length, take, IfOk, OnErr, OnOk, Option};
ghost use Rattle.std.specs.Io.KnownBytes.{IsAtEnd, append_known, prepend_known};
ghost use Rattle.qs_io.specs.Devices.{HasRisen};

/// A read or a write failed. The count of faults of its source or sink rose in that call.
#[derive(Clone, Copy, Debug, PartialEq, Eq)]
pub struct Failed;

/// Where bytes are read from.
///
/// No call changes whether a source tells its bytes.
pub trait Source {
    /// The bytes that are left, in order, where the source tells them.
    ghost left: { Self → Option (List ℕ) };

    /// The bytes that its reads have given since it was made, in order. Every source tells these, since they are past.
    ghost given: { Self → List ℕ };

    /// The last read that didn't fail met the end of input. More may come behind it, as from a terminal.
    ghost has_ended: { Self → Type 0 };

    /// A count of its faults. It never falls, and stands still at the greatest `u64`.
    ghost faults: { Self → ℕ };

    /// Takes the next bytes into the front of `room`, which isn't empty, and answers how many. It answers 0 at the
    /// end of input alone. These bytes are given, and no others; the count of faults stays as it was.
    ///
    /// `Failed` comes only where the count of faults rose; then nothing is given, and the bytes that are left are those
    /// of before.
    fn read(&mut self, room: &mut [u8]) -> Result<usize, Failed>
        requires { 0 < length room.old }

        ensures bound { IfOk result (λ n. n ≤ length room.new) }
        ensures bytes { IfOk result (λ n. left self.old ≡ prepend_known (take n room.new) (left self.new)) }
        ensures end { IfOk result (λ n. n ≡ 0 → IsAtEnd (left self.old)) }
        ensures given { IfOk result (λ n. given self.new ≡ given self.old ++ take n room.new) }
        ensures ended { IfOk result (λ n. n ≡ 0 → has_ended self.new) }

        ensures no_fault { OnOk result (faults self.new ≡ faults self.old) }
        ensures failed { OnErr result (HasRisen (faults self.old) (faults self.new)) }
        ensures stays { OnErr result (left self.new ≡ left self.old) }
        ensures gives_nothing { OnErr result (given self.new ≡ given self.old) }
        ensures count { faults self.old ≤ faults self.new };
}

/// Where bytes are written to.
///
/// No call changes whether a sink tells its bytes.
pub trait Sink {
    /// The bytes that were written, in order, where the sink tells them.
    ghost written: { Self → Option (List ℕ) };

    /// A count of its faults. It never falls, and stands still at the greatest `u64`.
    ghost faults: { Self → ℕ };

    /// Appends the first bytes of `piece`, which isn't empty, and answers how many: at least one. The count of faults
    /// stays as it was.
    ///
    /// `Failed` comes only where the count of faults rose; then nothing was appended, where the sink tells its bytes.
    fn write(&mut self, piece: &[u8]) -> Result<usize, Failed>
        requires { 0 < length piece.now }

        ensures some { IfOk result (λ n. 0 < n) }
        ensures bound { IfOk result (λ n. n ≤ length piece.now) }
        ensures bytes { IfOk result (λ n. written self.new ≡ append_known (written self.old) (take n piece.now)) }

        ensures no_fault { OnOk result (faults self.new ≡ faults self.old) }
        ensures failed { OnErr result (HasRisen (faults self.old) (faults self.new)) }
        ensures stays { OnErr result (written self.new ≡ written self.old) }
        ensures count { faults self.old ≤ faults self.new };
}
