// Bytes that went by, as contracts see them. Nothing of a trace is there at run time, neither bytes nor code: its list
// is ghost data, which no memory holds. So a proof by hand could set it to any list, and what a trace says rests on its
// calls, of which there are these two, and on those who make them.
ghost use Rattle.std.specs.Prelude.{◌≡◌, ℕ, List, [], ◌++◌};
ghost use Rattle.std.specs.Borrow.{ftrue};

use std::marker::{Model, PhantomData};

/// The bytes that were noted since the trace was made, in order. Only this crate makes a trace and notes bytes in it.
#[derive(Drop)]
pub struct Trace {
    marker: PhantomData<u8>,
    pub ghost bytes: { List ℕ },
}

impl Model for Trace {
    ghost also_owns = { λ _. ftrue };
}

impl Trace {
    /// A trace in which nothing was noted yet.
    pub(crate) fn new() -> Trace
        ensures { result.bytes ≡ [] }
    {
        Trace {
            marker: PhantomData,
        }
    }

    /// Notes that these bytes went by, behind those of before. Does nothing at run time.
    pub(crate) fn note(&mut self, _bytes: &[u8])
        ensures { self.new.bytes ≡ self.old.bytes ++ _bytes.now }
    {}
}
