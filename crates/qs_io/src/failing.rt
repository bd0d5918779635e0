// Which calls of a source or a sink in memory fail.
ghost use Rattle.std.specs.Prelude.{◌↔◌, IsTrue};
ghost use Rattle.qs_io.specs.InMemory.{FailsNext};

/// Whether the call that comes after `calls` calls is among those that fail. The greatest `u64` numbers no call,
/// since a count of calls stands still there.
pub fn fails_next(calls: u64, failing: &[u64]) -> bool
    ensures { IsTrue result ↔ FailsNext calls failing.now }
{
    calls < u64::MAX && failing.contains(&(calls + 1))
}
