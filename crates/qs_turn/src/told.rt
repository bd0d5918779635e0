ghost use Rattle.std.specs.Prelude.{ℕ, List};

/// A value that stands for a history, which is a list of entries. It has no methods:
/// the three meanings below are for contracts alone.
///
/// An entry is entered by the pass that it names.
pub trait Told {
    /// What one turn may add to the history. Its values are plain data.
    type Entry: Drop;

    // The base of a value: plain data that no turn changes.
    ghost Base: { Type 0 };

    ghost base: { Self → Base };

    // The entries that a value stands for, the earliest first.
    ghost history: { Self → List Self.Entry };

    // The number of the pass that an entry names.
    ghost pass_of: { Self.Entry → ℕ };
}
