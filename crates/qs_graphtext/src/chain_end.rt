//! Why chains make no graph.

use qs_graph::GraphEnd;
use std::alloc::AllocError;

/// Why chains make no graph.
#[derive(Clone, Copy, Debug, PartialEq, Eq)]
pub enum ChainEnd {
    /// There are more than 65,536 trees, and the 65,537th begins at the byte `at`.
    TooManyArcs { at: u32 },
    /// Some path comes back to the node from which it starts.
    Cycle,
    /// There is no cycle, but not exactly one node has no arc into it.
    Entries,
    /// There is no cycle and one entry, but not exactly one node has no arc out of it.
    Exits,
    /// There was no memory. It may come for any chains.
    Memory,
}

impl From<AllocError> for ChainEnd {
    ghost use Rattle.std.specs.Prelude.{◌≡◌};
    ghost use Rattle.qs_graphtext.specs.declared.chain_end.ChainEnd.TheVariants.{Memory};

    ghost from_gives = { λ _ e. e ≡ Memory };

    fn from(_: AllocError) -> ChainEnd {
        ChainEnd::Memory
    }
}

impl From<GraphEnd> for ChainEnd {
    ghost use Rattle.std.specs.Prelude.{◌≡◌};
    ghost use Rattle.qs_graphtext.specs.Causes.{end_of};

    ghost from_gives = { λ x e. e ≡ end_of x };

    fn from(end: GraphEnd) -> ChainEnd {
        match end {
            GraphEnd::Cycle => ChainEnd::Cycle,
            GraphEnd::Entries => ChainEnd::Entries,
            GraphEnd::Exits => ChainEnd::Exits,
            GraphEnd::Memory => ChainEnd::Memory,
        }
    }
}
