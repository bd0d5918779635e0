//! Laws of Q-graphs, over their definitions alone.

ghost use Rattle.std.specs.Prelude.{◌≡◌, ◌↔◌, ◌<◌, ◌+◌, ℕ, List, length};
ghost use Rattle.qs_tree.specs.Trees.{Tree};
ghost use Rattle.qs_graph.specs.Graphs.{QGraph, IsPath, IsValid, IsEntry, IsExit};
ghost use Rattle.qs_graph.specs.Chains.{line_graph, with_chain};

/// A chain of trees between the nodes 1 and 2 is a valid graph.
pub fn line_is_valid()
    ensures { (a b : ℕ) (ts : List Tree) → 0 < length ts → a + b ≡ 3 → 0 < a → 0 < b → IsValid (line_graph a ts b) }
{}

/// A chain of at least one tree, added between the ends of a path, keeps a graph valid, with the same entry and exit.
pub fn chain_keeps_validity()
    ensures valid { (G : QGraph) (a b : ℕ) (path : List ℕ) (ts : List Tree) → IsValid G → IsPath G.arcs a path b
        → 0 < length ts → IsValid (with_chain G a ts b) }
    ensures entry { (G : QGraph) (a b : ℕ) (path : List ℕ) (ts : List Tree) → IsValid G → IsPath G.arcs a path b
        → 0 < length ts → (n : ℕ) → IsEntry G n ↔ IsEntry (with_chain G a ts b) n }
    ensures exit { (G : QGraph) (a b : ℕ) (path : List ℕ) (ts : List Tree) → IsValid G → IsPath G.arcs a path b
        → 0 < length ts → (n : ℕ) → IsExit G n ↔ IsExit (with_chain G a ts b) n }
{}
