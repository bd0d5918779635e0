//! Laws of readings, over their definitions alone.

ghost use Rattle.std.specs.Prelude.{ℕ, ◌<◌, List, length};
ghost use Rattle.qs_tree.specs.Lists.{◌∈◌};
ghost use Rattle.qs_graph.specs.Graphs.{QGraph, IsValid};
ghost use Rattle.qs_phrase.specs.Readings.{IsReading};

/// Each arc of a valid graph lies on a reading, so that no path from the entry fails to reach the exit.
pub fn each_arc_is_read()
    ensures { (G : QGraph) → IsValid G → (k : ℕ) → k < length G.arcs
        → (path : List ℕ) × IsReading G path × (k ∈ path) }
{}
