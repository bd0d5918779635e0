//! A law of stages, over their definition alone.

ghost use Rattle.std.specs.Prelude.{◌≡◌, ℕ, List};
ghost use Rattle.qs_pattern.specs.Rules.{Rule};
ghost use Rattle.qs_graph.specs.Graphs.{QGraph};
ghost use Rattle.qs_cascade.specs.Stages.{IsStageEnd};
ghost use Rattle.qs_cascade.specs.declared.stages.StageEnd.{StageEnd};

/// One stage has one end: what a grammar leaves of a graph is determined by its rules, the graph and the limit. So of
/// `stage_alone`, where memory lasts, `Over` comes exactly where the rules need more firings than the limit, `Empty`
/// exactly where they don't and cleaning leaves no arc, and `Left` with the one graph that cleaning leaves everywhere
/// else; and the number of firings is that of the closure.
pub fn one_end()
    ensures { (R : List Rule) (G : QGraph) (L : ℕ) (e d : StageEnd) → IsStageEnd R G L e → IsStageEnd R G L d → e ≡ d }
{}
