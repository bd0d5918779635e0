//! Laws of supports, over their definitions alone.

ghost use Rattle.std.specs.Prelude.{◌≡◌, ◌≤◌, ℕ, List, [], Some, true, false, length, slice_get};
ghost use Rattle.qs_tree.specs.Lists.{◌∈◌};
ghost use Rattle.qs_pattern.specs.Rules.{Rule, IsAccepted};
ghost use Rattle.qs_graph.specs.Graphs.{QGraph, IsValid};
ghost use Rattle.qs_firing.specs.Adding.{built, from_on};
ghost use Rattle.qs_canon.specs.Rounds.{Done, Rounds, Stage};
ghost use Rattle.qs_canon.specs.Closures.{ClosureOf};
ghost use Rattle.qs_clean.specs.Cleaning.{IsClosureOfValid};
ghost use Rattle.qs_explain.specs.Support.{SupportOf, IsSupport, IsSupportedArc, WasAdded, added_at};

/// Each supported arc of a closure over a valid graph is one with which it started, or was added by a supported firing,
/// whose path has supported arcs of smaller numbers alone.
pub fn supported_arcs_were_added()
    ensures { (c : ClosureOf) → IsClosureOfValid c → (k : ℕ) → IsSupportedArc c.stage k → c.start ≤ k
        → WasAdded c.stage k }
{}

/// A stage has one support.
pub fn one_support()
    ensures { (S : Stage) (s t : SupportOf) → IsSupport S s → IsSupport S t → s ≡ t }
{}

/// What rounds of accepted rules reach from a valid graph has a support.
pub fn something_is_supported()
    ensures { (R : List Rule) → ((rule : Rule) → rule ∈ R → IsAccepted rule) → (G : QGraph) → IsValid G
        → (n : ℕ) (S : Stage) → Rounds R G n S → (s : SupportOf) × IsSupport S s }
{}

/// What a firing of accepted rules added is as many arcs as its rule's right side stands for trees, from its first arc
/// on; one that met its result added none.
pub fn what_was_added()
    ensures added { (R : List Rule) → ((rule : Rule) → rule ∈ R → IsAccepted rule) → (G : QGraph) (n : ℕ) (S : Stage)
        → Rounds R G n S → (i : ℕ) (d : Done) → slice_get S.done i ≡ Some d → d.met ≡ false
        → added_at S i ≡ from_on d.first (length (built R d.firing)) }
    ensures met { (S : Stage) (i : ℕ) (d : Done) → slice_get S.done i ≡ Some d → d.met ≡ true → added_at S i ≡ [] }
{}
