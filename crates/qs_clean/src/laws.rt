//! Laws of cleaning and of cascades, over their definitions alone.

ghost use Rattle.std.specs.Prelude.{◌≡◌, ◌≤◌, ℕ, List, Option, Some, length, map};
ghost use Rattle.qs_tree.specs.Lists.{◌∈◌};
ghost use Rattle.qs_pattern.specs.Rules.{Rule, IsAccepted};
ghost use Rattle.qs_graph.specs.Graphs.{Arc, QGraph, IsValid};
ghost use Rattle.qs_canon.specs.Rounds.{Rounds, Stage};
ghost use Rattle.qs_clean.specs.Cleaning.{Cleans, IsLeft};
ghost use Rattle.qs_clean.specs.Cascades.{Cascade, Left, Ending};
ghost use Rattle.qs_clean.specs.Renaming.{IsRenaming, renamed_rule, renamed_graph, renamed_left};

/// Cleaning leaves one graph.
pub fn one_left()
    ensures { (S : Stage) (G H : QGraph) → Cleans S G → Cleans S H → G ≡ H }
{}

/// Of a stage one thing is left: one graph with an arc, or none.
pub fn one_answer()
    ensures { (S : Stage) (r t : Option QGraph) → IsLeft S r → IsLeft S t → r ≡ t }
{}

/// A cascade leaves one list of graphs, and has one ending.
pub fn one_cascade()
    ensures { (L : ℕ) (G : QGraph) (Rs : List (List Rule)) (l m : List Left) (e d : Ending) → Cascade L G Rs l e
        → Cascade L G Rs m d → (l ≡ m) × (e ≡ d) }
{}

/// Cleaning makes nothing: it leaves no more arcs than there were and, of a valid graph, no more nodes, and each tree
/// that it leaves on an arc was on an arc.
pub fn cleaning_makes_nothing()
    ensures arcs { (S : Stage) (H : QGraph) → Cleans S H → length H.arcs ≤ length S.graph.arcs }
    ensures nodes { (S : Stage) (H : QGraph) → Cleans S H → IsValid S.graph → H.nodes ≤ S.graph.nodes }
    ensures trees { (S : Stage) (H : QGraph) → Cleans S H → (arc : Arc) → arc ∈ H.arcs
        → (was : Arc) × (was ∈ S.graph.arcs) × (arc.tree ≡ was.tree) }
{}

/// Of what rounds of accepted rules reach from a valid graph something is left: no arc, or a graph, which is valid.
pub fn something_is_left()
    ensures left { (R : List Rule) → ((rule : Rule) → rule ∈ R → IsAccepted rule) → (G : QGraph) → IsValid G
        → (n : ℕ) (S : Stage) → Rounds R G n S → (r : Option QGraph) × IsLeft S r }
    ensures valid { (R : List Rule) → ((rule : Rule) → rule ∈ R → IsAccepted rule) → (G : QGraph) → IsValid G
        → (n : ℕ) (S : Stage) → Rounds R G n S → (H : QGraph) → IsLeft S (Some H) → IsValid H }
{}

/// Each cascade of accepted rules from a valid graph has an outcome.
pub fn each_cascade_ends()
    ensures { (L : ℕ) (G : QGraph) (Rs : List (List Rule)) → IsValid G
        → ((R : List Rule) → R ∈ Rs → (rule : Rule) → rule ∈ R → IsAccepted rule)
        → (lefts : List Left) × (ending : Ending) × Cascade L G Rs lefts ending }
{}

/// Labels are numbers alone: a cascade of accepted rules does the same under other numbers for the labels. It leaves
/// the same graphs with these numbers, after as many firings, and ends as it did. (In a rule that isn't accepted a
/// variable may have no value, and gives the label 0, whichever that is.)
pub fn labels_are_numbers_alone()
    ensures { (f g : ℕ → ℕ) → IsRenaming f g
        → (L : ℕ) (G : QGraph) (Rs : List (List Rule)) (lefts : List Left) (end : Ending)
        → ((R : List Rule) → R ∈ Rs → (rule : Rule) → rule ∈ R → IsAccepted rule)
        → Cascade L G Rs lefts end
        → Cascade L (renamed_graph f G) (map (map (renamed_rule f)) Rs) (map (renamed_left f) lefts) end }
{}
