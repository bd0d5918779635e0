//! Laws of rounds and closures, over their definitions alone.

ghost use Rattle.std.specs.Prelude.{◌≡◌, ◌⊎◌, ◌↔◌, ◌≤◌, ◌+◌, ◌*◌, ℕ, List, length};
ghost use Rattle.qs_tree.specs.Lists.{◌∈◌};
ghost use Rattle.qs_tree.specs.Text.{IsNamed};
ghost use Rattle.qs_pattern.specs.Limits.{most_patterns};
ghost use Rattle.qs_pattern.specs.Rules.{Rule, IsAccepted, AreLeftSidesInClass};
ghost use Rattle.qs_pattern.specs.Named.{ArePatternsNamed};
ghost use Rattle.qs_graph.specs.Graphs.{Arc, QGraph, IsPath, IsValid, IsEntry, IsExit};
ghost use Rattle.qs_firing.specs.Firings.{Firing};
ghost use Rattle.qs_canon.specs.Rounds.{Round, HasRounds, Rounds, Stage, Closes, ClosesWithin, Needs, firings};

/// A round is determined by the rules, the graph and the firings that are done.
pub fn one_round()
    ensures { (R : List Rule) (G : QGraph) (done : List Firing) (E F : List Firing) → Round R G done E
        → Round R G done F → E ≡ F }
{}

/// With rules whose left sides have every variable at a place of its class, as accepted rules have, each graph has a
/// round, whatever is done.
pub fn rounds_exist()
    ensures { (R : List Rule) → AreLeftSidesInClass R → HasRounds R }
{}

/// There is one closure. Rules with every variable at a place of its class close with at most L firings or need more,
/// and no rules do both.
pub fn one_closure()
    ensures one { (R : List Rule) (G : QGraph) (C D : Stage) → Closes R G C → Closes R G D → C ≡ D }
    ensures some { (R : List Rule) → AreLeftSidesInClass R → (G : QGraph) (L : ℕ) → ClosesWithin R G L ⊎ Needs R G L }
    ensures not_both { (R : List Rule) (G : QGraph) (L : ℕ) → ClosesWithin R G L → Needs R G L → ⊥ }
{}

/// From a valid graph accepted rules reach valid graphs alone, with the entry and the exit of the start, and the path
/// of each done firing is a path of the graph reached.
pub fn stages_stay_valid()
    ensures valid { (R : List Rule) → ((rule : Rule) → rule ∈ R → IsAccepted rule) → (G : QGraph) → IsValid G
        → (n : ℕ) (S : Stage) → Rounds R G n S → IsValid S.graph }
    ensures entry { (R : List Rule) → ((rule : Rule) → rule ∈ R → IsAccepted rule) → (G : QGraph) → IsValid G
        → (n : ℕ) (S : Stage) → Rounds R G n S → (m : ℕ) → IsEntry G m ↔ IsEntry S.graph m }
    ensures exit { (R : List Rule) → ((rule : Rule) → rule ∈ R → IsAccepted rule) → (G : QGraph) → IsValid G
        → (n : ℕ) (S : Stage) → Rounds R G n S → (m : ℕ) → IsExit G m ↔ IsExit S.graph m }
    ensures paths { (R : List Rule) → ((rule : Rule) → rule ∈ R → IsAccepted rule) → (G : QGraph) → IsValid G
        → (n : ℕ) (S : Stage) → Rounds R G n S
        → (f : Firing) → f ∈ firings S → (a : ℕ) × ((b : ℕ) × IsPath S.graph.arcs a f.path b) }
{}

/// Each firing of accepted rules adds at most 16 arcs and at most 16 nodes.
pub fn stages_grow_by_firings()
    ensures arcs { (R : List Rule) → ((rule : Rule) → rule ∈ R → IsAccepted rule) → (G : QGraph) (n : ℕ) (S : Stage)
        → Rounds R G n S → length S.graph.arcs ≤ length G.arcs + most_patterns * length S.done }
    ensures nodes { (R : List Rule) → ((rule : Rule) → rule ∈ R → IsAccepted rule) → (G : QGraph) (n : ℕ) (S : Stage)
        → Rounds R G n S → S.graph.nodes ≤ G.nodes + most_patterns * length S.done }
{}

/// Rounds make no labels: where each label in the right sides of accepted rules and in the trees of a graph is one of
/// the first n, so is each label in what rounds reach.
pub fn rounds_make_no_labels()
    ensures { (n : ℕ) (R : List Rule) → ((rule : Rule) → rule ∈ R → IsAccepted rule)
        → ((rule : Rule) → rule ∈ R → ArePatternsNamed n rule.right)
        → (G : QGraph) → ((arc : Arc) → arc ∈ G.arcs → IsNamed n arc.tree) → (m : ℕ) (S : Stage) → Rounds R G m S
        → (arc : Arc) → arc ∈ S.graph.arcs → IsNamed n arc.tree }
{}
