//! Laws of firings, over their definitions alone.

ghost use Rattle.std.specs.Prelude.{◌≡◌, ◌⊎◌, ◌↔◌, ◌<◌, ◌≤◌, ◌++◌, ℕ, true, false, if◌then◌else◌};
ghost use Rattle.std.specs.Prelude.{List, [], ◌∷◌, length};
ghost use Rattle.qs_tree.specs.Lists.{◌∈◌};
ghost use Rattle.qs_tree.specs.Trees.{Tree};
ghost use Rattle.qs_pattern.specs.Rules.{Rule, IsAccepted, IsUnique, AreLeftSidesInClass};
ghost use Rattle.qs_graph.specs.Graphs.{Arc, QGraph, IsPath, trees_on};
ghost use Rattle.qs_graph.specs.Chains.{with_chain};
ghost use Rattle.qs_firing.specs.Firings.{Firing, Fires, Before, key};
ghost use Rattle.qs_firing.specs.Adding.{start_of, end_of, built, adds, StandsAt, from_on, result_arcs, first_arc};
ghost use Rattle.qs_firing.specs.Adding.{meets};
ghost use Rattle.qs_firing.specs.Work.{IsWorkOf, Work};

/// Keys order firings strictly and totally: of two firings one comes before the other, or their keys are equal, and not
/// two of these at once.
pub fn order_is_strict_and_total()
    ensures asymmetric { (f g : Firing) → Before f g → Before g f → ⊥ }
    ensures transitive { (f g h : Firing) → Before f g → Before g h → Before f h }
    ensures total { (f g : Firing) → (Before f g ⊎ Before g f) ⊎ (key f ≡ key g) }
    ensures apart { (f g : Firing) → Before f g → key f ≡ key g → ⊥ }
{}

/// Within one graph, firings with equal keys are equal, where the rules have every variable of a left side at a place
/// of its class, as accepted rules have.
pub fn one_firing()
    ensures { (R : List Rule) → AreLeftSidesInClass R → (arcs : List Arc) (f g : Firing)
        → Fires R arcs f → Fires R arcs g → key f ≡ key g → f ≡ g }
{}

/// Where the rules are all unique and a firing builds one tree, the least arc that already leads from the start of its
/// path to the end and carries that tree is its result: it met that arc, and nothing is added. Where no such arc
/// stands, and in all other cases, it adds the chain of the trees that it builds, and the arcs of that chain are its
/// result. The first arc of a result, and whether it was met, give the whole result.
pub fn what_is_added()
    ensures met { (R : List Rule) (G : QGraph) (f : Firing) (t : Tree) (l : ℕ) → IsUnique R → built R f ≡ t ∷ []
        → StandsAt G f t l → ((k : ℕ) → StandsAt G f t k → l ≤ k)
        → (adds R G f ≡ G) × (result_arcs R G f ≡ l ∷ []) × (first_arc R G f ≡ l) × (meets R G f ≡ true) }
    ensures not_met { (R : List Rule) (G : QGraph) (f : Firing)
        → ((t : Tree) (k : ℕ) → IsUnique R → built R f ≡ t ∷ [] → StandsAt G f t k → ⊥)
        → (adds R G f ≡ with_chain G (start_of G.arcs f.path) (built R f) (end_of G.arcs f.path))
        × (result_arcs R G f ≡ from_on (length G.arcs) (length (built R f)))
        × (first_arc R G f ≡ length G.arcs) × (meets R G f ≡ false) }
    ensures first { (R : List Rule) (G : QGraph) (f : Firing) → result_arcs R G f
        ≡ (if meets R G f then first_arc R G f ∷ [] else from_on (first_arc R G f) (length (built R f))) }
{}

/// The result of a firing, whether it was added or met, is a path from the start of the firing's own path to the end,
/// and the trees on it are those that the right side stands for, of which a firing of accepted rules has 1 to 16.
pub fn results_are_built()
    ensures path { (R : List Rule) (G : QGraph) (f : Firing) → 0 < length (built R f)
        → IsPath (adds R G f).arcs (start_of G.arcs f.path) (result_arcs R G f) (end_of G.arcs f.path) }
    ensures trees { (R : List Rule) (G : QGraph) (f : Firing)
        → trees_on (adds R G f).arcs (result_arcs R G f) ≡ built R f }
    ensures some { (R : List Rule) → ((rule : Rule) → rule ∈ R → IsAccepted rule) → (arcs : List Arc) (f : Firing)
        → Fires R arcs f → 0 < length (built R f) }
    ensures few { (R : List Rule) → ((rule : Rule) → rule ∈ R → IsAccepted rule) → (f : Firing)
        → length (built R f) ≤ 16 }
{}

/// The work of an arc is determined, and arcs that come later never change it. With rules whose left sides have every
/// variable at a place of its class, as accepted rules have, each arc has its work. What fires over some arcs is in the
/// work of one of them, and nothing else is.
pub fn work_of_an_arc()
    ensures one { (R : List Rule) (arcs : List Arc) (m : ℕ) (E F : List Firing) → Work R arcs m E → Work R arcs m F
        → E ≡ F }
    ensures older { (R : List Rule) (arcs more : List Arc) (m : ℕ) (F : List Firing) → m < length arcs
        → Work R arcs m F ↔ Work R (arcs ++ more) m F }
    ensures some { (R : List Rule) → AreLeftSidesInClass R → (arcs : List Arc) (m : ℕ)
        → (F : List Firing) × Work R arcs m F }
    ensures placed { (R : List Rule) (arcs : List Arc) (f : Firing)
        → Fires R arcs f ↔ ((m : ℕ) × IsWorkOf R arcs m f) }
{}
