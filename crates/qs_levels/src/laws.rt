//! What a level certificate promises, and that one is to be found, over the definitions alone.

ghost use Rattle.std.specs.Prelude.{◌≡◌, ◌<◌, ◌≤◌, ◌+◌, ℕ, List, [], Option};
ghost use Rattle.qs_tree.specs.Lists.{◌∈◌};
ghost use Rattle.qs_tree.specs.Trees.{Tree};
ghost use Rattle.qs_pattern.specs.Rules.{Rule, IsAccepted};
ghost use Rattle.qs_graph.specs.Graphs.{QGraph};
ghost use Rattle.qs_firing.specs.Firings.{Firing};
ghost use Rattle.qs_firing.specs.Adding.{built};
ghost use Rattle.qs_canon.specs.Rounds.{Round, Rounds, Stage, firings};
ghost use Rattle.qs_levels.specs.Certificates.{LevelCertificate, HasLevel, Fits, IsFound, ClosesBefore};

/// Where a level certificate with m levels fits accepted rules, unique or not, these close on every graph before the
/// m-th round: the m-th round is empty, and so is each later one. For each tree that the n-th round builds has a root
/// whose level is at least n.
pub fn level_bound()
    ensures closes { (R : List Rule) → ((rule : Rule) → rule ∈ R → IsAccepted rule) → (c : LevelCertificate)
        → Fits R c → (G : QGraph) → ClosesBefore R G c.count }
    ensures empty { (R : List Rule) → ((rule : Rule) → rule ∈ R → IsAccepted rule) → (c : LevelCertificate)
        → Fits R c → (G : QGraph) (n : ℕ) (S : Stage) (F : List Firing) → Rounds R G n S
        → Round R S.graph (firings S) F → c.count ≤ n + 1 → F ≡ [] }
    ensures roots { (R : List Rule) → ((rule : Rule) → rule ∈ R → IsAccepted rule) → (c : LevelCertificate)
        → Fits R c → (G : QGraph) (n : ℕ) (S : Stage) (F : List Firing) → Rounds R G n S
        → Round R S.graph (firings S) F → (f : Firing) → f ∈ F → (t : Tree) → t ∈ built R f
        → (m : ℕ) → HasLevel c t.root m → n + 1 ≤ m }
{}

/// One thing is to be found for any rules: their least certificate, or that none fits them.
pub fn one_answer()
    ensures one { (rules : List Rule) (r t : Option LevelCertificate) → IsFound rules r → IsFound rules t → r ≡ t }
    ensures some { (rules : List Rule) → (found : Option LevelCertificate) × IsFound rules found }
{}
