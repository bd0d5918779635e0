//! What is kept while the closure is found from recorded firings, over the definitions alone.

ghost use Rattle.std.specs.Prelude.{◌≡◌, ◌≤◌, ◌<◌, ◌↔◌, ◌++◌, suc, ℕ, List, [], ◌∷◌, length, Option, Some};
ghost use Rattle.qs_tree.specs.Lists.{◌∈◌};
ghost use Rattle.qs_pattern.specs.Rules.{Rule};
ghost use Rattle.qs_graph.specs.Graphs.{QGraph, IsValid};
ghost use Rattle.qs_firing.specs.Firings.{Firing};
ghost use Rattle.qs_firing.specs.Adding.{met, result_arcs};
ghost use Rattle.qs_core.specs.declared.step.Step.{Step};
ghost use Rattle.qs_core.specs.declared.step.Stop.{Stop};
ghost use Rattle.qs_core.specs.Growth.{DoneAt};
ghost use Rattle.qs_core.specs.Core.{Base, CoreState, fired, IsClosed};
ghost use Rattle.qs_core.specs.Runs.{Run};
ghost use Rattle.qs_canon.specs.Rounds.{Stage, firings, after, Round, Rounds, Closes};
ghost use Rattle.qs_canon.specs.Carrying.{AreSame};
ghost use Rattle.qs_canon.specs.working.CanonTables.{IsRecorded, Table, opening_table, opening_nodes, new_nodes};
ghost use Rattle.qs_canon.specs.working.CanonTables.{IsTable, IsNodeTable, AreNumbered, in_numbers, numbered};
ghost use Rattle.qs_canon.specs.working.CanonTables.{IsNextBy, IsUnderWay};

/// A run that ended closed has recorded what the closure is found from.
pub fn closed_runs_are_recorded()
    ensures { (B : Base) → IsValid B.start → (journal : List Step) (last : Option Stop) (T : CoreState)
        → Run B journal last T → IsClosed T → IsRecorded B.rules B.start (fired T) T.graph }
{}

/// Between rounds. At first the start's arcs and nodes have their own numbers. The recorded firings whose arcs all have
/// numbers, in ascending order and but for those that are done, are the next round. Behind a round those are done whose
/// arcs had numbers one round before. There are at most as many as are recorded; where none is left the stage is the
/// closure, and the tables are the maps that make it and the graph the same up to numbering.
pub fn rounds_from_records()
    ensures opening { (R : List Rule) (G : QGraph) (fs : List Firing) (H : QGraph)
        → IsTable R G fs H [] G (opening_table G) × IsNodeTable R G fs H [] G (opening_nodes G) }
    ensures round { (R : List Rule) (G : QGraph) (fs : List Firing) (H : QGraph) → IsRecorded R G fs H
        → (n : ℕ) (S : Stage) → Rounds R G n S → (T : Table) → IsTable R G fs H (firings S) S.graph T
        → (F : List Firing) → IsNextBy T fs S F → Round R S.graph (firings S) F }
    ensures first { (R : List Rule) (G : QGraph) (fs : List Firing) (H : QGraph) → IsRecorded R G fs H
        → (n : ℕ) (B : Stage) → Rounds R G n B → (F : List Firing) → Round R B.graph (firings B) F
        → (T : Table) → IsTable R G fs H (firings B) B.graph T
        → (U : Table) → IsTable R G fs H (firings (after R (suc n) B F)) (after R (suc n) B F).graph U
        → (f : Firing) (ls : List ℕ) → f ∈ fs → AreNumbered U f.path ls
        → (in_numbers f ls ∈ firings (after R (suc n) B F)) ↔ AreNumbered T f.path ls }
    ensures few { (R : List Rule) (G : QGraph) (fs : List Firing) (H : QGraph) → IsRecorded R G fs H
        → (n : ℕ) (S : Stage) → Rounds R G n S → length (firings S) ≤ length fs }
    ensures closes { (R : List Rule) (G : QGraph) (fs : List Firing) (H : QGraph) → IsRecorded R G fs H
        → (n : ℕ) (S : Stage) → Rounds R G n S → (T : Table) → IsTable R G fs H (firings S) S.graph T
        → IsNextBy T fs S [] → Closes R G S }
    ensures maps { (R : List Rule) (G : QGraph) (fs : List Firing) (H : QGraph) → IsRecorded R G fs H
        → (C : Stage) → Closes R G C → (T N : Table) → IsTable R G fs H (firings C) C.graph T
        → IsNodeTable R G fs H (firings C) C.graph N
        → (A : AreSame R G fs H (firings C) C.graph)
        × ((k : ℕ) → k < length H.arcs → T k ≡ Some (A.arcs k))
        × ((m : ℕ) → m ≤ H.nodes → N m ≡ Some (A.nodes m)) }
{}

/// In the midst of a round. The next firing counts as met exactly where its one recorded result has a number already.
/// Its results and its nodes get their numbers; with no firing left the round is over.
pub fn one_round_from_records()
    ensures begins { (R : List Rule) (G : QGraph) (fs : List Firing) (H : QGraph) → IsRecorded R G fs H
        → (n : ℕ) (S : Stage) (F : List Firing) (T N : Table) → Rounds R G n S
        → IsTable R G fs H (firings S) S.graph T → IsNodeTable R G fs H (firings S) S.graph N
        → IsNextBy T fs S F → IsUnderWay R G fs H n S [] F T N }
    ensures met { (R : List Rule) (G : QGraph) (fs : List Firing) (H : QGraph) → IsRecorded R G fs H
        → (n : ℕ) (S : Stage) (E : List Firing) (g : Firing) (F : List Firing) (T N : Table)
        → IsUnderWay R G fs H n S E (g ∷ F) T N → (f : Firing) (P : QGraph) → DoneAt R G fs f P
        → (ls : List ℕ) → AreNumbered T f.path ls → g ≡ in_numbers f ls → (l : ℕ)
        → (met R (after R (suc n) S E).graph g ≡ Some l)
        ↔ ((k : ℕ) × (result_arcs R P f ≡ k ∷ []) × (T k ≡ Some l)) }
    ensures goes_on { (R : List Rule) (G : QGraph) (fs : List Firing) (H : QGraph) → IsRecorded R G fs H
        → (n : ℕ) (S : Stage) (E : List Firing) (g : Firing) (F : List Firing) (T N : Table)
        → IsUnderWay R G fs H n S E (g ∷ F) T N → (f : Firing) (P : QGraph) → DoneAt R G fs f P
        → (ls : List ℕ) → AreNumbered T f.path ls → g ≡ in_numbers f ls
        → IsUnderWay R G fs H n S (E ++ g ∷ []) F
        (numbered (result_arcs R P f) (result_arcs R (after R (suc n) S E).graph g) T)
        (numbered (new_nodes R P f) (new_nodes R (after R (suc n) S E).graph g) N) }
    ensures ends { (R : List Rule) (G : QGraph) (fs : List Firing) (H : QGraph) → IsRecorded R G fs H
        → (n : ℕ) (S : Stage) (E : List Firing) (T N : Table) → IsUnderWay R G fs H n S E [] T N
        → Rounds R G (suc n) (after R (suc n) S E)
        × IsTable R G fs H (firings (after R (suc n) S E)) (after R (suc n) S E).graph T
        × IsNodeTable R G fs H (firings (after R (suc n) S E)) (after R (suc n) S E).graph N }
{}
