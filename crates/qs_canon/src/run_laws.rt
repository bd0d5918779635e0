//! Laws that tie the runs of the machine of steps to the rounds, over their definitions alone.

ghost use Rattle.std.specs.Prelude.{◌≡◌, ◌≤◌, ℕ, List, length, Option, Some};
ghost use Rattle.qs_tree.specs.Lists.{◌∈◌};
ghost use Rattle.qs_pattern.specs.Rules.{Rule, AreLeftSidesInClass};
ghost use Rattle.qs_graph.specs.Graphs.{QGraph, IsValid};
ghost use Rattle.qs_firing.specs.Adding.{first_arc, meets};
ghost use Rattle.qs_core.specs.declared.step.Step.{Step};
ghost use Rattle.qs_core.specs.declared.step.Stop.{Stop};
ghost use Rattle.qs_core.specs.declared.step.Stop.TheVariants as stop;
ghost use Rattle.qs_core.specs.Growth.{AllApart, DoneAt};
ghost use Rattle.qs_core.specs.Core.{Base, CoreState, fired, IsClosed};
ghost use Rattle.qs_core.specs.Runs.{Run};
ghost use Rattle.qs_canon.specs.Rounds.{Stage, Done, firings, Rounds, Closes, ClosesWithin, Needs};
ghost use Rattle.qs_canon.specs.Carrying.{IsCarried, AreSame};

/// Every run of the machine of steps, ended or not, is carried one-to-one into what as many rounds reach as it did
/// firings, or more, and into the closure, where there is one. A stage records for each of its firings the first arc of
/// its result, and whether it met it, over the graph to which it was added.
pub fn runs_are_carried()
    ensures rounds { (B : Base) → IsValid B.start
        → (journal : List Step) (last : Option Stop) (T : CoreState) → Run B journal last T
        → (n : ℕ) (S : Stage) → length T.done ≤ n → Rounds B.rules B.start n S
        → (arcs : ℕ → ℕ) × (nodes : ℕ → ℕ)
        × IsCarried B.rules B.start (fired T) T.graph (firings S) S.graph arcs nodes }
    ensures closure { (B : Base) → IsValid B.start
        → (journal : List Step) (last : Option Stop) (T : CoreState) → Run B journal last T
        → (C : Stage) → Closes B.rules B.start C
        → (arcs : ℕ → ℕ) × (nodes : ℕ → ℕ)
        × IsCarried B.rules B.start (fired T) T.graph (firings C) C.graph arcs nodes }
    ensures results { (R : List Rule) (G : QGraph) (n : ℕ) (S : Stage) → Rounds R G n S
        → (d : Done) → d ∈ S.done → (P : QGraph) × DoneAt R G (firings S) d.firing P
        × (d.first ≡ first_arc R P d.firing) × (d.met ≡ meets R P d.firing) }
{}

/// A run that ended closed and the closure are the same up to numbering. With rules whose left sides have every
/// variable at a place of its class, as accepted rules have, there is a closure then, with at most as many firings as
/// the limit. No run does a firing twice.
pub fn closed_runs_are_closures()
    ensures same { (B : Base) → IsValid B.start
        → (journal : List Step) (last : Option Stop) (T : CoreState) → Run B journal last T → IsClosed T
        → (C : Stage) → Closes B.rules B.start C
        → AreSame B.rules B.start (fired T) T.graph (firings C) C.graph }
    ensures closes { (B : Base) → IsValid B.start → AreLeftSidesInClass B.rules
        → (journal : List Step) (last : Option Stop) (T : CoreState) → Run B journal last T → IsClosed T
        → ClosesWithin B.rules B.start B.limit }
    ensures once { (B : Base) (journal : List Step) (last : Option Stop) (T : CoreState) → Run B journal last T
        → AllApart (fired T) }
{}

/// In every run at most the limit's firings are done. A run that was stopped because more are needed shows, with rules
/// whose left sides have every variable at a place of its class, that the rounds need more firings than the limit. A
/// run that ended closed shows that they don't.
pub fn limited_runs()
    ensures few { (B : Base) (journal : List Step) (last : Option Stop) (T : CoreState) → Run B journal last T
        → length T.done ≤ B.limit }
    ensures over { (B : Base) → IsValid B.start → AreLeftSidesInClass B.rules
        → (journal : List Step) (last : Option Stop) (T : CoreState) → Run B journal last T
        → (i : ℕ) → T.stop ≡ Some (stop.Over i) → Needs B.rules B.start B.limit }
    ensures closed { (B : Base) → IsValid B.start
        → (journal : List Step) (last : Option Stop) (T : CoreState) → Run B journal last T → IsClosed T
        → Needs B.rules B.start B.limit → ⊥ }
{}
