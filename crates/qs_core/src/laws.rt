//! Laws of the core, over its definitions alone.

ghost use Rattle.std.specs.Prelude.{◌≡◌, ◌≢◌, ◌<◌, ◌≤◌, ◌↔◌, ◌++◌, ℕ, List, [], length, Option, Some};
ghost use Rattle.qs_tree.specs.Lists.{◌∈◌};
ghost use Rattle.qs_graph.specs.Graphs.{Arc};
ghost use Rattle.qs_firing.specs.Firings.{Firing, Fires};
ghost use Rattle.qs_firing.specs.Work.{WorkWithTrees, IsRightFor};
ghost use Rattle.qs_core.specs.declared.step.Step.{Step};
ghost use Rattle.qs_core.specs.declared.step.Stop.{Stop};
ghost use Rattle.qs_core.specs.declared.step.Stop.TheVariants as stop;
ghost use Rattle.qs_core.specs.Growth.{AllApart};
ghost use Rattle.qs_core.specs.Core.{Base, CoreState, opening, fired, IsClosed, HasClaim, IsFree, Next};
ghost use Rattle.qs_core.specs.Runs.{Makes, Stops, seat_of, Run};
ghost use Rattle.qs_core.specs.Keeps.{Keeps};
ghost use Rattle.qs_core.specs.Answers.{HasAnyClaim};

/// What every state of the core keeps holds at the opening, and behind each kind of step and of stop from every state
/// in which it holds; so it holds behind every run.
pub fn core_keeps()
    ensures opening { (B : Base) → Keeps B (opening B) }
    ensures step { (B : Base) (S : CoreState) (v : Step) (T : CoreState) → Makes B S v T → Keeps B S → Keeps B T }
    ensures stop { (B : Base) (S : CoreState) (s : Stop) (T : CoreState) → Stops B S s T → Keeps B S → Keeps B T }
    ensures run { (B : Base) (journal : List Step) (last : Option Stop) (T : CoreState) → Run B journal last T
        → Keeps B T }
{}

/// The state behind a run is determined by its steps and its stop.
pub fn one_replay()
    ensures { (B : Base) (journal : List Step) (last : Option Stop) (T U : CoreState) → Run B journal last T
        → Run B journal last U → T ≡ U }
{}

/// Only a seat's own steps change its claim.
pub fn own_claims()
    ensures { (B : Base) (S : CoreState) (v : Step) (T : CoreState) → Makes B S v T
        → (i m k : ℕ) → seat_of v ≢ i → HasClaim S i m k ↔ HasClaim T i m k }
{}

/// A run that ended closed has done every firing over its last arcs, and nothing else, each once.
pub fn closed_runs_are_complete()
    ensures all { (B : Base) (journal : List Step) (last : Option Stop) (T : CoreState) → Run B journal last T
        → IsClosed T → (f : Firing) → Fires B.rules T.graph.arcs f ↔ f ∈ fired T }
    ensures once { (B : Base) (journal : List Step) (last : Option Stop) (T : CoreState) → Run B journal last T
        → AllApart (fired T) }
{}

/// In every run at most the limit's firings are done. Where it is stopped because more are needed, exactly the limit's
/// are, and there is a firing more.
pub fn runs_are_limited()
    ensures few { (B : Base) (journal : List Step) (last : Option Stop) (T : CoreState) → Run B journal last T
        → length T.done ≤ B.limit }
    ensures over { (B : Base) (journal : List Step) (last : Option Stop) (T : CoreState) → Run B journal last T
        → (i : ℕ) → T.stop ≡ Some (stop.Over i) → (length T.done ≡ B.limit) × Next B T i }
{}

/// A seat is free that has no claim, and one that has claimed the arc of a work that is right and of which as many
/// firings are done as it has.
pub fn worked_seats_are_free()
    ensures none { (B : Base) (S : CoreState) (i : ℕ) → (HasAnyClaim S i → ⊥) → IsFree B S i }
    ensures worked { (B : Base) (S : CoreState) → Keeps B S → (i k : ℕ) (work : WorkWithTrees)
        → HasClaim S i work.arc k → IsRightFor B.rules S.graph.arcs work → k ≡ length work.made → IsFree B S i }
{}

/// Steps take no arc away and change none; so a work that is right stays right.
pub fn works_stay_right()
    ensures arcs { (B : Base) (S : CoreState) (v : Step) (T : CoreState) → Makes B S v T
        → (more : List Arc) × (T.graph.arcs ≡ S.graph.arcs ++ more) }
    ensures right { (B : Base) (S : CoreState) (v : Step) (T : CoreState) → Makes B S v T → (work : WorkWithTrees)
        → work.arc < length S.graph.arcs → IsRightFor B.rules S.graph.arcs work
        → IsRightFor B.rules T.graph.arcs work }
{}
