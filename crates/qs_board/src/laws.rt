//! Laws of histories, over their definitions alone.

ghost use Rattle.std.specs.Prelude.{◌≡◌, ◌<◌, ◌++◌, ◌↔◌, ℕ, List, [], length};
ghost use Rattle.qs_firing.specs.Work.{WorkWithTrees, IsRightFor};
ghost use Rattle.qs_turn.specs.History.{ContinuedByOthers};
ghost use Rattle.qs_core.specs.Core.{Base, CoreState, HasClaim, IsFree, HasEnded};
ghost use Rattle.qs_core.specs.Runs.{Machine};
ghost use Rattle.qs_board.specs.declared.entry.Entry.{Entry as EntryOfHistory};
ghost use Rattle.qs_board.specs.History.{entry_seat, IsBehind, HoldsBehind};

/// One machine is behind a history. Where there is one, there is one behind each of its beginnings.
pub fn histories_lead_to_one_machine()
    ensures one { (B : Base) (history : List EntryOfHistory) (M N : Machine) → IsBehind B history M
        → IsBehind B history N → M ≡ N }
    ensures beginnings { (B : Base) (seen later : List EntryOfHistory) (N : Machine) → IsBehind B (seen ++ later) N
        → (M : Machine) × IsBehind B seen M }
{}

/// What a seat has seen of its claim holds until its next entry: what others enter changes neither its claim, nor that
/// it is free, nor that a work is right.
pub fn seats_know_their_claims()
    ensures claim { (B : Base) (i : ℕ) (seen history : List EntryOfHistory) (M N : Machine) → IsBehind B seen M
        → IsBehind B history N → ContinuedByOthers entry_seat B.seats i seen history
        → (m k : ℕ) → HasClaim M.state i m k ↔ HasClaim N.state i m k }
    ensures free { (B : Base) (i : ℕ) (seen history : List EntryOfHistory) (M N : Machine) → IsBehind B seen M
        → IsBehind B history N → ContinuedByOthers entry_seat B.seats i seen history
        → IsFree B M.state i → IsFree B N.state i }
    ensures right { (B : Base) (i : ℕ) (seen history : List EntryOfHistory) (M N : Machine) → IsBehind B seen M
        → IsBehind B history N → ContinuedByOthers entry_seat B.seats i seen history
        → (work : WorkWithTrees) → work.arc < length M.state.graph.arcs → IsRightFor B.rules M.state.graph.arcs work
        → IsRightFor B.rules N.state.graph.arcs work }
{}

/// A seat that has seen nothing is free.
pub fn new_seats_are_free()
    ensures { (B : Base) (i : ℕ) → HoldsBehind B [] (λ S. IsFree B S i) }
{}

/// A seat is free that has seen a claim whose work is right and of which as many firings are done as it has.
pub fn worked_seats_are_free()
    ensures { (B : Base) (history : List EntryOfHistory) (i k : ℕ) (work : WorkWithTrees)
        → HoldsBehind B history (λ S. HasClaim S i work.arc k)
        → HoldsBehind B history (λ S. IsRightFor B.rules S.graph.arcs work)
        → k ≡ length work.made → HoldsBehind B history (λ S. IsFree B S i) }
{}

/// Nothing is entered behind the end of a run.
pub fn nothing_follows_the_end()
    ensures { (B : Base) (seen later : List EntryOfHistory) (M N : Machine) → IsBehind B seen M
        → IsBehind B (seen ++ later) N → HasEnded M.state → later ≡ [] }
{}
