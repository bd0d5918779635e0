//! A board and its calls.

ghost use Rattle.std.specs.Prelude.{◌≡◌, ◌<◌, ◌≤◌, ◌+◌, ◌*◌, ◌^◌, ◌⊎◌, ℕ, List, [], length, slice_get, None, Some};
ghost use Rattle.std.specs.Prelude.{All, IfOk, OnErr, vec_len};
ghost use Rattle.std.specs.Arc.{arc_value};
ghost use Rattle.qs_pattern.specs.Limits.{most_patterns, rule_bound};
ghost use Rattle.qs_graph.specs.Graphs.{Arc as GraphArc};
ghost use Rattle.qs_firing.specs.Work.{IsRightFor};
ghost use Rattle.qs_turn.specs.History.{ContinuedByOthers};
ghost use Rattle.qs_turn.specs.Passes.{passes_of, opened_value, number_of, seen_of, turns_of};
ghost use Rattle.qs_core.specs.Core.{IsFree, HasClaim, HasEnded};
ghost use Rattle.qs_core.specs.Runs.{IsReplayed};

use crate::kept::{Kept, claim_held, entry_at, entry_count, halt_held, publish_held};
use qs_core::{Claim, Put, State, share_rules};
use qs_firing::{Joined, View};
use qs_graph::Graph;
use qs_pattern::Rule;
use qs_turn::{Held, Turns};
use std::alloc::{AllocError, Global};
use std::sync::{Arc, Wait};

/// The right to take turns as one seat of a board, the one that has the pass's number.
pub type Pass = qs_turn::Pass<Kept>;

/// A machine whose seats take turns on it. Each call with a pass takes exactly one turn, whatever it answers, and has
/// then seen the history of the machine that it found, with the step or the stop that it entered, where it entered one.
/// Every machine that a call finds or gives was opened as the board was: contracts know it by `board_base`.
#[derive(Drop)]
pub struct Board {
    turns: Turns<Kept>,
    ghost seats: { passes_of turns ≡ (opened_value turns).machine.base.seats },
}

impl Board {
    ghost use Rattle.qs_board.specs.History.{history_of, entry_seat, IsBehind};
    ghost use Rattle.qs_board.specs.Calls.{Finds, Claims, Publishes, Halts, EntersNothing};
    ghost use Rattle.qs_board.specs.Seats.{board_base, IsSeatOf, Sees, SeesArcs, SeesEnd, KnowsClaim, KnowsPut};
    ghost use Rattle.qs_board.specs.working.Turns.{HoldsTurnOf, GoesOn};

    /// The board on the machine with these rules, which starts from this graph, may do this number of firings and has a
    /// seat for each of so many workers; and the passes of the seats, in order. They have seen nothing, have taken no
    /// turn and hold none. The conditions are those of `State::open`.
    pub fn open(
        alloc: Global,
        rules: &[Rule],
        start: &Graph,
        limit: u32,
        workers: u32,
    ) -> Result<(Board, Vec<Pass>), AllocError>
        requires limit { 1 ≤ limit }
        requires workers { 1 ≤ workers }
        requires rules { length rules.now < rule_bound }
        requires arcs { length start.now.arcs + most_patterns * limit < 2 ^ 32 }
        requires nodes { start.now.nodes + most_patterns * limit < 2 ^ 32 }
        ensures base { IfOk result (λ r. board_base r.0
            ≡ record { rules = rules.now; start = start.now; limit = limit; seats = workers }) }
        ensures count { IfOk result (λ r. vec_len r.1 ≡ workers) }
        ensures own { IfOk result (λ r. All (λ p. IsSeatOf r.0 p × (seen_of p ≡ []) × (turns_of p ≡ 0)) r.1.items) }
        ensures numbers { IfOk result (λ r. (i : ℕ) (p : _) → slice_get r.1.items i ≡ Some p → number_of p ≡ i) }
    {
        let rules = share_rules(alloc, rules)?;
        Board::open_shared(alloc, rules, start, limit, workers)
    }

    /// Does what `open` does, with rules that may have further owners. None is copied.
    pub fn open_shared(
        alloc: Global,
        rules: Arc<Vec<Rule>>,
        start: &Graph,
        limit: u32,
        workers: u32,
    ) -> Result<(Board, Vec<Pass>), AllocError>
        requires limit { 1 ≤ limit }
        requires workers { 1 ≤ workers }
        requires rules { length (arc_value rules).items < rule_bound }
        requires arcs { length start.now.arcs + most_patterns * limit < 2 ^ 32 }
        requires nodes { start.now.nodes + most_patterns * limit < 2 ^ 32 }
        ensures base { IfOk result (λ r. board_base r.0
            ≡ record { rules = (arc_value rules).items; start = start.now; limit = limit; seats = workers }) }
        ensures count { IfOk result (λ r. vec_len r.1 ≡ workers) }
        ensures own { IfOk result (λ r. All (λ p. IsSeatOf r.0 p × (seen_of p ≡ []) × (turns_of p ≡ 0)) r.1.items) }
        ensures numbers { IfOk result (λ r. (i : ℕ) (p : _) → slice_get r.1.items i ≡ Some p → number_of p ≡ i) }
    {
        let state = State::open_shared(alloc, rules, start, limit, workers)?;
        let (turns, passes) = Turns::open(
            alloc,
            Kept {
                state: Box::new(alloc, state)?,
            },
            workers,
        )?;
        Ok((Board { turns }, passes))
    }

    /// The pass's seat claims an arc, as `State::claim` does on the machine found; that a claim is ready is no
    /// condition here. In what the pass has seen, the view has the first arcs, and the seat has no claim, or its work
    /// on the arc that it has claimed is all done.
    ///
    /// Where an arc was taken, the view has then all arcs of the machine found; else it has these or is unchanged, so
    /// that who finds nothing to do takes no arc along. After `Memory` nothing was entered. What the pass knows of its
    /// claim, by the answer, `knows` says. It may wait, also forever.
    pub fn claim<R: Wait>(
        &self,
        rt: &R,
        pass: &mut Pass,
        view: &mut View,
    ) -> Result<Claim, AllocError>
        requires own { IsSeatOf self.now pass.old }
        requires view { SeesArcs self.now pass.old view.old }
        requires free { Sees self.now pass.old (λ S. IsFree (board_base self.now) S (number_of pass.old)) }
        ensures own { IsSeatOf self.now pass.new }
        ensures same { number_of pass.new ≡ number_of pass.old }
        ensures turn { turns_of pass.new ≡ turns_of pass.old + 1 }
        ensures claims { IfOk result (λ a. Claims (board_base self.now) (number_of pass.old) (seen_of pass.old) a
            (seen_of pass.new) view.new) }
        ensures memory { OnErr result (EntersNothing (board_base self.now) (number_of pass.old) (seen_of pass.old)
            (seen_of pass.new)) }
        ensures view { (view.new ≡ view.old) ⊎ Sees self.now pass.new (λ S. view.new ≡ S.graph.arcs) }
        ensures arcs { SeesArcs self.now pass.new view.new }
        ensures knows { IfOk result (λ a. KnowsClaim self.now pass.new view.new a) }
    {
        let (mut held, before) = self.begin_turn(rt, pass);
        let answer = claim_held(&mut held, pass.number(), view);
        self.end_turn(pass, held, before);
        answer
    }

    /// The pass's seat publishes the next firing of its claim, as `State::publish` does on the machine found. In what
    /// the pass has seen, where no stop stands, the seat has claimed the arc of this work, with its first `k` firings
    /// done, there are more of them, and the work is right for the rules and the arcs.
    ///
    /// After `Memory` nothing was entered. What the pass knows of its claim, by the answer, `knows` says. It may wait,
    /// also forever.
    pub fn publish<R: Wait>(
        &self,
        rt: &R,
        pass: &mut Pass,
        work: &Joined,
        k: u32,
    ) -> Result<Put, AllocError>
        requires own { IsSeatOf self.now pass.old }
        requires claim { Sees self.now pass.old (λ S. S.stop ≡ None
            → HasClaim S (number_of pass.old) work.now.arc k) }
        requires more { Sees self.now pass.old (λ S. S.stop ≡ None → k < length work.now.made) }
        requires right { Sees self.now pass.old (λ S. S.stop ≡ None
            → IsRightFor (board_base self.now).rules S.graph.arcs work.now) }
        ensures own { IsSeatOf self.now pass.new }
        ensures same { number_of pass.new ≡ number_of pass.old }
        ensures turn { turns_of pass.new ≡ turns_of pass.old + 1 }
        ensures publishes { IfOk result (λ a. Publishes (board_base self.now) (number_of pass.old) (seen_of pass.old)
            work.now k a (seen_of pass.new)) }
        ensures memory { OnErr result (EntersNothing (board_base self.now) (number_of pass.old) (seen_of pass.old)
            (seen_of pass.new)) }
        ensures arcs { (view : List GraphArc) → SeesArcs self.now pass.old view → SeesArcs self.now pass.new view }
        ensures knows { IfOk result (λ a. KnowsPut self.now pass.new work.now k a) }
    {
        let (mut held, before) = self.begin_turn(rt, pass);
        let answer = publish_held(&mut held, pass.number(), work, k);
        self.end_turn(pass, held, before);
        answer
    }

    /// The pass's seat halts the run, as `State::halt` does on the machine found; the pass has then seen that the run
    /// has ended. Takes no memory. It may wait, also forever.
    pub fn halt<R: Wait>(&self, rt: &R, pass: &mut Pass)
        requires own { IsSeatOf self.now pass.old }
        ensures own { IsSeatOf self.now pass.new }
        ensures same { number_of pass.new ≡ number_of pass.old }
        ensures turn { turns_of pass.new ≡ turns_of pass.old + 1 }
        ensures halts { Halts (board_base self.now) (number_of pass.old) (seen_of pass.old) (seen_of pass.new) }
        ensures ended { SeesEnd self.now pass.new }
    {
        let (mut held, before) = self.begin_turn(rt, pass);
        halt_held(&mut held, pass.number());
        self.end_turn(pass, held, before);
    }

    /// The machine, once the passes of all seats are there. It was opened as the board was, and its history leads to
    /// its state and begins with what each pass has seen; what follows was entered by others. Where one pass has seen
    /// that the run has ended, it has. Takes no memory.
    pub fn close(self, passes: Vec<Pass>) -> State
        requires own { All (λ p. IsSeatOf self p) passes.items }
        requires all { vec_len passes ≡ (board_base self).seats }
        ensures base { result.machine.base ≡ board_base self }
        ensures replayed { IsReplayed result.machine }
        ensures history { All (λ p. ContinuedByOthers entry_seat (board_base self).seats (number_of p) (seen_of p)
            (history_of result.machine)) passes.items }
        ensures ended { (i : ℕ) (p : _) → slice_get passes.items i ≡ Some p → SeesEnd self p
            → HasEnded result.machine.state }
    {
        let Board { turns } = self;
        let Kept { state } = turns.close(passes);
        let state = Box::into_inner(state);
        let _replayed = state.journal();
        state
    }

    // Takes a turn. The machine found, and how many entries its history has.
    fn begin_turn<R: Wait>(&self, rt: &R, pass: &mut Pass) -> (Held<Kept>, usize)
        requires own { IsSeatOf self.now pass.old }
        ensures own { HoldsTurnOf self.now pass.new }
        ensures same { number_of pass.new ≡ number_of pass.old }
        ensures turn { turns_of pass.new ≡ turns_of pass.old + 1 }
        ensures finds { Finds (board_base self.now) (number_of pass.old) (seen_of pass.old) result.0.machine }
        ensures seen { seen_of pass.new ≡ history_of result.0.machine }
        ensures count { result.1 ≡ length (seen_of pass.new) }
    {
        let mut held = self.turns.enter(rt, pass);
        let count = entry_count(&held.value().state);
        (held, count)
    }

    // Ends the turn. What follows the first `before` entries of the history, at most one entry, is entered.
    fn end_turn(&self, pass: &mut Pass, mut held: Held<Kept>, before: usize)
        requires own { HoldsTurnOf self.now pass.old }
        requires base { held.machine.base ≡ board_base self.now }
        requires history { GoesOn (number_of pass.old) (seen_of pass.old) (history_of held.machine) }
        requires before { before ≡ length (seen_of pass.old) }
        ensures own { IsSeatOf self.now pass.new }
        ensures same { number_of pass.new ≡ number_of pass.old }
        ensures turn { turns_of pass.new ≡ turns_of pass.old }
        ensures behind { IsBehind (board_base self.now) (seen_of pass.new) held.machine }
    {
        let entry = entry_at(&held.value().state, before);
        self.turns.leave(pass, held, entry);
    }
}
