//! A board that two passes take turns on, from one thread.

ghost use Rattle.std.specs.Prelude.{◌≡◌, ◌+◌, []};
ghost use Rattle.qs_board.specs.Seats.{board_base, IsSeatOf};
ghost use Rattle.qs_edge_tests.specs.working.Boards.{IsReady, IsAt};

use qs_board::{Board, Pass};
use qs_core::{Claim, End, Put, State, Step, Stop};
use qs_deck::{Deck, read_deck};
use qs_firing::{Joined, View};
use qs_graph::Graph;
use qs_join::joined;
use qs_pattern::Rule;
use std::alloc::Global;
use std::process::Abort;
use std::sync::Wait;

/// The deck of this text.
fn deck_of<R: Abort>(rt: &R, alloc: Global, text: &str) -> Deck {
    assert!(rt; text.len() <= 4_194_304);
    read_deck(alloc, text.as_bytes()).expect(rt, "a deck")
}

/// The rules of the first grammar of a deck, none where there is no grammar.
fn rules_of(deck: &Deck) -> &[Rule] {
    match deck.systems.first() {
        Some(system) => &system.rules,
        None => &[],
    }
}

/// A board with two passes, which haven't taken a turn yet.
fn opened<R: Abort>(
    rt: &R,
    alloc: Global,
    rules: &[Rule],
    start: &Graph,
    limit: u32,
) -> (Board, Pass, Pass)
    ensures rules { (board_base result.0).rules ≡ rules.now }
    ensures seats { (board_base result.0).seats ≡ 2 }
    ensures first { IsReady result.0 result.1 [] }
    ensures second { IsReady result.0 result.2 [] }
{
    assert!(rt; 0 < limit && limit < 10 && rules.len() < 10);
    assert!(rt; start.edges().len() < 10 && start.nodes() < 10);
    let (board, mut passes) = Board::open(alloc, rules, start, limit, 2).expect(rt, "a board");
    let second = passes.pop().expect(rt, "two passes");
    let first = passes.pop().expect(rt, "two passes");
    (board, first, second)
}

/// The seat claims this arc, which waits. The work of it.
fn take<R: Abort + Wait>(
    rt: &R,
    alloc: Global,
    rules: &[Rule],
    board: &Board,
    pass: &mut Pass,
    view: &mut View,
    arc: u32,
) -> Joined
    requires rules { (board_base board.now).rules ≡ rules.now }
    requires ready { IsReady board.now pass.old view.old }
    ensures { IsAt board.now pass.new view.new result 0 }
{
    assert!(rt; rules.len() < 10);
    let Claim::Took(taken) = board.claim(rt, pass, view).expect(rt, "memory") else {
        panic!(rt; "an arc waits");
    };
    assert!(rt; taken == arc);
    joined(alloc, rules, view, taken).expect(rt, "memory")
}

/// The seat is told that no arc waits, but that another seat may still add some.
fn rest<R: Abort + Wait>(rt: &R, board: &Board, pass: &mut Pass, view: &mut View)
    requires { IsReady board.now pass.old view.old }
    ensures { IsReady board.now pass.new view.new }
{
    let Claim::NotYet = board.claim(rt, pass, view).expect(rt, "memory") else {
        panic!(rt; "the other seat has claimed an arc");
    };
}

/// The seat is told that the run has ended so.
fn end<R: Abort + Wait>(rt: &R, board: &Board, pass: &mut Pass, view: &mut View, wanted: End)
    requires { IsReady board.now pass.old view.old }
    ensures { IsSeatOf board.now pass.new }
{
    let Claim::Ended(end) = board.claim(rt, pass, view).expect(rt, "memory") else {
        panic!(rt; "the run has ended");
    };
    assert!(rt; end == wanted);
}

/// The seat publishes the next firing, whose result begins with the arc of this number.
fn publish<R: Abort + Wait>(
    rt: &R,
    board: &Board,
    pass: &mut Pass,
    view: &View,
    work: &Joined,
    k: u32,
    first: u32,
)
    requires { IsAt board.now pass.old view.now work.now k }
    ensures { IsAt board.now pass.new view.now work.now (k + 1) }
{
    assert!(rt; (k as usize) < work.made().len() && 0 < view.len());
    let Put::Published(number) = board.publish(rt, pass, work, k).expect(rt, "memory") else {
        panic!(rt; "the run goes on");
    };
    assert!(rt; number == first);
}

/// The seat has a firing more, behind the limit, which stops the run.
fn pass_limit<R: Abort + Wait>(
    rt: &R,
    board: &Board,
    pass: &mut Pass,
    view: &View,
    work: &Joined,
    k: u32,
)
    requires { IsAt board.now pass.old view.now work.now k }
    ensures { IsSeatOf board.now pass.new }
{
    assert!(rt; (k as usize) < work.made().len() && 0 < view.len());
    let put = board.publish(rt, pass, work, k).expect(rt, "memory");
    assert!(rt; put == Put::Over);
}

/// Sees to it that all of this work is done.
fn see_done<R: Abort>(rt: &R, board: &Board, pass: &Pass, view: &View, work: &Joined, k: u32)
    requires { IsAt board.now pass.now view.now work.now k }
    ensures { IsReady board.now pass.now view.now }
{
    assert!(rt; (k as usize) == work.made().len());
    assert!(rt; 0 < view.len());
}

/// The machine, once both passes are back.
fn closed<R: Abort>(rt: &R, alloc: Global, board: Board, first: Pass, second: Pass) -> State
    requires seats { (board_base board).seats ≡ 2 }
    requires first { IsSeatOf board first }
    requires second { IsSeatOf board second }
{
    let mut passes = Vec::with_capacity(alloc, 2).expect(rt, "room for two");
    passes.push_reserved(first);
    passes.push_reserved(second);
    board.close(passes)
}

#[test]
fn two_seats_close_a_run(rt: HostRuntime) {
    let deck = deck_of(
        &rt,
        rt.alloc(),
        "-SYSTEME- S. A == B. -GRAPHE- -1- A -2-. -FIN-",
    );
    let rules = rules_of(&deck);
    let (board, mut first, mut second) = opened(&rt, rt.alloc(), rules, &deck.graph, 1);
    let mut near = View::empty(rt.alloc());
    let mut far = View::empty(rt.alloc());
    let work = take(&rt, rt.alloc(), rules, &board, &mut first, &mut near, 0);
    rest(&rt, &board, &mut second, &mut far);
    publish(&rt, &board, &mut first, &near, &work, 0, 1);
    let empty = take(&rt, rt.alloc(), rules, &board, &mut second, &mut far, 1);
    see_done(&rt, &board, &first, &near, &work, 1);
    rest(&rt, &board, &mut first, &mut near);
    see_done(&rt, &board, &second, &far, &empty, 0);
    end(&rt, &board, &mut second, &mut far, End::Closed);
    end(&rt, &board, &mut first, &mut near, End::Closed);
    let state = closed(&rt, rt.alloc(), board, first, second);
    let wanted = [
        Step::Claim { seat: 0, arc: 0 },
        Step::Publish { seat: 0 },
        Step::Claim { seat: 1, arc: 1 },
        Step::Rest { seat: 0 },
        Step::Rest { seat: 1 },
    ];
    assert!(rt; state.journal() == wanted.as_slice());
    assert!(rt; state.end() == Some(End::Closed) && state.stop().is_none());
}

#[test]
fn the_limit_stops_two_seats(rt: HostRuntime) {
    let deck = deck_of(
        &rt,
        rt.alloc(),
        "-SYSTEME- S. A == B. A == C. -GRAPHE- -1- A -2-. -FIN-",
    );
    let rules = rules_of(&deck);
    let (board, mut first, mut second) = opened(&rt, rt.alloc(), rules, &deck.graph, 1);
    let mut near = View::empty(rt.alloc());
    let mut far = View::empty(rt.alloc());
    let work = take(&rt, rt.alloc(), rules, &board, &mut first, &mut near, 0);
    publish(&rt, &board, &mut first, &near, &work, 0, 1);
    pass_limit(&rt, &board, &mut first, &near, &work, 1);
    end(&rt, &board, &mut second, &mut far, End::Over);
    board.halt(&rt, &mut second);
    let state = closed(&rt, rt.alloc(), board, first, second);
    let wanted = [Step::Claim { seat: 0, arc: 0 }, Step::Publish { seat: 0 }];
    assert!(rt; state.journal() == wanted.as_slice());
    assert!(rt; state.stop() == Some(Stop::Over { seat: 0 }));
}
