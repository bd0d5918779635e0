//! One worker: the steps that it makes, and how its runs end.

use crate::reading::rules_of;
use qs_core::{End, State, Step, Stop};
use qs_deck::read_deck;
use qs_worker::saturate_alone;
use std::alloc::Global;
use std::process::Abort;

/// The machine of the first grammar and the graph of this text, behind the run of one worker.
fn saturated<R: Abort>(rt: &R, alloc: Global, text: &str, limit: u32) -> State {
    assert!(rt; text.len() <= 4_194_304 && 0 < limit && limit < 10);
    let deck = read_deck(alloc, text.as_bytes()).expect(rt, "a deck");
    let rules = rules_of(&deck);
    assert!(rt; rules.len() < 10 && deck.graph.edges().len() < 10 && deck.graph.nodes() < 10);
    saturate_alone(alloc, rules, &deck.graph, limit).expect(rt, "memory")
}

#[test]
fn a_worker_closes_a_run(rt: HostRuntime) {
    let text = "-SYSTEME- S. A == B. -GRAPHE- -1- A -2-. -FIN-";
    let state = saturated(&rt, rt.alloc(), text, 1);
    let wanted = [
        Step::Claim { seat: 0, arc: 0 },
        Step::Publish { seat: 0 },
        Step::Claim { seat: 0, arc: 1 },
        Step::Rest { seat: 0 },
    ];
    assert!(rt; state.journal() == wanted.as_slice());
    assert!(rt; state.end() == Some(End::Closed) && state.stop().is_none());
}

#[test]
fn the_limit_stops_a_worker(rt: HostRuntime) {
    let text = "-SYSTEME- S. A == A. -GRAPHE- -1- A -2-. -FIN-";
    let state = saturated(&rt, rt.alloc(), text, 5);
    assert!(rt; state.end() == Some(End::Over) && state.stop() == Some(Stop::Over { seat: 0 }));
    assert!(rt; state.fired().len() == 5 && state.arcs() == 6);
}

#[test]
fn a_circle_of_unique_rules_closes(rt: HostRuntime) {
    let text = "-VERSION- 2. -SYSTEME- S -UNIQUE-. A == B. B == A. -GRAPHE- -1- A -2-. -FIN-";
    let state = saturated(&rt, rt.alloc(), text, 2);
    let [first, second] = state.fired() else {
        panic!(rt; "two firings");
    };
    assert!(rt; !first.met && first.first == 1 && second.met && second.first == 0);
    assert!(rt; state.end() == Some(End::Closed) && state.arcs() == 2);
}
