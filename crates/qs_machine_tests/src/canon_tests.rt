//! The closure in canonical numbers, found from runs that a seat made in one order or another.

use crate::core_tests::{Run, close, open, publish, take_this};
use crate::merging_tests::has_arcs;
use qs_canon::{Numbering, Placed, canon};
use qs_core::End;
use qs_tree::Label;
use std::alloc::Global;
use std::process::Abort;

/// The closure that is found from this run, which has ended closed.
fn numbering_of<R: Abort>(rt: &R, alloc: Global, run: &Run) -> Numbering {
    let Some(End::Closed) = run.state.end() else {
        panic!(rt; "the run has ended closed");
    };
    canon(alloc, &run.state).expect(rt, "memory")
}

/// The closure that is found from the run of the first grammar on the graph of this text in which one seat claims these
/// arcs one after another and publishes the firings of their work, each with the first arc of its result.
fn found<R: Abort>(rt: &R, alloc: Global, text: &str, claims: &[(u32, &[u32])]) -> Numbering {
    let mut run = open(rt, alloc, text, 9);
    for (arc, results) in claims {
        take_this(rt, alloc, &mut run, 0, *arc);
        for first in *results {
            publish(rt, alloc, &mut run, 0, *first);
        }
    }
    close(rt, alloc, &mut run, 0);
    numbering_of(rt, alloc, &run)
}

/// Whether these firings are done, in this order, each by its rule, its path, the first arc of its result, its round
/// and whether it met that arc.
fn has_firings(firings: &[Placed], wanted: &[(u32, &[u32], u32, u32, bool)]) -> bool {
    for (placed, (rule, path, first, round, met)) in firings.iter().zip(wanted) {
        if placed.firing.rule != *rule || placed.firing.path.as_slice() != *path {
            return false;
        }
        if placed.first != *first || placed.round != *round || placed.met != *met {
            return false;
        }
    }
    firings.len() == wanted.len()
}

/// Whether the closure has these nodes, arcs and firings.
fn is_closure(
    numbering: &Numbering,
    nodes: u32,
    arcs: &[(u32, Label, u32)],
    firings: &[(u32, &[u32], u32, u32, bool)],
) -> bool {
    let closure = &numbering.closure;
    closure.nodes == nodes
        && has_arcs(&closure.edges, arcs)
        && has_firings(&closure.firings, firings)
}

/// Whether the arcs of the run, and its nodes from 1, have these numbers in the closure.
fn has_numbers(numbering: &Numbering, arcs: &[u32], nodes: &[u32]) -> bool {
    numbering.arcs.as_slice() == arcs && numbering.nodes.as_slice() == nodes
}

/// The labels of the grammars below, behind their name.
const A: Label = Label(1);

const B: Label = Label(2);

const C: Label = Label(3);

const D: Label = Label(4);

const E: Label = Label(5);

const F: Label = Label(6);

#[test]
fn arcs_claimed_late_and_firings_published_early_give_one_closure(rt: HostRuntime) {
    let text = "-SYSTEME- S. A == B + C. B == D. D == E. C + B == F. -GRAPHE- -1- A + A -2-. -FIN-";
    let arcs = [
        (1, A, 3),
        (3, A, 2),
        (1, B, 4),
        (4, C, 3),
        (3, B, 5),
        (5, C, 2),
        (1, D, 4),
        (3, D, 5),
        (4, F, 5),
        (1, E, 4),
        (3, E, 5),
    ];
    let firings: [(u32, &[u32], u32, u32, bool); 7] = [
        (0, &[0], 2, 1, false),
        (0, &[1], 4, 1, false),
        (1, &[2], 6, 2, false),
        (1, &[4], 7, 2, false),
        (3, &[3, 4], 8, 2, false),
        (2, &[6], 9, 3, false),
        (2, &[7], 10, 3, false),
    ];
    let in_order: [(u32, &[u32]); 11] = [
        (0, &[2]),
        (1, &[4]),
        (2, &[6]),
        (3, &[]),
        (4, &[7, 8]),
        (5, &[]),
        (6, &[9]),
        (7, &[10]),
        (8, &[]),
        (9, &[]),
        (10, &[]),
    ];
    let numbering = found(&rt, rt.alloc(), text, &in_order);
    assert!(rt; is_closure(&numbering, 5, &arcs, &firings));
    assert!(rt;
        has_numbers(
            &numbering,
            &[0, 1, 2, 3, 4, 5, 6, 7, 8, 9, 10],
            &[1, 2, 3, 4, 5]
        )
    );
    let late: [(u32, &[u32]); 11] = [
        (1, &[2]),
        (2, &[4]),
        (4, &[5]),
        (0, &[6]),
        (7, &[8]),
        (6, &[9]),
        (9, &[10]),
        (3, &[]),
        (5, &[]),
        (8, &[]),
        (10, &[]),
    ];
    let numbering = found(&rt, rt.alloc(), text, &late);
    assert!(rt; is_closure(&numbering, 5, &arcs, &firings));
    assert!(rt;
        has_numbers(
            &numbering,
            &[0, 1, 4, 5, 7, 10, 2, 3, 8, 6, 9],
            &[1, 2, 3, 5, 4]
        )
    );
}

#[test]
fn firings_that_meet_each_others_arcs_give_one_closure(rt: HostRuntime) {
    let text = "-VERSION- 2. -SYSTEME- S -UNIQUE-. A == B. C == D. B == D. D == B.\n\
         -GRAPHE- -1- A -2-. -1- C -2-. -FIN-";
    let arcs = [(1, A, 2), (1, C, 2), (1, B, 2), (1, D, 2)];
    let firings: [(u32, &[u32], u32, u32, bool); 4] = [
        (0, &[0], 2, 1, false),
        (1, &[1], 3, 1, false),
        (2, &[2], 3, 2, true),
        (3, &[3], 2, 2, true),
    ];
    let in_order: [(u32, &[u32]); 4] = [(0, &[2]), (1, &[3]), (2, &[3]), (3, &[2])];
    let numbering = found(&rt, rt.alloc(), text, &in_order);
    assert!(rt; is_closure(&numbering, 2, &arcs, &firings));
    assert!(rt; has_numbers(&numbering, &[0, 1, 2, 3], &[1, 2]));
    let first: [(u32, &[u32]); 4] = [(0, &[2]), (2, &[3]), (1, &[3]), (3, &[2])];
    let numbering = found(&rt, rt.alloc(), text, &first);
    assert!(rt; is_closure(&numbering, 2, &arcs, &firings));
    assert!(rt; has_numbers(&numbering, &[0, 1, 2, 3], &[1, 2]));
    let second: [(u32, &[u32]); 4] = [(1, &[2]), (2, &[3]), (0, &[3]), (3, &[2])];
    let numbering = found(&rt, rt.alloc(), text, &second);
    assert!(rt; is_closure(&numbering, 2, &arcs, &firings));
    assert!(rt; has_numbers(&numbering, &[0, 1, 3, 2], &[1, 2]));
}
