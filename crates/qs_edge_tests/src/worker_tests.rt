// Two workers beside each other, with gates that hold them and note who passed with which arc.

use qs_core::{End, State, Step};
use qs_deck::{Deck, read_deck};
use qs_io::{Gate, OpenGate};
use qs_pattern::Rule;
use qs_tree::Label;
use qs_worker::{Memory, saturate};
use std::alloc::Global;
use std::process::Abort;
use std::sync::Wait;
use std::sync::atomic::{AtomicU64, Ordering};
use std::thread;
use std::thread::Threads;

/// A rule, and the graph of 64 arcs A in a row. The labels are S, A and B, from 0 on.
const CHAIN: &str =
    "-SYSTEME- S. A == B. -GRAPHE- -1- A + A + A + A + A + A + A + A + A + A + A + A + A + A + A + A\n\
     + A + A + A + A + A + A + A + A + A + A + A + A + A + A + A + A\n\
     + A + A + A + A + A + A + A + A + A + A + A + A + A + A + A + A\n\
     + A + A + A + A + A + A + A + A + A + A + A + A + A + A + A + A -2-. -FIN-";

/// The same rule on one arc.
const ONE_ARC: &str = "-SYSTEME- S. A == B. -GRAPHE- -1- A -2-. -FIN-";

/// How often, at most, a gate looks whether it is to open. It notes where it gave up.
const MOST_LOOKS: u32 = 1_000_000_000;

/// So many zeros.
fn zeros(alloc: Global, count: u32) -> Result<Vec<AtomicU64>, Memory> {
    let mut zeros = Vec::new(alloc);
    for _ in 0..count {
        zeros.push(AtomicU64::new(0))?;
    }
    Ok(zeros)
}

/// The number at this place, 0 where there is none.
fn number_at(numbers: &[AtomicU64], place: u32) -> u64 {
    match numbers.get(place as usize) {
        Some(number) => number.load(Ordering::SeqCst),
        None => 0,
    }
}

/// The rules of the first grammar, none where there is no grammar.
fn rules_of(deck: &Deck) -> &[Rule] {
    match deck.systems.first() {
        Some(system) => &system.rules,
        None => &[],
    }
}

/// The machine of the first grammar and the graph of this text, behind the run of two workers, who may do 10,000
/// firings and pass this gate.
fn worked_by_two<R: Threads + Wait + Abort + Sync, G: Gate + Sync>(
    rt: &R,
    alloc: Global,
    text: &str,
    gate: &G,
) -> State {
    assert!(rt; text.len() <= 4_194_304);
    let deck = read_deck(alloc, text.as_bytes()).expect(rt, "a deck");
    let rules = rules_of(&deck);
    assert!(rt; rules.len() < 10 && deck.graph.edges().len() < 100 && deck.graph.nodes() < 100);
    saturate(rt, alloc, rules, &deck.graph, 10_000, 2, gate).expect(rt, "memory")
}

/// Whether each of the first 64 arcs has become an arc B, and the run has closed.
fn is_all_b<R: Abort>(rt: &R, state: &State) -> bool {
    if state.end() != Some(End::Closed) || state.fired().len() != 64 || state.arcs() != 128 {
        return false;
    }
    for arc in 64..128 {
        assert!(rt; arc < state.arcs());
        if state.edge(arc).tree.view().root() != Label(2) {
            return false;
        }
    }
    true
}

// Holds each worker at its first pass until both workers have come, and notes who passed with which arc.
#[derive(Drop)]
struct Meeting {
    first: AtomicU64,
    second: AtomicU64,
    gave_up: AtomicU64,
    // For each arc the worker who passed with it, counted from 1; 0 where nobody did.
    by: Vec<AtomicU64>,
}

impl Meeting {
    fn new(alloc: Global, arcs: u32) -> Result<Meeting, Memory> {
        Ok(Meeting {
            first: AtomicU64::new(0),
            second: AtomicU64::new(0),
            gave_up: AtomicU64::new(0),
            by: zeros(alloc, arcs)?,
        })
    }
}

impl Gate for Meeting {
    fn pass(&self, worker: u32, arc: u32) {
        if let Some(by) = self.by.get(arc as usize) {
            by.store(u64::from(worker) + 1, Ordering::SeqCst);
        }
        let mark = if worker == 0 {
            &self.first
        } else {
            &self.second
        };
        mark.store(1, Ordering::SeqCst);
        for _ in 0..MOST_LOOKS {
            if self.first.load(Ordering::SeqCst) == 1 && self.second.load(Ordering::SeqCst) == 1 {
                return;
            }
            thread::yield_now();
        }
        self.gave_up.store(1, Ordering::SeqCst);
    }
}

// Holds the worker who passes first until the other one has passed so often, and notes how often somebody passed with
// each arc.
#[derive(Drop)]
struct HoldsFirst {
    others: u64,
    // The worker who is held, counted from 1; 0 before.
    held: AtomicU64,
    // How often the other one has passed.
    passed: AtomicU64,
    gave_up: AtomicU64,
    times: Vec<AtomicU64>,
}

impl HoldsFirst {
    fn new(alloc: Global, arcs: u32, others: u64) -> Result<HoldsFirst, Memory> {
        Ok(HoldsFirst {
            others,
            held: AtomicU64::new(0),
            passed: AtomicU64::new(0),
            gave_up: AtomicU64::new(0),
            times: zeros(alloc, arcs)?,
        })
    }

    // Waits until the other worker has passed often enough.
    fn hold(&self) {
        for _ in 0..MOST_LOOKS {
            if self.passed.load(Ordering::SeqCst) >= self.others {
                return;
            }
            thread::yield_now();
        }
        self.gave_up.store(1, Ordering::SeqCst);
    }
}

impl Gate for HoldsFirst {
    fn pass(&self, worker: u32, arc: u32) {
        if let Some(times) = self.times.get(arc as usize) {
            times.fetch_add(1, Ordering::SeqCst);
        }
        let number = u64::from(worker) + 1;
        let is_first = self
            .held
            .compare_exchange(0, number, Ordering::SeqCst, Ordering::SeqCst)
            .is_ok();
        if is_first {
            self.hold();
        } else if self.held.load(Ordering::SeqCst) != number {
            self.passed.fetch_add(1, Ordering::SeqCst);
        }
    }
}

// Holds the worker who passes with arc 0 for 1,000,000 looks, and notes whether somebody passed with arc 1 meanwhile.
#[derive(Drop)]
struct HoldsArc {
    later: AtomicU64,
    too_early: AtomicU64,
}

impl Gate for HoldsArc {
    fn pass(&self, _worker: u32, arc: u32) {
        if arc != 0 {
            self.later.store(1, Ordering::SeqCst);
            return;
        }
        for _ in 0..1_000_000u32 {
            if self.later.load(Ordering::SeqCst) != 0 {
                self.too_early.store(1, Ordering::SeqCst);
            }
            thread::yield_now();
        }
    }
}

#[test]
fn two_workers_share_the_work(rt: HostRuntime) {
    let gate = Meeting::new(rt.alloc(), 128).expect(&rt, "memory");
    let state = worked_by_two(&rt, rt.alloc(), CHAIN, &gate);
    assert!(rt; is_all_b(&rt, &state));
    assert!(rt; gate.gave_up.load(Ordering::SeqCst) == 0);
    assert!(rt; gate.first.load(Ordering::SeqCst) == 1 && gate.second.load(Ordering::SeqCst) == 1);
}

#[test]
fn one_worker_does_what_the_other_leaves(rt: HostRuntime) {
    let gate = HoldsFirst::new(rt.alloc(), 128, 126).expect(&rt, "memory");
    let state = worked_by_two(&rt, rt.alloc(), CHAIN, &gate);
    assert!(rt; is_all_b(&rt, &state));
    assert!(rt; gate.gave_up.load(Ordering::SeqCst) == 0);
    for arc in 0..128 {
        assert!(rt; number_at(&gate.times, arc) == 1);
    }
}

#[test]
fn nobody_passes_with_an_arc_that_is_not_there(rt: HostRuntime) {
    let gate = HoldsArc {
        later: AtomicU64::new(0),
        too_early: AtomicU64::new(0),
    };
    let state = worked_by_two(&rt, rt.alloc(), ONE_ARC, &gate);
    assert!(rt; state.end() == Some(End::Closed) && state.arcs() == 2);
    assert!(rt; gate.later.load(Ordering::SeqCst) == 1);
    assert!(rt; gate.too_early.load(Ordering::SeqCst) == 0);
}

#[test]
fn claims_are_of_the_workers_who_passed(rt: HostRuntime) {
    let gate = Meeting::new(rt.alloc(), 128).expect(&rt, "memory");
    let state = worked_by_two(&rt, rt.alloc(), CHAIN, &gate);
    assert!(rt; gate.gave_up.load(Ordering::SeqCst) == 0);
    let mut firsts = 0u32;
    let mut seconds = 0u32;
    for step in state.journal() {
        if let Step::Claim { seat, arc } = step {
            assert!(rt; *seat < 2 && number_at(&gate.by, *arc) == u64::from(*seat) + 1);
            assert!(rt; firsts < 128 && seconds < 128);
            if *seat == 0 {
                firsts += 1;
            } else {
                seconds += 1;
            }
        }
    }
    assert!(rt; 0 < firsts && 0 < seconds);
    assert!(rt; u64::from(firsts) + u64::from(seconds) == 128);
}

#[test]
fn an_open_gate_holds_nobody(rt: HostRuntime) {
    let state = worked_by_two(&rt, rt.alloc(), CHAIN, &OpenGate);
    assert!(rt; is_all_b(&rt, &state));
}
