//! The closure of a grammar, compared with what the rounds reach as they are defined.

ghost use Rattle.std.specs.Prelude.{◌<◌, length};

use crate::reading::rules_of;
use qs_canon::{Closure, Placed};
use qs_cascade::{Memory, closure_alone};
use qs_deck::read_deck;
use qs_firing::{Firing, Joined, Made, View, order};
use qs_graph::{Edge, Graph};
use qs_join::joined;
use qs_pattern::Rule;
use qs_tree::{Tree, same};
use std::alloc::Global;
use std::cmp::Ordering;
use std::process::Abort;
use std::sync::Arc;

/// What rounds have reached: a graph, and the firings that were done.
#[derive(Drop)]
struct Reached {
    nodes: u32,
    view: View,
    done: Vec<Placed>,
}

/// The work of each arc: together all firings over the graph.
fn works_of(alloc: Global, rules: &[Rule], view: &View) -> Result<Vec<Joined>, Memory>
    requires { length rules.now < 10 }
{
    let mut works = Vec::new(alloc);
    for arc in 0..view.len() {
        works.push(joined(alloc, rules, view, arc)?)?;
    }
    Ok(works)
}

/// Whether the firing is done.
fn is_done(done: &[Placed], firing: &Firing) -> bool {
    done.iter()
        .any(|placed| order(&placed.firing, firing) == Ordering::Equal)
}

/// The firings that aren't done, ascending.
fn round_of<'a>(
    alloc: Global,
    works: &'a [Joined],
    done: &[Placed],
) -> Result<Vec<&'a Made>, Memory> {
    let mut round = Vec::new(alloc);
    for work in works {
        for made in work.made() {
            if !is_done(done, &made.firing) {
                round.push(made)?;
            }
        }
    }
    round.sort_by(|a, b| order(&a.firing, &b.firing))?;
    Ok(round)
}

/// The least arc with this one tree between these nodes.
fn standing(edges: &[Edge], from: u32, trees: &[Arc<Tree>], to: u32) -> Option<usize> {
    let [tree] = trees else {
        return None;
    };
    edges.iter().position(|edge| edge.from == from
        && edge.to == to
        && same(edge.tree.view(), tree.view()))
}

/// Adds a chain of the trees between these nodes.
fn add_chain<R: Abort>(rt: &R, reached: &mut Reached, from: u32, trees: &[Arc<Tree>], to: u32) {
    let mut at = from;
    let mut left = trees.len();
    for tree in trees {
        assert!(rt; reached.nodes < 1000 && reached.view.len() < 1000 && left > 0);
        left -= 1;
        if left > 0 {
            reached.nodes += 1;
        }
        let end = if left > 0 { reached.nodes } else { to };
        let tree = Arc::try_clone(tree).expect(rt, "an owner");
        reached
            .view
            .add(&[Edge {
                from: at,
                to: end,
                tree,
            }])
            .expect(rt, "an arc more");
        at = end;
    }
}

/// Does one firing.
fn add<R: Abort>(rt: &R, unique: bool, reached: &mut Reached, made: &Made, round: u32) {
    let path = made.firing.path.as_slice();
    let edges = reached.view.edges();
    let first = path.first().expect(rt, "a first arc");
    let last = path.last().expect(rt, "a last arc");
    let from = edges.get(*first as usize).expect(rt, "an arc").from;
    let to = edges.get(*last as usize).expect(rt, "an arc").to;
    let met = if unique {
        standing(edges, from, &made.trees, to)
    } else {
        None
    };
    let number = met.unwrap_or(edges.len());
    assert!(rt; number < 1000);
    let first = number as u32;
    if met.is_none() {
        add_chain(rt, reached, from, &made.trees, to);
    }
    let firing = made.firing.copy().expect(rt, "a firing");
    let placed = Placed {
        firing,
        first,
        round,
        met: met.is_some(),
    };
    reached.done.push(placed).expect(rt, "a firing more");
}

/// What the rounds reach before an empty one, or None where more firings than the limit are done by then. Each of them
/// does all firings over the graph so far that aren't done.
fn by_rounds<R: Abort>(
    rt: &R,
    alloc: Global,
    rules: &[Rule],
    start: &Graph,
    limit: u32,
) -> Option<Reached>
    requires { length rules.now < 10 }
{
    let unique = rules.iter().all(|rule| rule.unique());
    let mut view = View::empty(alloc);
    view.add(start.edges()).expect(rt, "the start");
    let mut reached = Reached {
        nodes: start.nodes(),
        view,
        done: Vec::new(alloc),
    };
    assert!(rt; limit < 100);
    for round in 1..limit + 2 {
        let works = works_of(alloc, rules, &reached.view).expect(rt, "the work of each arc");
        let firings = round_of(alloc, &works, &reached.done).expect(rt, "a round");
        if firings.is_empty() {
            return Some(reached);
        }
        for made in firings {
            add(rt, unique, &mut reached, made, round);
        }
        if reached.done.len() > limit as usize {
            return None;
        }
    }
    None
}

/// Whether these are the same arc.
fn is_same_arc(a: &Edge, b: &Edge) -> bool {
    a.from == b.from && a.to == b.to && same(a.tree.view(), b.tree.view())
}

/// Whether these are the same firing, done with the same result in the same round.
fn is_same_firing(a: &Placed, b: &Placed) -> bool {
    order(&a.firing, &b.firing) == Ordering::Equal
        && a.first == b.first
        && a.round == b.round
        && a.met == b.met
}

/// Whether the closure is what was reached.
fn is_reached(closure: &Closure, reached: &Reached) -> bool {
    let edges = reached.view.edges();
    closure.nodes == reached.nodes
        && closure.edges.len() == edges.len()
        && closure
            .edges
            .iter()
            .zip(edges)
            .all(|(a, b)| is_same_arc(a, b))
        && closure.firings.len() == reached.done.len()
        && closure
            .firings
            .iter()
            .zip(&reached.done)
            .all(|(a, b)| is_same_firing(a, b))
}

/// How many firings the closure of the deck's first grammar has, if it has at most so many. By the rounds it is the
/// same.
fn firings_of<R: Abort>(rt: &R, alloc: Global, text: &str, limit: u32) -> Option<usize> {
    assert!(rt; text.len() <= 4_194_304 && 0 < limit && limit < 100);
    let deck = read_deck(alloc, text.as_bytes()).expect(rt, "a deck");
    let rules = rules_of(&deck);
    let start = &deck.graph;
    assert!(rt; rules.len() < 10 && start.edges().len() < 20 && start.nodes() < 20);
    let end = closure_alone(alloc, rules, start, limit).expect(rt, "an end");
    let rounds = by_rounds(rt, alloc, rules, start, limit);
    let Some(closure) = end else {
        assert!(rt; rounds.is_none());
        return None;
    };
    assert!(rt; is_reached(&closure, &rounds.expect(rt, "rounds")));
    assert!(rt; closure.entry == start.entry() && closure.exit == start.exit());
    assert!(rt; closure.start as usize == start.edges().len());
    Some(closure.firings.len())
}

/// A row: rules, a graph, a limit, and how many firings their closures have without the mark and with it, if these are
/// within the limit.
type Row = (
    &'static str,
    &'static str,
    u32,
    Option<usize>,
    Option<usize>,
);

const ONE: &str = "-1- A -2-.";

const TWO: &str = "-1- A -2-. -1- B -2-.";

const FOUR: &str = "-1- A + A + A + A -2-.";

const EQUAL: &str = "-1- B -2-. -1- B -2-. -1- A -2-.";

const LONG: &str = "-1- A + A + A + A + A + A + A + A + A + A + A + A + A + A + A + A + A -2-.";

const ROWS: [Row; 18] = [
    ("", ONE, 1, Some(0), Some(0)),
    ("B == C.", ONE, 1, Some(0), Some(0)),
    ("A == B.", ONE, 1, Some(1), Some(1)),
    ("A == A.", ONE, 20, None, Some(1)),
    ("A == B. B == A.", ONE, 2, None, Some(2)),
    ("A == B. B == A.", ONE, 1, None, None),
    ("A + A == A.", FOUR, 12, Some(12), Some(10)),
    ("A + A == A.", FOUR, 11, None, Some(10)),
    ("A + A == A.", FOUR, 9, None, None),
    // The rule that fires first in its round is on the later arc.
    ("B == X. A == X. X == Y.", TWO, 20, Some(4), Some(3)),
    (
        "B == X + Y. A == Y + X. X == Z. Y + Z == T.",
        TWO,
        20,
        Some(5),
        Some(5),
    ),
    ("A == B. B == C.", EQUAL, 20, Some(4), Some(3)),
    (
        "P(U*,V*) == Q(U*) + R(V*).",
        "-1- P(X,Y) -2-.",
        20,
        Some(3),
        Some(3),
    ),
    (
        "A(U*) + A(V*) == A(U*,V*) / U* -HORS- V*.",
        "-1- A(X) + A(Y) + A(X) -2-.",
        20,
        Some(2),
        Some(2),
    ),
    ("A*(I*) == I*.", "-1- F(G(X)) -2-.", 20, Some(2), Some(2)),
    (
        "LE + CHAT == GN(LE,CHAT). GN(U*) + DORT == P(GN(U*),V(DORT)).",
        "-1- LE + CHAT + DORT -2-.",
        20,
        Some(2),
        Some(2),
    ),
    (
        "A + A + A + A + A + A + A + A + A + A + A + A + A + A + A + A == B. B + A == C.",
        LONG,
        20,
        Some(3),
        Some(3),
    ),
    (
        "A + B == A. B + C == C.",
        "-1- A + B + B + C -2-.",
        20,
        Some(4),
        Some(4),
    ),
];

#[test]
fn the_closure_is_what_rounds_reach(rt: HostRuntime) {
    let alloc = rt.alloc();
    for (rules, graph, limit, plain, unique) in ROWS {
        let text = format!(in alloc; "-SYSTEME- S. {rules} -GRAPHE- {graph} -FIN-").expect(
            &rt, "a text",
        );
        assert!(rt; firings_of(&rt, alloc, &text, limit) == plain, "{rules}");
        let text = format!(in alloc;
            "-VERSION- 2. -SYSTEME- S -UNIQUE-. {rules} -GRAPHE- {graph} -FIN-"
        ).expect(&rt, "a marked text");
        assert!(rt; firings_of(&rt, alloc, &text, limit) == unique, "{rules}");
    }
}
