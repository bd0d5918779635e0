//! The work of an arc, and the arcs at a node.

ghost use Rattle.std.specs.Prelude.{◌<◌, ◌≤◌, length};
ghost use Rattle.qs_pattern.specs.Limits.{rule_bound};
ghost use Rattle.qs_join.specs.Heads.{AreHeadsOf};

use crate::reading::rules_of;
use qs_deck::read_deck;
use qs_firing::{Firing, Joined, Made, View, fires, order, trees_on};
use qs_graph::Edge;
use qs_join::{Heads, joined, joined_by};
use qs_match::all_matches;
use qs_pattern::{Rule, Value, Var};
use qs_tree::{Label, Tree, same_forest};
use std::alloc::{AllocError, Global};
use std::cmp::Ordering;
use std::process::Abort;

const U: Var = Var {
    letter: b'U',
    number: 0,
};

/// Two rules, and the arcs LE from 1 to 3, CHAT from 3 to 4, DORT from 4 to 2 and GN(LE,CHAT) from 1 to 4. The labels
/// are S, LE, CHAT, GN, DORT, P and V, from 0 on.
const SENTENCE: &str =
    "-SYSTEME- S.\nLE + CHAT == GN(LE,CHAT).\nGN(U*) + DORT == P(GN(U*),V(DORT)).\n-GRAPHE-\n\
     -1- LE -3-.\n-3- CHAT -4-.\n-4- DORT -2-.\n-1- GN(LE,CHAT) -4-.\n-FIN-\n";

/// The arcs with other ends.
fn view_between(alloc: Global, arcs: &[Edge], ends: &[(u32, u32)]) -> Result<View, AllocError> {
    let mut view = View::empty(alloc);
    for (edge, (from, to)) in arcs.iter().zip(ends) {
        let moved = Edge::new(alloc, *from, *to, Tree::of(alloc, edge.tree.view())?)?;
        if view.len() < 100 {
            view.add(&[moved])?;
        }
    }
    Ok(view)
}

/// Whether these are firings of the rules on the paths, in order.
fn are_on(made: &[Made], wanted: &[(u32, &[u32])]) -> bool {
    for (one, (rule, path)) in made.iter().zip(wanted) {
        if one.firing.rule != *rule || one.firing.path.as_slice() != *path {
            return false;
        }
    }
    made.len() == wanted.len()
}

/// Whether the work of the arc has these firings, by both calls.
fn has_work(
    alloc: Global,
    rules: &[Rule],
    view: &View,
    arc: u32,
    wanted: &[(u32, &[u32])],
) -> Result<bool, AllocError>
    requires { length rules.now < rule_bound }
{
    if arc >= view.len() {
        return Ok(false);
    }
    let heads = Heads::new(alloc, rules)?;
    let work = joined(alloc, rules, view, arc)?;
    let by = joined_by(alloc, rules, &heads, view, arc)?;
    Ok(
        work.arc() == arc
            && by.arc() == arc
            && are_on(work.made(), wanted)
            && are_on(by.made(), wanted),
    )
}

/// Whether the arcs at the nodes of the sentence are told.
fn tells_arcs(view: &View) -> bool {
    view.len() == 4
        && view.last_out(1) == Some(3)
        && view.before_out(3) == Some(0)
        && view.before_out(0).is_none()
        && view.last_in(4) == Some(3)
        && view.before_in(3) == Some(1)
        && view.before_in(1).is_none()
        && view.last_out(2).is_none()
        && view.last_in(1).is_none()
        && view.last_in(4_294_967_295).is_none()
}

/// Whether the one firing of the work has LE and CHAT for U*, and builds P with two subtrees.
fn builds_sentence(work: &Joined, arcs: &[Edge]) -> bool {
    let [one] = work.made() else {
        return false;
    };
    let [tree] = one.trees.as_slice() else {
        return false;
    };
    let Some(edge) = arcs.get(3) else {
        return false;
    };
    let list = edge.tree.view().kids();
    matches!(one.firing.subst.get(U), Some(Value::Forest(found)) if same_forest(found.view(), list))
        && tree.view().root() == Label(5)
        && tree.view().kids().len() == 2
}

#[test]
fn the_work_of_an_arc_is_the_firings_of_which_it_is_the_newest(rt: HostRuntime) {
    let deck = read_deck(rt.alloc(), SENTENCE.as_bytes()).expect(&rt, "the sentence");
    let rules = rules_of(&deck);
    let arcs = deck.graph.edges();
    assert!(rt; rules.len() == 2 && arcs.len() == 4);
    let mut view = View::empty(rt.alloc());
    view.add(arcs).expect(&rt, "four arcs");
    assert!(rt; tells_arcs(&view));
    let rows = [
        (0, [].as_slice()),
        (1, &[(0, [0, 1].as_slice())]),
        (2, &[]),
        (3, &[(1, [3, 2].as_slice())]),
    ];
    for (arc, wanted) in rows {
        let has = has_work(rt.alloc(), rules, &view, arc, wanted).expect(&rt, "the work of an arc");
        assert!(rt; has, "{arc}");
    }
    let heads = Heads::new(rt.alloc(), rules).expect(&rt, "heads");
    assert!(rt; heads.exact(Label(2)) == [(0, 1)].as_slice());
    assert!(rt; heads.exact(Label(0)).is_empty() && heads.wild().is_empty());
    assert!(rt; view.len() == 4);
    let work = joined_by(rt.alloc(), rules, &heads, &view, 3).expect(&rt, "the work of 3");
    assert!(rt; builds_sentence(&work, arcs));
}

/// Rules of two, two and 16 trees, over arcs A and B whose ends are given by each test.
const LOOPS: &str = "-SYSTEME- S. A + A == B. A + B == A.\n\
     A + A + A + A + A + A + A + A + A + A + A + A + A + A + A + A == B.\n-GRAPHE- -1- A + A + B -2-. -FIN-";

#[test]
fn a_path_may_have_the_newest_arc_several_times_and_fires_once(rt: HostRuntime) {
    let deck = read_deck(rt.alloc(), LOOPS.as_bytes()).expect(&rt, "a deck");
    let rules = rules_of(&deck);
    assert!(rt; rules.len() == 3);
    // A comes back to its node, a second A leads away from it, and B leads on.
    let ends = [(1, 1), (1, 2), (2, 3)];
    let view = view_between(rt.alloc(), deck.graph.edges(), &ends).expect(&rt, "three arcs");
    let back = [
        (0, [0, 0].as_slice()),
        (2, &[0, 0, 0, 0, 0, 0, 0, 0, 0, 0, 0, 0, 0, 0, 0, 0]),
    ];
    let away = [
        (0, [0, 1].as_slice()),
        (2, &[0, 0, 0, 0, 0, 0, 0, 0, 0, 0, 0, 0, 0, 0, 0, 1]),
    ];
    let on = [(1, [1, 2].as_slice())];
    let rows = [(0, back.as_slice()), (1, &away), (2, &on)];
    for (arc, wanted) in rows {
        let has = has_work(rt.alloc(), rules, &view, arc, wanted).expect(&rt, "the work of an arc");
        assert!(rt; has, "{arc}");
    }
}

/// All lists of so many numbers of the arcs up to this one.
fn lists_of(alloc: Global, newest: u32, length: usize) -> Result<Vec<Vec<u32>>, AllocError> {
    let mut lists = Vec::new(alloc);
    lists.push(Vec::new(alloc))?;
    for _ in 0..length {
        let mut longer = Vec::new(alloc);
        for list in &lists {
            for arc in 0..=newest {
                let mut next = list.clone()?;
                next.push(arc)?;
                longer.push(next)?;
            }
        }
        lists = longer;
    }
    Ok(lists)
}

/// Appends the firings of one rule on these arcs, where they fire.
fn add_plainly(
    alloc: Global,
    rules: &[Rule],
    view: &View,
    number: u32,
    path: &[u32],
    found: &mut Vec<Firing>,
) -> Result<(), AllocError>
    requires { length rules.now < rule_bound }
{
    let Some(rule) = rules.get(number as usize) else {
        return Ok(());
    };
    let trees = trees_on(alloc, view, path)?;
    for subst in all_matches(alloc, rule.left(), trees.view())? {
        let path = Vec::from_slice(alloc, path)?;
        let firing = Firing {
            rule: number,
            path,
            subst,
        };
        if fires(alloc, rules, view, &firing)? {
            found.push(firing)?;
        }
    }
    Ok(())
}

/// The work of an arc by a look at all lists of arcs, ascending.
fn plain_work(
    alloc: Global,
    rules: &[Rule],
    view: &View,
    newest: u32,
) -> Result<Vec<Firing>, AllocError>
    requires { length rules.now < rule_bound }
{
    let mut found = Vec::new(alloc);
    for (number, rule) in rules.iter().enumerate() {
        for list in &lists_of(alloc, newest, rule.left().len())? {
            if list.contains(&newest) {
                add_plainly(alloc, rules, view, number as u32, list, &mut found)?;
            }
        }
    }
    found.sort_by(|a, b| order(a, b))?;
    Ok(found)
}

/// Whether the work has these firings, in order.
fn are_same(made: &[Made], firings: &[Firing]) -> bool {
    for (one, firing) in made.iter().zip(firings) {
        if order(&one.firing, firing) != Ordering::Equal {
            return false;
        }
    }
    made.len() == firings.len()
}

/// How many firings the arcs of a view have together, where both calls give the work of each as the plain search does.
fn agreed(alloc: Global, rules: &[Rule], view: &View) -> Result<Option<usize>, AllocError>
    requires { length rules.now < rule_bound }
{
    let heads = Heads::new(alloc, rules)?;
    let mut count: usize = 0;
    for arc in 0..view.len() {
        let plain = plain_work(alloc, rules, view, arc)?;
        let work = joined(alloc, rules, view, arc)?;
        let by = joined_by(alloc, rules, &heads, view, arc)?;
        if !are_same(work.made(), &plain) || !are_same(by.made(), &plain) {
            return Ok(None);
        }
        count = count.saturating_add(plain.len());
    }
    Ok(Some(count))
}

/// Rules with a label variable, tree variables and lists, with and without a condition, over five arcs.
const MIXED: &str =
    "-SYSTEME- S. A == A. A + I* == C(I*). I* + I* == D(I*). A(U*,V*) + B == E(V*,U*).\n\
     A*(I*) + B + J* == A*(J*). A(U*) == F / U* -HORS- B.\n\
     -GRAPHE- -1- A + A(B,B) + B + A(B) + B -2-. -FIN-";

#[test]
fn the_work_is_that_of_a_plain_search_over_all_lists_of_arcs(rt: HostRuntime) {
    let deck = read_deck(rt.alloc(), MIXED.as_bytes()).expect(&rt, "a deck");
    let rules = rules_of(&deck);
    assert!(rt; rules.len() == 6);
    let rows = [
        (
            "a chain",
            [(1, 2), (2, 3), (3, 4), (4, 5), (5, 6)].as_slice(),
            8,
        ),
        (
            "arcs side by side",
            &[(1, 2), (1, 2), (2, 3), (2, 3), (1, 3)],
            8,
        ),
        (
            "a chain backwards",
            &[(5, 6), (4, 5), (3, 4), (2, 3), (1, 2)],
            5,
        ),
        (
            "arcs that come back",
            &[(1, 1), (1, 2), (2, 1), (2, 2), (1, 2)],
            18,
        ),
        (
            "one node of a great number",
            &[(9, 9), (9, 9), (9, 9), (9, 4_294_967_295), (9, 9)],
            21,
        ),
        (
            "no paths of two arcs",
            &[(1, 2), (3, 4), (5, 6), (7, 8), (9, 10)],
            2,
        ),
    ];
    for (what, ends, wanted) in rows {
        let view = view_between(rt.alloc(), deck.graph.edges(), ends).expect(&rt, what);
        let count = agreed(rt.alloc(), rules, &view).expect(&rt, what);
        assert!(rt; count == Some(wanted), "{what} {count:?}");
    }
}
