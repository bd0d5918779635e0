//! Which firings fire, their order, and copies.

ghost use Rattle.std.specs.Prelude.{◌<◌, length};
ghost use Rattle.qs_pattern.specs.Limits.{rule_bound};

use crate::reading::rules_of;
use qs_deck::read_deck;
use qs_firing::{Firing, View, fires, order};
use qs_graph::Edge;
use qs_pattern::{Rule, Subst, Value, Var};
use qs_tree::{Forest, ForestRef, Label, same_forest};
use std::alloc::{AllocError, Global};
use std::process::Abort;

const U: Var = Var {
    letter: b'U',
    number: 0,
};

/// Two rules, and the arcs LE from 1 to 3, CHAT from 3 to 4, DORT from 4 to 2 and GN(LE,CHAT) from 1 to 4.
const SENTENCE: &str =
    "-SYSTEME- S.\nLE + CHAT == GN(LE,CHAT).\nGN(U*) + DORT == P(GN(U*),V(DORT)).\n-GRAPHE-\n\
     -1- LE -3-.\n-3- CHAT -4-.\n-4- DORT -2-.\n-1- GN(LE,CHAT) -4-.\n-FIN-\n";

/// A firing of this rule on this path. Where `list` is the number of one of these arcs, U* stands for the subtrees of
/// its tree: at 0 for no tree, at 3 for LE and CHAT.
fn firing(
    alloc: Global,
    arcs: &[Edge],
    rule: u32,
    path: &[u32],
    list: Option<usize>,
) -> Result<Firing, AllocError> {
    let mut subst = Subst::empty(alloc);
    if let Some(arc) = list
        && let Some(edge) = arcs.get(arc)
    {
        subst.add(
            U,
            Value::Forest(Forest::of(alloc, edge.tree.view().kids())?),
        )?;
    }
    Ok(Firing {
        rule,
        path: Vec::from_slice(alloc, path)?,
        subst,
    })
}

/// Whether the firing of this rule on this path fires, where U* stands for what `firing` says.
fn fires_on(
    alloc: Global,
    rules: &[Rule],
    view: &View,
    arcs: &[Edge],
    row: (u32, &[u32], Option<usize>),
) -> Result<bool, AllocError>
    requires { length rules.now < rule_bound }
{
    let given = firing(alloc, arcs, row.0, row.1, row.2)?;
    fires(alloc, rules, view, &given)
}

/// The arcs of the sentence, of which the last is added behind the others.
fn view_of<R: Abort>(rt: &R, alloc: Global, arcs: &[Edge]) -> View {
    assert!(rt; arcs.len() == 4);
    let mut view = View::empty(alloc);
    view.add(&arcs[..3]).expect(rt, "three arcs");
    view.add(&arcs[3..]).expect(rt, "the last arc");
    view
}

/// Whether the view has the arcs of the sentence in order. S is the label 0.
fn has_arcs(view: &View) -> bool {
    for (arc, from, to, label) in [(0, 1, 3, 1), (1, 3, 4, 2), (2, 4, 2, 4), (3, 1, 4, 3)] {
        if arc >= view.len() {
            return false;
        }
        let edge = view.edge(arc);
        if edge.from != from || edge.to != to || edge.tree.view().root() != Label(label) {
            return false;
        }
    }
    view.len() == 4
}

/// Looks at which firings fire over the arcs of the sentence.
fn look_at_firings<R: Abort>(rt: &R, alloc: Global, rules: &[Rule], view: &View, arcs: &[Edge]) {
    assert!(rt; rules.len() == 2);
    let rows = [
        ("a path", (0, [0, 1].as_slice(), None), true),
        ("a path in the other order", (0, &[1, 0], None), false),
        ("arcs that aren't a path", (0, &[0, 2], None), false),
        ("other trees", (0, &[1, 2], None), false),
        ("other trees, one with subtrees", (0, &[3, 2], None), false),
        ("a last arc that isn't there", (0, &[0, 4], None), false),
        ("a first arc that isn't there", (0, &[4, 1], None), false),
        ("the list on the arc", (1, &[3, 2], Some(3)), true),
        ("the list and another path", (1, &[0, 2], Some(3)), false),
        (
            "another list than the one on the arc",
            (1, &[3, 2], Some(0)),
            false,
        ),
        ("no list", (1, &[3, 2], None), false),
        ("a rule far behind the last", (7, &[0], None), false),
        ("the rule behind the last", (2, &[0, 1], None), false),
        ("a path that is too short", (0, &[0], None), false),
        ("no path", (0, &[], None), false),
    ];
    for (what, row, want) in rows {
        let found = fires_on(alloc, rules, &view, arcs, row).expect(rt, what);
        assert!(rt; found == want, "{what}");
    }
}

#[test]
fn a_view_has_its_arcs_and_a_firing_fires_where_rule_path_and_values_agree(rt: HostRuntime) {
    let deck = read_deck(rt.alloc(), SENTENCE.as_bytes()).expect(&rt, "the sentence");
    let view = view_of(&rt, rt.alloc(), deck.graph.edges());
    assert!(rt; has_arcs(&view));
    look_at_firings(&rt, rt.alloc(), rules_of(&deck), &view, deck.graph.edges());
}

/// A view with the arcs of a graph, which is dropped.
fn view_of_dropped<R: Abort>(rt: &R, alloc: Global, text: &str) -> View {
    assert!(rt; text.len() <= 4_194_304);
    let deck = read_deck(alloc, text.as_bytes()).expect(rt, "a deck");
    let arcs = deck.graph.edges();
    assert!(rt; arcs.len() < 100);
    let mut view = View::empty(alloc);
    view.add(arcs).expect(rt, "its arcs");
    view
}

/// Whether the trees of the view have these roots and so many subtrees.
fn has_trees(view: &View, wanted: &[(u32, usize)]) -> bool {
    for (arc, (root, kids)) in wanted.iter().enumerate() {
        if arc >= view.len() as usize {
            return false;
        }
        let tree = view.edge(arc as u32).tree.view();
        if tree.root() != Label(*root) || tree.kids().len() != *kids {
            return false;
        }
    }
    view.len() as usize == wanted.len()
}

#[test]
fn a_view_filled_from_a_graph_has_its_trees_also_when_the_graph_is_gone(rt: HostRuntime) {
    let text = "-SYSTEME- S. -GRAPHE- -1- A + B(A,A) -2-. -FIN-";
    let view = view_of_dropped(&rt, rt.alloc(), text);
    assert!(rt; has_trees(&view, &[(1, 0), (2, 2)]));
}

/// Firings in ascending order.
fn ascending<R: Abort>(rt: &R, alloc: Global, arcs: &[Edge]) -> Vec<Firing> {
    let rows = [
        (0, [5].as_slice(), None),
        (1, &[], None),
        (1, &[0], None),
        (1, &[0, 1], None),
        (1, &[1], None),
        (1, &[1, 5], None),
        (1, &[2], None),
        // Without a list, with the empty one, and with one of two trees.
        (1, &[3, 2], None),
        (1, &[3, 2], Some(0)),
        (1, &[3, 2], Some(3)),
    ];
    let mut firings = Vec::new(alloc);
    for (rule, path, list) in rows {
        let next = firing(alloc, arcs, rule, path, list).expect(rt, "a firing");
        firings.push(next).expect(rt, "room for it");
    }
    firings
}

/// Whether each two of the firings are ordered as their places are.
fn are_ordered(firings: &[Firing]) -> bool {
    for (i, a) in firings.iter().enumerate() {
        for (j, b) in firings.iter().enumerate() {
            if order(a, b) != i.cmp(&j) {
                return false;
            }
        }
    }
    true
}

/// Whether a copy of the last of them is one of the second rule on the arcs 3 and 2, where U* stands for this list.
fn is_copied<R: Abort>(rt: &R, given: &Firing, want: ForestRef<'_>) -> bool {
    let copy = given.copy().expect(rt, "a copy");
    copy.rule == 1
        && copy.path.as_slice() == [3, 2].as_slice()
        && copy.subst.pairs().len() == 1
        && matches!(copy.subst.get(U), Some(Value::Forest(list)) if same_forest(list.view(), want))
}

#[test]
fn firings_are_ordered_by_rule_then_path_then_lengths_of_lists_and_a_copy_is_equal(
    rt: HostRuntime,
) {
    let deck = read_deck(rt.alloc(), SENTENCE.as_bytes()).expect(&rt, "the sentence");
    let arcs = deck.graph.edges();
    let firings = ascending(&rt, rt.alloc(), arcs);
    assert!(rt; firings.len() == 10 && are_ordered(&firings));
    assert!(rt; arcs.len() == 4);
    let last = &arcs[3];
    assert!(rt; is_copied(&rt, &firings[9], last.tree.view().kids()));
}
