//! How many matches a side has: none on lists of other lengths, and many where forest variables share long lists.

ghost use Rattle.std.specs.Prelude.{◌≤◌, length};

use crate::reading::rules_of;
use qs_deck::read_deck;
use qs_match::all_matches;
use qs_pattern::are_in_class;
use qs_tree::{Forest, ForestRef, Label, Tree};
use std::alloc::Global;
use std::process::Abort;

/// How many matches the left side of the only rule of a text has with these trees. S is the label 0, A is 1.
fn count_of<R: Abort>(rt: &R, alloc: Global, text: &str, trees: ForestRef<'_>) -> usize
    requires { length text.now ≤ 4194304 }
{
    let deck = read_deck(alloc, text.as_bytes()).expect(rt, "a deck");
    let rules = rules_of(&deck);
    assert!(rt; rules.len() == 1);
    let side = rules[0].left();
    assert!(rt; are_in_class(side));
    all_matches(alloc, side, trees)
        .expect(rt, "its matches")
        .len()
}

/// How many it has with the one tree whose root is A and which has so many subtrees X.
fn count_of_wide<R: Abort>(rt: &R, alloc: Global, text: &str, count: usize) -> usize
    requires { length text.now ≤ 4194304 }
{
    let x = Tree::leaf(alloc, Label(2)).expect(rt, "a tree");
    let mut kids = Forest::empty(alloc);
    for _ in 0..count {
        kids.push(x.view()).expect(rt, "a tree more");
    }
    let tree = Tree::node(alloc, Label(1), kids.view()).expect(rt, "a tree of them");
    let mut trees = Forest::empty(alloc);
    trees.push(tree.view()).expect(rt, "a list of it");
    count_of(rt, alloc, text, trees.view())
}

#[test]
fn lists_of_different_length_have_no_match(rt: HostRuntime) {
    let alloc = rt.alloc();
    let text = "-SYSTEME- S. I* + J* == A. -GRAPHE- -1- A -2-. -FIN-";
    let mut trees = Forest::empty(alloc);
    for (label, matches) in [(2, 0), (3, 0), (2, 1), (2, 0)] {
        assert!(rt; count_of(&rt, alloc, text, trees.view()) == matches);
        let tree = Tree::leaf(alloc, Label(label)).expect(&rt, "a tree");
        trees.push(tree.view()).expect(&rt, "a tree more");
    }
}

#[test]
fn two_forest_variables_share_three_hundred_subtrees(rt: HostRuntime) {
    let text = "-SYSTEME- S. A(U*,V*) == A. -GRAPHE- -1- A -2-. -FIN-";
    assert!(rt; count_of_wide(&rt, rt.alloc(), text, 300) == 301);
}

// One match for each two places, 61 * 62 / 2.
#[test]
fn three_forest_variables_share_sixty_subtrees(rt: HostRuntime) {
    let text = "-SYSTEME- S. A(U*,V*,W*) == A. -GRAPHE- -1- A -2-. -FIN-";
    assert!(rt; count_of_wide(&rt, rt.alloc(), text, 60) == 1891);
}
