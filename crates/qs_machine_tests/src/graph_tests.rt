//! Graphs of given arcs, and copies.

use qs_deck::read_deck;
use qs_graph::{Edge, Graph, GraphEnd};
use qs_tree::{Label, Tree, same};
use std::alloc::Global;
use std::process::Abort;

/// Whether the arcs lead from these nodes to these.
fn lead(arcs: &[Edge], ends: &[(u32, u32)]) -> bool {
    for (edge, (from, to)) in arcs.iter().zip(ends) {
        if edge.from != *from || edge.to != *to {
            return false;
        }
    }
    arcs.len() == ends.len()
}

/// The chain of three trees of one node each.
fn chain_of_three<R: Abort>(rt: &R, alloc: Global) -> Graph {
    let mut trees = Vec::new(alloc);
    for label in 0..3 {
        let tree = Tree::leaf(alloc, Label(label)).expect(rt, "a tree");
        trees.push(tree).expect(rt, "room for it");
    }
    assert!(rt; trees.len() == 3);
    Graph::line(alloc, 1, 2, trees).expect(rt, "the chain")
}

#[test]
fn a_chain_of_three_trees_has_two_inner_nodes(rt: HostRuntime) {
    let graph = chain_of_three(&rt, rt.alloc());
    assert!(rt; lead(graph.edges(), &[(1, 3), (3, 4), (4, 2)]));
    assert!(rt; (graph.nodes(), graph.entry(), graph.exit()) == (4, 1, 2));
}

#[test]
fn a_node_that_no_arc_touches_is_an_entry_too(rt: HostRuntime) {
    let alloc = rt.alloc();
    let tree = Tree::leaf(alloc, Label(0)).expect(&rt, "a tree");
    let arc = Edge::new(alloc, 1, 2, tree).expect(&rt, "an arc");
    let arcs = vec![in alloc; arc].expect(&rt, "room for it");
    assert!(rt; Graph::new(alloc, 3, arcs).err() == Some(GraphEnd::Entries));
}

/// Whether both arcs lead from the same node to the same node with equal trees.
fn is_same(edge: &Edge, other: &Edge) -> bool {
    edge.from == other.from && edge.to == other.to && same(edge.tree.view(), other.tree.view())
}

/// Whether the other arcs and copies of these are equal to these.
fn are_copied<R: Abort>(rt: &R, arcs: &[Edge], others: &[Edge]) -> bool {
    for (edge, other) in arcs.iter().zip(others) {
        if !is_same(edge, other) || !is_same(edge, &edge.copy().expect(rt, "a copy")) {
            return false;
        }
    }
    arcs.len() == others.len()
}

#[test]
fn copies_of_a_graph_and_of_its_arcs_are_equal(rt: HostRuntime) {
    let text = "-SYSTEME- S. -GRAPHE- -2- A(B,C(D)) + E -1-. -2- F -4-. -4- G(H) -1-. -FIN-";
    let deck = read_deck(rt.alloc(), text.as_bytes()).expect(&rt, "a deck");
    let copy = deck.graph.copy().expect(&rt, "a copy");
    assert!(rt; (copy.nodes(), copy.entry(), copy.exit()) == (4, 2, 1));
    assert!(rt; copy.edges().len() == 4 && are_copied(&rt, deck.graph.edges(), copy.edges()));
}
