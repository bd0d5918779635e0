//! What unique grammars leave, in which equal arcs are merged.

ghost use Rattle.std.specs.Prelude.{◌≡◌, ◌<◌, [], ◌∷◌, IfOk, length};
ghost use Rattle.qs_pattern.specs.Patterns.{Patterns, patterns, pattern_before, no_pattern, node_first};
ghost use Rattle.qs_canon.specs.Merging.{side};

use qs_cascade::{Memory, StageEnd, stage_alone};
use qs_deck::read_deck;
use qs_graph::Edge;
use qs_pattern::{Head, Pattern, Rule};
use qs_tree::Label;
use std::alloc::Global;
use std::process::Abort;

/// In the graphs below A is the first label behind the grammar's name, B the second and C the third.
const A: Label = Label(1);

const B: Label = Label(2);

const C: Label = Label(3);

/// The pattern of one node.
fn node(alloc: Global, label: Label) -> Pattern
    ensures { (behind : Patterns) → pattern_before result behind ≡ node_first (Head.Label label) no_pattern behind }
{
    Pattern::Node {
        head: Head::Label(label),
        kids: Vec::new(alloc),
    }
}

/// A side of one node.
fn one(alloc: Global, label: Label) -> Result<Vec<Pattern>, Memory>
    ensures { IfOk result (λ list. patterns list.items ≡ side (label ∷ [])) }
{
    let mut list = Vec::new(alloc);
    list.push(node(alloc, label))?;
    Ok(list)
}

/// A side of two nodes.
fn two(alloc: Global, first: Label, second: Label) -> Result<Vec<Pattern>, Memory>
    ensures { IfOk result (λ list. patterns list.items ≡ side (first ∷ second ∷ [])) }
{
    let mut list = Vec::new(alloc);
    list.push(node(alloc, first))?;
    list.push(node(alloc, second))?;
    Ok(list)
}

/// The unique rule that adds one arc beside another.
fn beside(alloc: Global, from: Label, to: Label) -> Result<Rule, Memory> {
    let left = one(alloc, from)?;
    let right = one(alloc, to)?;
    Ok(Rule::new(alloc, left, right, None, true))
}

/// The unique rule that adds two arcs beside another.
fn two_beside(alloc: Global, from: Label, first: Label, second: Label) -> Result<Rule, Memory> {
    let left = one(alloc, from)?;
    let right = two(alloc, first, second)?;
    Ok(Rule::new(alloc, left, right, None, true))
}

/// These two rules.
fn both(alloc: Global, first: Rule, second: Rule) -> Result<Vec<Rule>, Memory>
    ensures { IfOk result (λ rules. length rules.items ≡ 2) }
{
    let mut rules = Vec::new(alloc);
    rules.push(first)?;
    rules.push(second)?;
    Ok(rules)
}

/// Whether these are the arcs, each by its nodes and its label.
pub fn has_arcs(edges: &[Edge], arcs: &[(u32, Label, u32)]) -> bool {
    for (edge, (from, label, to)) in edges.iter().zip(arcs) {
        if edge.from != *from || edge.to != *to || edge.tree.view().root() != *label {
            return false;
        }
    }
    edges.len() == arcs.len()
}

/// How the rules end on the graph of this text, with this limit.
fn end_of<R: Abort>(rt: &R, alloc: Global, rules: &[Rule], text: &str, limit: u32) -> StageEnd
    requires { length rules.now < 10 }
{
    assert!(rt; text.len() <= 4_194_304);
    let deck = read_deck(alloc, text.as_bytes()).expect(rt, "a deck");
    let start = &deck.graph;
    assert!(rt; 0 < limit && limit < 10 && start.edges().len() < 10 && start.nodes() < 10);
    stage_alone(alloc, rules, start, limit).expect(rt, "an end")
}

/// Whether after so many firings these arcs are left.
fn leaves(end: &StageEnd, firings: u32, arcs: &[(u32, Label, u32)]) -> bool {
    match end {
        StageEnd::Left {
            graph,
            firings: done,
        } => *done == firings && has_arcs(graph.edges(), arcs),
        StageEnd::Empty { firings: done } => *done == firings && arcs.is_empty(),
        StageEnd::Over => false,
    }
}

/// One arc A.
const ONE: &str = "-SYSTEME- S. -GRAPHE- -1- A -2-. -FIN-";

#[test]
fn a_firing_that_meets_its_own_arc_leaves_nothing(rt: HostRuntime) {
    let rule = beside(rt.alloc(), A, A).expect(&rt, "a rule");
    let end = end_of(&rt, rt.alloc(), &[rule], ONE, 5);
    assert!(rt; leaves(&end, 1, &[]));
}

#[test]
fn two_equal_rules_leave_one_arc(rt: HostRuntime) {
    let alloc = rt.alloc();
    let first = beside(alloc, A, B).expect(&rt, "a rule");
    let second = beside(alloc, A, B).expect(&rt, "a rule more");
    let rules = both(alloc, first, second).expect(&rt, "both");
    let end = end_of(&rt, alloc, &rules, ONE, 5);
    assert!(rt; leaves(&end, 2, &[(1, B, 2)]));
}

#[test]
fn two_equal_rules_with_two_trees_leave_both_paths(rt: HostRuntime) {
    let alloc = rt.alloc();
    let first = two_beside(alloc, A, B, C).expect(&rt, "a rule");
    let second = two_beside(alloc, A, B, C).expect(&rt, "a rule more");
    let rules = both(alloc, first, second).expect(&rt, "both");
    let end = end_of(&rt, alloc, &rules, ONE, 5);
    let arcs = [(1, B, 3), (3, C, 2), (1, B, 4), (4, C, 2)];
    assert!(rt; leaves(&end, 2, &arcs));
}

#[test]
fn equal_arcs_of_the_input_both_stay(rt: HostRuntime) {
    let rule = beside(rt.alloc(), B, A).expect(&rt, "a rule");
    let text = "-SYSTEME- S. -GRAPHE- -1- A -2-. -1- A -2-. -1- B -2-. -FIN-";
    let end = end_of(&rt, rt.alloc(), &[rule], text, 5);
    assert!(rt; leaves(&end, 1, &[(1, A, 2), (1, A, 2)]));
}

#[test]
fn two_rules_that_undo_each_other_leave_nothing_and_need_two_firings(rt: HostRuntime) {
    let alloc = rt.alloc();
    let first = beside(alloc, A, B).expect(&rt, "a rule");
    let second = beside(alloc, B, A).expect(&rt, "a rule more");
    let rules = both(alloc, first, second).expect(&rt, "both");
    let end = end_of(&rt, alloc, &rules, ONE, 2);
    assert!(rt; leaves(&end, 2, &[]));
    let end = end_of(&rt, alloc, &rules, ONE, 1);
    assert!(rt; matches!(end, StageEnd::Over));
}

#[test]
fn a_firing_meets_an_arc_of_its_own_round(rt: HostRuntime) {
    let alloc = rt.alloc();
    let first = beside(alloc, A, C).expect(&rt, "a rule");
    let second = beside(alloc, B, C).expect(&rt, "a rule more");
    let rules = both(alloc, first, second).expect(&rt, "both");
    let text = "-SYSTEME- S. -GRAPHE- -1- A -2-. -1- B -2-. -FIN-";
    let end = end_of(&rt, alloc, &rules, text, 5);
    assert!(rt; leaves(&end, 2, &[(1, C, 2)]));
}
