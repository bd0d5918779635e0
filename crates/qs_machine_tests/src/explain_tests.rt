//! Which arcs and firings the support of a closure has, and how it is written.

ghost use Rattle.std.specs.Prelude.{◌<◌, length};
ghost use Rattle.qs_tree.specs.Lists.{◌∈◌};
ghost use Rattle.qs_pattern.specs.Rules.{Rule as RuleOfPatterns};
ghost use Rattle.qs_pattern.specs.Named.{ArePatternsNamed};

use qs_cascade::closure_alone;
use qs_deck::{Deck, read_deck};
use qs_explain::{explain, write_support};
use qs_pattern::Rule;
use std::alloc::Global;
use std::process::Abort;

/// The rules of the first grammar, none where there is no grammar. The labels in their right sides are the deck's.
fn rules_of(deck: &Deck) -> &[Rule]
    ensures { (rule : RuleOfPatterns) → rule ∈ result.now → ArePatternsNamed (length deck.now.names) rule.right }
{
    match deck.systems.first() {
        Some(system) => &system.rules,
        None => &[],
    }
}

/// Whether these are the lines of the support of what the deck's first grammar reaches with at most 20 firings.
fn explains<R: Abort>(rt: &R, alloc: Global, text: &str, lines: &str) -> bool {
    assert!(rt; text.len() <= 4_194_304);
    let deck = read_deck(alloc, text.as_bytes()).expect(rt, "a deck");
    let rules = rules_of(&deck);
    let start = &deck.graph;
    assert!(rt; rules.len() < 10 && start.edges().len() < 10 && start.nodes() < 10);
    let end = closure_alone(alloc, rules, start, 20).expect(rt, "an end");
    let closure = end.expect(rt, "a closure");
    let support = explain(alloc, &closure).expect(rt, "a support");
    let mut out = Vec::new(alloc);
    write_support(alloc, &closure, &support, &deck.names, &mut out).expect(rt, "its lines");
    out.as_slice() == lines.as_bytes()
}

#[test]
fn a_sentence_comes_from_its_words(rt: HostRuntime) {
    let text = "-SYSTEME- S. LE + CHAT == GN(LE,CHAT). GN(U*) + DORT == P(GN(U*),V(DORT)). \
        -GRAPHE- -1- LE + CHAT + DORT -2-. -FIN-";
    let lines = "# arc 0 -1- LE -3-.\n# arc 1 -3- CHAT -4-.\n# arc 2 -4- DORT -2-.\n\
        # arc 3 -1- GN(LE,CHAT) -4-.\n# arc 4 -1- P(GN(LE,CHAT),V(DORT)) -2-.\n\
        # rule 0 on 0,1 gives 3.\n# rule 1 on 3,2 gives 4.\n";
    assert!(rt; explains(&rt, rt.alloc(), text, lines));
}

#[test]
fn a_firing_that_leads_nowhere_is_left_out(rt: HostRuntime) {
    let text = "-SYSTEME- S. A + B == X. A == Y. -GRAPHE- -1- A + B -2-. -FIN-";
    let lines =
        "# arc 0 -1- A -3-.\n# arc 1 -3- B -2-.\n# arc 2 -1- X -2-.\n# rule 0 on 0,1 gives 2.\n";
    assert!(rt; explains(&rt, rt.alloc(), text, lines));
}

#[test]
fn a_firing_that_met_its_arc_is_left_out(rt: HostRuntime) {
    let text =
        "-VERSION- 2. -SYSTEME- S -UNIQUE-. A == B. A == C. C == B. -GRAPHE- -1- A -2-. -FIN-";
    let lines = "# arc 0 -1- A -2-.\n# arc 1 -1- B -2-.\n# rule 0 on 0 gives 1.\n";
    assert!(rt; explains(&rt, rt.alloc(), text, lines));
}

#[test]
fn where_nothing_is_done_the_input_supports_itself(rt: HostRuntime) {
    let text = "-SYSTEME- S. C == D. -GRAPHE- -1- A + B -2-. -1- A -2-. -FIN-";
    let lines = "# arc 0 -1- A -3-.\n# arc 1 -3- B -2-.\n# arc 2 -1- A -2-.\n";
    assert!(rt; explains(&rt, rt.alloc(), text, lines));
}

#[test]
fn each_arc_of_a_side_of_several_trees_is_there(rt: HostRuntime) {
    let text = "-SYSTEME- S. A == B + C + D. B == E. -GRAPHE- -1- A -2-. -FIN-";
    let lines = "# arc 0 -1- A -2-.\n# arc 1 -1- B -3-.\n# arc 2 -3- C -4-.\n# arc 3 -4- D -2-.\n\
        # arc 4 -1- E -3-.\n# rule 0 on 0 gives 1,2,3.\n# rule 1 on 1 gives 4.\n";
    assert!(rt; explains(&rt, rt.alloc(), text, lines));
}

#[test]
fn where_nothing_is_left_nothing_is_supported(rt: HostRuntime) {
    let text = "-SYSTEME- S. A + B == X. B + C == Y. -GRAPHE- -1- A + B + C -2-. -FIN-";
    assert!(rt; explains(&rt, rt.alloc(), text, ""));
}
