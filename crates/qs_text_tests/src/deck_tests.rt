//! What is read of small decks: the numbers of their labels, grammars and rules, and a refusal in words.

use qs_deck::{Deck, DeckEnd, System, read_deck, write_deck};
use qs_graph::Edge;
use qs_tree::{Label, Names};

/// Whether these are the texts of all labels, in the order of their numbers.
fn are_named(names: &Names, wanted: &[&str]) -> bool {
    if wanted.len() != names.len() as usize {
        return false;
    }
    for number in 0..names.len() {
        if wanted[number as usize] != names.name(Label(number)) {
            return false;
        }
    }
    true
}

/// Whether these are the numbers of the grammars' names, each with how many rules its grammar has.
fn are_grammars(systems: &[System], wanted: &[(u32, usize)]) -> bool {
    for (system, (name, rules)) in systems.iter().zip(wanted) {
        if system.name.0 != *name || system.rules.len() != *rules {
            return false;
        }
    }
    systems.len() == wanted.len()
}

/// Whether these are the numbers of the roots' labels, one for each arc.
fn are_roots(arcs: &[Edge], wanted: &[u32]) -> bool {
    for (arc, root) in arcs.iter().zip(wanted) {
        if arc.tree.view().root().0 != *root {
            return false;
        }
    }
    arcs.len() == wanted.len()
}

/// A text, the texts of its labels, its grammars and the roots of its arcs, as the calls above want them.
type Row = (
    &'static str,
    &'static [&'static str],
    &'static [(u32, usize)],
    &'static [u32],
);

/// Whether the deck is the one of the row.
fn is_wanted(deck: &Deck, row: Row) -> bool {
    are_named(&deck.names, row.1)
        && are_grammars(&deck.systems, row.2)
        && are_roots(deck.graph.edges(), row.3)
}

#[test]
fn a_label_has_the_number_of_its_first_occurrence_and_a_grammar_its_rules(rt: HostRuntime) {
    let rows: [Row; 3] = [
        (
            "# Z\n-SYSTEME- \"S\".\nB + A*(I*) == \"B\"(\"\",A) / C -DANS- I*,\"a\"\"b\".\n\
             -SYSTEME- S.\n-SYSTEME- \"A\".\n-GRAPHE-\n-1- É + \"É\"(B,\"S\",D) -2-.\n-FIN-\n# Y",
            &["S", "B", "", "A", "C", "a\"b", "É", "D"],
            &[(0, 1), (0, 0), (3, 0)],
            &[6, 6],
        ),
        (
            "-SYSTEME- A. A == B. B + A == \"A\".\n-SYSTEME- É.\n\
             -GRAPHE- -1- A -2-. -2- B -3-. -FIN-",
            &["A", "B", "É"],
            &[(0, 2), (2, 0)],
            &[0, 1],
        ),
        // A known text keeps its number, the empty one too.
        (
            "-SYSTEME- S. -GRAPHE- -1- \"\" + \"S\" + s + \"\" -2-. -FIN-",
            &["S", "", "s"],
            &[(0, 0)],
            &[1, 0, 2, 1],
        ),
    ];
    for row in rows {
        assert!(rt; row.0.len() <= 4_194_304);
        let deck = read_deck(rt.alloc(), row.0.as_bytes()).expect(&rt, row.0);
        assert!(rt; is_wanted(&deck, row), "at {}", row.0);
    }
}

#[test]
fn a_refusal_is_told_in_words(rt: HostRuntime) {
    let alloc = rt.alloc();
    let refused = read_deck(alloc, b"-SYSTEME- S.\nA = B.")
        .err()
        .expect(&rt, "a refusal");
    let told = format!(in alloc; "{refused}").expect(&rt, "its words");
    assert!(rt; told.as_str() == "line 2, column 3: BadCharacter");
    let wanting = format!(in alloc; "{}", DeckEnd::Memory).expect(&rt, "its words");
    assert!(rt; wanting.as_str() == "there is no memory");
}

/// Whether these are the grammars with their marks.
fn are_marked(systems: &[System], wanted: &[bool]) -> bool {
    for (system, unique) in systems.iter().zip(wanted) {
        if system.unique != *unique {
            return false;
        }
    }
    systems.len() == wanted.len()
}

#[test]
fn a_deck_has_the_version_and_the_marks_of_its_text_and_is_written_with_them(rt: HostRuntime) {
    let rows = [
        (
            "-SYSTEME- S. -GRAPHE- -1- \"2\" -2-. -FIN-",
            1,
            [false].as_slice(),
            "-SYSTEME- S.\n-GRAPHE-\n-1- 2 -2-.\n-FIN-\n",
        ),
        (
            "# Z\n-VERSION-2.-SYSTEME- 2-UNIQUE-.A==B/A-EGAL-2. -SYSTEME- S.-GRAPHE--1-A-2-.-FIN-",
            2,
            &[true, false],
            "-VERSION- 2.\n-SYSTEME- 2 -UNIQUE-.\nA == B / A -EGAL- 2.\n-SYSTEME- S.\n-GRAPHE-\n-1- A -2-.\n-FIN-\n",
        ),
        (
            "-VERSION- 2. -SYSTEME- S. -GRAPHE- -1- A -2-. -FIN-",
            2,
            &[false],
            "-VERSION- 2.\n-SYSTEME- S.\n-GRAPHE-\n-1- A -2-.\n-FIN-\n",
        ),
    ];
    for (text, version, marks, written) in rows {
        assert!(rt; text.len() <= 4_194_304);
        let deck = read_deck(rt.alloc(), text.as_bytes()).expect(&rt, text);
        assert!(rt;
            deck.version == version && are_marked(&deck.systems, marks),
            "at {}",
            text
        );
        let mut out = Vec::new(rt.alloc());
        write_deck(rt.alloc(), &deck, &mut out).expect(&rt, text);
        assert!(rt; out.as_slice() == written.as_bytes(), "at {}", text);
    }
}
