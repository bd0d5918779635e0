//! Lines of words as graphs, and the first readings of small graphs and of one that has a million.

use qs_deck::read_deck;
use qs_phrase::{ReadingList, linear, readings};
use qs_tree::Label;

/// Whether these are the readings of the list, and it tells so whether there are more.
fn are_listed(list: &ReadingList, wanted: &[&[u32]], more: bool) -> bool {
    for (path, want) in list.paths.iter().zip(wanted) {
        if path.as_slice() != *want {
            return false;
        }
    }
    list.paths.len() == wanted.len() && list.more == more
}

/// A deck, how many readings of its graph are asked for, those that are listed, and whether there are more.
type Row = (&'static str, u32, &'static [&'static [u32]], bool);

#[test]
fn the_first_readings_come_in_the_dictionary_order_of_their_arcs(rt: HostRuntime) {
    let diamond = "-SYSTEME- S. -GRAPHE- -1- A -2-. -1- B -3-. -2- C -4-. -3- D -4-. -FIN-";
    let beside = "-SYSTEME- S. -GRAPHE- -1- A -2-. -1- A -2-. -FIN-";
    let rows: [Row; 8] = [
        (diamond, 1, &[&[0, 2]], true),
        (diamond, 2, &[&[0, 2], &[1, 3]], false),
        (diamond, 3, &[&[0, 2], &[1, 3]], false),
        (beside, 1, &[&[0]], true),
        (beside, 2, &[&[0], &[1]], false),
        // The longer reading comes first where its first arc has the smaller number.
        (
            "-SYSTEME- S. -GRAPHE- -3- A -2-. -1- B -3-. -1- C -2-. -FIN-",
            2,
            &[&[1, 0], &[2]],
            false,
        ),
        (
            "-SYSTEME- S. -GRAPHE- -1- A -2-. -1- B -3-. -3- C -2-. -FIN-",
            2,
            &[&[0], &[1, 2]],
            false,
        ),
        (
            "-SYSTEME- S. -GRAPHE- -1- A + B + C -2-. -FIN-",
            1,
            &[&[0, 1, 2]],
            false,
        ),
    ];
    for row in rows {
        assert!(rt; row.0.len() <= 4_194_304);
        assert!(rt; row.1 >= 1);
        let deck = read_deck(rt.alloc(), row.0.as_bytes()).expect(&rt, row.0);
        let list = readings(rt.alloc(), &deck.graph, row.1).expect(&rt, row.0);
        assert!(rt; are_listed(&list, row.2, row.3), "at {}", row.0);
    }
}

/// Twenty times two arcs beside each other, one pair behind the other.
const PAIRS: &str = "-SYSTEME- S. -GRAPHE- \
    -1- A -2-. -1- A -2-. -2- A -3-. -2- A -3-. \
    -3- A -4-. -3- A -4-. -4- A -5-. -4- A -5-. \
    -5- A -6-. -5- A -6-. -6- A -7-. -6- A -7-. \
    -7- A -8-. -7- A -8-. -8- A -9-. -8- A -9-. \
    -9- A -10-. -9- A -10-. -10- A -11-. -10- A -11-. \
    -11- A -12-. -11- A -12-. -12- A -13-. -12- A -13-. \
    -13- A -14-. -13- A -14-. -14- A -15-. -14- A -15-. \
    -15- A -16-. -15- A -16-. -16- A -17-. -16- A -17-. \
    -17- A -18-. -17- A -18-. -18- A -19-. -18- A -19-. \
    -19- A -20-. -19- A -20-. -20- A -21-. -20- A -21-. \
    -FIN-";

/// Whether the reading goes along the first arc of each of twenty pairs, but for the pairs with these first arcs, of
/// which it takes the second one.
fn goes_along(path: &[u32], others: &[u32]) -> bool {
    let mut first = 0_u32;
    for arc in path {
        let wanted = if others.contains(&first) {
            first.wrapping_add(1)
        } else {
            first
        };
        if *arc != wanted {
            return false;
        }
        first = first.wrapping_add(2);
    }
    path.len() == 20
}

#[test]
fn three_of_a_million_readings_are_listed_at_once(rt: HostRuntime) {
    assert!(rt; PAIRS.len() <= 4_194_304);
    let deck = read_deck(rt.alloc(), PAIRS.as_bytes()).expect(&rt, "a deck");
    let list = readings(rt.alloc(), &deck.graph, 3).expect(&rt, "readings");
    assert!(rt; list.more && list.paths.len() == 3);
    assert!(rt; goes_along(&list.paths[0], &[]));
    assert!(rt; goes_along(&list.paths[1], &[38]));
    assert!(rt; goes_along(&list.paths[2], &[36]));
}

#[test]
fn a_line_of_words_is_a_chain_from_1_to_2(rt: HostRuntime) {
    let alloc = rt.alloc();
    let words = [Label(7), Label(3), Label(7)];
    let graph = linear(alloc, &words).expect(&rt, "the chain");
    assert!(rt; (graph.nodes(), graph.entry(), graph.exit()) == (4, 1, 2));
    let list = readings(alloc, &graph, 1).expect(&rt, "its reading");
    assert!(rt; are_listed(&list, &[&[0, 1, 2]], false));
    for (edge, word) in graph.edges().iter().zip(&words) {
        assert!(rt; edge.tree.view().root() == *word);
    }
}
