//! Level certificates of small grammars.

ghost use Rattle.std.specs.Prelude.{◌<◌, ◌≤◌, length};

use crate::reading::rules_of;
use qs_deck::{made, read_deck};
use qs_levels::{Levels, accepts, find};
use qs_pattern::Rule;
use qs_tree::Label;
use std::alloc::Global;
use std::process::Abort;

/// A certificate with this number of levels and these labels and levels.
fn certificate<R: Abort>(rt: &R, alloc: Global, count: u32, pairs: &[(u32, u32)]) -> Levels {
    let mut of = Vec::new(alloc);
    for (label, level) in pairs {
        of.push((Label(*label), *level)).expect(rt, "a level more");
    }
    Levels { count, of }
}

/// Whether rules have this least certificate; where they have none, the number of levels is 0.
fn have<R: Abort>(rt: &R, alloc: Global, rules: &[Rule], count: u32, pairs: &[(u32, u32)]) -> bool {
    assert!(rt; rules.len() < 100);
    let Some(levels) = find(alloc, rules).expect(rt, "an answer") else {
        return count == 0;
    };
    for ((label, level), (number, height)) in levels.of.iter().zip(pairs) {
        if label.0 != *number || level != height {
            return false;
        }
    }
    levels.count == count && levels.of.len() == pairs.len()
}

/// The grammar S of a text with these rules has this certificate. The labels are numbered from 1 as they are met.
fn text_has<R: Abort>(rt: &R, alloc: Global, text: &str, count: u32, pairs: &[(u32, u32)]) -> bool
    requires { length text.now < 1000 }
{
    let deck = read_deck(alloc, text.as_bytes()).expect(rt, "a deck");
    have(rt, alloc, rules_of(&deck), count, pairs)
}

#[test]
fn grammars_have_their_least_levels_or_none(rt: HostRuntime) {
    let rows: [(&str, u32, &[(u32, u32)]); 9] = [
        ("-SYSTEME- S. -GRAPHE- -1- A -2-. -FIN-", 1, &[]),
        ("-SYSTEME- S. A == A. -GRAPHE- -1- A -2-. -FIN-", 0, &[]),
        (
            "-SYSTEME- S. A == B. B == C. C == A. -GRAPHE- -1- A -2-. -FIN-",
            0,
            &[],
        ),
        (
            "-SYSTEME- S. A + I* == B + I*. -GRAPHE- -1- A -2-. -FIN-",
            0,
            &[],
        ),
        (
            "-SYSTEME- S. A == B. A*(U*) == C. -GRAPHE- -1- A -2-. -FIN-",
            0,
            &[],
        ),
        (
            "-SYSTEME- S. A == B. -GRAPHE- -1- A -2-. -FIN-",
            2,
            &[(1, 0), (2, 1)],
        ),
        (
            "-SYSTEME- S. D == E. A == B. A == C. B + C == D. -GRAPHE- -1- A -2-. -FIN-",
            4,
            &[(1, 2), (2, 3), (3, 0), (4, 1), (5, 1)],
        ),
        (
            "-SYSTEME- S. LE + CHAT == GN(LE,CHAT). GN(U*) + DORT == P(GN(U*),V(DORT)). \
             -GRAPHE- -1- A -2-. -FIN-",
            3,
            &[(1, 0), (2, 0), (3, 1), (4, 0), (5, 2)],
        ),
        (
            "-SYSTEME- S. A + A == B + B. A + B == C. -GRAPHE- -1- A -2-. -FIN-",
            3,
            &[(1, 0), (2, 1), (3, 2)],
        ),
    ];
    for (text, count, pairs) in &rows {
        assert!(rt; text.len() < 1000);
        assert!(rt; text_has(&rt, rt.alloc(), text, *count, pairs), "{text}");
    }
}

#[test]
fn the_made_deck_of_size_three_has_four_levels(rt: HostRuntime) {
    let deck = made(rt.alloc(), 3).expect(&rt, "a deck");
    let pairs = [(1, 0), (2, 1), (3, 2), (4, 3)];
    assert!(rt; have(&rt, rt.alloc(), rules_of(&deck), 4, &pairs));
}

#[test]
fn certificates_fit_where_levels_rise(rt: HostRuntime) {
    let text = "-SYSTEME- S. A == B. -GRAPHE- -1- A -2-. -FIN-";
    let deck = read_deck(rt.alloc(), text.as_bytes()).expect(&rt, "a deck");
    let rules = rules_of(&deck);
    assert!(rt; rules.len() == 1);
    let rows: [(bool, u32, &[(u32, u32)]); 9] = [
        (true, 2, &[(1, 0), (2, 1)]),
        (true, 9, &[(1, 3), (2, 7)]),
        (true, 3, &[(77, 2), (2, 1), (1, 0)]),
        (false, 2, &[(1, 1), (2, 1)]),
        (false, 2, &[(2, 1)]),
        (false, 2, &[(1, 0)]),
        (false, 2, &[(1, 0), (2, 1), (1, 0)]),
        (false, 1, &[(1, 0), (2, 1)]),
        (false, 0, &[]),
    ];
    for (fits, count, pairs) in &rows {
        let levels = certificate(&rt, rt.alloc(), *count, pairs);
        let answer = accepts(rt.alloc(), rules, &levels).expect(&rt, "an answer");
        assert!(rt; answer == *fits, "{count} levels");
    }
}
