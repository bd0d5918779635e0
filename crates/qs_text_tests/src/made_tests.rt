//! Made decks: their text, and that they are accepted.

use qs_deck::{Deck, made, made_deck, read_deck, write_deck};
use std::alloc::Global;
use std::process::Abort;

/// The deck in canonical spelling.
fn spelled<R: Abort>(rt: &R, alloc: Global, deck: &Deck) -> Vec<u8> {
    let mut out = Vec::new(alloc);
    write_deck(alloc, deck, &mut out).expect(rt, "its text");
    out
}

#[test]
fn a_small_made_deck_is_written_line_by_line(rt: HostRuntime) {
    let alloc = rt.alloc();
    let rows = [
        "-SYSTEME- M.\n-GRAPHE-\n-1- T0(M1) -2-.\n-FIN-\n",
        "-SYSTEME- M.\nT0(I*) + T0(J*) == T1(I*).\n-GRAPHE-\n-1- T0(M1) + T0(M2) -2-.\n-FIN-\n",
        "-SYSTEME- M.\nT0(I*) + T0(J*) == T1(I*).\nT1(I*) + T1(J*) == T2(I*).\n\
         -GRAPHE-\n-1- T0(M1) + T0(M2) + T0(M3) + T0(M4) -2-.\n-FIN-\n",
    ];
    for (size, wanted) in (0..3).zip(rows) {
        assert!(rt; size <= 13);
        let text = made_deck(alloc, size).expect(&rt, "its text");
        assert!(rt; text.as_slice() == wanted.as_bytes(), "size {size}");
    }
}

#[test]
fn a_made_text_is_accepted_and_means_the_made_deck(rt: HostRuntime) {
    let alloc = rt.alloc();
    for size in 0..14 {
        assert!(rt; size <= 13);
        let text = made_deck(alloc, size).expect(&rt, "its text");
        assert!(rt; text.len() <= 4_194_304);
        let read = read_deck(alloc, &text).expect(&rt, "the deck of the text");
        let deck = made(alloc, size).expect(&rt, "the deck of the size");
        assert!(rt; read.names.len() == deck.names.len());
        assert!(rt;
            spelled(&rt, alloc, &read) == spelled(&rt, alloc, &deck),
            "size {size}"
        );
    }
}
