//! What is read of small graphs: the chains, with the byte of each tree.

ghost use Rattle.std.specs.Prelude.{◌≤◌, length};

use qs_graphtext::{Chain, read_chains};
use qs_lex::{tokens, too_deep};
use qs_tree::{Cell, Names};
use std::alloc::Global;
use std::process::Abort;

/// The chains that are read from a place of the tokens of a text, with the place behind them and the number of labels.
fn read<R: Abort>(rt: &R, alloc: Global, text: &str, from: usize) -> (Vec<Chain>, usize, u32)
    requires { length text.now ≤ 4194304 }
{
    let found = tokens(alloc, text).expect(rt, "tokens");
    let None = too_deep(&found) else {
        panic!(rt; "too deep")
    };
    assert!(rt; from <= found.len() && found.len() <= 4_194_304);
    let mut names = Names::new(alloc);
    let answer = read_chains(alloc, text, &found, from, &mut names);
    let (chains, behind) = answer.expect(rt, "chains");
    (chains, behind, names.len())
}

/// Whether these are the label numbers of the cells, each with how many nodes its tree has.
fn are_cells(cells: &[Cell], wanted: &[(u32, usize)]) -> bool {
    for (cell, (label, extent)) in cells.iter().zip(wanted) {
        if cell.label.0 != *label || cell.extent != *extent {
            return false;
        }
    }
    cells.len() == wanted.len()
}

/// Whether the chain leads from the one node to the other, with trees at these bytes that have these cells.
fn is_chain(chain: &Chain, ends: (u32, u32), trees: &[(u32, &[(u32, usize)])]) -> bool {
    for ((tree, at), (byte, cells)) in chain.trees.iter().zip(chain.at.iter()).zip(trees) {
        if at != byte || !are_cells(tree.view().cells, cells) {
            return false;
        }
    }
    (chain.from, chain.to) == ends
        && chain.trees.len() == trees.len()
        && chain.at.len() == trees.len()
}

#[test]
fn chains_are_read_in_order_with_the_bytes_of_their_trees(rt: HostRuntime) {
    let text = "A -GRAPHE-\n-10- A(B,C(A)) + É + \"C\" -30-.\n-20- B -30-. -FIN- A";
    let (chains, behind, labels) = read(&rt, rt.alloc(), text, 1);
    assert!(rt; chains.len() == 2 && behind == 23 && labels == 4);
    let trees = [
        (16, [(0, 4), (1, 1), (2, 2), (0, 1)].as_slice()),
        (28, &[(3, 1)]),
        (33, &[(2, 1)]),
    ];
    assert!(rt; is_chain(&chains[0], (10, 30), &trees));
    assert!(rt; is_chain(&chains[1], (20, 30), &[(48, &[(1, 1)])]));
    // Parentheses with nothing in them leave no trace.
    let text = "-GRAPHE- -7- A() + \"\"(A,B()) -7-. -FIN-";
    let (chains, behind, labels) = read(&rt, rt.alloc(), text, 0);
    assert!(rt; chains.len() == 1 && behind == 17 && labels == 3);
    let trees = [(13, [(0, 1)].as_slice()), (19, &[(1, 3), (0, 1), (2, 1)])];
    assert!(rt; is_chain(&chains[0], (7, 7), &trees));
}
