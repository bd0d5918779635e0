//! The graph of a line of words.

ghost use Rattle.std.specs.Prelude.{◌≡◌, ◌<◌, ◌≤◌, IfOk, length, map};
ghost use Rattle.qs_graph.specs.Limits.{most_read_arcs};
ghost use Rattle.qs_phrase.specs.Words.{word_tree, graph_of_words};

use qs_graph::Graph;
use qs_tree::{Label, Tree};
use std::alloc::{AllocError, Global};

/// The graph of a line of 1 to 65,536 words: the chain of their trees from the node 1 to the node 2, with inner nodes
/// from 3 on. A word is a tree of one node.
pub fn linear(alloc: Global, words: &[Label]) -> Result<Graph, AllocError>
    requires some { 0 < length words.now }
    requires few { length words.now ≤ most_read_arcs }
    ensures { IfOk result (λ g. g ≡ graph_of_words words.now) }
{
    let trees = trees_of(alloc, words)?;
    Graph::line(alloc, 1, 2, trees)
}

// The tree of each word.
fn trees_of(alloc: Global, words: &[Label]) -> Result<Vec<Tree>, AllocError>
    ensures { IfOk result (λ v. v.items ≡ map word_tree words.now) }
{
    let mut trees = Vec::with_capacity(alloc, words.len())?;
    for word in words {
        trees.push(Tree::leaf(alloc, *word)?)?;
    }
    Ok(trees)
}
