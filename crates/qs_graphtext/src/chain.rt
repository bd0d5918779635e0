//! Written chains.

use qs_tree::Tree;
use std::marker::Model;

/// A chain as it is written: the numbers of its two nodes, its trees in order, and for each tree the byte at which it
/// begins.
#[derive(Drop)]
pub struct Chain {
    pub from: u32,
    pub trees: Vec<Tree>,
    pub to: u32,
    pub at: Vec<u32>,
}

impl Model for Chain {
    ghost use Rattle.qs_graphtext.specs.WrittenChains.{WrittenChain};
    ghost use Rattle.qs_graphtext.specs.working.Codes.{chain_code};

    ghost Value = { WrittenChain };

    ghost coded = { chain_code };

    ghost view = { λ c. record { from = c.from; trees = c.trees.items; to = c.to; at = c.at.items } };
}
