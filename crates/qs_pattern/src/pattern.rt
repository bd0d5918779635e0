//! Patterns of trees.

use crate::variable::Var;
use qs_tree::Label;

/// What stands at the root of a node: a label, or a label variable.
#[derive(Clone, Copy, Debug)]
pub enum Head {
    Label(Label),
    Var(Var),
}

/// A pattern. A node stands for a tree with a root and subtrees, a tree variable for one tree, a forest variable for a
/// list of trees.
#[derive(Drop)]
pub enum Pattern {
    Node { head: Head, kids: Vec<Pattern> },
    Tree(Var),
    Forest(Var),
}
