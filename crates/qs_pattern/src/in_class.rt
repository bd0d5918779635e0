//! Whether each variable of patterns stands at a place of its class.

ghost use Rattle.std.specs.Prelude.{◌↔◌, IsTrue};
ghost use Rattle.qs_pattern.specs.Patterns.{patterns, AreInClass, IsHeadInClass};
ghost use Rattle.qs_pattern.specs.Variables.{IsLabelVar, IsTreeVar, IsForestVar};

use crate::pattern::{Head, Pattern};
use crate::variable::Var;

fn is_label_var(var: Var) -> bool
    ensures { IsTrue result ↔ IsLabelVar var }
{
    b'A' <= var.letter && var.letter <= b'F'
}

fn is_tree_var(var: Var) -> bool
    ensures { IsTrue result ↔ IsTreeVar var }
{
    b'I' <= var.letter && var.letter <= b'N'
}

fn is_forest_var(var: Var) -> bool
    ensures { IsTrue result ↔ IsForestVar var }
{
    b'U' <= var.letter && var.letter <= b'Z'
}

fn is_head_in_class(head: Head) -> bool
    ensures { IsTrue result ↔ IsHeadInClass head }
{
    match head {
        Head::Label(_) => true,
        Head::Var(var) => is_label_var(var),
    }
}

/// Whether each variable of the patterns stands at a place of its class: a label variable as a head, a tree variable
/// and a forest variable for themselves, at every depth. Takes no memory.
pub fn are_in_class(side: &[Pattern]) -> bool
    ensures { IsTrue result ↔ AreInClass (patterns side.now) }
{
    match side {
        [] => true,
        [first, rest @ ..] => match first {
            Pattern::Node { head, kids } => {
                if !is_head_in_class(*head) {
                    return false;
                }
                if !are_in_class(kids) {
                    return false;
                }
                are_in_class(rest)
            }
            Pattern::Tree(var) => is_tree_var(*var) && are_in_class(rest),
            Pattern::Forest(var) => is_forest_var(*var) && are_in_class(rest),
        },
    }
}
