//! The trees that patterns stand for.

ghost use Rattle.std.specs.Prelude.{◌≡◌, ◌++◌, ◌∷◌, [], OnOk, IfOk};
ghost use Rattle.qs_pattern.specs.Instances.{inst, label_of, IsCovered, IsHeadCovered};
ghost use Rattle.qs_pattern.specs.Patterns.{NoForestAtTop};
ghost use Rattle.qs_pattern.specs.Patterns.{patterns};
ghost use Rattle.qs_pattern.specs.working.Patterns.{one_pattern};

use crate::pattern::{Head, Pattern};
use crate::subst::{Subst, Value};
use qs_tree::{Forest, Label, Tree};
use std::alloc::{AllocError, Global};

fn root_label(head: Head, subst: &Subst) -> Label
    requires { IsHeadCovered subst.now head }
    ensures { result ≡ label_of subst.now head }
{
    match head {
        Head::Label(label) => label,
        Head::Var(var) => match subst.get(var) {
            Some(Value::Label(label)) => *label,
            _ => unreachable!(),
        },
    }
}

// How many nodes the trees that the pattern stands for have. Nothing rests on it but how much memory is taken at once.
fn nodes_of(pattern: &Pattern, subst: &Subst) -> usize {
    match pattern {
        Pattern::Node { kids, .. } => {
            let mut nodes: usize = 1;
            for kid in kids {
                nodes = nodes.saturating_add(nodes_of(kid, subst));
            }
            nodes
        }
        Pattern::Tree(var) | Pattern::Forest(var) => match subst.get(*var) {
            Some(Value::Tree(tree)) => tree.view().cells.len(),
            Some(Value::Forest(forest)) => forest.view().cells.len(),
            _ => 0,
        },
    }
}

// The same for a list of patterns.
fn nodes_of_all(list: &[Pattern], subst: &Subst) -> usize {
    let mut nodes: usize = 0;
    for pattern in list {
        nodes = nodes.saturating_add(nodes_of(pattern, subst));
    }
    nodes
}

// Appends the trees that the pattern stands for.
fn append(pattern: &Pattern, subst: &Subst, out: &mut Forest) -> Result<(), AllocError>
    requires { IsCovered subst.now (one_pattern pattern.now) }
    ensures { OnOk result (out.new ≡ out.old ++ inst subst.now (one_pattern pattern.now)) }
{
    match pattern {
        Pattern::Node { head, kids } => {
            let before = out.nodes();
            for kid in kids {
                append(kid, subst, out)?;
            }
            out.put_under(root_label(*head, subst), before)
        }
        Pattern::Tree(var) => match subst.get(*var) {
            Some(Value::Tree(tree)) => out.push(tree.view()),
            _ => unreachable!(),
        },
        Pattern::Forest(var) => match subst.get(*var) {
            Some(Value::Forest(forest)) => out.splice(forest.view()),
            _ => unreachable!(),
        },
    }
}

/// The list of trees that the patterns stand for.
pub fn forest_of(alloc: Global, list: &[Pattern], subst: &Subst) -> Result<Forest, AllocError>
    requires { IsCovered subst.now (patterns list.now) }
    ensures { IfOk result (λ f. f ≡ inst subst.now (patterns list.now)) }
{
    let mut out = Forest::with_capacity(alloc, nodes_of_all(list, subst))?;
    for pattern in list {
        append(pattern, subst, &mut out)?;
    }
    Ok(out)
}

/// The one tree that the pattern stands for. It is made in one piece of memory.
pub fn one_instance(alloc: Global, pattern: &Pattern, subst: &Subst) -> Result<Tree, AllocError>
    requires single { NoForestAtTop (patterns (pattern.now ∷ [])) }
    requires covered { IsCovered subst.now (patterns (pattern.now ∷ [])) }
    ensures { IfOk result (λ t. t ∷ [] ≡ inst subst.now (patterns (pattern.now ∷ []))) }
{
    match pattern {
        Pattern::Node { .. } => {
            let mut out = Forest::with_capacity(alloc, nodes_of(pattern, subst))?;
            append(pattern, subst, &mut out)?;
            Ok(out.into_tree())
        }
        Pattern::Tree(var) => match subst.get(*var) {
            Some(Value::Tree(tree)) => Ok(tree.copy()?),
            _ => unreachable!(),
        },
        Pattern::Forest(_) => unreachable!(),
    }
}

/// The trees that a side stands for.
pub fn instance(alloc: Global, side: &[Pattern], subst: &Subst) -> Result<Vec<Tree>, AllocError>
    requires single { NoForestAtTop (patterns side.now) }
    requires covered { IsCovered subst.now (patterns side.now) }
    ensures { IfOk result (λ v. v.items ≡ inst subst.now (patterns side.now)) }
{
    let mut trees = Vec::with_capacity(alloc, side.len())?;
    for pattern in side {
        trees.push(one_instance(alloc, pattern, subst)?)?;
    }
    Ok(trees)
}
