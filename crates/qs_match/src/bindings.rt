//! What variables stand for during the search, as borrowed parts of the trees.

ghost use Rattle.std.specs.Prelude.{◌≡◌, ◌↔◌, IsTrue, IfOk};
ghost use Rattle.std.specs.Option.{option_map};
ghost use Rattle.qs_pattern.specs.Substitutions.{value_of, IsSubstitution};
ghost use Rattle.qs_match.specs.working.Bindings.{value_of_ref, substitution_of};

use qs_pattern::{Subst, Value, Var};
use qs_tree::{Forest, ForestRef, Label, Tree, TreeRef, same, same_forest};
use std::alloc::{AllocError, Global};

/// What a variable stands for.
#[derive(Clone, Copy)]
pub enum ValueRef<'a> {
    Label(Label),
    Tree(TreeRef<'a>),
    Forest(ForestRef<'a>),
}

/// Variables and what they stand for, the last first.
#[derive(Drop)]
pub enum Bindings<'a> {
    Nothing,
    More {
        var: Var,
        value: ValueRef<'a>,
        earlier: &'a Bindings<'a>,
    },
}

/// What the variable stands for. None where it has no value.
pub fn find<'a>(bindings: &Bindings<'a>, var: Var) -> Option<ValueRef<'a>>
    ensures { option_map value_of_ref result ≡ value_of (substitution_of bindings.now) var }
{
    match bindings {
        Bindings::Nothing => None,
        Bindings::More {
            var: last,
            value,
            earlier,
        } => match find(earlier, var) {
            Some(found) => Some(found),
            None => { if *last == var { Some(*value) } else { None } }
        },
    }
}

/// Whether both stand for equal values.
pub fn are_equal(a: ValueRef<'_>, b: ValueRef<'_>) -> bool
    ensures { IsTrue result ↔ (value_of_ref a.entry ≡ value_of_ref b.entry) }
{
    match a {
        ValueRef::Label(a) => match b {
            ValueRef::Label(b) => a == b,
            _ => false,
        },
        ValueRef::Tree(a) => match b {
            ValueRef::Tree(b) => same(a, b),
            _ => false,
        },
        ValueRef::Forest(a) => match b {
            ValueRef::Forest(b) => same_forest(a, b),
            _ => false,
        },
    }
}

/// The value, as a copy that owns its trees.
pub fn owned(alloc: Global, value: ValueRef<'_>) -> Result<Value, AllocError>
    ensures { IfOk result (λ v. v ≡ value_of_ref value.entry) }
{
    match value {
        ValueRef::Label(label) => Ok(Value::Label(label)),
        ValueRef::Tree(tree) => Ok(Value::Tree(Tree::of(alloc, tree)?)),
        ValueRef::Forest(forest) => Ok(Value::Forest(Forest::of(alloc, forest)?)),
    }
}

/// The substitution of these bindings, with memory for so many variables more.
pub fn subst_of(alloc: Global, bindings: &Bindings<'_>, more: usize) -> Result<Subst, AllocError>
    requires { IsSubstitution (substitution_of bindings.now) }
    ensures { IfOk result (λ s. s ≡ substitution_of bindings.now) }
{
    match bindings {
        Bindings::Nothing => Subst::with_capacity(alloc, more),
        Bindings::More {
            var,
            value,
            earlier,
        } => {
            let mut subst = subst_of(alloc, earlier, more.saturating_add(1))?;
            subst.add(*var, owned(alloc, *value)?)?;
            Ok(subst)
        }
    }
}
