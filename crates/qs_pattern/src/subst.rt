//! Substitutions: what variables stand for.

ghost use Rattle.std.specs.Prelude.{◌≡◌, ◌++◌, ◌∷◌, [], None, IfOk, OnOk, OnErr};
ghost use Rattle.std.specs.Option.{option_copied};
ghost use Rattle.qs_pattern.specs.Substitutions.{value_of, IsOfClass, IsSubstitution};

use crate::variable::Var;
use qs_tree::{Forest, Label, Tree};
use std::alloc::{AllocError, Global};
use std::marker::Model;

/// What a variable stands for: a label, a tree or a list of trees, by its class.
#[derive(Drop)]
pub enum Value {
    Label(Label),
    Tree(Tree),
    Forest(Forest),
}

impl Value {
    /// An equal value.
    pub fn copy(&self) -> Result<Value, AllocError>
        ensures { IfOk result (λ v. v ≡ self.now) }
    {
        match self {
            Value::Label(label) => Ok(Value::Label(*label)),
            Value::Tree(tree) => Ok(Value::Tree(tree.copy()?)),
            Value::Forest(forest) => Ok(Value::Forest(forest.copy()?)),
        }
    }
}

/// A list of variables and their values. Each variable stands once, and each value is of its variable's class.
#[derive(Drop)]
pub struct Subst {
    pairs: Vec<(Var, Value)>,
}

impl Model for Subst {
    ghost use Rattle.std.specs.Prelude.{List};
    ghost use Rattle.qs_pattern.specs.declared.variable.Var.{Var};
    ghost use Rattle.qs_pattern.specs.declared.subst.Value.{Value as Meaning};

    ghost Value = { List (Var × Meaning) };

    ghost use Rattle.std.specs.Coded.{coded_list, coded×};
    ghost use Rattle.qs_pattern.specs.contracts.variable.Var as v;
    ghost use Rattle.qs_pattern.specs.contracts.subst.Value as m;

    ghost coded = { coded_list (coded× v.the_row.coded m.the_row.coded) };

    ghost use Rattle.qs_pattern.specs.Substitutions.{IsSubstitution};

    ghost view = { λ s. s.pairs.items };

    ghost invariant = { λ s. IsSubstitution s.pairs.items };
}

impl Subst {
    /// No variable has a value. Takes no memory.
    pub fn empty(alloc: Global) -> Subst
        ensures { result ≡ [] }
    {
        Subst {
            pairs: Vec::new(alloc),
        }
    }

    /// The same, with memory for so many variables.
    pub fn with_capacity(alloc: Global, variables: usize) -> Result<Subst, AllocError>
        ensures { IfOk result (λ s. s ≡ []) }
    {
        Ok(Subst {
            pairs: Vec::with_capacity(alloc, variables)?,
        })
    }

    /// Appends a variable and its value. Where memory is wanting, the value is dropped and the list is as before.
    pub fn add(&mut self, var: Var, value: Value) -> Result<(), AllocError>
        requires absent { value_of self.old var ≡ None }
        requires class { IsOfClass (var, value) }
        ensures ok { OnOk result (self.new ≡ self.old ++ (var, value) ∷ []) }
        ensures err { OnErr result (self.new ≡ self.old) }
    {
        self.pairs.push((var, value))?;
        Ok(())
    }

    /// An equal list.
    pub fn copy(&self) -> Result<Subst, AllocError>
        ensures { IfOk result (λ s. s ≡ self.now) }
    {
        let mut pairs = Vec::with_capacity(*self.pairs.allocator(), self.pairs.len())?;
        for pair in &self.pairs {
            let value = pair.1.copy()?;
            pairs.push((pair.0, value))?;
        }
        Ok(Subst { pairs })
    }

    /// The pairs of a variable and its value, in order. Takes no memory.
    pub fn pairs(&self) -> &[(Var, Value)]
        ensures value { result.now ≡ self.now }
        ensures substitution { IsSubstitution self.now }
    {
        &self.pairs
    }

    /// What a variable stands for. None exactly where it has no value. Takes no memory.
    pub fn get(&self, var: Var) -> Option<&Value>
        ensures { option_copied result ≡ value_of self.now var }
    {
        for pair in &self.pairs {
            if pair.0 == var {
                return Some(&pair.1);
            }
        }
        None
    }
}
