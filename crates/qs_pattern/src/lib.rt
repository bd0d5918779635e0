//! Patterns, substitutions, conditions and rules.
#![tactic(auto)]

mod condition;
mod copies;
mod holding;
mod in_class;
mod instances;
pub mod laws;
mod occurrences;
mod pattern;
mod rule;
mod subst;
mod variable;

pub use condition::Cond;
pub use holding::holds;
pub use in_class::are_in_class;
pub use instances::{forest_of, instance, one_instance};
pub use occurrences::{first_occurrences, variables, written_variables};
pub use pattern::{Head, Pattern};
pub use rule::Rule;
pub use std::alloc::AllocError as Memory;
pub use subst::{Subst, Value};
pub use variable::{Var, VarClass};
