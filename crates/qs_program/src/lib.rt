//! The whole program, but for its process: which text is defined for a call, and the call that writes it.
#![tactic(auto)]

mod cascade;
pub mod defined_laws;
mod endings;
pub mod over;
mod phrases;
pub mod run;
pub mod top;
