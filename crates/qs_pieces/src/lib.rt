//! A cascade may be run in two pieces: the law that says so.
#![tactic(auto)]

pub mod laws;
