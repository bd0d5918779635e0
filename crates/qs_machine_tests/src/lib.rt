//! Tests of the values that rules act on: labels and trees, variables and substitutions, graphs, firings and
//! matches; of the work of an arc; of the machine of steps; of the closure that is found from its runs; of one
//! worker; of what unique grammars leave; of level certificates; of where the arcs that are left come from; and of
//! lines of words and readings.
#![tactic(auto)]

#[cfg(test)]
mod canon_tests;
#[cfg(test)]
mod closure_tests;
#[cfg(test)]
mod core_tests;
#[cfg(test)]
mod explain_tests;
#[cfg(test)]
mod firing_tests;
#[cfg(test)]
mod graph_tests;
#[cfg(test)]
mod join_tests;
#[cfg(test)]
mod levels_tests;
#[cfg(test)]
mod match_tests;
#[cfg(test)]
mod merging_tests;
#[cfg(test)]
mod phrase_tests;
#[cfg(test)]
mod reading;
#[cfg(test)]
mod rule_tests;
#[cfg(test)]
mod tree_tests;
#[cfg(test)]
mod worker_tests;
