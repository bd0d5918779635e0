//! Tests of what stands at the edge of the program: devices in memory and over std's readers and writers, values that
//! threads take in turn, boards, and workers beside each other.
#![tactic(auto)]

#[cfg(test)]
mod board_tests;
#[cfg(test)]
mod device_tests;
#[cfg(test)]
mod turn_tests;
#[cfg(test)]
mod worker_tests;
