//! Runs over a desk in memory, for tests: captures, packets and reports from tables.
#![tactic(auto)]

pub mod exchanges;
pub mod packets;
pub mod runs;
