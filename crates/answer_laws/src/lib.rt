//! Laws of whole runs: an audit of the output of a replay finds it the same.
#![tactic(auto)]

mod laws;

pub use laws::an_audit_of_a_replay_is_the_same;
