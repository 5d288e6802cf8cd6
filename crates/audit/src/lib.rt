//! The packets that a router really sent, compared with those that were due, and the nonces of its
//! own Map-Requests, lifted out of them.
#![tactic(auto)]

mod auditor;
mod differences;
mod laws;
mod lift;
mod limits;
mod outcome;
mod packets;
mod requests;

pub use auditor::Auditor;
pub use capture_io::Frame;
pub use laws::{
    differing_nonces_are_all_lifted, frames_lift_one_by_one, packets_compare_one_by_one,
    raw_packets_are_whole, same_is_equal,
};
pub use lift::Lift;
pub use limits::{MOST_LIFTED, limits_are};
pub use lisp_settings::{Nonces, Settings};
pub use octets::NoMemory;
pub use outcome::Outcome;
