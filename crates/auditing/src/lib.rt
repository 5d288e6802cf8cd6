//! A capture of what a router sent, compared with the packets that a machine sends for another
//! capture.
#![tactic(auto)]

mod audited;
mod auditing;
mod holding;
mod lifting;
mod playing;
mod reading;
mod records;
mod seconds;

pub use audited::Audited;
pub use auditing::audit_frames;
pub use lifting::lift_nonces;
pub use reading::capture_fault;
