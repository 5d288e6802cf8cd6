//! The events of a capture, its frames and the seconds between them, and the outcomes of playing
//! them, as definitions.
#![tactic(auto)]

mod laws;
mod seconds;

pub use laws::events_keep_the_frames;
pub use seconds::{Seconds, seconds_between};
