//! A router with forwarders: the frames of a capture are gathered in rounds, and each round is
//! shared by the router's own table and by threads that read the table as it is published.
#![tactic(auto)]

mod crew;
mod gathering;
mod limits;
mod playing;
mod working;

pub use crew::Crew;
pub use forwarders::{Gate, OpenGate};
pub use limits::{MOST_ROUND_OCTETS, limits_are};
pub use playing::{RoundsEnding, play_rounds};
