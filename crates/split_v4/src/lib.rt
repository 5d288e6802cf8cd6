//! Large IPv4 packets, split in two before a tunnel (RFC 9300, section 7.1; RFC 791, sections 2.3 and 3.1).
#![tactic(auto)]

mod cutting;
mod examples;
mod halves;
mod header;
mod laws;
mod limits;
mod options;
mod splitting;

pub use capture_io::Frame;
pub use examples::{halves_are_worked, options_are_worked};
pub use laws::{frames_are_split_in_order, halves_are_packets, halves_join, short_frames_stay};
pub use limits::{MOST_OFFSET, V4_OUTER, V6_OUTER, limits_are, split_size};
pub use lisp_settings::Settings;
pub use octets::NoMemory;
pub use splitting::split_frame;
