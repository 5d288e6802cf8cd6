//! Captures in the pcapng format: frames read block by block through a desk.
#![tactic(auto)]

mod blocks;
mod bodies;
mod coming;
mod examples;
mod fault;
mod finding;
mod first;
mod frames;
mod head;
mod heads;
mod interface;
mod interfaces;
mod laws;
mod limits;
mod options;
mod order;
mod packets;
mod position;
mod reader;
mod taking;

pub use examples::{
    a_block_is_judged, a_capture_is_worked, a_packet_is_judged, a_section_is_judged,
    interfaces_are_vlans, sections_begin_anew, times_are_read_in_units,
};
pub use fault::NgFault;
pub use laws::{
    a_classic_capture_has_the_same_frames, blocks_are_read_one_by_one, moments_do_not_fall,
};
pub use limits::{
    END_OF_MOMENTS, MOST_BINARY, MOST_BLOCK_OCTETS, MOST_BLOCKS, MOST_DECIMAL, MOST_INTERFACES,
    limits_are,
};
pub use reader::NgReader;
