//! Captures (pcap): frames read record by record through a desk, the link layer below the packet,
//! and records written.
#![tactic(auto)]

mod fault;
mod format;
mod frame;
mod header;
mod laws;
mod limits;
mod link;
mod order;
mod payload;
mod position;
mod reader;
mod record;
mod writing;

pub use desk::{
    Calls, Desk, DeskFault, FileId, Files, HostDesk, MemoryDesk, NamedFile, SteadyDesk,
};
pub use fault::CaptureFault;
pub use frame::Frame;
pub use laws::{frames_come_in_order, moments_do_not_fall};
pub use limits::{LONGEST_SPAN, MOST_FRAME_OCTETS, MOST_RECORDS, limits_are};
pub use link::Link;
pub use octets::{Items, Layer, NoMemory, Octets, Refused, Why};
pub use order::Order;
pub use payload::link_payload;
pub use reader::CaptureReader;
pub use writing::{write_header, write_packet};
