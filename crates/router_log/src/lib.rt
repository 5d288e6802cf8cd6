//! What a router records, as values and text: entries of its journal, notices and emits, verdicts
//! on frames, and the line of a frame in a report.
#![tactic(auto)]

mod decision;
mod digits;
mod emit;
mod entry;
mod kept;
mod lines;
mod notice;
mod notices;
mod numbers;
mod refusals;
mod verdict;

pub use decision::Decision;
pub use digits::{MOST_DIGITS, write_behind, write_digits, write_octet, write_octets};
pub use emit::{Emit, Emits};
pub use entry::{Entries, Entry};
pub use ip_headers::{Addr, Prefix, Refused};
pub use kept::{EchoOut, EchoStart, EchoWish, Probe, ProbeState, Solicitation};
pub use lines::{frame_line, push_frame_line};
pub use map_messages::MapReply;
pub use mapping_records::{Eid, Record};
pub use notice::Notice;
pub use notices::Notices;
pub use numbers::{
    MOST_ADDRESS, push_named, push_number, push_octets, write_address, write_hex, write_hex_octets,
    write_named,
};
pub use octets::{Items, NoMemory, Octets};
pub use refusals::push_refused;
pub use verdict::{Done, Reason, Verdict};
