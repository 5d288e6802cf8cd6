//! The LISP control messages (RFC 9301, section 5): read by rules in order, and written exactly.
#![tactic(auto)]

mod asked_eid;
mod control_header;
mod ecm_reading;
mod ecm_writing;
mod items;
mod laws;
mod limits;
mod message;
mod message_reading;
mod message_writing;
mod places;
mod plain;
mod plain_reading;
mod records;
mod reply_addr;
mod reply_writing;
mod request_reading;
mod request_writing;

pub use control_header::write_control_header;
pub use laws::{canonical_message_spells, one_message_is_spelled, written_message_is_read_again};
pub use limits::{CONTROL_HOPS, MOST_MESSAGE_OCTETS, limits_are};
pub use mapping_records::{Addr, Eid, NoMemory, Octets, Prefix, Record, Refused};
pub use message::{
    Addrs, Ecm, Eids, LISP_CONTROL_PORT, MapReply, MapRequest, Message, MessageFault, Records,
};
pub use message_reading::read_message;
pub use message_writing::write_message;
pub use reply_writing::write_reply;
