//! EIDs and mapping records (RFC 9301, section 5; RFC 8060, section 4.1): read and written exactly.
#![tactic(auto)]

mod action;
mod covering;
mod eid;
mod eid_reading;
mod eid_writing;
mod fault;
mod laws;
mod limits;
mod locator_reading;
mod places;
mod record;
mod record_reading;
mod record_writing;

pub use action::Action;
pub use covering::{HasEid, longest};
pub use eid::Eid;
pub use eid_reading::read_eid;
pub use eid_writing::write_eid;
pub use fault::RecordFault;
pub use ip_headers::{Addr, Prefix};
pub use laws::{
    canonical_eid_spells, canonical_record_spells, no_longer_one_covers, one_eid_is_spelled,
    one_record_is_spelled, written_eid_is_read_again, written_record_is_read_again,
};
pub use limits::{DEFAULT_MINUTES, MOST_LOCATORS, MOST_MAPPINGS, limits_are};
pub use octets::{NoMemory, Octets, Refused};
pub use places::{addr_at, addr_size, has_addr, refused};
pub use record::{Locator, Locators, Record};
pub use record_reading::{read_eid_prefix, read_record};
pub use record_writing::write_record;
