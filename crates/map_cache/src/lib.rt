//! The map-cache: mappings that were learned, until their TTL is over (RFC 9301, section 5.4), within
//! the limits of their instances.
#![tactic(auto)]

mod bits;
mod by_eid;
mod cache;
mod copies;
mod counting;
mod counts;
mod endings;
mod fault;
mod finding;
mod indexed;
mod iter;
mod keys;
mod laws;
mod learning;
mod mapping;
mod names;
mod naming;
mod searching;
mod stay;

pub use cache::MapCache;
pub use copies::copied_record;
pub use fault::LearnFault;
pub use ip_headers::Addr;
pub use iter::Iter;
pub use laws::{no_lesser_address_is_named, no_lesser_eid_names_it};
pub use lisp_settings::Limits;
pub use mapping::Mapping;
pub use mapping_records::{Eid, MOST_LOCATORS, MOST_MAPPINGS, Record};
pub use node_store::Reads;
pub use octets::NoMemory;
pub use searching::lasts;
