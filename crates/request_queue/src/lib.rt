//! Map-Requests that were sent and are open (RFC 9301, section 5.3), in the order in which they
//! were made.
#![tactic(auto)]

mod again;
mod eids;
mod fault;
mod found;
mod index;
mod limits;
mod queue;
mod request;
mod searching;
mod term;
mod terms;

pub use fault::AskFault;
pub use ip_headers::Addr;
pub use limits::{FIRST_RETRY, LAST_RETRY, LIFE, MOST_OPEN, MOST_REQUESTS, limits_are};
pub use lisp_settings::{LimitItem, Limits};
pub use mapping_records::Eid;
pub use node_store::Reads;
pub use octets::NoMemory;
pub use queue::RequestQueue;
pub use request::Request;
