//! A list of items, each under a name that it keeps while it is in the list.
#![tactic(auto)]

mod limits;
mod list;
mod names;
mod rings;

pub use limits::{RING_NAMES, SPARE_NAMES, limits_are};
pub use list::NamedList;
pub use octets::NoMemory;
