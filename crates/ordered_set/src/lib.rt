//! A set of keys in order, for which room is made beforehand.
#![tactic(auto)]

mod key;
mod set;

pub use key::Ordered;
pub use octets::NoMemory;
pub use set::OrderedSet;
