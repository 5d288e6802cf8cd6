//! Nodes under names, with a count of each read of a node.
#![tactic(auto)]

mod copies;
mod reads;
mod store;

pub use copies::copied;
pub use octets::NoMemory;
pub use reads::Reads;
pub use store::NodeStore;
