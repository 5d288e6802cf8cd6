//! Pairs of EIDs and values, found by longest match.
#![tactic(auto)]

mod common;
mod content;
mod insert;
mod iter;
mod key;
mod limits;
mod node;
mod nodes;
mod place;
mod removal;
mod rooted;
mod roots;
mod search;
mod stack;
mod table;

pub use iter::Iter;
pub use limits::{MOST_NODES, MOST_PAIRS, limits_are};
pub use node_store::{NoMemory, Reads};
pub use table::PrefixTable;
