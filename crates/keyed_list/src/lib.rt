//! Items in order of coming, found by their keys and by their age.
#![tactic(auto)]

mod ages;
mod changing;
mod finding;
mod key;
mod keyed;
mod known;
mod limits;
mod linking;
mod list;
mod marks;

pub use key::Key;
pub use keyed::{Keyed, Marks};
pub use limits::{MOST_ITEMS, limits_are};
pub use list::KeyedList;
pub use octets::NoMemory;
