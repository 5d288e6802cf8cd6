// A change that each copy of the table takes in.
use router_log::Entry;

#[derive(Debug, Drop)]
pub enum Change {
    Adds(Entry),
    /// The publication begins.
    Opens,
}
