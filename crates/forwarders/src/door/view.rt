// The view of a seat at the published table: what it has seen and learned. No value of this type is
// made.
use lisp_settings::Settings;
use router_log::Entry;

/// Batches of entries: a clause reads an array as a list, of any length.
pub type Batches = [[Entry; 0]; 0];

pub enum View {
    /// A newcomer, which has no list and no plan yet.
    Newcomer,
    /// A reader: the settings, the batches that it has seen, and the plan that it has learned.
    Reads(Settings, Batches, Batches),
    /// The writer: the settings, all batches that are published, and all that are planned.
    Writes(Settings, Batches, Batches),
    /// A note of the writer for a reader: the settings, a list that was published, and what was
    /// planned then.
    Tells(Settings, Batches, Batches),
}
