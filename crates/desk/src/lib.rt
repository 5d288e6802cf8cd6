//! The desk: the outside of a router's run, with files by name and a report.
#![tactic(auto)]

mod desk;
mod fault;
mod file;
mod full;
mod host;
mod memory;
mod shelf;
mod slots;
mod source;
mod steady;

pub use desk::{Desk, FileId};
pub use fault::DeskFault;
pub use file::{Files, NamedFile};
pub use full::read_full;
pub use host::{HostDesk, HostFile};
pub use memory::{Calls, MemoryDesk};
pub use steady::SteadyDesk;
