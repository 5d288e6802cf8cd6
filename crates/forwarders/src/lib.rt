//! Forwarders: a table that one writer publishes batch by batch, and that forwarders read beside
//! the writer, each by looks of its own.
#![tactic(auto)]

mod answers;
mod batches;
mod door;
mod gate;
mod gathering;
mod hiring;
mod laws;
mod notices;
mod putting;
mod round;
mod round_begun;
mod round_done;
mod ruling;
mod sending;
mod workers;
mod working;
mod writing;

pub use door::{ForwardFault, Forwarded, Forwarder, Look, Published, Tally, open_hall};
pub use gate::{Gate, OpenGate};
pub use laws::{batches_make_the_journal, decided_packets_are_ruled};
pub use octets::NoMemory;
pub use round::run_round;
pub use round_begun::{Round, closing_moment};
pub use round_done::{Line, Lines, Packet, Packets, RoundDone};
pub use router_core::{Settings, Table};
pub use router_log::{Decision, Entries, Entry, Verdict};
