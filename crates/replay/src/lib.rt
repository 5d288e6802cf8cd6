//! The commands: a run, from the words of a command to its status.
#![tactic(auto)]

mod audits;
mod captures;
mod comparing;
mod counts;
mod finding;
mod finding_lines;
mod frame_text;
mod input;
mod last_lines;
mod message_lines;
mod output_file;
mod plainly;
mod replaying;
mod running;
mod settings_file;
mod showing;
mod splitting;
mod status;
mod taking;
mod trying;

pub use command_words::{Text, Word, Words, WordsFault, read_words};
pub use router_log::{Reason, Verdict};
pub use running::run;
pub use sharing::{Gate, OpenGate};
pub use status::Status;
