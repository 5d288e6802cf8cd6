//! The events of a capture, played through a machine: frames are read one by one, and the machine's
//! lines and packets go out in pieces.
#![tactic(auto)]

mod classic;
mod fault;
mod laws;
mod limits;
mod machine;
mod ng;
mod output;
mod playing;
mod plays;
mod progress;
mod reader;
mod seconds;

pub use capture_io::{
    CaptureFault, CaptureReader, Desk, DeskFault, FileId, Frame, NoMemory, Octets,
};
pub use capture_ng::{NgFault, NgReader};
pub use classic::own_fault;
pub use fault::InputFault;
pub use laws::{determined_plays_are_played, what_is_written_is_read};
pub use limits::{PIECE_OCTETS, limits_are};
pub use machine::Machine;
pub use output::Output;
pub use playing::play;
pub use plays::{Ending, Play, Turn};
pub use progress::Progress;
pub use reader::{FrameReader, Next};
