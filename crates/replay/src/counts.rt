// The counts of a replay at its end.

use playback::InputFault;

/// How a replay ended: the capture's fault, if it has one, the frames before that fault, the
/// packets written, and the length of the journal.
#[derive(Clone, Copy)]
pub struct Counts {
    pub fault: Option<InputFault>,
    pub frames: u32,
    pub written: u64,
    pub entries: u64,
}
