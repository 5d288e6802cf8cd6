// How far a play has come.

/// How far a play has come.
#[derive(Clone, Copy, Debug, PartialEq, Eq)]
pub struct Progress {
    /// The number of frames so far.
    pub frames: u32,
    /// The moment of the last event in nanoseconds; None before the first.
    pub moment: Option<u64>,
}
