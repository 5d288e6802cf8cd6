// The result of an audit of two captures.
use audit::Outcome;
use capture_io::CaptureFault;

/// How an audit of two captures ended.
#[derive(Clone, Copy, Debug, PartialEq, Eq)]
pub enum Audited {
    /// Both captures were read to their ends: the outcome of comparing the due packets with those
    /// that were sent.
    Compared(Outcome),
    /// The capture that was played has this fault.
    Played(CaptureFault),
    /// The capture of the packets that were sent has this fault.
    Sent(CaptureFault),
}
