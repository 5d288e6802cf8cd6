// The status of a run.

/// The status of a run, which is also the program's exit status.
#[derive(Clone, Copy, Debug, PartialEq, Eq)]
pub enum Status {
    /// The command was done without a fault: the capture was read to its end, or the trial was
    /// made, or the audit found no difference.
    Done = 0,
    /// The words are of no form that a command has.
    Usage = 1,
    /// The settings are refused, in an audit also because they have `echo` set and nonces are to be
    /// lifted.
    Settings = 2,
    /// A capture is refused. A replay or a show has done all frames before its fault.
    Capture = 3,
    /// A call of the desk failed.
    Host = 4,
    /// An allocation was refused.
    Memory = 5,
    /// The packets that an audited router sent differ from those that it should have sent.
    Differs = 6,
}
