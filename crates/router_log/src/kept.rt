// Probes, echoes and solicitations, as tables keep them.
use ip_headers::Addr;
use mapping_records::Eid;

/// The state of a probe, by the entries after it.
#[derive(Clone, Copy, Debug, PartialEq, Eq)]
pub enum ProbeState {
    /// No answer came, and no other probe with the same nonce was sent.
    Open,
    /// The answer to the probe came.
    Answered,
    /// Another probe with the same nonce was sent before any answer, so that an answer counts for
    /// the later one.
    Lost,
}

/// A probe that was sent to a locator.
#[derive(Clone, Copy, Debug, PartialEq, Eq)]
pub struct Probe {
    /// The moment at which the probe was sent, in nanoseconds.
    pub moment: u64,
    pub rloc: Addr,
    pub nonce: u64,
    pub state: ProbeState,
}

/// An echo that was requested of a locator, from its moment in nanoseconds on.
#[derive(Clone, Copy, Debug, PartialEq, Eq)]
pub struct EchoStart {
    pub moment: u64,
    pub rloc: Addr,
    pub nonce: u32,
    /// Whether the echo came.
    pub heard: bool,
    /// Whether a packet without the echo came from the locator.
    pub came: bool,
}

/// An echo that a locator wants, from its moment in nanoseconds on.
#[derive(Clone, Copy, Debug, PartialEq, Eq)]
pub struct EchoWish {
    pub moment: u64,
    pub rloc: Addr,
    pub nonce: u32,
}

/// A solicitation: an SMR that was sent to a locator at its moment in nanoseconds.
#[derive(Clone, Copy, Debug, PartialEq, Eq)]
pub struct Solicitation {
    pub moment: u64,
    pub rloc: Addr,
    /// The prefix of the site that the SMR was for.
    pub eid: Eid,
}

/// How the header of a packet to a locator deals with echoes.
#[derive(Clone, Copy, Debug, PartialEq, Eq)]
pub enum EchoOut {
    Plain,
    /// The header echoes this nonce.
    Answer(u32),
    /// The header requests an echo of this nonce.
    Ask(u32),
}
