// The control messages, as values.
ghost use Rattle.std.specs.Prelude.{◌≡◌, is_some, not};

use mapping_records::{Addr, Eid, Record, RecordFault};
use octets::Items;

/// The UDP port of LISP control messages (RFC 9301).
pub const LISP_CONTROL_PORT: u16 = 4342;

/// Why octets gave no message: the first rule that fails, or an allocation that was refused.
pub type MessageFault = RecordFault;

/// A list of addresses.
pub type Addrs = Items<Addr>;

/// A list of EIDs.
pub type Eids = Items<Eid>;

/// A list of mapping records.
pub type Records = Items<Record>;

/// A Map-Request (RFC 9301, section 5.2).
#[derive(Debug, Drop)]
pub struct MapRequest {
    /// P: the Map-Request probes the locator to which it goes.
    pub probe: bool,
    /// S: the Map-Request is an SMR, which solicits a Map-Request of its receiver.
    pub smr: bool,
    /// s: an SMR led to the Map-Request.
    pub invoked: bool,
    pub nonce: u64,
    /// The instance, below 2^24, and the address of the Source EID.
    pub source: Option<(u32, Addr)>,
    /// The ITR-RLOCs, 1 to 32: the addresses to which a reply may go.
    pub replies_to: Addrs,
    /// The EIDs for which the Map-Request asks, at most 255.
    pub eids: Eids,
    /// M: a record of the sender's own mapping.
    pub piggyback: Option<Record>,
}

/// A Map-Reply (RFC 9301, section 5.4).
#[derive(Debug, Drop)]
pub struct MapReply {
    /// P: the Map-Reply answers a probe.
    pub probe: bool,
    /// The nonce of the Map-Request that is answered.
    pub nonce: u64,
    /// The mapping records, at most 255.
    pub mappings: Records,
}

/// An Encapsulated Control Message (RFC 9301, section 5.8): a message in the packet that would
/// have carried it. Exactly one of the two messages is there.
#[derive(Debug, Drop)]
pub struct Ecm {
    /// The source address of the inner packet; `dest` is its destination.
    pub source: Addr,
    pub dest: Addr,
    /// The inner UDP source port.
    pub source_port: u16,
    pub request: Option<MapRequest>,
    pub reply: Option<MapReply>,
    ghost one: { is_some request ≡ not (is_some reply) },
}

/// A control message (RFC 9301, section 5).
#[derive(Debug, Drop)]
pub enum Message {
    Request(MapRequest),
    Reply(MapReply),
    Control(Ecm),
}
