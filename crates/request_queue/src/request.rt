// One request of the queue.
use ip_headers::Addr;
use mapping_records::Eid;

/// A Map-Request that was sent and is open.
#[derive(Clone, Copy, Debug, PartialEq, Eq)]
pub struct Request {
    /// The EID that the request is for.
    pub eid: Eid,
    /// The Source EID in the request.
    pub source: Option<Addr>,
    /// Whether an SMR of another router led to the request.
    pub invoked: bool,
    pub nonce: u64,
    /// The moment of its first transmission, in nanoseconds.
    pub start: u64,
    /// How often it was sent again, at most 2.
    pub sent_again: u8,
}
