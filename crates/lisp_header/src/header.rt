// The LISP data header as a value, and its UDP port.

/// The UDP port of LISP data packets (RFC 9300).
pub const LISP_DATA_PORT: u16 = 4341;

/// The eight octets behind the outer UDP header (RFC 9300, section 5.3). What a flag leaves out is
/// `None`: a nonce and versions never stand side by side.
#[derive(Clone, Copy, Debug, PartialEq, Eq)]
pub struct LispHeader {
    /// The nonce of 24 bits, where N is set.
    pub nonce: Option<u32>,
    /// Whether an echo of the nonce is requested: E, which counts only with N.
    pub echo: bool,
    /// Source and destination Map-Version, of 12 bits each, where V is set and N is clear.
    pub versions: Option<(u16, u16)>,
    /// The locator status bits where L is set: 32 of them, or 8 beside an instance.
    pub status: Option<u32>,
    /// The Instance ID of 24 bits, where I is set.
    pub instance: Option<u32>,
    /// The two key bits; 0 where the payload is not encrypted (RFC 8061).
    pub key: u8,
}
