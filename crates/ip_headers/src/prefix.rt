// Prefixes of addresses.
ghost use Rattle.std.specs.Prelude.{◌≡◌, ◌≤◌, ◌<◌, ◌↔◌, ◌==◌, ◌&&◌, IsTrue, IsNone, IfSome};
ghost use Rattle.ip_headers.specs.Addr.{cleared, covers, first_bits, is_prefix, width};

use crate::Addr;

/// An address and how many of its bits count, at most 32 or 128. The bits past them are 0.
#[derive(Clone, Copy, Debug, PartialEq, Eq, PartialOrd, Ord)]
pub struct Prefix {
    pub addr: Addr,
    pub len: u8,
    ghost lawful: { IsTrue (is_prefix addr len) },
}

impl Prefix {
    /// The prefix of that length, its further bits cleared. None where the family has fewer bits.
    pub fn new(addr: Addr, len: u8) -> Option<Prefix>
        ensures none { IsNone result ↔ (width addr < len) }
        ensures addr { IfSome result (λ prefix. prefix.addr ≡ cleared addr len) }
        ensures len { IfSome result (λ prefix. prefix.len ≡ len) }
    {
        if len > addr.width() {
            return None;
        }
        Some(Prefix {
            addr: cleared(addr, len),
            len,
        })
    }

    /// The prefix of full length.
    pub fn host(addr: Addr) -> Prefix
        ensures addr { result.addr ≡ addr }
        ensures len { result.len ≡ width addr }
    {
        Prefix {
            addr,
            len: addr.width(),
        }
    }

    /// Whether both are of one family, `self` isn't the longer one, and `other` begins with its
    /// bits.
    pub fn covers(&self, other: &Prefix) -> bool
        ensures { result ≡ covers self.now.addr self.now.len other.now.addr other.now.len }
    {
        self.len <= other.len && same_first(self.addr, other.addr, self.len)
    }
}

fn cleared(addr: Addr, len: u8) -> Addr
    requires { len ≤ width addr }
    ensures { result ≡ cleared addr len }
{
    match addr {
        Addr::V4(_) if len == 0 => Addr::V4(0),
        Addr::V6(_) if len == 0 => Addr::V6(0),
        Addr::V4(n) => Addr::V4(n >> (32 - len) << (32 - len)),
        Addr::V6(n) => Addr::V6(n >> (128 - len) << (128 - len)),
    }
}

fn same_first(a: Addr, b: Addr, len: u8) -> bool
    requires { len ≤ width a }
    ensures { result ≡ ((width a == width b) && (first_bits a len == first_bits b len)) }
{
    match (a, b) {
        (Addr::V4(m), Addr::V4(n)) => len == 0 || m >> (32 - len) == n >> (32 - len),
        (Addr::V6(m), Addr::V6(n)) => len == 0 || m >> (128 - len) == n >> (128 - len),
        _ => false,
    }
}
