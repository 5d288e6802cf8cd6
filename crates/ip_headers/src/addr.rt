// IP addresses.
ghost use Rattle.std.specs.Prelude.{◌≡◌};
ghost use Rattle.std.specs.Ordering.{is_lt};
ghost use Rattle.ip_headers.specs.Addr.{addr_order, same_address};

/// An IP address. Each IPv4 address is below each IPv6 address.
#[derive(Clone, Copy, Debug, PartialEq, Eq, PartialOrd, Ord)]
pub enum Addr {
    V4(u32),
    V6(u128),
}

impl Addr {
    ghost use Rattle.ip_headers.specs.Addr.{width};

    /// The number of bits: 32 or 128.
    pub fn width(&self) -> u8
        ensures { result ≡ width self.now }
    {
        match self {
            Addr::V4(_) => 32,
            Addr::V6(_) => 128,
        }
    }
}

/// Whether two addresses are of one family and have the same bits.
pub fn same_address(a: &Addr, b: &Addr) -> bool
    ensures { result ≡ same_address a.now b.now }
{
    a == b
}

/// Whether the first address comes before the second in the order of addresses.
pub fn is_below(a: &Addr, b: &Addr) -> bool
    ensures { result ≡ is_lt (addr_order a.now b.now) }
{
    a < b
}
