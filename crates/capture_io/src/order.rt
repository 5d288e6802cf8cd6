// Numbers in either byte order.
ghost use Rattle.std.specs.Prelude.{◌≡◌, ◌+◌, ◌≤◌, length};

use octets::{big_16, big_32, little_16, little_32};

/// The byte order of a file's numbers.
#[derive(Clone, Copy, Debug, PartialEq, Eq)]
pub enum Order {
    /// The lowest octet first.
    Little,
    /// The highest octet first.
    Big,
}

impl Order {
    ghost use Rattle.capture_io.specs.Capture.{number};

    /// The number in the two octets at a place, in this byte order.
    pub fn number_16(self, octets: &[u8], at: usize) -> u16
        requires { at + 2 ≤ length octets.now }
        ensures { result ≡ number self 2 octets.now at }
    {
        match self {
            Order::Little => little_16(octets, at),
            Order::Big => big_16(octets, at),
        }
    }

    /// The number in the four octets at a place, in this byte order.
    pub fn number_32(self, octets: &[u8], at: usize) -> u32
        requires { at + 4 ≤ length octets.now }
        ensures { result ≡ number self 4 octets.now at }
    {
        match self {
            Order::Little => little_32(octets, at),
            Order::Big => big_32(octets, at),
        }
    }
}
