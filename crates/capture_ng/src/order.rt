// A number of 64 bits in either byte order.
ghost use Rattle.std.specs.Prelude.{◌≡◌, ◌≤◌, length};
ghost use Rattle.capture_io.specs.Capture.{number};

use byteorder::{BigEndian, ByteOrder, LittleEndian};
use capture_io::Order;

/// The number in the first eight octets, in that byte order.
pub fn number_64(order: Order, octets: &[u8]) -> u64
    requires { 8 ≤ length octets.now }
    ensures { result ≡ number order 8 octets.now 0 }
{
    match order {
        Order::Little => LittleEndian::read_u64(octets),
        Order::Big => BigEndian::read_u64(octets),
    }
}
