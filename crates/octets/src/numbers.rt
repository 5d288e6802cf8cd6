// Numbers of several octets, at a place.
ghost use Rattle.std.specs.Prelude.{◌≡◌, ◌+◌, ◌≤◌, length};
ghost use Rattle.octets.specs.Numbers.{big, little};

use byteorder::{BigEndian, ByteOrder, LittleEndian};

/// The 16 bit number at a place, its highest octet first.
pub fn big_16(octets: &[u8], at: usize) -> u16
    requires { at + 2 ≤ length octets.now }
    ensures { result ≡ big 2 octets.now at }
{
    BigEndian::read_u16(&octets[at..])
}

/// The 32 bit number at a place, its highest octet first.
pub fn big_32(octets: &[u8], at: usize) -> u32
    requires { at + 4 ≤ length octets.now }
    ensures { result ≡ big 4 octets.now at }
{
    BigEndian::read_u32(&octets[at..])
}

/// The 128 bit number at a place, its highest octet first.
pub fn big_128(octets: &[u8], at: usize) -> u128
    requires { at + 16 ≤ length octets.now }
    ensures { result ≡ big 16 octets.now at }
{
    BigEndian::read_u128(&octets[at..])
}

/// The 16 bit number at a place, its lowest octet first.
pub fn little_16(octets: &[u8], at: usize) -> u16
    requires { at + 2 ≤ length octets.now }
    ensures { result ≡ little 2 octets.now at }
{
    LittleEndian::read_u16(&octets[at..])
}

/// The 32 bit number at a place, its lowest octet first.
pub fn little_32(octets: &[u8], at: usize) -> u32
    requires { at + 4 ≤ length octets.now }
    ensures { result ≡ little 4 octets.now at }
{
    LittleEndian::read_u32(&octets[at..])
}
