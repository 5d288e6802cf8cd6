// Fields at fixed places of a message.
ghost use Rattle.std.specs.Prelude.{◌≡◌, ◌≤◌, length};
ghost use Rattle.map_messages.specs.Words.{bit, kind, nonce_at};

use byteorder::{BigEndian, ByteOrder};

/// The type of a message.
pub(crate) fn kind(octets: &[u8]) -> u8
    requires { 1 ≤ length octets.now }
    ensures { result ≡ kind octets.now }
{
    octets[0] / 16
}

/// Whether the bit of that weight is set in an octet. The weight isn't 0.
pub(crate) fn bit(weight: u8, octet: u8) -> bool
    requires { 1 ≤ weight }
    ensures { result ≡ bit weight octet }
{
    octet / weight % 2 == 1
}

/// The nonce of a Map-Request or a Map-Reply.
pub(crate) fn nonce_at(octets: &[u8]) -> u64
    requires { 12 ≤ length octets.now }
    ensures { result ≡ nonce_at octets.now }
{
    BigEndian::read_u64(&octets[4..])
}
