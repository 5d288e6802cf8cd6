// The flags of the first octet, by their weights.
ghost use Rattle.std.specs.Prelude.{◌≡◌, ◌<◌, length};
ghost use Rattle.octets.specs.Numbers.{flag};
ghost use Rattle.lisp_header.specs.Header.{flag_at};

/// N: a nonce stands in the octets from 1 on.
pub const NONCE: u8 = 128;
/// L: the status bits count.
pub const STATUS: u8 = 64;
/// E: an echo of the nonce is requested.
pub const ECHO: u8 = 32;
/// V: two versions stand in the octets from 1 on.
pub const VERSIONS: u8 = 16;
/// I: an instance stands in the octets from 4 on.
pub const INSTANCE: u8 = 8;

pub fn flag_at(octets: &[u8], weight: u8) -> bool
    requires some { 0 < length octets.now }
    requires weight { 0 < weight }
    ensures { result ≡ flag_at weight octets.now }
{
    octets[0] / weight % 2 == 1
}

/// What a flag adds to its octet.
pub fn flag(set: bool, weight: u8) -> u8
    ensures { result ≡ flag set weight }
{
    if set { weight } else { 0 }
}
