// Numbers and addresses as a report writes them.
ghost use Rattle.std.specs.Prelude.{◌≡◌, ◌<◌, ◌≤◌, ◌+◌, ◌*◌, ◌%◌, ◌^◌, ◌∷◌, ◌++◌, length, drop, flat_map, OnOk};
ghost use Rattle.std.specs.Fmt.{decimal};
ghost use Rattle.router_log.specs.Numbers.{address_text, dotted, fixed_decimal, fixed_hex, four_groups, groups, hex_16, hex_glyph, named};

use crate::digits::{
    MOST_DIGITS, write_digits, write_eight, write_octet, write_octet_digits, write_octets,
};
use ip_headers::Addr;
use octets::{NoMemory, Octets};

/// Appends a number in decimal digits. Where memory is refused, the contract leaves `out` open.
#[tactic(auto, using(crate::proofs::DigitLemmas::length_any))]
pub fn push_number(number: u64, out: &mut Octets) -> Result<(), NoMemory>
    ensures { OnOk result (out.new ≡ out.old ++ decimal number) }
{
    let mut text = [0u8; MOST_DIGITS];
    let from = write_digits(number, &mut text, MOST_DIGITS);
    out.append(&text[from..])
}

/// Appends a name and a number. Where memory is refused, `out` may have a part of it.
#[tactic(auto, unfolding(crate::specs::Numbers::named))]
pub fn push_named(name: &[u8], number: u64, out: &mut Octets) -> Result<(), NoMemory>
    ensures { OnOk result (out.new ≡ out.old ++ named name.now number) }
{
    out.append(name)?;
    push_number(number, out)
}

/// Writes a name and a number before the place `end`. Returns the place of the name's first octet.
/// Inlined, as `write_digits` is.
#[inline(always)]
#[tactic(auto, using(crate::proofs::DigitLemmas::length_any), unfolding(crate::specs::Numbers::named))]
pub fn write_named(name: &[u8], number: u64, text: &mut [u8], end: usize) -> usize
    requires { (length name.now + MOST_DIGITS ≤ end) × (end ≤ length text.old) }
    ensures place { (result ≤ end) × (end ≤ result + length name.now + MOST_DIGITS) }
    ensures written { drop result text.new ≡ named name.now number ++ drop end text.old }
{
    let from = write_digits(number, text, end);
    write_octets(name, text, from)
}

/// Writes nine decimal digits before the place `end`, with leading zeros. Returns the place of the first
/// one.
#[tactic(auto, using(crate::proofs::DigitLemmas::nine_digits, std::proofs::lemmas::Grind::common_steps))]
pub(crate) fn write_nine(number: u32, text: &mut [u8], end: usize) -> usize
    requires { (number < 1000000000) × ((9 ≤ end) × (end ≤ length text.old)) }
    ensures place { result + 9 ≡ end }
    ensures written { drop result text.new ≡ fixed_decimal 9 number ++ drop end text.old }
{
    write_eight(number % 100_000_000, text, end - 8);
    write_octet(b'0' + (number / 100_000_000) as u8, text, end - 8)
}

/// Writes sixteen hexadecimal digits before the place `end`, with leading zeros. Returns the place of
/// the first one.
pub fn write_hex(number: u64, text: &mut [u8], end: usize) -> usize
    requires { (16 ≤ end) × (end ≤ length text.old) }
    ensures place { result + 16 ≡ end }
    ensures written { drop result text.new ≡ hex_16 number ++ drop end text.old }
{
    write_octets(&hex_digits(number), text, end)
}

#[tactic(auto, unfolding(crate::specs::Numbers::hex_16))]
fn hex_digits(number: u64) -> [u8; 16]
    ensures { result ≡ hex_16 number }
{
    [
        hex_digit(number / 0x1000_0000_0000_0000),
        hex_digit(number / 0x100_0000_0000_0000),
        hex_digit(number / 0x10_0000_0000_0000),
        hex_digit(number / 0x1_0000_0000_0000),
        hex_digit(number / 0x1000_0000_0000),
        hex_digit(number / 0x100_0000_0000),
        hex_digit(number / 0x10_0000_0000),
        hex_digit(number / 0x1_0000_0000),
        hex_digit(number / 0x1000_0000),
        hex_digit(number / 0x100_0000),
        hex_digit(number / 0x10_0000),
        hex_digit(number / 0x1_0000),
        hex_digit(number / 0x1000),
        hex_digit(number / 0x100),
        hex_digit(number / 0x10),
        hex_digit(number),
    ]
}

// The hexadecimal digits of 0 to 255, two octets each, so that one look into it gives both.
static HEX_PAIRS: [u8; 512] = *b"\
    000102030405060708090a0b0c0d0e0f101112131415161718191a1b1c1d1e1f\
    202122232425262728292a2b2c2d2e2f303132333435363738393a3b3c3d3e3f\
    404142434445464748494a4b4c4d4e4f505152535455565758595a5b5c5d5e5f\
    606162636465666768696a6b6c6d6e6f707172737475767778797a7b7c7d7e7f\
    808182838485868788898a8b8c8d8e8f909192939495969798999a9b9c9d9e9f\
    a0a1a2a3a4a5a6a7a8a9aaabacadaeafb0b1b2b3b4b5b6b7b8b9babbbcbdbebf\
    c0c1c2c3c4c5c6c7c8c9cacbcccdcecfd0d1d2d3d4d5d6d7d8d9dadbdcdddedf\
    e0e1e2e3e4e5e6e7e8e9eaebecedeeeff0f1f2f3f4f5f6f7f8f9fafbfcfdfeff";

/// Appends two hexadecimal digits for each octet. Where memory is refused, `out` may have some of them.
pub fn push_octets(octets: &[u8], out: &mut Octets) -> Result<(), NoMemory>
    ensures { OnOk result (out.new ≡ out.old ++ flat_map (fixed_hex 2) octets.now) }
{
    for octet in octets {
        push_octet(*octet, out)?;
    }
    Ok(())
}

fn push_octet(octet: u8, out: &mut Octets) -> Result<(), NoMemory>
    ensures { OnOk result (out.new ≡ out.old ++ fixed_hex 2 octet) }
{
    let octet = u64::from(octet);
    out.append(&[hex_digit(octet / 16), hex_digit(octet)])
}

/// Writes two hexadecimal digits for each octet before the place `end`. Returns the place of the first
/// one.
pub fn write_hex_octets(octets: &[u8], text: &mut [u8], end: usize) -> usize
    requires { (length octets.now * 2 ≤ end) × (end ≤ length text.old) }
    ensures place { result + length octets.now * 2 ≡ end }
    ensures written { drop result text.new
        ≡ flat_map (fixed_hex 2) octets.now ++ drop end text.old }
{
    let mut left = octets.len();
    let mut from = end;
    while left > 0 {
        left -= 1;
        from = write_hex_octet(octets[left], text, from);
    }
    from
}

#[tactic(auto, using(crate::proofs::HexLemmas::octet_at, std::proofs::lemmas::Grind::common_steps))]
fn write_hex_octet(octet: u8, text: &mut [u8], end: usize) -> usize
    requires { (2 ≤ end) × (end ≤ length text.old) }
    ensures place { result + 2 ≡ end }
    ensures written { drop result text.new ≡ fixed_hex 2 octet ++ drop end text.old }
{
    let place = octet as usize * 2;
    let upper = HEX_PAIRS[place];
    let lower = HEX_PAIRS[place + 1];
    text[end - 1] = lower;
    text[end - 2] = upper;
    end - 2
}

/// The most octets of an address.
pub const MOST_ADDRESS: usize = 39;

/// Writes an address before the place `end`: IPv4 dotted, IPv6 as eight groups of four hexadecimal digits.
/// Returns the place of its first octet.
#[inline(always)]
pub fn write_address(address: Addr, text: &mut [u8], end: usize) -> usize
    requires { (MOST_ADDRESS ≤ end) × (end ≤ length text.old) }
    ensures place { (result ≤ end) × (end ≤ result + MOST_ADDRESS) }
    ensures written { drop result text.new ≡ address_text address ++ drop end text.old }
{
    match address {
        Addr::V4(number) => write_dotted(number, text, end),
        Addr::V6(number) => write_groups(number, text, end),
    }
}

// Writes four numbers of at most three digits, with three dots between them.
fn write_dotted(number: u32, text: &mut [u8], end: usize) -> usize
    requires { (16 ≤ end) × (end ≤ length text.old) }
    ensures place { (result ≤ end) × (end ≤ result + 15) }
    ensures written { drop result text.new ≡ dotted number ++ drop end text.old }
{
    let fourth = write_dot_octet((number % 256) as u8, text, end);
    let third = write_dot_octet((number / 256 % 256) as u8, text, fourth);
    let second = write_dot_octet((number / 65_536 % 256) as u8, text, third);
    write_octet_digits((number / 16_777_216) as u8, text, second)
}

fn write_dot_octet(octet: u8, text: &mut [u8], end: usize) -> usize
    requires { (4 ≤ end) × (end ≤ length text.old) }
    ensures place { (result < end) × (end ≤ result + 4) }
    ensures written { drop result text.new ≡ 46 ∷ (decimal octet ++ drop end text.old) }
{
    let from = write_octet_digits(octet, text, end);
    write_octet(b'.', text, from)
}

// Not inlined, so that an IPv4 address doesn't pay for the registers that an IPv6 address needs.
#[inline(never)]
fn write_groups(number: u128, text: &mut [u8], end: usize) -> usize
    requires { (39 ≤ end) × (end ≤ length text.old) }
    ensures place { result + 39 ≡ end }
    ensures written { drop result text.new ≡ groups number ++ drop end text.old }
{
    let from = write_half((number % 0x1_0000_0000_0000_0000) as u64, text, end);
    let from = write_octet(b':', text, from);
    write_half((number / 0x1_0000_0000_0000_0000) as u64, text, from)
}

// Writes four groups, with three colons between them.
#[tactic(auto, unfolding(crate::specs::Numbers::four_groups))]
fn write_half(half: u64, text: &mut [u8], end: usize) -> usize
    requires { (19 ≤ end) × (end ≤ length text.old) }
    ensures place { result + 19 ≡ end }
    ensures written { drop result text.new ≡ four_groups half ++ drop end text.old }
{
    let from = write_colon_group((half % 0x1_0000) as u16, text, end);
    let from = write_colon_group((half / 0x1_0000 % 0x1_0000) as u16, text, from);
    let from = write_colon_group((half / 0x1_0000_0000 % 0x1_0000) as u16, text, from);
    write_group((half / 0x1_0000_0000_0000) as u16, text, from)
}

// Writes a group of four digits and, before it, a colon.
fn write_colon_group(group: u16, text: &mut [u8], end: usize) -> usize
    requires { (5 ≤ end) × (end ≤ length text.old) }
    ensures place { result + 5 ≡ end }
    ensures written { drop result text.new ≡ 58 ∷ (fixed_hex 4 group ++ drop end text.old) }
{
    let from = write_group(group, text, end);
    write_octet(b':', text, from)
}

#[tactic(auto, using(crate::proofs::HexLemmas::two_octets, std::proofs::lemmas::Grind::common_steps))]
fn write_group(group: u16, text: &mut [u8], end: usize) -> usize
    requires { (4 ≤ end) × (end ≤ length text.old) }
    ensures place { result + 4 ≡ end }
    ensures written { drop result text.new ≡ fixed_hex 4 group ++ drop end text.old }
{
    let from = write_hex_octet((group % 256) as u8, text, end);
    write_hex_octet((group / 256) as u8, text, from)
}

// The hexadecimal digits: to look one up takes half the steps of a test for letters.
static GLYPHS: [u8; 16] = *b"0123456789abcdef";

// The lowest hexadecimal digit of a number, in lower case.
#[tactic(auto, using(crate::proofs::DigitLemmas::glyph_at))]
fn hex_digit(number: u64) -> u8
    ensures { result ≡ hex_glyph (number % 16) }
{
    GLYPHS[(number % 16) as usize]
}
