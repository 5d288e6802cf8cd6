// Hexadecimal digits: read in either case, and written in lower case.
ghost use Rattle.std.specs.Prelude.{◌≡◌, ◌<◌, ◌++◌, ◌∷◌, [], Some, IfOk, OnOk, length, string_bytes};
ghost use Rattle.lisp_settings.specs.Hex.{digit, hex_number, hex_octets, octet_of, octets_in};

use octets::NoMemory;
use std::alloc::Global;

/// The N octets that a text of 2 N hexadecimal digits spells, or None.
pub fn hex_octets<const N: usize>(text: &[u8]) -> Option<[u8; N]>
    ensures { result ≡ hex_octets N text.now }
{
    if text.len() % 2 != 0 || text.len() / 2 != N {
        return None;
    }
    let mut octets = [0; N];
    for i in 0..N {
        octets[i] = octet_of(text[2 * i], text[2 * i + 1])?;
    }
    Some(octets)
}

fn octet_of(first: u8, second: u8) -> Option<u8>
    ensures { result ≡ octet_of first second }
{
    Some(digit(first)? * 16 + digit(second)?)
}

/// The value of a hexadecimal digit, or None for any other octet.
fn digit(octet: u8) -> Option<u8>
    ensures { result ≡ digit octet }
{
    match octet {
        b'0'..=b'9' => Some(octet - b'0'),
        b'A'..=b'F' => Some(octet - (b'A' - 10)),
        b'a'..=b'f' => Some(octet - (b'a' - 10)),
        _ => None,
    }
}

/// The text of a number: 16 hexadecimal digits.
pub fn number_text(alloc: Global, number: u64) -> Result<String, NoMemory>
    ensures { IfOk result (λ text. hex_number (string_bytes text) ≡ Some number) }
{
    octets_text(alloc, &number.to_be_bytes())
}

/// The text of octets: two hexadecimal digits for each.
pub fn octets_text(alloc: Global, octets: &[u8]) -> Result<String, NoMemory>
    ensures { IfOk result (λ text.
        hex_octets (length octets.now) (string_bytes text) ≡ Some octets.now) }
{
    let mut text = String::new(alloc);
    for octet in octets {
        push_octet(&mut text, *octet)?;
    }
    Ok(text)
}

/// Appends the two hexadecimal digits of an octet.
fn push_octet(text: &mut String, octet: u8) -> Result<(), NoMemory>
    ensures { OnOk result ((known : _) → octets_in (string_bytes text.old) ≡ Some known
        → octets_in (string_bytes text.new) ≡ Some (known ++ octet ∷ [])) }
{
    text.push(digit_of(octet / 16))?;
    text.push(digit_of(octet % 16))?;
    Ok(())
}

/// The hexadecimal digit of a value below 16.
fn digit_of(value: u8) -> char
    requires { value < 16 }
    ensures ascii { result < 128 }
    ensures value { digit result ≡ Some value }
{
    if value < 10 {
        char::from(b'0' + value)
    } else {
        char::from(b'a' - 10 + value)
    }
}
