// Options among words: a name and then a value, in any order.
ghost use Rattle.std.specs.Prelude.{◌≡◌, ◌≤◌, IfSome, map, string_bytes, option_map};
ghost use Rattle.std.specs.List.{list_all, list_any};
ghost use Rattle.std.specs.Str.{bytes_eq};
ghost use Rattle.command_words.specs.Words.{are_options, is_decimal, is_digit, is_option, is_value, number_in, number_or, value_of};

use crate::Word;

/// Whether the words are names, each with a value behind it; each is one of these names, and none
/// comes twice.
pub fn are_options(names: &[&str], words: &[Word]) -> bool
    ensures { result ≡ are_options (map (λ name. name.now) names.now) (map string_bytes words.now) }
{
    let [name, value, more @ ..] = words else {
        return words.len() == 0;
    };
    is_option(names, name.as_str(), value.as_str(), more) && are_options(names, more)
}

// A name that is one of these, with a value, before words in which it doesn't come again.
fn is_option(names: &[&str], name: &str, value: &str, more: &[Word]) -> bool
    ensures { result ≡ is_option (map (λ known. known.now) names.now) name.now value.now
        (map string_bytes more.now) }
{
    is_known(names, name) && is_value(value) && value_of(name, more).is_none()
}

/// The value behind an option's name.
pub fn value_of<'a>(name: &str, words: &'a [Word]) -> Option<&'a str>
    ensures { option_map (λ value. value.now) result ≡ value_of name.now (map string_bytes words.now) }
{
    let mut rest = words;
    while let [other, value, more @ ..] = rest {
        if other.as_str() == name {
            return Some(value.as_str());
        }
        rest = more;
    }
    None
}

fn is_known(names: &[&str], name: &str) -> bool
    ensures { result
        ≡ list_any (λ known. bytes_eq known name.now) (map (λ known. known.now) names.now) }
{
    names.contains(&name)
}

// A value isn't empty and doesn't begin like a name.
fn is_value(word: &str) -> bool
    ensures { result ≡ is_value word.now }
{
    match word.as_bytes() {
        [] => false,
        [first, ..] => *first != b'-',
    }
}

/// The number behind an option's name, from the least to the greatest, and without the option the
/// default. None where it isn't spelled so.
pub fn number_or(words: &[Word], name: &str, bounds: (u32, u32), default: u32) -> Option<u32>
    requires { (bounds.0 ≤ default) × (default ≤ bounds.1) }
    ensures number { result ≡ number_or bounds.0 bounds.1 default
        (value_of name.now (map string_bytes words.now)) }
    ensures within { IfSome result (λ n. (bounds.0 ≤ n) × (n ≤ bounds.1)) }
{
    match value_of(name, words) {
        Some(text) => number_in(text, bounds.0, bounds.1),
        None => Some(default),
    }
}

/// The number from the least to the greatest that the text writes in decimal digits.
pub fn number_in(text: &str, least: u32, greatest: u32) -> Option<u32>
    ensures number { result ≡ number_in least greatest text.now }
    ensures within { IfSome result (λ n. (least ≤ n) × (n ≤ greatest)) }
{
    if !is_decimal(text.as_bytes()) {
        return None;
    }
    let number = match text.parse::<u32>() {
        Ok(number) => number,
        Err(_) => return None,
    };
    if least <= number && number <= greatest {
        Some(number)
    } else {
        None
    }
}

// Whether octets are decimal digits, of which the first is 0 only where it stands alone.
fn is_decimal(octets: &[u8]) -> bool
    ensures { result ≡ is_decimal octets.now }
{
    let [first, rest @ ..] = octets else {
        return false;
    };
    if !is_digit(*first) || !are_digits(rest) {
        return false;
    }
    *first != b'0' || rest.len() == 0
}

fn are_digits(octets: &[u8]) -> bool
    ensures { result ≡ list_all is_digit octets.now }
{
    octets.iter().all(|octet| is_digit(*octet))
}

fn is_digit(octet: u8) -> bool
    ensures { result ≡ is_digit octet }
{
    b'0' <= octet && octet <= b'9'
}
