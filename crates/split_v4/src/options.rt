// The options of an IPv4 header (RFC 791, section 3.1).
ghost use Rattle.std.specs.Prelude.{◌≡◌, ◌≤◌, ◌++◌, length, option_map, IfSome, IsTrue, OnOk};
ghost use Rattle.split_v4.specs.Options.{are_options, begins_well, behind_option, copied_in, copied_of, ends_options, first_option, is_copied, options_in, padding, size_in};

use octets::NoMemory;

/// How many octets the copied options have; None where an option isn't well formed.
pub(crate) fn copied_len(octets: &[u8]) -> Option<usize>
    ensures value { result
        ≡ option_map (λ options. length (copied_of options)) (options_in octets.now) }
    ensures few { IfSome result (λ size. size ≤ length octets.now) }
{
    if ends_options(octets) {
        return Some(0);
    }
    if !begins_well(octets) {
        return None;
    }
    let (option, behind) = split_option(octets);
    let others = copied_len(behind)?;
    if is_copied(option) {
        return Some(option.len() + others);
    }
    Some(others)
}

/// Appends the copied options.
pub(crate) fn append_copied(octets: &[u8], out: &mut Vec<u8>) -> Result<(), NoMemory>
    requires { IsTrue (are_options octets.now) }
    ensures { OnOk result (out.new.items ≡ out.old.items ++ copied_in octets.now) }
{
    if ends_options(octets) {
        return Ok(());
    }
    let (option, behind) = split_option(octets);
    if is_copied(option) {
        out.extend_from_slice(option)?;
        return append_copied(behind, out);
    }
    append_copied(behind, out)
}

/// How many zeros lead to the next place of four octets.
pub(crate) fn padding(size: usize) -> usize
    ensures value { result ≡ padding size }
    ensures few { result ≤ 3 }
{
    (4 - size % 4) % 4
}

// Whether no option is left.
fn ends_options(octets: &[u8]) -> bool
    ensures { result ≡ ends_options octets.now }
{
    octets.is_empty() || octets[0] == 0
}

// Whether the option at the front is well formed.
fn begins_well(octets: &[u8]) -> bool
    requires { 1 ≤ length octets.now }
    ensures { result ≡ begins_well octets.now }
{
    if octets[0] == 1 {
        return true;
    }
    octets.len() >= 2 && (octets[1] >= 2 && usize::from(octets[1]) <= octets.len())
}

// The option at the front, and what is behind it.
fn split_option(octets: &[u8]) -> (&[u8], &[u8])
    requires some { 1 ≤ length octets.now }
    requires well { IsTrue (begins_well octets.now) }
    ensures option { result.0.now ≡ first_option octets.now }
    ensures behind { result.1.now ≡ behind_option octets.now }
{
    octets.split_at(option_size(octets))
}

fn option_size(octets: &[u8]) -> usize
    requires some { 1 ≤ length octets.now }
    requires well { IsTrue (begins_well octets.now) }
    ensures value { result ≡ size_in octets.now }
    ensures some { 1 ≤ result }
    ensures fits { result ≤ length octets.now }
{
    if octets[0] == 1 {
        1
    } else {
        usize::from(octets[1])
    }
}

// Whether the option stands in each fragment.
fn is_copied(option: &[u8]) -> bool
    requires { 1 ≤ length option.now }
    ensures { result ≡ is_copied option.now }
{
    option[0] >= 128
}
