// The status of the locators of a mapping (RFC 9300, section 10).
ghost use Rattle.std.specs.Prelude.{◌≡◌, ◌+◌, ◌<◌, ◌^◌, ◌&&◌, not, if◌then◌else◌, length};
ghost use Rattle.std.specs.List.{list_any};
ghost use Rattle.mapping_records.specs.Eids.{same_address};
ghost use Rattle.router_model.specs.Cache.{known_up};
ghost use Rattle.router_model.specs.Mappings.{bit, status_of};
ghost use Rattle.router_model.specs.Note.{differs};

use ip_headers::{Addr, same_address};
use lisp_settings::Locator;
use map_cache::Mapping;

/// Whether locator `index` of a mapping is up: by its status bit where one is known, else as its
/// record has it.
pub(crate) fn is_up(mapping: &Mapping, index: usize, locator: &Locator) -> bool
    ensures { result ≡ known_up mapping.now index locator.now }
{
    if bit(index, mapping.known) {
        bit(index, mapping.bits)
    } else {
        locator.reachable
    }
}

/// Whether one of the locators has this address.
pub(crate) fn is_named(locators: &[Locator], address: &Addr) -> bool
    ensures { result ≡ list_any (λ locator. same_address locator.addr address.now) locators.now }
{
    for locator in locators {
        if same_address(&locator.addr, address) {
            return true;
        }
    }
    false
}

/// Whether one of a mapping's locators from number `index` on has another status than its bit among
/// the lowest `width` bits.
pub(crate) fn differs(
    mapping: &Mapping,
    bits: u32,
    width: u8,
    index: usize,
    locators: &[Locator],
) -> bool
    requires { index + length locators.now < 2 ^ 64 }
    ensures { result ≡ differs bits width index (status_of (known_up mapping.now) index locators.now) }
{
    let [locator, others @ ..] = locators else {
        return false;
    };
    (index < width as usize && is_other(is_up(mapping, index, locator), bit(index, bits)))
        || differs(mapping, bits, width, index + 1, others)
}

fn is_other(up: bool, told: bool) -> bool
    ensures { result ≡ (if up then not told else told) }
{
    if up { !told } else { told }
}

fn bit(index: usize, bits: u32) -> bool
    ensures { result ≡ bit index bits }
{
    index < 32 && bits >> index & 1 == 1
}
