// The size above which a packet is split.
ghost use Rattle.std.specs.Prelude.{◌≡◌};
ghost use Rattle.encap.specs.Rules.{outer_len};
ghost use Rattle.ip_headers.specs.declared.addr.Addr.TheVariants.{V4, V6};
ghost use Rattle.split_v4.specs.Limits.{has_v6, most_offset, split_size};
ghost use Rattle.split_v4.specs.declared.limits.TheConstants.{MOST_OFFSET, V4_OUTER, V6_OUTER};

use encap::MOST_TUNNEL_OCTETS;
use ip_headers::Addr;
use lisp_settings::{OwnLocator, Settings};

/// The octets of outer IPv4 header, UDP header and LISP header.
pub const V4_OUTER: u16 = 36;

/// The octets of outer IPv6 header, UDP header and LISP header.
pub const V6_OUTER: u16 = 56;

/// The most that a fragment offset is, in units of eight octets.
pub const MOST_OFFSET: u16 = 8191;

/// Law: the constants are the defined numbers, and these are their values.
pub fn limits_are()
    ensures v4 { V4_OUTER ≡ outer_len (V4 0) }
    ensures v6 { V6_OUTER ≡ outer_len (V6 0) }
    ensures offset { MOST_OFFSET ≡ most_offset }
    ensures worked { (outer_len (V4 0) ≡ 36) × ((outer_len (V6 0) ≡ 56) × (most_offset ≡ 8191)) }
{}

/// The most octets of a packet that isn't split. Takes no memory.
pub fn split_size(settings: &Settings) -> u16
    ensures { result ≡ split_size settings.now }
{
    let outer = if has_v6(settings.locators.as_slice()) {
        V6_OUTER
    } else {
        V4_OUTER
    };
    MOST_TUNNEL_OCTETS as u16 - outer
}

// An own locator, up or not, is an IPv6 address.
fn has_v6(locators: &[OwnLocator]) -> bool
    ensures { result ≡ has_v6 locators.now }
{
    let [own, others @ ..] = locators else {
        return false;
    };
    matches!(own.addr, Addr::V6(_)) || has_v6(others)
}
