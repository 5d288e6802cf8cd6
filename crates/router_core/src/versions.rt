// Map-Versions in the headers of tunnel packets (RFC 9302, section 7).
ghost use Rattle.std.specs.Prelude.{◌≡◌, None, IfSome, option_map, unwrap_or};
ghost use Rattle.std.specs.Option.{option_copied};
ghost use Rattle.octets.specs.Rules.{first_failing};
ghost use Rattle.router_model.specs.Cache.{held_of};
ghost use Rattle.router_model.specs.Decide.{cached_version, dest_version, is_newer, is_version, source_version, version_cases};
ghost use Rattle.router_model.specs.Plain.{packet_of};

use lisp_header::{LispHeader, newer};
use lisp_settings::Database;
use map_cache::Mapping;
use router_log::{Reason, Verdict};

/// Whether a number is a Map-Version: 0 is none.
pub(crate) fn is_version(version: u16) -> bool
    ensures { result ≡ is_version version }
{
    version != 0
}

/// Whether both numbers are versions, and the first is newer.
pub(crate) fn is_newer(a: u16, b: u16) -> bool
    ensures { result ≡ is_newer a b }
{
    is_version(a) && is_version(b) && newer(a, b)
}

/// The version that a header names of its sender's mapping, 0 where it has no versions.
pub(crate) fn source_version(header: &LispHeader) -> u16
    ensures { result ≡ source_version header.now }
{
    let (source, _) = named_versions(header);
    source
}

/// The version that a header names of the receiver's mapping, 0 where it has no versions.
pub(crate) fn dest_version(header: &LispHeader) -> u16
    ensures { result ≡ dest_version header.now }
{
    let (_, dest) = named_versions(header);
    dest
}

// The source and destination versions that a header names, 0 where it has none.
fn named_versions(header: &LispHeader) -> (u16, u16)
    ensures { result ≡ unwrap_or header.now.versions (0, 0) }
{
    header.versions.unwrap_or((0, 0))
}

// The version of the mapping in force, 0 without one.
fn cached_version(mapping: Option<&Mapping>) -> u16
    ensures { result ≡ cached_version (option_map held_of (option_copied mapping.entry)) }
{
    match mapping {
        None => 0,
        Some(mapping) => mapping.details.version,
    }
}

/// The verdict on a packet for the site that its versions drop, or None: it names a newer version
/// of the site's mapping than there is, or an older one of its source's mapping than is in force.
pub(crate) fn wrong_version(
    header: &LispHeader,
    home: &Database,
    mapping: Option<&Mapping>,
) -> Option<Verdict>
    ensures verdict { result ≡ first_failing (version_cases header.now home.now
        (option_map held_of (option_copied mapping.entry))) }
    ensures none { IfSome result (λ verdict. packet_of verdict ≡ None) }
{
    if is_newer(dest_version(header), home.version) {
        return Some(Verdict::Drop(Reason::DestVersionNewer));
    }
    if is_newer(cached_version(mapping), source_version(header)) {
        return Some(Verdict::Drop(Reason::SourceVersionOlder));
    }
    None
}
