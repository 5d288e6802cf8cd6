// Whether a packet of an instance leaves the site, by the settings.
ghost use Rattle.std.specs.Prelude.{◌≡◌, IfOk, IfErr, Some, None};
ghost use Rattle.octets.specs.Rules.{first_failing};
ghost use Rattle.ip_headers.specs.Ip.{source_of};
ghost use Rattle.lisp_settings.specs.Home.{home_of};
ghost use Rattle.router_model.specs.Decide.{is_multicast, site_cases};
ghost use Rattle.router_model.specs.Plain.{packet_of};

use ip_headers::{Addr, IpHeader};
use lisp_settings::{Database, Settings, home};
use router_log::{Reason, Verdict};

/// The prefix of the site that a packet of an instance leaves, or the verdict on a packet that
/// stays out of a tunnel.
pub fn leaving_from<'s>(
    settings: &'s Settings,
    iid: u32,
    header: &IpHeader,
) -> Result<&'s Database, Verdict>
    ensures leaves { IfOk result (λ database.
        first_failing (site_cases settings.now iid header.now) ≡ None) }
    ensures prefix { IfOk result (λ database. Some database.now
        ≡ home_of settings.now.databases iid (source_of header.now)) }
    ensures stays { IfErr result (λ verdict.
        first_failing (site_cases settings.now iid header.now) ≡ Some verdict) }
    ensures quiet { IfErr result (λ verdict. packet_of verdict ≡ None) }
{
    let dest = header.dest();
    if is_multicast(dest) {
        return Err(Verdict::Drop(Reason::Multicast));
    }
    if home(settings, iid, &dest).is_some() {
        return Err(Verdict::Local);
    }
    match home(settings, iid, &header.source()) {
        Some(database) => Ok(database),
        None => Err(Verdict::Drop(Reason::NotSite)),
    }
}

fn is_multicast(address: Addr) -> bool
    ensures { result ≡ is_multicast address }
{
    match address {
        Addr::V4(number) => number >> 28 == 14 || number == 0xffff_ffff,
        Addr::V6(number) => number >> 120 == 255,
    }
}
