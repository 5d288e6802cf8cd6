// The LISP headers of the packets that this router sends (RFC 9300, section 5.3).
ghost use Rattle.std.specs.Prelude.{◌≡◌, ◌≢◌, ◌<◌, ◌≤◌, ◌%◌, ◌^◌, ◌==◌, None, Some, if◌then◌else◌};
ghost use Rattle.lisp_header.specs.Header.{InRange};
ghost use Rattle.router_model.specs.Decide.{asks_echo, echo_nonce, lisp_header, versions_of};
ghost use Rattle.router_model.specs.Limits.{most_version};
ghost use Rattle.router_model.specs.Site.{own_bits};
ghost use Rattle.router_core.specs.Site.{IsSite};
ghost use Rattle.router_core.specs.Bounded.{IsShortOut};
ghost use Rattle.router_core.specs.Table.{seen};

use crate::site::Site;
use crate::versions::is_version;
use crate::view::View;
use ip_headers::Addr;
use lisp_header::LispHeader;
use router_log::EchoOut;

/// The LISP header of a packet of an instance to a locator; `versions` are those of its source and
/// of its destination.
pub(crate) fn header_to(view: &View<'_>, iid: u32, to: Addr, versions: (u16, u16)) -> LispHeader
    requires lawful { IsSite view.now.site }
    requires instance { iid < 2 ^ 24 }
    requires source { versions.0 ≤ most_version }
    requires dest { versions.1 ≤ most_version }
    ensures header { result ≡ lisp_header view.now.site iid ((seen view.now).echo_out to)
        versions.0 versions.1 }
    ensures range { InRange result }
{
    lisp_header(view.site, iid, view.echo_out(&to), versions)
}

// The LISP header of a packet of an instance, by how it deals with echoes (`out`): the nonce of an
// echo or else the versions, and the own status bits.
fn lisp_header(site: &Site<'_>, iid: u32, out: EchoOut, versions: (u16, u16)) -> LispHeader
    requires lawful { IsSite site.now }
    requires instance { iid < 2 ^ 24 }
    requires short { IsShortOut out }
    requires source { versions.0 ≤ most_version }
    requires dest { versions.1 ≤ most_version }
    ensures header { result ≡ lisp_header site.now iid out versions.0 versions.1 }
    ensures range { InRange result }
{
    LispHeader {
        nonce: echo_nonce(out),
        echo: asks_echo(out),
        versions: versions_of(out, versions.0, versions.1),
        status: Some(own_status(site, iid)),
        instance: told_instance(iid),
        key: 0,
    }
}

fn echo_nonce(out: EchoOut) -> Option<u32>
    ensures { result ≡ echo_nonce out }
{
    match out {
        EchoOut::Plain => None,
        EchoOut::Answer(nonce) | EchoOut::Ask(nonce) => Some(nonce),
    }
}

fn asks_echo(out: EchoOut) -> bool
    ensures { result ≡ asks_echo out }
{
    match out {
        EchoOut::Ask(_) => true,
        EchoOut::Plain | EchoOut::Answer(_) => false,
    }
}

// The two versions in a LISP header: only without a nonce, and where either is a version.
fn versions_of(out: EchoOut, source: u16, dest: u16) -> Option<(u16, u16)>
    ensures { result ≡ versions_of out source dest }
{
    match out {
        EchoOut::Plain => {
            if is_version(source) || is_version(dest) {
                return Some((source, dest));
            }
            None
        }
        EchoOut::Answer(_) | EchoOut::Ask(_) => None,
    }
}

// The status bits of the own locators in a LISP header: beside an instance the lowest 8.
fn own_status(site: &Site<'_>, iid: u32) -> u32
    requires { IsSite site.now }
    ensures bits { result ≡ if iid == 0 then own_bits site.now.locators
        else own_bits site.now.locators % 256 }
    ensures short { iid ≢ 0 → result < 2 ^ 8 }
{
    let bits = site.own_bits();
    if iid == 0 { bits } else { bits % 256 }
}

// The instance in a LISP header, or None where it is 0.
fn told_instance(iid: u32) -> Option<u32>
    ensures { result ≡ if iid == 0 then None else Some iid }
{
    if iid == 0 { None } else { Some(iid) }
}
