// Writing of Map-Requests.
ghost use Rattle.std.specs.Prelude.{◌≡◌, ◌<◌, ◌^◌, ◌++◌, OnOk, IfSome};
ghost use Rattle.map_messages.specs.Range.{InRangeRequest};
ghost use Rattle.map_messages.specs.Request.{canonical_request, canonical_source, request_head};

use crate::items::write_items;
use crate::records::write_piggyback;
use crate::reply_addr::write_host;
use crate::{Addr, MapRequest, NoMemory, Octets};
use std::alloc::Global;

/// Appends a Map-Request. Without memory a part of it stays.
pub(crate) fn write_request(
    alloc: Global,
    request: &MapRequest,
    out: &mut Octets,
) -> Result<(), NoMemory>
    requires { InRangeRequest request.now }
    ensures { OnOk result (out.new ≡ out.old ++ canonical_request request.now) }
{
    out.append(&head(request))?;
    write_source(request.source, out)?;
    write_items(alloc, request.replies_to.as_slice(), out)?;
    write_items(alloc, request.eids.as_slice(), out)?;
    write_piggyback(alloc, &request.piggyback, out)
}

// The first twelve octets of a Map-Request, up to and with its nonce.
fn head(request: &MapRequest) -> [u8; 12]
    requires { InRangeRequest request.now }
    ensures { result ≡ request_head request.now }
{
    let record = if request.piggyback.is_some() { 4 } else { 0 };
    let probe = if request.probe { 2 } else { 0 };
    let smr = if request.smr { 1 } else { 0 };
    let invoked = if request.invoked { 64 } else { 0 };
    let addrs = request.replies_to.len() as u8 - 1;
    let count = request.eids.len() as u8;
    let [a, b, c, d, e, f, g, h] = request.nonce.to_be_bytes();
    let first = 16 + record + probe + smr;
    [first, invoked, addrs, count, a, b, c, d, e, f, g, h]
}

fn write_source(source: Option<(u32, Addr)>, out: &mut Octets) -> Result<(), NoMemory>
    requires { IfSome source (λ held. held.0 < 2 ^ 24) }
    ensures { OnOk result (out.new ≡ out.old ++ canonical_source source) }
{
    match source {
        Some((iid, addr)) => write_host(iid, addr, out),
        None => out.append(&[0, 0]),
    }
}
