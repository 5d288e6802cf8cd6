// Writing of Encapsulated Control Messages.
ghost use Rattle.std.specs.Prelude.{◌≡◌, ◌≤◌, ◌++◌, length, OnOk, IfOk};
ghost use Rattle.ip_headers.specs.Addr.{width};
ghost use Rattle.map_messages.specs.Control.{canonical_carried, canonical_ecm, control_packet};
ghost use Rattle.map_messages.specs.Limits.{most_message_octets};
ghost use Rattle.map_messages.specs.Range.{InRangeEcm};

use crate::control_header::write_control_header;
use crate::limits::FIRST_ROOM;
use crate::reply_writing::write_reply;
use crate::request_writing::write_request;
use crate::{Addr, Ecm, LISP_CONTROL_PORT, NoMemory, Octets};
use ip_headers::write_udp;
use std::alloc::Global;

/// Appends an Encapsulated Control Message. Without memory a part of it stays.
pub(crate) fn write_ecm(alloc: Global, ecm: &Ecm, out: &mut Octets) -> Result<(), NoMemory>
    requires range { InRangeEcm ecm.now }
    requires short { length (canonical_ecm ecm.now) ≤ most_message_octets }
    ensures { OnOk result (out.new ≡ out.old ++ canonical_ecm ecm.now) }
{
    let payload = carried_octets(alloc, ecm)?;
    out.append(&[128, 0, 0, 0])?;
    write_packet(
        ecm.source,
        ecm.dest,
        ecm.source_port,
        payload.as_slice(),
        out,
    )
}

fn carried_octets(alloc: Global, ecm: &Ecm) -> Result<Octets, NoMemory>
    requires { InRangeEcm ecm.now }
    ensures { IfOk result (λ octets. octets ≡ canonical_carried ecm.now.request ecm.now.reply) }
{
    let mut octets = Octets::with_capacity(alloc, FIRST_ROOM)?;
    if let Some(request) = &ecm.request {
        write_request(alloc, request, &mut octets)?;
    }
    if let Some(reply) = &ecm.reply {
        write_reply(alloc, reply, &mut octets)?;
    }
    Ok(octets)
}

// Appends a message in its packet: IP header, UDP header, and the message.
#[tactic(auto, unfolding(crate::specs::Control::control_packet))]
fn write_packet(
    from: Addr,
    to: Addr,
    port: u16,
    payload: &[u8],
    out: &mut Octets,
) -> Result<(), NoMemory>
    requires family { width from ≡ width to }
    requires short { length payload.now ≤ most_message_octets }
    ensures { OnOk result (out.new ≡ out.old ++ control_packet from to port payload.now) }
{
    write_control_header(from, to, 8 + payload.len() as u16, out)?;
    write_udp(from, to, port, LISP_CONTROL_PORT, payload, true, out)
}
