// The packets that this router makes itself.
ghost use Rattle.router_model.specs.Standing.{standing_by};
ghost use Rattle.std.specs.Prelude.{◌≡◌, ◌≤◌, IsTrue, is_some, length, IfOk};
ghost use Rattle.capture_io.specs.Limits.{most_frame_octets};
ghost use Rattle.map_messages.specs.Message.{canonical_message};
ghost use Rattle.map_messages.specs.Range.{InRange};
ghost use Rattle.map_messages.specs.Limits.{most_message_octets};
ghost use Rattle.lisp_settings.specs.Lawful.{IsLawful};
ghost use Rattle.lisp_settings.specs.declared.settings.Settings.{Settings as SettingsValue};
ghost use Rattle.router_log.specs.declared.emit.Emit.TheVariants as emits;
ghost use Rattle.router_model.specs.Emits.{emit_packet, packet_to};
ghost use Rattle.router_model.specs.Site.{ours};
ghost use Rattle.router_core.specs.Site.{IsSite};
ghost use Rattle.router_core.specs.Sendable.{IsSendable, IsSendableReply};

use crate::control_writing::{message_packet, reply_packet};
use crate::own_requests::{probe_message, request_message, solicit_message};
use crate::site::Site;
use ip_headers::Addr;
use lisp_settings::Settings;
use map_messages::{Eid, LISP_CONTROL_PORT, MapReply, Message};
use octets::{NoMemory, Octets};
use router_log::Emit;
use router_model::Own;
use std::alloc::Global;

/// The packet of an emit, with its IP and UDP headers (RFC 9301, section 5). A Map-Request goes to
/// the resolver, encapsulated; a probe and an SMR go to their locators; a Map-Reply goes to its
/// reply address. Without a resolver, or where no own locator of its family is up, the packet of a
/// Map-Request is empty. The own locators and versions in it are those that stand by `own`.
pub fn emit_octets(
    alloc: Global,
    settings: &Settings,
    own: &Own,
    emit: &Emit,
) -> Result<Octets, NoMemory>
    requires lawful { IsLawful settings.now }
    requires sendable { IsSendable (standing_by settings.now own.now) emit.now }
    ensures octets { IfOk result (λ packet. packet
        ≡ emit_packet (standing_by settings.now own.now) emit.now) }
    ensures size { IfOk result (λ packet. length packet ≤ most_frame_octets) }
{
    let site = Site::of(settings, *own);
    match emit {
        Emit::Request {
            eid,
            source,
            invoked,
            nonce,
        } => request_octets(alloc, &site, *eid, *source, *invoked, *nonce),
        Emit::Probe { to, eid, nonce } => probe_octets(alloc, &site, *to, *eid, *nonce),
        Emit::Solicit { to, eid, nonce } => solicit_octets(alloc, &site, *to, *eid, *nonce),
        Emit::Reply {
            from,
            to,
            port,
            reply,
        } => reply_octets(alloc, *from, *to, *port, reply),
    }
}

// The packet of a Map-Request to the resolver; empty without a resolver, or where no own locator of
// its family is up.
#[tactic(auto, unfolding(router_model::specs::Emits::emit_packet))]
fn request_octets(
    alloc: Global,
    site: &Site<'_>,
    eid: Eid,
    source: Option<Addr>,
    invoked: bool,
    nonce: u64,
) -> Result<Octets, NoMemory>
    requires lawful { IsSite site.now }
    ensures octets { IfOk result (λ packet. packet
        ≡ emit_packet site.now (emits.Request eid source invoked nonce)) }
    ensures size { IfOk result (λ packet. length packet ≤ most_frame_octets) }
{
    let Some(resolver) = site.resolver() else {
        return Ok(Octets::new(alloc));
    };
    let Some(from) = site.ours(resolver) else {
        return Ok(Octets::new(alloc));
    };
    let message = request_message(alloc, site, eid, source, invoked, nonce)?;
    message_packet(alloc, from, resolver, LISP_CONTROL_PORT, &message)
}

// The packet of a Map-Request that probes a locator.
#[tactic(auto, unfolding(router_model::specs::Emits::emit_packet))]
fn probe_octets(
    alloc: Global,
    site: &Site<'_>,
    to: Addr,
    eid: Eid,
    nonce: u64,
) -> Result<Octets, NoMemory>
    requires lawful { IsSite site.now }
    requires sender { IsTrue (is_some (ours site.now.locators to)) }
    ensures octets { IfOk result (λ packet. packet
        ≡ emit_packet site.now (emits.Probe to eid nonce)) }
    ensures size { IfOk result (λ packet. length packet ≤ most_frame_octets) }
{
    let message = probe_message(alloc, site, eid, nonce)?;
    packet_to(alloc, site, to, &message)
}

// The packet of an SMR to a locator.
#[tactic(auto, unfolding(router_model::specs::Emits::emit_packet))]
fn solicit_octets(
    alloc: Global,
    site: &Site<'_>,
    to: Addr,
    eid: Eid,
    nonce: u64,
) -> Result<Octets, NoMemory>
    requires lawful { IsSite site.now }
    requires sender { IsTrue (is_some (ours site.now.locators to)) }
    ensures octets { IfOk result (λ packet. packet
        ≡ emit_packet site.now (emits.Solicit to eid nonce)) }
    ensures size { IfOk result (λ packet. length packet ≤ most_frame_octets) }
{
    let message = solicit_message(alloc, site, eid, nonce)?;
    packet_to(alloc, site, to, &message)
}

// The packet of a Map-Reply.
#[tactic(auto, unfolding(router_model::specs::Emits::emit_packet))]
fn reply_octets(
    alloc: Global,
    from: Addr,
    to: Addr,
    port: u16,
    reply: &MapReply,
) -> Result<Octets, NoMemory>
    requires { IsSendableReply from to reply.now }
    ensures octets { IfOk result (λ packet. (settings : SettingsValue)
        → packet ≡ emit_packet settings (emits.Reply from to port reply.now)) }
    ensures size { IfOk result (λ packet. length packet ≤ most_frame_octets) }
{
    reply_packet(alloc, from, to, port, reply)
}

// The packet of a message to an address, from the own locator of its family.
fn packet_to(
    alloc: Global,
    site: &Site<'_>,
    to: Addr,
    message: &Message,
) -> Result<Octets, NoMemory>
    requires sender { IsTrue (is_some (ours site.now.locators to)) }
    requires range { InRange message.now }
    requires short { length (canonical_message message.now) ≤ most_message_octets }
    ensures octets { IfOk result (λ packet. packet ≡ packet_to site.now to message.now) }
    ensures size { IfOk result (λ packet. length packet ≤ most_frame_octets) }
{
    let Some(from) = site.ours(to) else {
        unreachable!()
    };
    message_packet(alloc, from, to, LISP_CONTROL_PORT, message)
}
