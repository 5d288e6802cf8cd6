// Packets from the site: sent in a tunnel, forwarded natively, or dropped.
ghost use Rattle.std.specs.Prelude.{◌≡◌, ◌<◌, ◌≤◌, ◌^◌, IfOk, Some};
ghost use Rattle.octets.specs.Rules.{first_failing};
ghost use Rattle.ip_headers.specs.Addr.{width};
ghost use Rattle.ip_headers.specs.Ip.{dest_of, source_of};
ghost use Rattle.lisp_header.specs.Header.{InRange};
ghost use Rattle.encap.specs.Rules.{encap_rules, forward_rules};
ghost use Rattle.lisp_settings.specs.Home.{home_of};
ghost use Rattle.locator_choice.specs.Hash.{source_port};
ghost use Rattle.map_cache.specs.Lists.{IsFew};
ghost use Rattle.router_model.specs.Cache.{held_of};
ghost use Rattle.router_model.specs.Decide.{asking, by_action, echo_notice, from_ours, hash_of, home_version, mapped, natively, routed, sent};
ghost use Rattle.router_model.specs.Hosts.{host_eid};
ghost use Rattle.router_model.specs.Lifting.{AreSound};
ghost use Rattle.router_model.specs.Limits.{most_version};
ghost use Rattle.router_model.specs.Plain.{FitsRecord};
ghost use Rattle.router_model.specs.Site.{ours};
ghost use Rattle.router_log.specs.declared.verdict.Verdict.TheVariants.{Drop};
ghost use Rattle.router_core.specs.Site.{IsSite};
ghost use Rattle.router_core.specs.Seen.{packet_seen};
ghost use Rattle.router_core.specs.Bounded.{IsVersioned};
ghost use Rattle.router_core.specs.Table.{seen};

use crate::Table;
use crate::choice::chosen;
use crate::hosts::host_eid;
use crate::tunnel_headers::header_to;
use crate::view::View;
use encap::{EncapDrop, encapsulate, forward_native};
use ip_headers::{Addr, IpPacket, five_tuple};
use lisp_header::LispHeader;
use locator_choice::{flow_hash, source_port};
use map_cache::Mapping;
use mapping_records::{Action, Eid};
use octets::NoMemory;
use router_log::{Decision, Notice, Notices, Reason, Verdict};
use std::alloc::Global;

/// The decision on a packet of an instance to another address than those of own locators.
#[tactic(auto, unfolding(router_model::specs::Decide::routed))]
pub(crate) fn routed(view: &View<'_>, iid: u32, packet: &IpPacket) -> Result<Decision, NoMemory>
    requires lawful { IsSite view.now.site }
    requires instance { iid < 2 ^ 24 }
    ensures decision { IfOk result (λ decision. decision
        ≡ routed view.now.site (seen view.now) iid (packet_seen packet.now)) }
    ensures size { IfOk result (λ decision. FitsRecord decision.verdict) }
    ensures notices { IfOk result (λ decision. AreSound decision.notices) }
{
    let version = match view.site.leaving_version(iid, &packet.header) {
        Ok(version) => version,
        Err(verdict) => return Ok(view.table.alone(verdict)),
    };
    let eid = host_eid(iid, packet.header.dest());
    match view.in_force(&eid) {
        Some(mapping) => mapped(view, iid, version, packet, mapping),
        None => asking(view.alloc(), eid, packet, Reason::Miss),
    }
}

// The decision to drop a packet, with the notice to request a mapping for its destination.
fn asking(alloc: Global, eid: Eid, packet: &IpPacket, reason: Reason) -> Result<Decision, NoMemory>
    requires dest { host_eid eid.iid (dest_of packet.now.header) ≡ Some eid }
    ensures decision { IfOk result (λ decision. decision
        ≡ asking eid.iid packet.now.header reason) }
    ensures size { IfOk result (λ decision. FitsRecord decision.verdict) }
    ensures notices { IfOk result (λ decision. AreSound decision.notices) }
{
    let mut notices = Notices::new(alloc);
    notices.push(Notice::Ask {
        eid,
        source: Some(packet.header.source()),
    })?;
    Ok(Decision {
        verdict: Verdict::Drop(reason),
        notices,
    })
}

// The decision on a packet from a prefix of the site with that version, by the mapping in force for
// its destination.
fn mapped(
    view: &View<'_>,
    iid: u32,
    version: u16,
    packet: &IpPacket,
    mapping: &Mapping,
) -> Result<Decision, NoMemory>
    requires lawful { IsSite view.now.site }
    requires instance { iid < 2 ^ 24 }
    requires source { version
        ≡ home_version (home_of view.now.site.databases iid (source_of packet.now.header)) }
    requires bits { version ≤ most_version }
    requires few { IsFew mapping.now }
    requires version { IsVersioned mapping.now }
    ensures decision { IfOk result (λ decision. decision
        ≡ mapped view.now.site (seen view.now) iid (packet_seen packet.now)
        (Some (held_of mapping.now))) }
    ensures size { IfOk result (λ decision. FitsRecord decision.verdict) }
    ensures notices { IfOk result (λ decision. AreSound decision.notices) }
{
    if mapping.details.locators.len() == 0 {
        return by_action(view.table, iid, packet, Action::of(mapping.details.action));
    }
    let hash = flow_hash(&five_tuple(packet));
    match chosen(view, mapping, hash) {
        Some(to) => {
            let versions = (version, mapping.details.version);
            let header = header_to(view, iid, to, versions);
            towards(view, packet, to, source_port(hash), &header)
        }
        None => Ok(view.table.alone(Verdict::Drop(Reason::NoLocator))),
    }
}

// The decision on a packet by the action of a mapping without locators.
fn by_action(
    table: &Table,
    iid: u32,
    packet: &IpPacket,
    action: Action,
) -> Result<Decision, NoMemory>
    requires { iid < 2 ^ 24 }
    ensures decision { IfOk result (λ decision. decision
        ≡ by_action iid (packet_seen packet.now) action) }
    ensures size { IfOk result (λ decision. FitsRecord decision.verdict) }
    ensures notices { IfOk result (λ decision. AreSound decision.notices) }
{
    let reason = match action {
        Action::NativelyForward => {
            let verdict = natively(table.alloc, packet)?;
            return Ok(table.alone(verdict));
        }
        Action::SendMapRequest => {
            let eid = host_eid(iid, packet.header.dest());
            return asking(table.alloc, eid, packet, Reason::SendRequest);
        }
        Action::NoAction => Reason::NoAction,
        Action::DropNoReason => Reason::DropNoReason,
        Action::DropPolicy => Reason::DropPolicy,
        Action::DropAuth => Reason::DropAuth,
    };
    Ok(table.alone(Verdict::Drop(reason)))
}

// The verdict on a packet that is forwarded natively.
fn natively(alloc: Global, packet: &IpPacket) -> Result<Verdict, NoMemory>
    ensures verdict { IfOk result (λ verdict. verdict
        ≡ natively packet.now.octets.now (first_failing (forward_rules packet.now.octets.now))) }
    ensures size { IfOk result FitsRecord }
{
    match forward_native(alloc, packet) {
        Ok(packet) => Ok(Verdict::Native { packet }),
        Err(EncapDrop::TtlExpired) => Ok(Verdict::Drop(Reason::TtlExpired)),
        // A packet that is forwarded natively doesn't grow, so it is never too big.
        Err(EncapDrop::TooBig) => unreachable!(),
        Err(EncapDrop::Memory) => Err(NoMemory),
    }
}

// The two ends of a tunnel, and the source port of a flow in it.
#[derive(Clone, Copy)]
struct Tunnel {
    from: Addr,
    to: Addr,
    port: u16,
}

// The decision on a packet with its LISP header, in a tunnel to a locator, from the own locator of
// that locator's family; dropped without one.
fn towards(
    view: &View<'_>,
    packet: &IpPacket,
    to: Addr,
    port: u16,
    header: &LispHeader,
) -> Result<Decision, NoMemory>
    requires range { InRange header.now }
    requires port { port ≡ source_port (hash_of (packet_seen packet.now)) }
    ensures decision { IfOk result (λ decision. decision
        ≡ from_ours view.now.site (seen view.now) header.now (packet_seen packet.now) to
        (ours view.now.site.locators to)) }
    ensures size { IfOk result (λ decision. FitsRecord decision.verdict) }
    ensures notices { IfOk result (λ decision. AreSound decision.notices) }
{
    match view.site.ours(to) {
        Some(from) => sent(view, packet, Tunnel { from, to, port }, header),
        None => Ok(view.table.alone(Verdict::Drop(Reason::NoLocator))),
    }
}

// The decision on a packet with its LISP header, in a tunnel between two locators, with the notice
// that an echo may be requested of the second.
fn sent(
    view: &View<'_>,
    packet: &IpPacket,
    tunnel: Tunnel,
    header: &LispHeader,
) -> Result<Decision, NoMemory>
    requires range { InRange header.now }
    requires family { width tunnel.from ≡ width tunnel.to }
    requires port { tunnel.port ≡ source_port (hash_of (packet_seen packet.now)) }
    ensures decision { IfOk result (λ decision. decision
        ≡ sent view.now.site (seen view.now) header.now (packet_seen packet.now)
        tunnel.from tunnel.to (first_failing (encap_rules packet.now.octets.now tunnel.from))) }
    ensures size { IfOk result (λ decision. FitsRecord decision.verdict) }
    ensures notices { IfOk result (λ decision. AreSound decision.notices) }
{
    let Tunnel { from, to, port } = tunnel;
    match encapsulate(view.alloc(), packet, from, to, port, header) {
        Ok(packet) => Ok(Decision {
            verdict: Verdict::Encapsulated {
                from,
                to,
                port,
                packet,
            },
            notices: echo_notices(view, to)?,
        }),
        Err(EncapDrop::TtlExpired) => Ok(view.table.alone(Verdict::Drop(Reason::TtlExpired))),
        Err(EncapDrop::TooBig) => Ok(view.table.alone(Verdict::Drop(Reason::TooBig))),
        Err(EncapDrop::Memory) => Err(NoMemory),
    }
}

// The notice that an echo may be requested of the locator that a packet goes to, or none.
fn echo_notices(view: &View<'_>, to: Addr) -> Result<Notices, NoMemory>
    ensures notices { IfOk result (λ notices. notices
        ≡ echo_notice view.now.site (seen view.now) to) }
    ensures sound { IfOk result AreSound }
{
    let mut notices = Notices::new(view.alloc());
    if view.is_echo_due(&to) {
        notices.push(Notice::EchoDue { rloc: to })?;
    }
    Ok(notices)
}
