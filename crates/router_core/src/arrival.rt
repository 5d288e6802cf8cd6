// Packets in a tunnel to the router: taken out of it and delivered, or dropped.
ghost use Rattle.router_core.specs.Site.{IsSite};
ghost use Rattle.std.specs.Prelude.{◌≡◌, IfOk, option_map};
ghost use Rattle.std.specs.Option.{option_copied};
ghost use Rattle.octets.specs.Rules.{first_failing};
ghost use Rattle.ip_headers.specs.Ip.{dest_of, source_of};
ghost use Rattle.lisp_header.specs.Header.{InRange};
ghost use Rattle.decap.specs.Delivered.{deliver_rules};
ghost use Rattle.lisp_settings.specs.Home.{home_of};
ghost use Rattle.router_model.specs.Cache.{held_of};
ghost use Rattle.router_model.specs.Decide.{for_home, force_for, iid_of, leaves, tunnelled, unless_decided, version_cases};
ghost use Rattle.router_model.specs.Lifting.{AreSound};
ghost use Rattle.router_model.specs.Plain.{FitsRecord};
ghost use Rattle.router_core.specs.Seen.{datagram_seen};
ghost use Rattle.router_core.specs.Table.{seen};

use crate::Table;
use crate::datagram::Datagram;
use crate::hosts::host_eid;
use crate::tellings::notices;
use crate::versions::wrong_version;
use crate::view::View;
use decap::{DecapDrop, OpenDrop, Tunnelled, deliver, open_tunnel};
use lisp_settings::Database;
use map_cache::Mapping;
use octets::NoMemory;
use router_log::{Decision, Reason, Verdict};

/// The decision on a packet in a tunnel to the router.
pub(crate) fn tunnelled(view: &View<'_>, datagram: &Datagram) -> Result<Decision, NoMemory>
    requires { IsSite view.now.site }
    ensures decision { IfOk result (λ decision. decision
        ≡ tunnelled view.now.site (seen view.now) (datagram_seen datagram.now)) }
    ensures size { IfOk result (λ decision. FitsRecord decision.verdict) }
    ensures notices { IfOk result (λ decision. AreSound decision.notices) }
{
    match open_tunnel(&datagram.packet, &datagram.udp) {
        Ok(tunnel) => for_home(view, &tunnel),
        Err(OpenDrop::Refused(refused)) => {
            Ok(view.table.alone(Verdict::Drop(Reason::Refused(refused))))
        }
        Err(OpenDrop::Encrypted) => Ok(view.table.alone(Verdict::Drop(Reason::Encrypted))),
    }
}

// The decision on a packet that came out of its tunnel, by the prefix of the site that it is for;
// without one it is dropped.
fn for_home(view: &View<'_>, tunnel: &Tunnelled) -> Result<Decision, NoMemory>
    requires lawful { IsSite view.now.site }
    requires range { InRange tunnel.now.header }
    ensures decision { let lisp = tunnel.now.header in let inner = tunnel.now.inner in
        IfOk result (λ decision. decision ≡ for_home tunnel.now.outer lisp inner.octets.now
        (force_for (seen view.now) (iid_of lisp) (source_of inner.header))
        (home_of view.now.site.databases (iid_of lisp) (dest_of inner.header))) }
    ensures size { IfOk result (λ decision. FitsRecord decision.verdict) }
    ensures notices { IfOk result (λ decision. AreSound decision.notices) }
{
    let iid = tunnel.header.instance.unwrap_or(0);
    match view.home(iid, &tunnel.inner.header.dest()) {
        None => Ok(view.table.alone(Verdict::Drop(Reason::NotOurs))),
        Some(database) => {
            let source = host_eid(iid, tunnel.inner.header.source());
            let Some((name, mapping)) = view.in_force_named(&source) else {
                return arrive(view.table, iid, tunnel, &database, None);
            };
            let mut decision = arrive(view.table, iid, tunnel, &database, Some(mapping))?;
            decision.notices.found_at(name);
            Ok(decision)
        }
    }
}

// The decision on a packet for the site, by the prefix that it is for (`home`) and the mapping in
// force for its source. Its versions are judged first.
fn arrive(
    table: &Table,
    iid: u32,
    tunnel: &Tunnelled,
    home: &Database,
    mapping: Option<&Mapping>,
) -> Result<Decision, NoMemory>
    requires range { InRange tunnel.now.header }
    requires instance { iid ≡ iid_of tunnel.now.header }
    ensures decision { let lisp = tunnel.now.header in let inner = tunnel.now.inner in
        let held = option_map held_of (option_copied mapping.entry) in
        IfOk result (λ decision. decision
        ≡ unless_decided (first_failing (version_cases lisp home.now held))
        (leaves tunnel.now.outer lisp inner.octets.now home.now held
        (first_failing (deliver_rules inner.octets.now tunnel.now.outer)))) }
    ensures size { IfOk result (λ decision. FitsRecord decision.verdict) }
    ensures notices { IfOk result (λ decision. AreSound decision.notices) }
{
    if let Some(verdict) = wrong_version(&tunnel.header, home, mapping) {
        return Ok(table.alone(verdict));
    }
    leave(table, iid, tunnel, home, mapping)
}

// The decision on a packet for the site whose versions don't drop it: it is delivered, unless ECN
// or hops drop it.
fn leave(
    table: &Table,
    iid: u32,
    tunnel: &Tunnelled,
    home: &Database,
    mapping: Option<&Mapping>,
) -> Result<Decision, NoMemory>
    requires range { InRange tunnel.now.header }
    requires instance { iid ≡ iid_of tunnel.now.header }
    ensures decision { let inner = tunnel.now.inner in
        IfOk result (λ decision. decision ≡ leaves tunnel.now.outer tunnel.now.header
        inner.octets.now home.now (option_map held_of (option_copied mapping.entry))
        (first_failing (deliver_rules inner.octets.now tunnel.now.outer))) }
    ensures size { IfOk result (λ decision. FitsRecord decision.verdict) }
    ensures notices { IfOk result (λ decision. AreSound decision.notices) }
{
    match deliver(table.alloc, tunnel) {
        Ok(packet) => {
            let rloc = tunnel.outer.source();
            let notices = notices(table.alloc, rloc, &tunnel.header, home, mapping)?;
            Ok(Decision {
                verdict: Verdict::Delivered { iid, packet },
                notices,
            })
        }
        Err(DecapDrop::CongestionMark) => Ok(table.alone(Verdict::Drop(Reason::CongestionMark))),
        Err(DecapDrop::TtlExpired) => Ok(table.alone(Verdict::Drop(Reason::TtlExpired))),
        Err(DecapDrop::Memory) => Err(NoMemory),
    }
}
