// Packets that the router makes itself, gathered.
ghost use Rattle.std.specs.Prelude.{◌≡◌, ◌+◌, ◌*◌, ◌^◌, ◌<◌, ◌∷◌, ◌++◌, [], length, map, All, OnOk};
ghost use Rattle.lisp_settings.specs.Lawful.{IsLawful};
ghost use Rattle.router_core.specs.Sendable.{IsSendable};
ghost use Rattle.router_model.specs.Emits.{emit_packet};
ghost use Rattle.router_model.specs.Plain.{emit_packets};
ghost use Rattle.router_model.specs.Standing.{standing_by};
ghost use Rattle.forwarders.specs.Gathering.{packet_gathered, IsFit};

use crate::gathering::Gathered;
use crate::round_done::Packet;
use lisp_settings::Settings;
use octets::NoMemory;
use router_core::emit_octets;
use router_log::Emit;
use router_model::Own;
use std::collections::VecDeque;

/// Gathers the packets of emits at a moment, by the own locators and versions as they then stand.
pub(crate) fn push_emits(
    settings: &Settings,
    own: &Own,
    moment: u64,
    emits: &[Emit],
    items: &mut VecDeque<Gathered>,
) -> Result<(), NoMemory>
    requires lawful { IsLawful settings.now }
    requires sendable { All (IsSendable (standing_by settings.now own.now)) emits.now }
    requires moment { moment < 2 ^ 32 * 1000000000 }
    ensures items { OnOk result (items.new.items ≡ items.old.items
        ++ map packet_gathered (emit_packets (standing_by settings.now own.now) moment emits.now)) }
    ensures fits { OnOk result (All IsFit items.old.items → All IsFit items.new.items) }
{
    for emit in emits {
        push_emit(settings, own, moment, emit, items)?;
    }
    Ok(())
}

// Gathers the packet of an emit at a moment, by the own locators and versions as they then stand.
fn push_emit(
    settings: &Settings,
    own: &Own,
    moment: u64,
    emit: &Emit,
    items: &mut VecDeque<Gathered>,
) -> Result<(), NoMemory>
    requires lawful { IsLawful settings.now }
    requires sendable { IsSendable (standing_by settings.now own.now) emit.now }
    requires moment { moment < 2 ^ 32 * 1000000000 }
    ensures items { OnOk result (items.new.items ≡ items.old.items
        ++ packet_gathered (record {
          moment = moment;
          octets = emit_packet (standing_by settings.now own.now) emit.now;
        }) ∷ []) }
    ensures fits { OnOk result (All IsFit items.old.items → All IsFit items.new.items) }
{
    let octets = emit_octets(*items.allocator(), settings, own, emit)?;
    items.push_back(Gathered::Packet(Packet { moment, octets }))?;
    Ok(())
}
