// Blocks that were read, and the position behind them.
ghost use Rattle.std.specs.Prelude.{◌≡◌, ◌≤◌, ◌<◌, ◌+◌, length, option_and_then, option_map, IfOk, IfErr, IfSome, IsErrOf, OnOk, OnErr, Some, None, false};
ghost use Rattle.octets.specs.Rules.{first_failing};
ghost use Rattle.capture_io.specs.Limits.{most_records};
ghost use Rattle.capture_ng.specs.Answers.{is_outside_fault};
ghost use Rattle.capture_ng.specs.Faults.{body_rules, interface_rules, packet_rules, section_rules};
ghost use Rattle.capture_ng.specs.Frames.{after_block, counted, passed};
ghost use Rattle.capture_ng.specs.Held.{IsHeld};
ghost use Rattle.capture_ng.specs.Limits.{most_blocks};
ghost use Rattle.capture_ng.specs.Packets.{frame_of, interface_of, packet_in, packet_of, packet_place};
ghost use Rattle.capture_ng.specs.Reading.{IsCounted, IsNext};
ghost use Rattle.capture_ng.specs.declared.fault.NgFault.TheVariants.{Host};
ghost use Rattle.capture_ng.specs.declared.head.Kind.TheVariants.{InterfaceDescription, SectionHeader};

use crate::bodies::section_fault;
use crate::frames::read_packet;
use crate::head::{Head, Kind};
use crate::interfaces::read_interface;
use crate::position::Position;
use crate::{MOST_INTERFACES, NgFault};
use capture_io::Frame;
use std::alloc::Global;

/// Moves the position behind a block whose head and end break no rule, and returns its frame, None
/// where it keeps none, or the first rule that its body breaks. After a fault the position is as
/// before.
pub fn take_block(
    alloc: Global,
    vlans: bool,
    at: &mut Position,
    head: Head,
    octets: Vec<u8>,
) -> Result<Option<Frame>, NgFault>
    requires { IsHeld at.old head octets.items }
    ensures rules { IfOk result (λ o.
        first_failing (body_rules head.kind at.old head octets.items) ≡ None) }
    ensures position { IfOk result (λ o. at.new ≡ after_block head.kind at.old head octets.items) }
    ensures frame { IfOk result (λ o.
        o ≡ option_map (frame_of vlans) (packet_in at.old head octets.items)) }
    ensures next { IfOk result (λ o. IfSome o (IsNext vlans at.old)) }
    ensures count { IfOk result (λ o. IsCounted o at.old at.new) }
    ensures blocks { IfOk result (λ o. at.new.blocks ≡ at.old.blocks + 1) }
    ensures fault { IfErr result (λ fault. is_outside_fault fault ≡ false →
        Some fault ≡ first_failing (body_rules head.kind at.old head octets.items)) }
    ensures host { IsErrOf result Host → ⊥ }
    ensures err { IfErr result (λ fault. at.new ≡ at.old) }
{
    match head.kind {
        Kind::SectionHeader => {
            begin_section(at, head, &octets)?;
            Ok(None)
        }
        Kind::InterfaceDescription => {
            add_interface(at, head, &octets)?;
            Ok(None)
        }
        Kind::SimplePacket => Ok(Some(take_packet(alloc, vlans, at, head, octets)?)),
        Kind::EnhancedPacket => Ok(Some(take_packet(alloc, vlans, at, head, octets)?)),
        Kind::ObsoletePacket | Kind::Other => {
            at.pass(head);
            Ok(None)
        }
    }
}

// Moves the position behind a section header, into a new section without interfaces.
fn begin_section(at: &mut Position, head: Head, octets: &[u8]) -> Result<(), NgFault>
    requires octets { 14 ≤ length octets.now }
    requires room { at.old.blocks < most_blocks }
    ensures rules { OnOk result (first_failing (section_rules at.old head octets.now) ≡ None) }
    ensures position { OnOk result (at.new ≡ after_block SectionHeader at.old head octets.now) }
    ensures fault { IfErr result (λ fault.
        Some fault ≡ first_failing (section_rules at.old head octets.now)) }
    ensures host { IsErrOf result Host → ⊥ }
    ensures err { OnErr result (at.new ≡ at.old) }
{
    if let Some(fault) = section_fault(at, head, octets) {
        return Err(fault);
    }
    at.pass(head);
    at.order = Some(head.order);
    at.interfaces.clear();
    Ok(())
}

// Moves the position behind an interface description block, and adds its interface to the section.
fn add_interface(at: &mut Position, head: Head, octets: &[u8]) -> Result<(), NgFault>
    requires least { 20 ≤ head.length }
    requires whole { head.length ≤ length octets.now }
    requires room { at.old.blocks < most_blocks }
    ensures rules { OnOk result (first_failing (interface_rules at.old head octets.now) ≡ None) }
    ensures position { OnOk result
        (at.new ≡ after_block InterfaceDescription at.old head octets.now) }
    ensures fault { IfErr result (λ fault. is_outside_fault fault ≡ false →
        Some fault ≡ first_failing (interface_rules at.old head octets.now)) }
    ensures host { IsErrOf result Host → ⊥ }
    ensures err { OnErr result (at.new ≡ at.old) }
{
    let Some(interface) = read_interface(head, octets) else {
        return Err(NgFault::BadOption(at.place));
    };
    if at.interfaces.len() >= MOST_INTERFACES {
        return Err(NgFault::TooManyInterfaces(at.place));
    }
    at.interfaces.push(interface)?;
    at.pass(head);
    Ok(())
}

// Moves the position behind a packet block, and returns its frame.
fn take_packet(
    alloc: Global,
    vlans: bool,
    at: &mut Position,
    head: Head,
    octets: Vec<u8>,
) -> Result<Frame, NgFault>
    requires fields { packet_place head + 4 ≤ head.length }
    requires whole { length octets.items ≡ head.length }
    requires count { at.old.count < most_records }
    requires room { at.old.blocks < most_blocks }
    ensures rules { IfOk result (λ f. first_failing (packet_rules at.old head octets.items) ≡ None) }
    ensures position { IfOk result (λ f. at.new ≡ counted (passed at.old head)
        (option_and_then (packet_of at.old head octets.items) (interface_of at.old head octets.items))) }
    ensures frame { IfOk result (λ f. Some f ≡ option_map (frame_of vlans)
        (option_and_then (packet_of at.old head octets.items) (interface_of at.old head octets.items))) }
    ensures next { IfOk result (IsNext vlans at.old) }
    ensures count { IfOk result (λ f. IsCounted (Some f) at.old at.new) }
    ensures blocks { IfOk result (λ f. at.new.blocks ≡ at.old.blocks + 1) }
    ensures fault { IfErr result (λ fault. is_outside_fault fault ≡ false →
        Some fault ≡ first_failing (packet_rules at.old head octets.items)) }
    ensures host { IsErrOf result Host → ⊥ }
    ensures err { IfErr result (λ fault. at.new ≡ at.old) }
{
    let frame = read_packet(alloc, vlans, at, head, octets)?;
    at.pass(head);
    at.count = frame.number;
    at.greatest = Some(frame.moment);
    Ok(frame)
}
