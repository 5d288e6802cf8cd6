// The frame of a packet block.
ghost use Rattle.std.specs.Prelude.{◌≡◌, ◌≤◌, ◌<◌, ◌+◌, ◌&&◌, length, take, drop, nat_lt, slice_get, option_and_then, option_map, IfOk, IfErr, IfSome, IsErrOf, Some, None, false, if◌then◌else◌};
ghost use Rattle.std.specs.List.{All};
ghost use Rattle.octets.specs.Rules.{first_failing};
ghost use Rattle.capture_io.specs.Limits.{most_records};
ghost use Rattle.capture_ng.specs.Answers.{is_outside_fault};
ghost use Rattle.capture_ng.specs.Faults.{packet_rules};
ghost use Rattle.capture_ng.specs.Limits.{most_interfaces};
ghost use Rattle.capture_ng.specs.Packets.{frame_of, interface_of, is_untagged, packet_of, packet_place, tagged};
ghost use Rattle.capture_ng.specs.Reading.{IsNext};
ghost use Rattle.capture_ng.specs.declared.fault.NgFault.TheVariants.{Host};

use crate::NgFault;
use crate::bodies::{interface_number, packet_place, read_seen};
use crate::head::Head;
use crate::interface::Interface;
use crate::packets::{is_untagged, tagged};
use crate::position::Position;
use capture_io::{Frame, Link};
use octets::{NoMemory, Octets};
use std::alloc::Global;

/// The frame of a packet block, or the first rule that its packet breaks.
pub fn read_packet(
    alloc: Global,
    vlans: bool,
    at: &Position,
    head: Head,
    octets: Vec<u8>,
) -> Result<Frame, NgFault>
    requires fields { packet_place head + 4 ≤ head.length }
    requires whole { length octets.items ≡ head.length }
    requires count { at.now.count < most_records }
    ensures rules { IfOk result (λ f. first_failing (packet_rules at.now head octets.items) ≡ None) }
    ensures frame { IfOk result (λ f. Some f ≡ option_map (frame_of vlans)
        (option_and_then (packet_of at.now head octets.items) (interface_of at.now head octets.items))) }
    ensures next { IfOk result (IsNext vlans at.now) }
    ensures fault { IfErr result (λ fault. is_outside_fault fault ≡ false →
        Some fault ≡ first_failing (packet_rules at.now head octets.items)) }
    ensures host { IsErrOf result Host → ⊥ }
{
    let block = octets.as_slice();
    let number = interface_number(head, block);
    let Some(interface) = interface_at(at, number) else {
        return Err(NgFault::BadInterface(at.place));
    };
    let seen = read_seen(at, head, interface, block)?;
    let kept = kept_octets(head, seen.kept, octets);
    let octets = frame_octets(alloc, vlans, number, seen.link, kept)?;
    Ok(Frame {
        number: at.count + 1,
        moment: at.greatest.unwrap_or(0).max(seen.moment),
        link: seen.link,
        octets,
    })
}

// The interface with that number, or None where the section doesn't have it.
fn interface_at(at: &Position, number: u32) -> Option<Interface>
    ensures value { result ≡ slice_get at.now.interfaces number }
    ensures few { IfSome result (λ interface. number < most_interfaces) }
    ensures units { IfSome result (λ interface. 0 < interface.clock.units) }
{
    at.interfaces.as_slice().get(number as usize).copied()
}

// The octets that a packet block keeps of its packet, moved to the front of the block's list, so
// that no other list is needed.
fn kept_octets(head: Head, kept: u32, octets: Vec<u8>) -> Vec<u8>
    requires { packet_place head + kept ≤ length octets.items }
    ensures value { result.items ≡ take kept (drop (packet_place head) octets.items) }
    ensures most { length result.items ≤ kept }
{
    let mut octets = octets;
    let place = packet_place(head) as usize;
    octets.copy_within(place..place + kept as usize, 0);
    octets.truncate(kept as usize);
    octets
}

// The octets of a frame: the kept ones, with a VLAN tag where the frame gets one.
fn frame_octets(
    alloc: Global,
    vlans: bool,
    number: u32,
    link: Link,
    kept: Vec<u8>,
) -> Result<Octets, NoMemory>
    requires { number < 65536 }
    ensures value { IfOk result (λ o. o ≡
        (if vlans && (nat_lt 0 number && is_untagged link kept.items) then tagged number kept.items
        else kept.items)) }
    ensures most { IfOk result (λ o. length o ≤ length kept.items + 4) }
    ensures octets { IfOk result (All (λ octet. octet < 256)) }
{
    let octets = kept.as_slice();
    if gets_tag(vlans, number, link, octets) {
        return tagged(alloc, number as u16, octets);
    }
    Ok(Octets::from_vec(kept))
}

// Whether a frame gets the number of its interface as its VLAN tag. The clause `octets` brings the
// fact that octets are below 256.
fn gets_tag(vlans: bool, number: u32, link: Link, octets: &[u8]) -> bool
    ensures value { result ≡ (vlans && (nat_lt 0 number && is_untagged link octets.now)) }
    ensures octets { All (λ octet. octet < 256) octets.now }
{
    vlans && (number > 0 && is_untagged(link, octets))
}
