// The moment of the packet in a packet block, its kept length, and the tag of its frame.
ghost use Rattle.std.specs.Prelude.{◌≡◌, ◌≤◌, ◌<◌, ◌++◌, length, option_and_then, IfOk};
ghost use Rattle.octets.specs.Numbers.{big_octets};
ghost use Rattle.capture_ng.specs.Packets.{is_untagged, moved, nanoseconds, snapped, tagged, early};

use crate::END_OF_MOMENTS;
use crate::interface::{Added, Clock};
use capture_io::Link;
use octets::{NoMemory, Octets, big_16};
use std::alloc::Global;

// The nanoseconds of a second.
const SECOND: u128 = 1_000_000_000;

/// The moment of a Timestamp by its interface's clock, in nanoseconds, or None where no frame may
/// have it: before 1970, or of 2^32 seconds or more.
pub fn moment_of(clock: Clock, time: u64) -> Option<u64>
    requires { 0 < clock.units }
    ensures { result ≡ option_and_then early (moved clock.added (nanoseconds clock time)) }
{
    let nanoseconds = u128::from(time) * SECOND / u128::from(clock.units);
    match clock.added {
        Added::Later(seconds) => early(nanoseconds + u128::from(seconds) * SECOND),
        Added::Earlier(seconds) => {
            let back = u128::from(seconds) * SECOND;
            if back > nanoseconds {
                return None;
            }
            early(nanoseconds - back)
        }
    }
}

// The moment, or None where it is of 2^32 seconds or more.
fn early(moment: u128) -> Option<u64>
    ensures { result ≡ early moment }
{
    if moment < u128::from(END_OF_MOMENTS) {
        Some(moment as u64)
    } else {
        None
    }
}

/// How many octets of a simple packet a block keeps: its Original Packet Length, or SnapLen where
/// that is less and not 0.
pub fn snapped(snap: u32, size: u32) -> u32
    ensures { result ≡ snapped snap size }
{
    if snap == 0 { size } else { size.min(snap) }
}

/// Whether octets begin with an Ethernet header without a VLAN tag.
pub fn is_untagged(link: Link, octets: &[u8]) -> bool
    ensures { result ≡ is_untagged link octets.now }
{
    match link {
        Link::Ethernet => octets.len() >= 14 && big_16(octets, 12) != 0x8100,
        Link::Raw => false,
    }
}

/// The octets of an Ethernet frame, with a tag of that VLAN put in behind its addresses.
pub fn tagged(alloc: Global, vlan: u16, octets: &[u8]) -> Result<Octets, NoMemory>
    requires { 12 ≤ length octets.now }
    ensures { IfOk result (λ frame. frame ≡ tagged vlan octets.now) }
{
    let (addresses, rest) = octets.split_at(12);
    let mut frame = Octets::new(alloc);
    frame.append(addresses)?;
    frame.append_both(&tag_of(vlan), rest)?;
    Ok(frame)
}

// The four octets of a VLAN tag.
fn tag_of(vlan: u16) -> [u8; 4]
    ensures { result ≡ big_octets 2 0x8100 ++ big_octets 2 vlan }
{
    let number = vlan.to_be_bytes();
    [0x81, 0, number[0], number[1]]
}
