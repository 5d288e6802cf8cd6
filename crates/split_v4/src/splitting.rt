// A frame whose packet is split in two.
ghost use Rattle.std.specs.Prelude.{◌≡◌, ◌≤◌, ◌+◌, length, option_map, IfOk, IfSome};
ghost use Rattle.lisp_settings.specs.Lawful.{IsLawful};
ghost use Rattle.router_core.specs.Seen.{packet_seen};
ghost use Rattle.split_v4.specs.Halves.{halves, leaving_packet, AreKept, AreNoLonger, HaveOctets};

use crate::cutting::cut_of;
use crate::halves::{first_half, second_half};
use crate::split_size;
use capture_io::Frame;
use ip_headers::IpPacket;
use lisp_settings::Settings;
use octets::NoMemory;
use router_core::{Course, course_of, leaving_from};
use std::alloc::Global;

/// The frame with either half of its packet, where the packet leaves the site and may be split.
/// Each half keeps the frame's number, moment and link, and the octets before the packet; octets
/// behind the packet go.
#[tactic(auto, unfolding(crate::specs::Halves::halves))]
pub fn split_frame(
    alloc: Global,
    settings: &Settings,
    frame: &Frame,
) -> Result<Option<(Frame, Frame)>, NoMemory>
    requires { IsLawful settings.now }
    ensures halves { IfOk result (λ both. both ≡ halves settings.now frame.now) }
    ensures kept { IfOk result (λ o. IfSome o (AreKept frame.now)) }
    ensures size { IfOk result (λ o. IfSome o (AreNoLonger frame.now)) }
    ensures octets { IfOk result (λ o. IfSome o HaveOctets) }
{
    let most = usize::from(split_size(settings));
    if frame.octets.len() <= most {
        return Ok(None);
    }
    let Some(packet) = leaving_packet(settings, frame) else {
        return Ok(None);
    };
    let Some(cut) = cut_of(most, &packet) else {
        return Ok(None);
    };
    let first = first_half(alloc, frame, &packet, cut)?;
    let second = second_half(alloc, frame, &packet, cut)?;
    Ok(Some((first, second)))
}

// The packet of a frame that goes into a tunnel, or natively past it, by the settings.
fn leaving_packet<'a>(settings: &Settings, frame: &'a Frame) -> Option<IpPacket<'a>>
    requires { IsLawful settings.now }
    ensures value { option_map packet_seen result ≡ leaving_packet settings.now frame.now }
    ensures within { IfSome result (λ packet.
        packet.base + length packet.octets.now ≤ length frame.now.octets) }
{
    let Course::Leaving { iid, packet } = course_of(settings, frame) else {
        return None;
    };
    let Ok(_) = leaving_from(settings, iid, &packet.header) else {
        return None;
    };
    Some(packet)
}
