// The course of a frame: settled, a packet in a tunnel, a control message, or a packet that leaves
// the site.
ghost use Rattle.std.specs.Prelude.{◌≡◌, ◌<◌, ◌^◌, Ok, IfOk, option_map};
ghost use Rattle.octets.specs.Refusals.{refusal_of};
ghost use Rattle.octets.specs.Rules.{first_failing};
ghost use Rattle.ip_headers.specs.Packet.{IsPacketOf};
ghost use Rattle.ip_headers.specs.Udp.{udp_read};
ghost use Rattle.capture_io.specs.Link.{link_octets, link_place, link_vlan};
ghost use Rattle.lisp_settings.specs.Lawful.{IsLawful};
ghost use Rattle.router_model.specs.Course.{arriving, by_port, control, course_of, datagram_cases, frame_refusal, is_message, packet_course};
ghost use Rattle.router_log.specs.declared.verdict.Verdict.TheVariants.{Drop};
ghost use Rattle.router_core.specs.Seen.{course_seen, packet_seen, settled_seen, IfLeaving};

use crate::datagram::Datagram;
use crate::site::instance_of;
use capture_io::{Frame, link_payload};
use ip_headers::{IpPacket, Refused, UDP, UdpHeader, read_ip, read_udp};
use lisp_header::LISP_DATA_PORT;
use lisp_settings::{Settings, is_own};
use map_messages::LISP_CONTROL_PORT;
use router_log::{Reason, Verdict};

/// The outcome of a frame that is settled before any mapping is looked up.
#[derive(Clone, Copy, Debug, PartialEq, Eq)]
pub enum Settled {
    /// The frame comes from an own locator.
    Own,
    /// The frame is dropped by a rule, or because its VLAN has no instance.
    Drop(Reason),
}

impl Settled {
    /// The verdict on a settled frame.
    pub fn verdict(&self) -> Verdict
        ensures { result ≡ settled_seen self.now }
    {
        match self {
            Settled::Own => Verdict::Own,
            Settled::Drop(reason) => Verdict::Drop(*reason),
        }
    }
}

/// The course of a frame: what it is to the router, which no mapping and no journal changes.
#[derive(Drop)]
pub enum Course<'a> {
    /// A frame that is settled: by a rule that fails, by its source, or for want of an instance.
    Settled(Settled),
    /// A packet in a tunnel, to an own locator.
    Data(Datagram<'a>),
    /// A control message to an own locator.
    Control(Datagram<'a>),
    /// A packet of an instance, to another address than those of own locators.
    Leaving { iid: u32, packet: IpPacket<'a> },
}

impl<'a> Course<'a> {
    /// Whether a course is that of a control message, which is heard and never decided.
    pub fn is_message(&self) -> bool
        ensures { result ≡ is_message (course_seen self.now) }
    {
        matches!(self, Course::Control(_))
    }
}

/// The VLAN of a frame, 0 without one, and its packet; or the refusal by the first rule of link or
/// IP that fails.
pub fn frame_packet<'a>(frame: &'a Frame) -> Result<(u16, IpPacket<'a>), Refused>
    ensures refused { refusal_of result ≡ frame_refusal frame.now }
    ensures vlan { IfOk result (λ read. read.0 ≡ link_vlan frame.now) }
    ensures packet { IfOk result (λ read.
        IsPacketOf (link_octets frame.now) (link_place frame.now) read.1) }
{
    let (vlan, octets) = link_payload(frame)?;
    let place = (frame.octets.len() - octets.len()) as u32;
    let packet = read_ip(octets, place)?;
    Ok((vlan, packet))
}

/// The course of a frame.
pub fn course_of<'a>(settings: &Settings, frame: &'a Frame) -> Course<'a>
    requires lawful { IsLawful settings.now }
    ensures course { course_seen result ≡ course_of settings.now frame.now }
    ensures instance { IfLeaving result (λ iid. iid < 2 ^ 24) }
{
    match frame_packet(frame) {
        Ok((vlan, packet)) => packet_course(settings, vlan, packet),
        Err(refused) => Course::Settled(Settled::Drop(Reason::Refused(refused))),
    }
}

/// Whether a frame is a control message to an own locator, which is heard and never decided.
pub fn is_control(settings: &Settings, frame: &Frame) -> bool
    requires lawful { IsLawful settings.now }
    ensures { result ≡ control settings.now frame.now }
{
    course_of(settings, frame).is_message()
}

// The course of a packet that came in a VLAN.
#[tactic(auto, unfolding(router_model::specs::Course::packet_course))]
fn packet_course<'a>(settings: &Settings, vlan: u16, packet: IpPacket<'a>) -> Course<'a>
    requires lawful { IsLawful settings.now }
    ensures course { course_seen result
        ≡ packet_course settings.now vlan (packet_seen packet.entry) }
    ensures instance { IfLeaving result (λ iid. iid < 2 ^ 24) }
{
    let locators = settings.locators.as_slice();
    if is_own(locators, packet.header.source()) {
        return Course::Settled(Settled::Own);
    }
    if is_own(locators, packet.header.dest()) {
        return arriving(packet);
    }
    match instance_of(settings.attachments.as_slice(), vlan) {
        Some(iid) => Course::Leaving { iid, packet },
        None => Course::Settled(Settled::Drop(Reason::NoAttachment)),
    }
}

/// The course of a packet at an own locator; the packet's addresses aren't looked at.
#[tactic(auto, unfolding(router_model::specs::Course::arriving))]
pub fn arriving<'a>(packet: IpPacket<'a>) -> Course<'a>
    ensures course { course_seen result ≡ arriving (packet_seen packet.entry) }
    ensures instance { IfLeaving result (λ iid. iid < 2 ^ 24) }
{
    if let Some(reason) = no_datagram(&packet) {
        return Course::Settled(Settled::Drop(reason));
    }
    match read_udp(&packet) {
        Ok(udp) => by_port(packet, udp),
        Err(refused) => Course::Settled(Settled::Drop(Reason::Refused(refused))),
    }
}

// The reason to drop a packet to an own locator that is a fragment or isn't UDP, or None.
fn no_datagram(packet: &IpPacket) -> Option<Reason>
    ensures { option_map Drop result ≡ first_failing (datagram_cases packet.now.header) }
{
    if packet.header.is_fragment() {
        return Some(Reason::Fragment);
    }
    if packet.header.protocol() != UDP {
        return Some(Reason::NotTunnel);
    }
    None
}

fn by_port<'a>(packet: IpPacket<'a>, udp: UdpHeader) -> Course<'a>
    requires { udp_read packet ≡ Ok udp }
    ensures course { course_seen result ≡ by_port (packet_seen packet.entry) udp }
    ensures instance { IfLeaving result (λ iid. iid < 2 ^ 24) }
{
    if udp.dest == LISP_DATA_PORT {
        Course::Data(Datagram { packet, udp })
    } else if udp.dest == LISP_CONTROL_PORT || udp.source == LISP_CONTROL_PORT {
        Course::Control(Datagram { packet, udp })
    } else {
        Course::Settled(Settled::Drop(Reason::NotTunnel))
    }
}
