// The packet in a record.
ghost use Rattle.std.specs.Prelude.{◌≡◌, ◌≤◌, length};
ghost use Rattle.audit.specs.Packets.{record_packet};

use capture_io::Frame;
use router_core::frame_packet;

/// The octets of the packet in a record, empty where a rule of link or IP fails.
#[tactic(auto, unfolding(crate::specs::Packets::record_packet))]
pub(crate) fn record_packet<'a>(frame: &'a Frame) -> &'a [u8]
    ensures octets { result.now ≡ record_packet frame.now }
    ensures short { length result.now ≤ 65575 }
{
    match frame_packet(frame) {
        Ok((_, packet)) => packet.octets,
        Err(_) => &[],
    }
}
