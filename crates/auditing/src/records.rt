// The records of packets that a machine gathered, one by one.
ghost use Rattle.std.specs.Prelude.{◌≡◌, ◌≤◌, ◌<◌, ◌^◌, List, ◌∷◌, length};
ghost use Rattle.capture_events.specs.Events.{Packet, records_of};

use octets::little_32;

/// The octets of a record's header, which has the packet's length at +8.
pub(crate) const HEADER_OCTETS: usize = 16;

/// The packet of the first record, and the records behind it. In fewer than 2^32 octets no packet
/// is longer than its header can state.
pub(crate) fn split_record(records: &[u8]) -> (&[u8], &[u8])
    requires header { 16 ≤ length records.now }
    requires short { length records.now < 2 ^ 32 }
    ensures packet { (packet : Packet) (others : List Packet) →
        records.now ≡ records_of (packet ∷ others) → result.0.now ≡ packet.octets }
    ensures others { (packet : Packet) (others : List Packet) →
        records.now ≡ records_of (packet ∷ others) → result.1.now ≡ records_of others }
    ensures less { length result.1.now < length records.now }
{
    let size = little_32(records, 8) as usize;
    let (_, behind) = records.split_at(HEADER_OCTETS);
    behind.split_at(size.min(behind.len()))
}
