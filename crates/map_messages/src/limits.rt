// The limits of the messages that are written, and of the packets in which they go.
ghost use Rattle.std.specs.Prelude.{◌≡◌};
ghost use Rattle.map_messages.specs.Limits.{control_hops, most_message_octets};
ghost use Rattle.map_messages.specs.declared.limits.TheConstants.{CONTROL_HOPS, MOST_MESSAGE_OCTETS};

/// The most octets of a message that can be written.
pub const MOST_MESSAGE_OCTETS: usize = 65_000;

/// How many octets are reserved before a message is written: most messages have no more.
pub(crate) const FIRST_ROOM: usize = 256;

/// The TTL or Hop Limit of the packets that this router makes.
pub const CONTROL_HOPS: u8 = 64;

/// Law: the constants are the defined numbers.
pub fn limits_are()
    ensures octets { MOST_MESSAGE_OCTETS ≡ most_message_octets }
    ensures hops { CONTROL_HOPS ≡ control_hops }
{}
