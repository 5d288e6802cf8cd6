// Packets that were due, compared one by one with the records of a capture.
ghost use Rattle.std.specs.Prelude.{◌≡◌, ◌<◌, ◌^◌};
ghost use Rattle.std.specs.Option.{option_map};
ghost use Rattle.audit.specs.Compared.{expected, finished, judged, IfSame};
ghost use Rattle.audit.specs.declared.outcome.Outcome.TheVariants.{Same};

use crate::Outcome;
use crate::differences::first_difference;
use crate::packets::record_packet;
use capture_io::Frame;
use std::marker::Model;

/// A comparison of due packets with records, one by one. Contracts see it as the outcome so far.
#[derive(Debug, Drop)]
pub struct Auditor {
    so_far: Outcome,
}

impl Model for Auditor {
    ghost use Rattle.std.specs.Prelude.{◌≤◌, ◌^◌};
    ghost use Rattle.audit.specs.Compared.{IfSame};
    ghost use Rattle.audit.specs.declared.outcome.Outcome.{Outcome};

    ghost Value = { Outcome };

    ghost view = { λ auditor. auditor.so_far };

    ghost invariant = { λ auditor. IfSame auditor.so_far (λ packets. packets ≤ 2 ^ 63) };
}

impl Auditor {
    /// A comparison before its first packet. Takes no memory.
    pub fn new() -> Self
        ensures { result ≡ Same 0 }
    {
        Auditor {
            so_far: Outcome::Same { packets: 0 },
        }
    }

    /// Compares the next due packet with the next record, None where the capture has ended. Behind
    /// the first departure no packet is compared. Takes no memory.
    pub fn expect(&mut self, packet: &[u8], sent: Option<&Frame>)
        requires { IfSame self.old (λ packets. packets < 2 ^ 63) }
        ensures { self.new
            ≡ expected self.old packet.now (option_map (λ frame. frame.now) sent.entry) }
    {
        if let Outcome::Same { packets } = self.so_far {
            self.so_far = judge(packets, packet, sent);
        }
    }

    /// The outcome behind the last due packet; `more` is whether the capture has a further record.
    pub fn finish(self, more: bool) -> Outcome
        ensures { result ≡ finished self more }
    {
        match self.so_far {
            Outcome::Same { packets } if more => Outcome::Extra {
                position: packets + 1,
            },
            outcome => outcome,
        }
    }
}

// The outcome of a packet and its record, behind so many packets that are the same.
fn judge(packets: u64, packet: &[u8], sent: Option<&Frame>) -> Outcome
    requires { packets < 2 ^ 63 }
    ensures { result ≡ judged packets packet.now (option_map (λ frame. frame.now) sent.entry) }
{
    let position = packets + 1;
    let Some(frame) = sent else {
        return Outcome::Missing { position };
    };
    let octets = record_packet(frame);
    if packet == octets {
        return Outcome::Same { packets: position };
    }
    Outcome::Differs {
        position,
        place: first_difference(packet, octets) as u32,
    }
}
