// Laws of packets that are delivered. Each function only states its law.
ghost use Rattle.std.specs.Prelude.{◌≡◌, ◌<◌, ◌^◌, ℕ, List, None};
ghost use Rattle.octets.specs.Rules.{first_failing};
ghost use Rattle.ip_headers.specs.Ip.{class_of};
ghost use Rattle.ip_headers.specs.Packet.{IsPacket};
ghost use Rattle.ip_headers.specs.declared.header.IpHeader.{IpHeader};
ghost use Rattle.decap.specs.Delivered.{deliver_rules, delivered};
ghost use Rattle.decap.specs.Unwrapped.{Unwrapped};

/// Law: a packet that no rule drops is delivered as the same packet out of its tunnel, and obeys
/// the rules of IP again.
pub fn delivered_left_the_tunnel()
    ensures { (base : ℕ) (outer : IpHeader) (inner : List ℕ)
        → IsPacket base inner → class_of outer < 2 ^ 8
        → first_failing (deliver_rules inner outer) ≡ None
        → Unwrapped outer inner (delivered inner outer) }
{}
