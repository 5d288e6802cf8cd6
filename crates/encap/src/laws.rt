// Laws of packets that are sent. Each function only states its law.
ghost use Rattle.std.specs.Prelude.{◌≡◌, ◌≤◌, ◌<◌, ◌^◌, ℕ, List, None};
ghost use Rattle.octets.specs.Rules.{first_failing};
ghost use Rattle.ip_headers.specs.Addr.{width, IsAddr};
ghost use Rattle.ip_headers.specs.Ip.{header_at, ttl_of};
ghost use Rattle.ip_headers.specs.Packet.{IsPacket};
ghost use Rattle.ip_headers.specs.declared.addr.Addr.{Addr};
ghost use Rattle.lisp_header.specs.Header.{InRange};
ghost use Rattle.lisp_header.specs.declared.header.LispHeader.{LispHeader};
ghost use Rattle.encap.specs.Forwarded.{forwarded, Forwarded};
ghost use Rattle.encap.specs.Rules.{encap_rules};
ghost use Rattle.encap.specs.Wrapped.{wrapped, Wrapped};

/// Law: a packet that is forwarded is the same packet one hop further.
pub fn forwarded_goes_one_hop()
    ensures { (base : ℕ) (packet : List ℕ) → IsPacket base packet → 1 ≤ ttl_of (header_at packet)
        → Forwarded packet (forwarded packet) }
{}

/// Law: a packet that no rule drops is carried through the tunnel.
pub fn wrapped_carries_the_packet()
    ensures { (base : ℕ) (inner : List ℕ) (from to : Addr) (port : ℕ) (lisp : LispHeader)
        → IsPacket base inner → first_failing (encap_rules inner from) ≡ None
        → width from ≡ width to → IsAddr from → IsAddr to → port < 2 ^ 16 → InRange lisp
        → Wrapped inner from to port lisp (wrapped inner from to port lisp) }
{}
