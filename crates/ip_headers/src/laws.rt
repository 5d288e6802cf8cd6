// Laws of reading and writing headers. Each function has an empty body and states one law.
ghost use Rattle.std.specs.Prelude.{◌≡◌, ◌+◌, ◌<◌, ◌^◌, ◌++◌, ℕ, List, Bool, true, All, length, None, if◌then◌else◌};
ghost use Rattle.octets.specs.Rules.{first_failing};
ghost use Rattle.ip_headers.specs.Canonical.{canonical_v4, canonical_v6, InRangeV4, InRangeV6};
ghost use Rattle.ip_headers.specs.Checksum.{ones_sum};
ghost use Rattle.ip_headers.specs.Ip.{header_at, ip_rules, Spells};
ghost use Rattle.ip_headers.specs.Udp.{canonical_udp, canonical_udp_header, udp_at, udp_checksum, udp_rules, udp_sum, InRangeUdp, SpellsUdp};
ghost use Rattle.ip_headers.specs.declared.addr.Addr.{Addr};
ghost use Rattle.ip_headers.specs.declared.header.IpHeader.{IpHeader};
ghost use Rattle.ip_headers.specs.declared.header.IpHeader.TheVariants.{V4, V6};
ghost use Rattle.ip_headers.specs.declared.header.UdpHeader.{UdpHeader};
ghost use Rattle.ip_headers.specs.declared.header.V4Header.{V4Header};
ghost use Rattle.ip_headers.specs.declared.header.V6Header.{V6Header};

/// Law: the written octets of an IPv4 header spell it, whatever follows, and their sum is all ones.
pub fn canonical_v4_spells()
    ensures spells { (h : V4Header) (rest : List ℕ)
        → InRangeV4 h → Spells (canonical_v4 h ++ rest) (V4 h) }
    ensures sum { (h : V4Header) → InRangeV4 h → ones_sum (canonical_v4 h) ≡ 65535 }
{}

/// Law: the written octets of an IPv6 header spell it, whatever follows.
pub fn canonical_v6_spells()
    ensures { (h : V6Header) (rest : List ℕ)
        → InRangeV6 h → Spells (canonical_v6 h ++ rest) (V6 h) }
{}

/// Law: the written octets of a UDP header spell it, whatever follows. A datagram begins with the
/// header of its ports, its length and its checksum; a checksum that was computed makes the sum all
/// ones.
pub fn canonical_udp_spells()
    ensures header { (udp : UdpHeader) (rest : List ℕ)
        → InRangeUdp udp → SpellsUdp (canonical_udp_header udp ++ rest) udp }
    ensures datagram { (from to : Addr) (source dest at : ℕ) (payload : List ℕ) (summed : Bool)
        (rest : List ℕ)
        → source < 2 ^ 16 → dest < 2 ^ 16 → 8 + length payload < 2 ^ 16
        → SpellsUdp (canonical_udp from to source dest payload summed ++ rest) record {
          source = source;
          dest = dest;
          length = 8 + length payload;
          checksum = (if summed then udp_checksum from to source dest payload else 0);
          at = at;
        } }
    ensures sum { (from to : Addr) (source dest : ℕ) (payload : List ℕ)
        → All (λ octet. octet < 256) payload
        → udp_sum from to (canonical_udp from to source dest payload true) ≡ 65535 }
{}

/// Law: octets that obey the rules of IP begin with exactly one header, and so have one length.
pub fn one_header_is_spelled()
    ensures spells { (base : ℕ) (octets : List ℕ)
        → first_failing (ip_rules base octets) ≡ None → Spells octets (header_at octets) }
    ensures one { (octets : List ℕ) (a b : IpHeader) → Spells octets a → Spells octets b → a ≡ b }
{}

/// Law: octets spell exactly one UDP header at their front.
pub fn one_udp_header_is_spelled()
    ensures spells { (octets : List ℕ) → SpellsUdp octets (udp_at 0 octets) }
    ensures one { (octets : List ℕ) (a b : UdpHeader)
        → SpellsUdp octets a → SpellsUdp octets b → a.at ≡ b.at → a ≡ b }
{}

/// Law: an IPv4 header that is followed by as many octets as it names is read again as itself.
pub fn written_v4_is_read_again()
    ensures rules { (base : ℕ) (h : V4Header) (rest : List ℕ)
        → InRangeV4 h → 20 + length rest ≡ h.total
        → first_failing (ip_rules base (canonical_v4 h ++ rest)) ≡ None }
    ensures header { (h : V4Header) (rest : List ℕ)
        → InRangeV4 h → header_at (canonical_v4 h ++ rest) ≡ V4 h }
{}

/// Law: an IPv6 header that is followed by as many octets as it names is read again as itself.
pub fn written_v6_is_read_again()
    ensures rules { (base : ℕ) (h : V6Header) (rest : List ℕ)
        → InRangeV6 h → length rest ≡ h.payload
        → first_failing (ip_rules base (canonical_v6 h ++ rest)) ≡ None }
    ensures header { (h : V6Header) (rest : List ℕ)
        → InRangeV6 h → header_at (canonical_v6 h ++ rest) ≡ V6 h }
{}

/// Law: a datagram obeys the rules of UDP and its header is read again, whatever stands before and
/// after.
pub fn written_udp_is_read_again()
    ensures rules { (base : ℕ) (from to : Addr) (source dest : ℕ) (payload : List ℕ) (summed : Bool)
        (front rest : List ℕ)
        → 8 + length payload < 2 ^ 16
        → let octets = canonical_udp from to source dest payload summed in
        first_failing (udp_rules base (length front) (front ++ (octets ++ rest))) ≡ None }
    ensures header { (from to : Addr) (source dest : ℕ) (payload : List ℕ) (summed : Bool)
        (front rest : List ℕ)
        → source < 2 ^ 16 → dest < 2 ^ 16 → 8 + length payload < 2 ^ 16
        → let octets = canonical_udp from to source dest payload summed in
        udp_at (length front) (front ++ (octets ++ rest))
        ≡ record {
          source = source;
          dest = dest;
          length = 8 + length payload;
          checksum = (if summed then udp_checksum from to source dest payload else 0);
          at = length front;
        } }
{}
