// Packets into tunnels, and out of them.
#![tactic(auto, unfolding(crate::proofs::OnLiterals::router_on_literals))]

ghost use Rattle.std.specs.Prelude.{◌≡◌, [], ◌∷◌, ◌++◌, codes};
ghost use Rattle.router_model.specs.Course.{frame_packet};
ghost use Rattle.router_model.specs.Decide.{hash_of};
ghost use Rattle.router_examples.specs.Frames as frame;
ghost use Rattle.router_examples.specs.Frames.{packet, raw, tenths};
ghost use Rattle.router_examples.specs.Replays.{frames, packet_at, report, said, sent, verdict_on};
ghost use Rattle.router_examples.specs.Sites.{site_of_versions, site_over_ipv6, static_site};

/// A packet for a static mapping goes into a tunnel to its locator.
pub fn a_packet_goes_into_its_tunnel()
    ensures hash { hash_of (frame_packet (raw 1 (tenths 0) packet)) ≡ 0xe579fc07 }
    ensures line { said static_site (frames (packet ∷ [])) ≡ report (
        codes "1 1700000000.000000000 n=1 encapsulated 192.0.2.1 198.51.100.7 64519" ∷ []) }
    ensures packet { sent static_site (frames (packet ∷ []))
        ≡ packet_at (tenths 0) frame.encapsulated ∷ [] }
{}

/// The padding of a frame stays out of the tunnel: a frame of 60 octets, of which 18 are padding,
/// gives the tunnel packet of its packet alone.
pub fn padding_stays_out_of_the_tunnel()
    ensures { sent static_site (frame.wired 0 (frame.padded packet) ∷ [])
        ≡ packet_at (tenths 0) frame.encapsulated ∷ [] }
{}

/// A packet that goes into a tunnel has its TTL reduced by one, and the outer TTL is the reduced
/// inner one; a packet of TTL 1 is dropped.
pub fn a_hop_is_taken_into_a_tunnel()
    ensures lines { said static_site (frames (frame.one_hop ∷ frame.two_hops ∷ [])) ≡ report (
        codes "1 1700000000.000000000 n=1 drop 9 ttl-expired"
        ∷ codes "2 1700000000.100000000 n=1 encapsulated 192.0.2.1 198.51.100.7 64519" ∷ []) }
    ensures packet { sent static_site (frames (frame.one_hop ∷ frame.two_hops ∷ []))
        ≡ packet_at (tenths 1) frame.encapsulated_last ∷ [] }
{}

/// A packet leaves its tunnel with the outer DSCP, the ECN of both headers combined, and the lesser
/// of both TTLs less one.
pub fn a_packet_leaves_its_tunnel()
    ensures line { said static_site (frames (frame.marked ∷ [])) ≡ report (
        codes "1 1700000000.000000000 n=1 delivered 0" ∷ []) }
    ensures packet { sent static_site (frames (frame.marked ∷ []))
        ≡ packet_at (tenths 0) frame.delivered ∷ [] }
{}

/// A LISP header with the bits of a nonce and of versions is read as one with a nonce, and names no
/// versions.
pub fn a_nonce_comes_before_versions()
    ensures { sent (site_of_versions 5 0) (frames (frame.inward (codes "9000002a00000000") ∷ []))
        ≡ packet_at (tenths 0) frame.delivered ∷ [] }
{}

/// Tunnel packets that are dropped: an encrypted one, one for another site, one that can't carry
/// its congestion mark, and one without a hop left.
pub fn a_packet_may_stay_in_its_tunnel()
    ensures encrypted { verdict_on frame.encrypted static_site ≡ codes "drop 4 encrypted" }
    ensures another { verdict_on frame.for_another static_site ≡ codes "drop 5 not-ours" }
    ensures mark { verdict_on frame.congested static_site ≡ codes "drop 8 congestion-mark" }
    ensures end { verdict_on frame.at_its_end static_site ≡ codes "drop 9 ttl-expired" }
{}

/// A tunnel packet has at most 1,500 octets: a packet of 1,464 octets fits over IPv4, one of 1,444
/// over IPv6, and larger ones are dropped.
pub fn a_tunnel_has_1500_octets()
    ensures ipv4 { verdict_on frame.octets_1464 static_site
        ≡ codes "encapsulated 192.0.2.1 198.51.100.7 58051" }
    ensures ipv4_more { verdict_on frame.octets_1465 static_site ≡ codes "drop 20 too-big" }
    ensures ipv6 { verdict_on frame.octets_1444 site_over_ipv6
        ≡ codes "encapsulated 2001:0db8:0000:0000:0000:0000:0000:0001 "
        ++ codes "2001:0db8:0000:0000:0000:0000:0000:0002 58051" }
    ensures ipv6_more { verdict_on frame.octets_1445 site_over_ipv6 ≡ codes "drop 20 too-big" }
{}
