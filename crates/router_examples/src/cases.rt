// Packets that go into no tunnel, and packets that the router itself sent.
#![tactic(auto, unfolding(crate::proofs::OnLiterals::router_on_literals))]

ghost use Rattle.std.specs.Prelude.{◌≡◌, [], ◌∷◌, codes, map};
ghost use Rattle.router_examples.specs.Frames.{encapsulated_in_100, forwarded, inbound_delivered, packet, tenths};
ghost use Rattle.router_examples.specs.Messages.{asked};
ghost use Rattle.router_examples.specs.Replays.{at_the_link, frames, packet_at, report, said, sent, verdict_on};
ghost use Rattle.router_examples.specs.Sites.{asking_site, site_acting};

/// The action of a mapping without locators decides on a packet: action 1 forwards it natively,
/// every other one drops it.
pub fn an_action_settles_a_packet()
    ensures actions { map (λ action. verdict_on packet (site_acting action))
        (0 ∷ 1 ∷ 2 ∷ 3 ∷ 4 ∷ 5 ∷ 6 ∷ 7 ∷ [])
        ≡ codes "drop 14 no-action"
        ∷ codes "native"
        ∷ codes "drop 15 send-request"
        ∷ codes "drop 16 drop-no-reason"
        ∷ codes "drop 17 drop-policy"
        ∷ codes "drop 18 drop-auth"
        ∷ codes "drop 16 drop-no-reason"
        ∷ codes "drop 16 drop-no-reason"
        ∷ [] }
    ensures native { sent (site_acting 1) (frames (packet ∷ []))
        ≡ packet_at (tenths 0) forwarded ∷ [] }
{}

/// In a capture at the router's link, packets that the router itself sent are passed over: one from
/// its own locator is `own`, one that it delivered is `local`.
pub fn own_packets_are_passed_over()
    ensures lines { said asking_site at_the_link ≡ report (
        codes "1 1700000000.100000000 n=0 drop 1 refused link 12 ethertype"
        ∷ codes "2 1700000000.200000000 n=0 drop 13 miss"
        ∷ codes "3 1700000000.300000000 n=1 own"
        ∷ codes "4 1700000000.400000000 n=1 control reply learned=1 passed=0"
        ∷ codes "5 1700000000.500000000 n=3 encapsulated 192.0.2.1 198.51.100.7 64519"
        ∷ codes "6 1700000000.600000000 n=3 own"
        ∷ codes "7 1700000000.700000000 n=3 delivered 100"
        ∷ codes "8 1700000000.800000000 n=3 local"
        ∷ []) }
    ensures packets { sent asking_site at_the_link
        ≡ packet_at (tenths 2) asked
        ∷ packet_at (tenths 5) encapsulated_in_100
        ∷ packet_at (tenths 7) inbound_delivered
        ∷ [] }
{}
