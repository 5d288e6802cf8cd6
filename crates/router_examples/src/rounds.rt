// Captures in rounds, whose data packets are decided by the first entries of a round's journal.
#![tactic(auto, unfolding(crate::proofs::OnLiterals::router_on_literals))]

ghost use Rattle.std.specs.Prelude.{◌≡◌, [], ◌∷◌, codes, drop, false, Some, take};
ghost use Rattle.ip_headers.specs.declared.addr.Addr.TheVariants.{V4};
ghost use Rattle.router_log.specs.declared.entry.Entry.TheVariants.{Answered, Asked, Learned};
ghost use Rattle.router_model.specs.Rounds.{Lawful};
ghost use Rattle.router_examples.specs.Frames.{encapsulated_in_100, tenths};
ghost use Rattle.router_examples.specs.Messages as message;
ghost use Rattle.router_examples.specs.Replays.{after_the_first, all_early, all_late, busy_exchange, by_ones, ends_of, frames, kept, kept_in_rounds, mixed, packet_at, report, said, said_in_rounds, sent, sent_in_rounds};
ghost use Rattle.router_examples.specs.Sites.{asking_site, far, host, locator, mapping, wide};

/// In rounds of four, packets around a Map-Reply may be decided without it, by the journal at the
/// begin of their round. One Map-Request is sent, at the end of the first round.
pub fn a_round_may_be_decided_by_its_begin()
    ensures lines { said_in_rounds asking_site (frames busy_exchange) 4 all_early ≡ report (
        codes "1 1700000000.000000000 n=0 drop 13 miss"
        ∷ codes "2 1700000000.100000000 n=0 drop 13 miss"
        ∷ codes "3 1700000000.200000000 n=0 drop 13 miss"
        ∷ codes "4 1700000000.300000000 n=0 drop 13 miss"
        ∷ codes "5 1700000000.400000000 n=1 drop 13 miss"
        ∷ codes "6 1700000000.500000000 n=1 control reply learned=1 passed=0"
        ∷ codes "7 1700000000.600000000 n=1 drop 13 miss"
        ∷ codes "8 1700000000.700000000 n=1 drop 13 miss"
        ∷ []) }
    ensures packets { sent_in_rounds asking_site (frames busy_exchange) 4 all_early
        ≡ packet_at (tenths 3) message.asked ∷ [] }
    ensures journal { kept_in_rounds asking_site (frames busy_exchange) 4 all_early
        ≡ Learned (tenths 5) (mapping 60 wide (locator far ∷ [])) false
        ∷ Answered (tenths 5) 0x0102030405060708
        ∷ Asked (tenths 3) host (Some (V4 0x0a010005)) false 0x0102030405060708
        ∷ [] }
{}

/// In rounds of four, packets around a Map-Reply may be decided by the journal at the end of their
/// round, with the mapping learned from the reply: even the packet that came before it.
pub fn a_round_may_be_decided_by_its_end()
    ensures lines { said_in_rounds asking_site (frames busy_exchange) 4 all_late ≡ report (
        codes "1 1700000000.000000000 n=0 drop 13 miss"
        ∷ codes "2 1700000000.100000000 n=0 drop 13 miss"
        ∷ codes "3 1700000000.200000000 n=0 drop 13 miss"
        ∷ codes "4 1700000000.300000000 n=0 drop 13 miss"
        ∷ codes "5 1700000000.400000000 n=3 encapsulated 192.0.2.1 198.51.100.7 64519"
        ∷ codes "6 1700000000.500000000 n=1 control reply learned=1 passed=0"
        ∷ codes "7 1700000000.600000000 n=3 encapsulated 192.0.2.1 198.51.100.7 64519"
        ∷ codes "8 1700000000.700000000 n=3 encapsulated 192.0.2.1 198.51.100.7 64519"
        ∷ []) }
    ensures packets { sent_in_rounds asking_site (frames busy_exchange) 4 all_late
        ≡ packet_at (tenths 3) message.asked
        ∷ packet_at (tenths 4) encapsulated_in_100
        ∷ packet_at (tenths 6) encapsulated_in_100
        ∷ packet_at (tenths 7) encapsulated_in_100
        ∷ [] }
    ensures journal { kept_in_rounds asking_site (frames busy_exchange) 4 all_late
        ≡ kept_in_rounds asking_site (frames busy_exchange) 4 all_early }
    ensures mixed { said_in_rounds asking_site (frames busy_exchange) 4 mixed ≡ report (
        codes "1 1700000000.000000000 n=0 drop 13 miss"
        ∷ codes "2 1700000000.100000000 n=0 drop 13 miss"
        ∷ codes "3 1700000000.200000000 n=0 drop 13 miss"
        ∷ codes "4 1700000000.300000000 n=0 drop 13 miss"
        ∷ codes "5 1700000000.400000000 n=3 encapsulated 192.0.2.1 198.51.100.7 64519"
        ∷ codes "6 1700000000.500000000 n=1 control reply learned=1 passed=0"
        ∷ codes "7 1700000000.600000000 n=1 drop 13 miss"
        ∷ codes "8 1700000000.700000000 n=3 encapsulated 192.0.2.1 198.51.100.7 64519"
        ∷ []) }
{}

/// The entries of a Map-Reply come into force together: a data packet is decided without them or
/// with all of them.
pub fn no_round_ends_within_a_reply()
    ensures first { ends_of asking_site [] (tenths 0) (take 4 (frames busy_exchange)) ≡ 0 ∷ [] }
    ensures second { ends_of asking_site after_the_first (tenths 3)
        (drop 4 (frames busy_exchange)) ≡ 1 ∷ 3 ∷ [] }
    ensures begin { Lawful asking_site (frames busy_exchange) 4 all_early }
    ensures end { Lawful asking_site (frames busy_exchange) 4 all_late }
{}

/// Rounds of one packet are decided as without rounds: each packet by all entries before it.
pub fn rounds_of_one_packet_are_plain()
    ensures lines { said_in_rounds asking_site (frames busy_exchange) 1 by_ones
        ≡ said asking_site (frames busy_exchange) }
    ensures packets { sent_in_rounds asking_site (frames busy_exchange) 1 by_ones
        ≡ sent asking_site (frames busy_exchange) }
    ensures journal { kept_in_rounds asking_site (frames busy_exchange) 1 by_ones
        ≡ kept asking_site (frames busy_exchange) }
    ensures numbers { Lawful asking_site (frames busy_exchange) 1 by_ones }
{}
