// Map-Requests to the site and their answers, and SMRs.
#![tactic(auto, unfolding(crate::proofs::OnLiterals::router_on_literals))]

ghost use Rattle.std.specs.Prelude.{◌≡◌, [], ◌∷◌, ◌++◌, codes, drop, None, true};
ghost use Rattle.router_log.specs.declared.entry.Entry.TheVariants.{Asked};
ghost use Rattle.router_examples.specs.Frames.{tenths};
ghost use Rattle.router_examples.specs.Messages as message;
ghost use Rattle.router_examples.specs.Replays.{exchange, frames, kept, packet_at, report, said, sent};
ghost use Rattle.router_examples.specs.Sites.{asking_site, nested_site, static_site, wide};

/// A Map-Request is answered by the longest prefix of the site that covers its EID, and by all
/// prefixes of the site within that one.
pub fn a_request_is_answered_with_all_within()
    ensures three { said nested_site (frames (message.ask_10_1_5_5 ∷ [])) ≡ report (
        codes "1 1700000000.000000000 n=0 control request answered=3" ∷ []) }
    ensures packet { sent nested_site (frames (message.ask_10_1_5_5 ∷ []))
        ≡ packet_at (tenths 0) message.answer_of_three ∷ [] }
    ensures one { said nested_site (frames (message.ask_10_1_1_1 ∷ [])) ≡ report (
        codes "1 1700000000.000000000 n=0 control request answered=1" ∷ []) }
{}

/// A Map-Request for another site's EID is dropped, and isn't answered.
pub fn a_request_for_another_site_is_dropped()
    ensures line { said nested_site (frames (message.ask_11_0_0_1 ∷ [])) ≡ report (
        codes "1 1700000000.000000000 n=0 drop 5 not-ours" ∷ []) }
    ensures packets { sent nested_site (frames (message.ask_11_0_0_1 ∷ [])) ≡ [] }
{}

/// A probe is answered by a Map-Reply with P, whose locator has L, p and R.
pub fn a_probe_is_answered()
    ensures line { said static_site (frames (message.probe ∷ [])) ≡ report (
        codes "1 1700000000.000000000 n=1 control request answered=1" ∷ []) }
    ensures packet { sent static_site (frames (message.probe ∷ []))
        ≡ packet_at (tenths 0) message.answer_to_probe ∷ [] }
{}

/// A Map-Request whose only reply address is of a family in which the site has no locator is
/// dropped, and isn't answered.
pub fn a_reply_has_a_path()
    ensures line { said static_site (frames (message.ask_from_ipv6 ∷ [])) ≡ report (
        codes "1 1700000000.000000000 n=1 drop 24 no-reply-path" ∷ []) }
    ensures packets { sent static_site (frames (message.ask_from_ipv6 ∷ [])) ≡ [] }
{}

/// An encapsulated Map-Request is answered, and not as a probe; an encapsulated Map-Reply is
/// dropped.
pub fn what_is_encapsulated_is_no_probe()
    ensures lines { said static_site (frames (message.carried_probe ∷ message.carried_reply ∷ []))
        ≡ report (
        codes "1 1700000000.000000000 n=1 control request answered=1"
        ∷ codes "2 1700000000.100000000 n=1 drop 25 unexpected"
        ∷ []) }
    ensures packet { sent static_site (frames (message.carried_probe ∷ message.carried_reply ∷ []))
        ≡ packet_at (tenths 0) message.answer_to_carried ∷ [] }
{}

/// An SMR for a learned mapping makes the router request that mapping again.
pub fn an_smr_asks_again()
    ensures line { said asking_site (frames (exchange ++ message.smr ∷ []))
        ≡ said asking_site (frames exchange)
        ++ codes "4 1700000000.300000000 n=3 control solicit asked=1\n" }
    ensures packet { drop 2 (sent asking_site (frames (exchange ++ message.smr ∷ [])))
        ≡ packet_at (tenths 3) message.asked_again ∷ [] }
    ensures journal { kept asking_site (frames (exchange ++ message.smr ∷ []))
        ≡ Asked (tenths 3) wide None true 0x1112131415161718 ∷ kept asking_site (frames exchange) }
{}
