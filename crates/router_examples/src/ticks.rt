// Seconds that begin: Map-Requests are sent again.
#![tactic(auto, unfolding(crate::proofs::OnLiterals::router_on_literals))]

ghost use Rattle.std.specs.Prelude.{◌≡◌, [], ◌∷◌, ◌++◌, codes, false, map, Some, true};
ghost use Rattle.ip_headers.specs.declared.addr.Addr.TheVariants.{V4};
ghost use Rattle.router_log.specs.declared.emit.Emit.TheVariants as emit;
ghost use Rattle.router_log.specs.declared.entry.Entry.TheVariants.{Answered, Learned, Probed, Retried};
ghost use Rattle.router_model.specs.Journal.{statics};
ghost use Rattle.router_examples.specs.Frames.{just_before, packet, raw, seconds, tenths};
ghost use Rattle.router_examples.specs.Messages.{asked, reply};
ghost use Rattle.router_examples.specs.Replays.{asked_once, asked_twice, due_at, kept, packet_at, replied_at, report, retried_at, said, second, sent, two_asked, waiting};
ghost use Rattle.router_examples.specs.Sites.{asking_and_probing_site, asking_site, far, host, locator, mapping, wide};

/// A Map-Request is sent three times in all, again after one second and after three. Its Map-Reply
/// counts until seven seconds are over.
pub fn a_request_goes_out_three_times()
    ensures packets { sent asking_site (replied_at (just_before (seconds 7)))
        ≡ packet_at (seconds 0) asked ∷ packet_at (seconds 1) asked ∷ packet_at (seconds 3) asked ∷ [] }
    ensures lines { said asking_site (replied_at (just_before (seconds 7))) ≡ report (
        codes "1 1700000000.000000000 n=0 drop 13 miss"
        ∷ codes "2 1700000006.999999999 n=3 control reply learned=1 passed=0"
        ∷ []) }
    ensures journal { kept asking_site (replied_at (just_before (seconds 7)))
        ≡ Learned (just_before (seconds 7)) (mapping 60 wide (locator far ∷ [])) false
        ∷ Answered (just_before (seconds 7)) 0x0102030405060708
        ∷ waiting }
    ensures late { said asking_site (replied_at (seconds 7)) ≡ report (
        codes "1 1700000000.000000000 n=0 drop 13 miss"
        ∷ codes "2 1700000007.000000000 n=3 drop 21 unsolicited"
        ∷ []) }
    ensures kept { kept asking_site (replied_at (seconds 7)) ≡ waiting }
{}

/// A Map-Request that was made within a second is sent again by its age, and not by the number of
/// seconds that began.
pub fn a_request_goes_out_again_by_its_age()
    ensures { sent asking_site (raw 1 (tenths 5) packet ∷ raw 2 (seconds 8) reply ∷ [])
        ≡ packet_at (tenths 5) asked ∷ packet_at (seconds 2) asked ∷ packet_at (seconds 4) asked ∷ [] }
{}

/// A Map-Request is due once it is one second old, again once it is three, and no third time; at
/// seven seconds it is no longer open.
pub fn a_request_is_due_twice()
    ensures first { map (due_at asked_once) (seconds 0 ∷ just_before (seconds 1) ∷ seconds 1 ∷ seconds 2 ∷ [])
        ≡ (false ∷ []) ∷ (false ∷ []) ∷ (true ∷ []) ∷ (true ∷ []) ∷ [] }
    ensures second { map (due_at asked_twice) (seconds 1 ∷ just_before (seconds 3) ∷ seconds 3 ∷ seconds 4 ∷ [])
        ≡ (false ∷ []) ∷ (false ∷ []) ∷ (true ∷ []) ∷ (true ∷ []) ∷ [] }
    ensures third { map (due_at waiting) (seconds 3 ∷ seconds 4 ∷ just_before (seconds 7) ∷ [])
        ≡ (false ∷ []) ∷ (false ∷ []) ∷ (false ∷ []) ∷ [] }
    ensures over { map (due_at asked_once) (just_before (seconds 7) ∷ seconds 7 ∷ [])
        ≡ (true ∷ []) ∷ [] ∷ [] }
{}

/// At a second a Map-Request that is due is entered as sent again, and goes out as it did the first
/// time.
pub fn a_second_sends_a_request_again()
    ensures none { (second asking_site asked_once 0).entries ≡ [] }
    ensures entries { (second asking_site asked_once 1).entries ≡ Retried (seconds 1) 0x0102030405060708 ∷ [] }
    ensures emits { (second asking_site asked_once 1).emits
        ≡ emit.Request host (Some (V4 0x0a010005)) false 0x0102030405060708 ∷ [] }
    ensures after { (second asking_site asked_twice 3).after ≡ waiting }
    ensures no_third { map (λ n. (second asking_site waiting n).entries) (4 ∷ 5 ∷ 6 ∷ [])
        ≡ [] ∷ [] ∷ [] ∷ [] }
{}

/// Map-Requests are sent again in the order in which they were made, each with its own count.
pub fn requests_go_out_again_in_order()
    ensures both { retried_at asking_site two_asked 2 ≡ 5 ∷ 2 ∷ [] }
    ensures one { retried_at asking_site (Retried (seconds 2) 5 ∷ two_asked) 2 ≡ 2 ∷ [] }
    ensures apart { retried_at asking_site (Retried (seconds 2) 2 ∷ Retried (seconds 2) 5 ∷ two_asked) 3 ≡ 5 ∷ [] }
{}

/// At a second Map-Requests are sent again before locators are probed, and probes take the next
/// nonces.
pub fn requests_come_before_probes()
    ensures { (second asking_and_probing_site (asked_once ++ statics asking_and_probing_site) 1).entries
        ≡ Retried (seconds 1) 0x0102030405060708 ∷ Probed (seconds 1) far 0x1112131415161718 ∷ [] }
{}
