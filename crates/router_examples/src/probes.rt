// Probes of locators: which locators are probed at a second, and when a probe counts against its
// locator.
#![tactic(auto, unfolding(crate::proofs::OnLiterals::router_on_literals))]

ghost use Rattle.std.specs.Prelude.{◌≡◌, [], ◌∷◌, codes, false, map, true};
ghost use Rattle.std.specs.List.{range_with_len};
ghost use Rattle.ip_headers.specs.declared.addr.Addr.TheVariants.{V4};
ghost use Rattle.router_log.specs.declared.emit.Emit.TheVariants as emit;
ghost use Rattle.router_log.specs.declared.entry.Entry.TheVariants.{Probed, ProbeAnswered};
ghost use Rattle.router_model.specs.Journal.{statics};
ghost use Rattle.router_examples.specs.Frames.{encapsulated, just_before, seconds, tenths};
ghost use Rattle.router_examples.specs.Messages as message;
ghost use Rattle.router_examples.specs.Replays.{answer_at, answered_once, around_answer, around_probes, kept, learned_for_a_minute, packet_at, probed_again, probed_at, probed_before, probed_once, probed_twice, probes_of, report, said, second, sent, shared_locators, up_at};
ghost use Rattle.router_examples.specs.Sites.{far, far_in_ipv6, far_off, locator, narrow_of_0, near, near_in_ipv6, own, probing_site, seventeen_locators, site_of_both, static_site, wide_of_0};

/// A locator is probed at the next second. From three seconds after an unanswered probe on it isn't
/// usable; after a minute it is probed again, and is usable once that probe is answered.
pub fn a_locator_is_probed_until_it_answers()
    ensures lines { said probing_site around_probes ≡ report (
        codes "1 1700000000.500000000 n=1 encapsulated 192.0.2.1 198.51.100.7 64519"
        ∷ codes "2 1700000003.900000000 n=2 encapsulated 192.0.2.1 198.51.100.7 64519"
        ∷ codes "3 1700000004.000000000 n=2 drop 19 no-locator"
        ∷ codes "4 1700000061.400000000 n=3 drop 19 no-locator"
        ∷ codes "5 1700000061.500000000 n=3 control probe-reply"
        ∷ codes "6 1700000061.600000000 n=4 encapsulated 192.0.2.1 198.51.100.7 64519"
        ∷ []) }
    ensures packets { sent probing_site around_probes
        ≡ packet_at (tenths 5) encapsulated
        ∷ packet_at (seconds 1) message.first_probe
        ∷ packet_at (tenths 39) encapsulated
        ∷ packet_at (seconds 61) message.second_probe
        ∷ packet_at (tenths 616) encapsulated
        ∷ [] }
    ensures journal { kept probing_site around_probes
        ≡ ProbeAnswered (tenths 615) 0x1112131415161718
        ∷ Probed (seconds 61) far 0x1112131415161718
        ∷ Probed (seconds 1) far 0x0102030405060708
        ∷ statics probing_site }
{}

/// An answer from another address than the probed one is dropped, and doesn't settle the probe.
pub fn a_foreign_answer_is_none()
    ensures lines { said probing_site (around_answer message.foreign_answer) ≡ report (
        codes "1 1700000000.500000000 n=1 encapsulated 192.0.2.1 198.51.100.7 64519"
        ∷ codes "2 1700000001.500000000 n=2 drop 23 foreign"
        ∷ codes "3 1700000004.000000000 n=2 drop 19 no-locator"
        ∷ []) }
    ensures journal { kept probing_site (around_answer message.foreign_answer)
        ≡ Probed (seconds 1) far 0x0102030405060708 ∷ statics probing_site }
{}

/// An answer in time keeps the probed locator usable.
pub fn an_answer_keeps_a_locator_in_use()
    ensures lines { said probing_site (around_answer message.first_answer) ≡ report (
        codes "1 1700000000.500000000 n=1 encapsulated 192.0.2.1 198.51.100.7 64519"
        ∷ codes "2 1700000001.500000000 n=2 control probe-reply"
        ∷ codes "3 1700000004.000000000 n=3 encapsulated 192.0.2.1 198.51.100.7 64519"
        ∷ []) }
    ensures journal { kept probing_site (around_answer message.first_answer)
        ≡ ProbeAnswered (tenths 15) 0x0102030405060708
        ∷ Probed (seconds 1) far 0x0102030405060708 ∷ statics probing_site }
{}

/// A probe is answered within three seconds, and once; any other answer is dropped.
pub fn a_probe_is_answered_within_three_seconds()
    ensures within { answer_at probed_once (just_before (seconds 3)) ≡ codes "control probe-reply" }
    ensures late { answer_at probed_once (seconds 3) ≡ codes "drop 21 unsolicited" }
    ensures again { answer_at answered_once (seconds 2) ≡ codes "drop 21 unsolicited" }
    ensures without_probes { said static_site (around_answer message.first_answer) ≡ report (
        codes "1 1700000000.500000000 n=1 encapsulated 192.0.2.1 198.51.100.7 64519"
        ∷ codes "2 1700000001.500000000 n=1 drop 21 unsolicited"
        ∷ codes "3 1700000004.000000000 n=1 encapsulated 192.0.2.1 198.51.100.7 64519"
        ∷ []) }
{}

/// A probe counts against its locator from three seconds on, until it or a later one is answered,
/// or until it is 600 seconds old.
pub fn a_probe_speaks_against_its_locator()
    ensures unanswered { map (up_at probed_once)
        (seconds 0 ∷ just_before (seconds 3) ∷ seconds 3 ∷ just_before (seconds 600) ∷ seconds 600 ∷ [])
        ≡ true ∷ true ∷ false ∷ false ∷ true ∷ [] }
    ensures answered { map (up_at answered_once) (seconds 1 ∷ seconds 3 ∷ seconds 599 ∷ seconds 600 ∷ [])
        ≡ true ∷ true ∷ true ∷ true ∷ [] }
    ensures still_down { map (up_at probed_twice) (seconds 60 ∷ just_before (seconds 63) ∷ seconds 63 ∷ [])
        ≡ false ∷ false ∷ false ∷ [] }
    ensures still_up { map (up_at probed_again) (seconds 60 ∷ just_before (seconds 63) ∷ seconds 63 ∷ [])
        ≡ true ∷ true ∷ false ∷ [] }
    ensures answered_later { map (up_at (ProbeAnswered (seconds 61) 0x1112131415161718 ∷ probed_twice))
        (seconds 61 ∷ seconds 63 ∷ []) ≡ true ∷ true ∷ [] }
    ensures another { up_at (Probed (seconds 0) (far_off 8) 0x0102030405060708 ∷ []) (seconds 3) ≡ true }
{}

/// Locators without a probe are probed first, in order of address, IPv4 first; the others follow in
/// order of their last probe, which counts for 600 seconds.
pub fn locators_are_probed_in_turn()
    ensures by_address { probed_at site_of_both (probed_before site_of_both []) 0
        ≡ far_off 7 ∷ far_off 8 ∷ far_off 9 ∷ far_in_ipv6 ∷ [] }
    ensures by_moment { probed_at site_of_both
        (probed_before site_of_both ((2, far) ∷ (1, far_in_ipv6) ∷ (1, far_off 8) ∷ [])) 100
        ≡ far_off 9 ∷ far_off 8 ∷ far_in_ipv6 ∷ far ∷ [] }
    ensures forgotten { probed_at site_of_both
        (probed_before site_of_both ((2, far) ∷ (1, far_in_ipv6) ∷ (1, far_off 8) ∷ [])) 601
        ≡ far_off 8 ∷ far_off 9 ∷ far_in_ipv6 ∷ far ∷ [] }
{}

/// A locator is probed again once its last probe is a minute old.
pub fn a_locator_rests_for_a_minute()
    ensures young { probed_at probing_site (probed_before probing_site ((0, far) ∷ [])) 59 ≡ [] }
    ensures rested { probed_at probing_site (probed_before probing_site ((0, far) ∷ [])) 60 ≡ far ∷ [] }
    ensures last { probed_at probing_site (probed_before probing_site ((60, far) ∷ (0, far) ∷ [])) 119 ≡ [] }
{}

/// A locator of priority 255, an own one, one of a family without an own locator that is up, and
/// one whose mapping ended aren't probed; with the setting `probe` off none is. One that is down by
/// its record is probed.
pub fn some_locators_are_not_probed()
    ensures priority { probes_of (own near ∷ [])
        (record (locator far) { priority = 255 } ∷ locator (far_off 8) ∷ []) ≡ far_off 8 ∷ [] }
    ensures own { probes_of (own near ∷ []) (locator near ∷ locator far ∷ []) ≡ far ∷ [] }
    ensures own_down { probes_of (own near ∷ record (own (V4 0xc0000202)) { up = false } ∷ [])
        (locator (V4 0xc0000202) ∷ locator far ∷ []) ≡ far ∷ [] }
    ensures family { probes_of (own near ∷ []) (locator far_in_ipv6 ∷ locator far ∷ []) ≡ far ∷ [] }
    ensures family_down { probes_of (own near ∷ record (own near_in_ipv6) { up = false } ∷ [])
        (locator far_in_ipv6 ∷ locator far ∷ []) ≡ far ∷ [] }
    ensures down { probes_of (own near ∷ []) (record (locator far) { reachable = false } ∷ []) ≡ far ∷ [] }
    ensures live { probed_at probing_site learned_for_a_minute 59 ≡ far ∷ [] }
    ensures ended { probed_at probing_site learned_for_a_minute 60 ≡ [] }
    ensures unset { probed_at static_site (statics static_site) 1 ≡ [] }
{}

/// A probe is for the least EID whose mapping names the locator with another priority than 255.
pub fn a_probe_is_for_the_least_eid()
    ensures { (second probing_site shared_locators 1).emits
        ≡ emit.Probe far narrow_of_0 0x0102030405060708
        ∷ emit.Probe (far_off 8) wide_of_0 0x1112131415161718 ∷ [] }
{}

/// Sixteen locators are probed at one second, and the seventeenth at the next.
pub fn sixteen_locators_are_probed_a_second()
    ensures sixteen { probed_at seventeen_locators (statics seventeen_locators) 0
        ≡ map far_off (range_with_len 1 16) }
    ensures last { probed_at seventeen_locators
        (second seventeen_locators (statics seventeen_locators) 0).after 1 ≡ far_off 17 ∷ [] }
    ensures none { probed_at seventeen_locators
        (second seventeen_locators (second seventeen_locators (statics seventeen_locators) 0).after 1).after 2 ≡ [] }
{}
