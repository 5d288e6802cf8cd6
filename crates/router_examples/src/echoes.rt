// Echoed nonces: how long an echo is requested or wanted, and the effect of a missing one.
#![tactic(auto, unfolding(crate::proofs::OnLiterals::router_on_literals))]

ghost use Rattle.std.specs.Prelude.{◌≡◌, [], ◌∷◌, ◌++◌, codes, false, map, None, Some, true};
ghost use Rattle.locator_state.specs.Echoes.{may_start, may_want};
ghost use Rattle.router_log.specs.declared.entry.Entry.TheVariants.{DataFrom, EchoHeard, EchoStarted, EchoWanted};
ghost use Rattle.router_log.specs.declared.kept.EchoOut.TheVariants.{Answer, Ask, Plain};
ghost use Rattle.router_log.specs.declared.notice.Notice.TheVariants as notice;
ghost use Rattle.router_model.specs.Journal.{statics};
ghost use Rattle.router_model.specs.Proper.{fits, is_short};
ghost use Rattle.router_model.specs.View.{view};
ghost use Rattle.router_examples.specs.Frames.{around, delivered, inward, inward_of_another, just_before, outward, seconds, tenths};
ghost use Rattle.router_examples.specs.Replays.{around_both, around_echo, around_wish, after_asking, data_came, echo_asked, echo_asked_and_wanted, echo_came, echo_wanted, kept, packet_at, report, said, sent, starts_of, told_by, told_by_packet, wishes_of};
ghost use Rattle.router_examples.specs.Sites.{echoing_site, echoing_site_of_versions, far, far_off, site_of_versions, static_site};

/// An echo is requested of a locator once a packet goes to it. If data and no echo comes from the
/// locator, it isn't usable from 10 s to 60 s after the request; then another echo is requested of
/// it.
pub fn a_locator_owes_its_echo()
    ensures lines { said echoing_site (around_echo (codes "0000000000000000")) ≡ report (
        codes "1 1700000000.000000000 n=1 encapsulated 192.0.2.1 198.51.100.7 64519"
        ∷ codes "2 1700000001.000000000 n=2 encapsulated 192.0.2.1 198.51.100.7 64519"
        ∷ codes "3 1700000002.000000000 n=2 delivered 0"
        ∷ codes "4 1700000010.000000000 n=3 drop 19 no-locator"
        ∷ codes "5 1700000060.000000000 n=3 encapsulated 192.0.2.1 198.51.100.7 64519"
        ∷ []) }
    ensures packets { sent echoing_site (around_echo (codes "0000000000000000"))
        ≡ packet_at (seconds 0) (outward (codes "4000000000000001"))
        ∷ packet_at (seconds 1) (outward (codes "e00000aa00000001"))
        ∷ packet_at (seconds 2) delivered
        ∷ packet_at (seconds 60) (outward (codes "4000000000000001"))
        ∷ [] }
    ensures journal { kept echoing_site (around_echo (codes "0000000000000000"))
        ≡ EchoStarted (seconds 60) far 0x161718
        ∷ DataFrom (seconds 2) far
        ∷ EchoStarted (seconds 0) far 0xaa
        ∷ statics echoing_site }
{}

/// An echo within ten seconds keeps its locator usable and ends its request, so that the data in
/// the same packet adds no entry. A later echo adds none.
pub fn an_echo_keeps_a_locator_in_use()
    ensures lines { said echoing_site (around_echo (codes "800000aa00000000")) ≡ report (
        codes "1 1700000000.000000000 n=1 encapsulated 192.0.2.1 198.51.100.7 64519"
        ∷ codes "2 1700000001.000000000 n=2 encapsulated 192.0.2.1 198.51.100.7 64519"
        ∷ codes "3 1700000002.000000000 n=2 delivered 0"
        ∷ codes "4 1700000010.000000000 n=3 encapsulated 192.0.2.1 198.51.100.7 64519"
        ∷ codes "5 1700000060.000000000 n=3 encapsulated 192.0.2.1 198.51.100.7 64519"
        ∷ []) }
    ensures in_time { after_asking (just_before (seconds 10)) (inward (codes "800000aa00000000"))
        ≡ EchoHeard (just_before (seconds 10)) far ∷ echo_asked ++ statics echoing_site }
    ensures late { after_asking (seconds 10) (inward (codes "800000aa00000000"))
        ≡ echo_asked ++ statics echoing_site }
{}

/// A packet with another nonce counts as data and not as the echo, and so does one with E and
/// without N. A packet whose nonce is to be echoed is neither. A packet from another locator adds
/// no entry.
pub fn not_each_nonce_is_the_echo()
    ensures another_nonce { after_asking (seconds 2) (inward (codes "800000ab00000000"))
        ≡ DataFrom (seconds 2) far ∷ echo_asked ++ statics echoing_site }
    ensures without_nonce { after_asking (seconds 2) (inward (codes "200000aa00000000"))
        ≡ DataFrom (seconds 2) far ∷ echo_asked ++ statics echoing_site }
    ensures to_be_echoed { after_asking (seconds 2) (inward (codes "a00000aa00000000"))
        ≡ EchoWanted (seconds 2) far 0xaa ∷ echo_asked ++ statics echoing_site }
    ensures another_locator { after_asking (seconds 2) (inward_of_another (codes "800000aa00000000"))
        ≡ echo_asked ++ statics echoing_site }
{}

/// The notices of a tunnel packet by its echo bits: N with E is a wanted echo, N alone an echo and
/// data, all else data. E counts only with N.
pub fn a_header_tells_of_echoes()
    ensures plain { told_by static_site (codes "0000000000000000") ≡ notice.DataFrom far ∷ [] }
    ensures nonce { told_by static_site (codes "8000002a00000000")
        ≡ notice.EchoHeard far 0x2a ∷ notice.DataFrom far ∷ [] }
    ensures asking { told_by static_site (codes "a000002a00000000") ≡ notice.EchoWanted far 0x2a ∷ [] }
    ensures without_nonce { told_by static_site (codes "2000002a00000000") ≡ notice.DataFrom far ∷ [] }
    ensures beside_versions { told_by static_site (codes "b000002a00000000")
        ≡ notice.EchoWanted far 0x2a ∷ [] }
{}

/// An echo is requested of a locator for ten seconds, or until it comes. In that time one packet
/// without the echo is noted, which doesn't end the request.
pub fn an_echo_is_asked_for_ten_seconds()
    ensures asked { map (λ m. (view echo_asked m).echo_on far) (around 10) ≡ Some 0xaa ∷ None ∷ [] }
    ensures due { map (λ m. (view echo_asked m).data_due far) (around 10) ≡ true ∷ false ∷ [] }
    ensures heard { (view echo_came (seconds 2)).echo_on far ≡ None }
    ensures data { (view data_came (seconds 2)).echo_on far ≡ Some 0xaa }
    ensures no_more { (view data_came (seconds 2)).data_due far ≡ false }
    ensures another { (view echo_asked (seconds 1)).echo_on (far_off 8) ≡ None }
{}

/// A locator that sends data and no echo is down from 10 s to 60 s after the echo was requested. A
/// silent locator stays up, and so does one whose echo came.
pub fn a_locator_without_its_echo_is_down()
    ensures data { map (λ m. (view data_came m).up far) (around 10 ++ around 60)
        ≡ true ∷ false ∷ false ∷ true ∷ [] }
    ensures silent { map (λ m. (view echo_asked m).up far) (around 10 ++ around 60)
        ≡ true ∷ true ∷ true ∷ true ∷ [] }
    ensures heard { map (λ m. (view (EchoHeard (seconds 3) far ∷ data_came) m).up far) (around 10 ++ around 60)
        ≡ true ∷ true ∷ true ∷ true ∷ [] }
    ensures another { (view data_came (seconds 10)).up (far_off 8) ≡ true }
{}

/// An echo is requested where the setting `echo` is on: of a locator once a minute, and not while
/// the locator wants an echo itself.
pub fn an_echo_is_asked_for_once_a_minute()
    ensures due { told_by_packet echoing_site (statics echoing_site) ≡ notice.EchoDue far ∷ [] }
    ensures unset { told_by_packet static_site (statics static_site) ≡ [] }
    ensures minute { map (λ m. (view echo_came m).may_start far) (around 60) ≡ false ∷ true ∷ [] }
    ensures wanted { map (λ m. (view echo_wanted m).may_start far) (around 2) ≡ false ∷ true ∷ [] }
    ensures another { (view echo_asked_and_wanted (seconds 1)).may_start (far_off 8) ≡ true }
{}

/// A wanted echo is in each packet to its locator for two seconds, even where the setting `echo` is
/// off.
pub fn a_wanted_echo_is_given()
    ensures lines { said static_site around_wish ≡ report (
        codes "1 1700000000.000000000 n=1 delivered 0"
        ∷ codes "2 1700000001.000000000 n=2 encapsulated 192.0.2.1 198.51.100.7 64519"
        ∷ codes "3 1700000001.999999999 n=2 encapsulated 192.0.2.1 198.51.100.7 64519"
        ∷ codes "4 1700000002.000000000 n=2 encapsulated 192.0.2.1 198.51.100.7 64519"
        ∷ []) }
    ensures packets { sent static_site around_wish
        ≡ packet_at (seconds 0) delivered
        ∷ packet_at (seconds 1) (outward (codes "c000002a00000001"))
        ∷ packet_at (just_before (seconds 2)) (outward (codes "c000002a00000001"))
        ∷ packet_at (seconds 2) (outward (codes "4000000000000001"))
        ∷ [] }
    ensures journal { kept static_site around_wish
        ≡ EchoWanted (seconds 0) far 0x2a ∷ statics static_site }
{}

/// An echo is wanted for two seconds from when its nonce first came; the same nonce doesn't extend
/// them. Another nonce takes its place.
pub fn an_echo_is_wanted_for_two_seconds()
    ensures out { map (λ m. (view echo_wanted m).echo_out far) (around 2) ≡ Answer 0x2a ∷ Plain ∷ [] }
    ensures again { map (λ m. (view echo_wanted m).may_want far 0x2a) (around 2) ≡ false ∷ true ∷ [] }
    ensures other { (view echo_wanted (seconds 1)).may_want far 0x2b ≡ true }
    ensures last { (view (EchoWanted (seconds 1) far 0x2b ∷ echo_wanted) (seconds 1)).echo_out far
        ≡ Answer 0x2b }
    ensures another { (view echo_wanted (seconds 1)).echo_out (far_off 8) ≡ Plain }
{}

/// A wanted echo goes before a requested one in packets to a locator, and beside either a header
/// names no versions.
pub fn answering_goes_before_asking()
    ensures out { map (λ m. (view echo_asked_and_wanted m).echo_out far) (around 3 ++ around 10)
        ≡ Answer 0x2a ∷ Ask 0xaa ∷ Ask 0xaa ∷ Plain ∷ [] }
    ensures packets { sent echoing_site_of_versions around_both
        ≡ packet_at (seconds 0) (outward (codes "5000500700000001"))
        ∷ packet_at (seconds 1) (outward (codes "e00000aa00000001"))
        ∷ packet_at (tenths 15) delivered
        ∷ packet_at (tenths 16) (outward (codes "c000002a00000001"))
        ∷ packet_at (tenths 35) (outward (codes "e00000aa00000001"))
        ∷ packet_at (seconds 10) (outward (codes "5000500700000001"))
        ∷ [] }
{}

/// The nonce of an echo has 24 bits; that of a requested echo is the lowest 24 of the nonce that is
/// drawn.
pub fn an_echo_has_24_bits()
    ensures short { map is_short (0xffffff ∷ 0x1000000 ∷ []) ≡ true ∷ false ∷ [] }
    ensures asked { map (λ nonce. fits (site_of_versions 0 0) [] (EchoStarted (seconds 0) far nonce))
        (0x060708 ∷ 0x1000000 ∷ 0x0102030405060708 ∷ []) ≡ true ∷ false ∷ false ∷ [] }
    ensures wanted { map (λ nonce. fits static_site [] (EchoWanted (seconds 0) far nonce))
        (0xffffff ∷ 0x1000000 ∷ []) ≡ true ∷ false ∷ [] }
{}

/// While 4,096 echoes are requested, no other one is; while 4,096 echoes are wanted, no other one
/// is noted.
pub fn echoes_have_room_for_4096()
    ensures asked { map (λ n. may_start (seconds 1) (starts_of n) [] (far_off 8))
        (4095 ∷ 4096 ∷ []) ≡ true ∷ false ∷ [] }
    ensures wanted { map (λ n. may_want (seconds 1) (wishes_of n) (far_off 8) 0x2a)
        (4095 ∷ 4096 ∷ []) ≡ true ∷ false ∷ [] }
{}
