// Map-Versions: which ones a LISP header names, and the effect of an old one.
#![tactic(auto, unfolding(crate::proofs::OnLiterals::router_on_literals))]

ghost use Rattle.std.specs.Prelude.{◌≡◌, [], ◌∷◌, codes, drop, false, map, None, replicate, Some, true};
ghost use Rattle.ip_headers.specs.declared.addr.Addr.TheVariants.{V4};
ghost use Rattle.locator_state.specs.Solicits.{may_solicit};
ghost use Rattle.router_log.specs.declared.entry.Entry.TheVariants.{Answered, Asked, Learned, Solicited};
ghost use Rattle.router_log.specs.declared.notice.Notice.TheVariants as notice;
ghost use Rattle.router_model.specs.Journal.{statics};
ghost use Rattle.router_model.specs.Note.{note};
ghost use Rattle.router_model.specs.View.{view};
ghost use Rattle.router_examples.specs.Frames as frame;
ghost use Rattle.router_examples.specs.Frames.{around, delivered, outward, packet, seconds, tenths, with_versions};
ghost use Rattle.router_examples.specs.Messages as message;
ghost use Rattle.router_examples.specs.Replays.{frames, from_version, from_versions, kept, packet_at, report, said, sent, solicited_once, solicits_of, to_version, to_version_4, to_versions, told_by, verdict_on};
ghost use Rattle.router_examples.specs.Sites.{asking_site, far, far_in_ipv6, far_off, home_of_0, host, locator, mapping, part_of_0, site_of_two_versions, site_of_versions, site_that_may_ask, wide};

/// A LISP header names the version of the site's longest prefix as source version and that of the
/// mapping as destination version, where either isn't 0.
pub fn a_header_tells_both_versions()
    ensures both { sent (site_of_versions 5 7) (frames (packet ∷ []))
        ≡ packet_at (tenths 0) (outward (codes "5000500700000001")) ∷ [] }
    ensures source { sent (site_of_versions 4095 0) (frames (packet ∷ []))
        ≡ packet_at (tenths 0) (outward (codes "50fff00000000001")) ∷ [] }
    ensures dest { sent (site_of_versions 0 4095) (frames (packet ∷ []))
        ≡ packet_at (tenths 0) (outward (codes "50000fff00000001")) ∷ [] }
    ensures neither { sent (site_of_versions 0 0) (frames (packet ∷ []))
        ≡ packet_at (tenths 0) (outward (codes "4000000000000001")) ∷ [] }
    ensures longest { sent site_of_two_versions (frames (packet ∷ []))
        ≡ packet_at (tenths 0) (outward (codes "5000900700000001")) ∷ [] }
{}

/// A packet with a newer destination version than that of the site's prefix is dropped. Versions go
/// round, and of two that are 2,048 apart the greater one is newer.
pub fn a_newer_destination_is_dropped()
    ensures { map to_version
        ((1, 4095) ∷ (4095, 1) ∷ (2049, 1) ∷ (1, 2049) ∷ (7, 7) ∷ (6, 5) ∷ (5, 6) ∷ [])
        ≡ codes "drop 6 dest-version-newer"
        ∷ codes "delivered 0"
        ∷ codes "drop 6 dest-version-newer"
        ∷ codes "delivered 0"
        ∷ codes "delivered 0"
        ∷ codes "drop 6 dest-version-newer"
        ∷ codes "delivered 0"
        ∷ [] }
{}

/// A packet with an older source version than that of the mapping for its source is dropped.
pub fn an_older_source_is_dropped()
    ensures { map from_version
        ((1, 4095) ∷ (4095, 1) ∷ (2049, 1) ∷ (1, 2049) ∷ (7, 7) ∷ (6, 5) ∷ (5, 6) ∷ [])
        ≡ codes "delivered 0"
        ∷ codes "drop 7 source-version-older"
        ∷ codes "delivered 0"
        ∷ codes "drop 7 source-version-older"
        ∷ codes "delivered 0"
        ∷ codes "delivered 0"
        ∷ codes "drop 7 source-version-older"
        ∷ [] }
{}

/// Version 0 is none, of either side, and drops no packet.
pub fn a_version_of_0_drops_nothing()
    ensures dest { map to_version ((0, 5) ∷ (1, 0) ∷ (2048, 0) ∷ (2049, 0) ∷ [])
        ≡ replicate 4 (codes "delivered 0") }
    ensures source { map from_version ((0, 7) ∷ (1, 0) ∷ (4095, 0) ∷ [])
        ≡ replicate 3 (codes "delivered 0") }
    ensures without_v { verdict_on (frame.inward (codes "0000000600000000")) (site_of_versions 5 0)
        ≡ codes "delivered 0" }
{}

/// Whether a packet is for the site is judged before its versions, its destination version before
/// its source version, and both before its congestion mark and its hops.
pub fn versions_are_judged_in_order()
    ensures another { verdict_on (frame.for_another_with (codes "1000600600000000")) (site_of_versions 5 7)
        ≡ codes "drop 5 not-ours" }
    ensures mark { map (λ header. verdict_on (frame.congested_with header) (site_of_versions 5 7))
        (codes "1000600600000000" ∷ codes "1000600500000000" ∷ codes "1000700500000000" ∷ [])
        ≡ codes "drop 6 dest-version-newer"
        ∷ codes "drop 7 source-version-older"
        ∷ codes "drop 8 congestion-mark"
        ∷ [] }
    ensures hops { map (λ header. verdict_on (frame.at_its_end_with header) (site_of_versions 5 7))
        (codes "1000700600000000" ∷ codes "1000600500000000" ∷ codes "1000700500000000" ∷ [])
        ≡ codes "drop 6 dest-version-newer"
        ∷ codes "drop 7 source-version-older"
        ∷ codes "drop 9 ttl-expired"
        ∷ [] }
{}

/// A peer that names an old version of the site's prefix gets an SMR, and its packet is delivered.
/// In a family in which the site has no locator no SMR is sent.
pub fn a_peer_with_an_old_version_is_solicited()
    ensures lines { said (site_of_versions 5 0) to_versions ≡ report (
        codes "1 1700000000.000000000 n=1 drop 6 dest-version-newer"
        ∷ codes "2 1700000001.000000000 n=1 delivered 0"
        ∷ codes "3 1700000002.000000000 n=2 delivered 0"
        ∷ codes "4 1700000003.000000000 n=2 delivered 0"
        ∷ []) }
    ensures packets { sent (site_of_versions 5 0) to_versions
        ≡ packet_at (seconds 1) delivered
        ∷ packet_at (seconds 1) message.solicit
        ∷ packet_at (seconds 2) delivered
        ∷ packet_at (seconds 3) delivered
        ∷ [] }
    ensures journal { kept (site_of_versions 5 0) to_versions
        ≡ Solicited (seconds 1) far home_of_0 0x0102030405060708 ∷ statics (site_of_versions 5 0) }
    ensures family { (note (site_of_versions 5 0) [] (seconds 0) (notice.Solicit far_in_ipv6 home_of_0)).entries
        ≡ [] }
{}

/// A peer gets one SMR for a prefix in ten seconds. Another peer, or the same one for another
/// prefix, gets one at once, unless 4,096 SMRs count.
pub fn a_peer_is_solicited_once_in_ten_seconds()
    ensures same { map (λ m. (view solicited_once m).may_solicit far home_of_0) (around 10)
        ≡ false ∷ true ∷ [] }
    ensures another_peer { (view solicited_once (seconds 1)).may_solicit (far_off 8) home_of_0 ≡ true }
    ensures another_prefix { (view solicited_once (seconds 1)).may_solicit far part_of_0 ≡ true }
    ensures lines { said (site_of_versions 5 0) to_version_4 ≡ report (
        codes "1 1700000000.000000000 n=1 delivered 0"
        ∷ codes "2 1700000009.999999999 n=2 delivered 0"
        ∷ codes "3 1700000010.000000000 n=2 delivered 0"
        ∷ []) }
    ensures room { map (λ n. may_solicit (seconds 1) (solicits_of n) (far_off 8) home_of_0)
        (4095 ∷ 4096 ∷ []) ≡ true ∷ false ∷ [] }
{}

/// A learned mapping that is older than a packet's source version is requested again; a packet with
/// an older source version than the mapping's is dropped.
pub fn an_older_mapping_is_asked_for_again()
    ensures lines { said asking_site (frames from_versions) ≡ report (
        codes "1 1700000000.000000000 n=0 drop 13 miss"
        ∷ codes "2 1700000000.100000000 n=1 control reply learned=1 passed=0"
        ∷ codes "3 1700000000.200000000 n=3 delivered 100"
        ∷ codes "4 1700000000.300000000 n=4 drop 7 source-version-older"
        ∷ []) }
    ensures packets { sent asking_site (frames from_versions)
        ≡ packet_at (tenths 0) message.asked
        ∷ packet_at (tenths 2) delivered
        ∷ packet_at (tenths 2) message.asked_for_newer
        ∷ [] }
    ensures journal { kept asking_site (frames from_versions)
        ≡ Asked (tenths 2) wide None false 0x1112131415161718
        ∷ Learned (tenths 1) (record (mapping 60 wide (locator far ∷ [])) { version = 7 }) false
        ∷ Answered (tenths 1) 0x0102030405060708
        ∷ Asked (tenths 0) host (Some (V4 0x0a010005)) false 0x0102030405060708
        ∷ [] }
{}

/// A static mapping isn't requested again, whatever source version a packet names.
pub fn a_static_mapping_stays_as_it_is()
    ensures told { told_by site_that_may_ask (codes "1000800000000000") ≡ notice.DataFrom far ∷ [] }
    ensures lines { said site_that_may_ask (frames (with_versions 8 0 ∷ with_versions 6 0 ∷ [])) ≡ report (
        codes "1 1700000000.000000000 n=1 delivered 0"
        ∷ codes "2 1700000000.100000000 n=1 drop 7 source-version-older"
        ∷ []) }
{}

/// The notices of a tunnel packet by its versions come after those by its echo bits: an old
/// destination version gives an SMR, the same one or 0 gives none.
pub fn a_header_tells_of_versions()
    ensures old { told_by (site_of_versions 5 7) (codes "1000700400000000")
        ≡ notice.DataFrom far ∷ notice.Solicit far home_of_0 ∷ [] }
    ensures same { told_by (site_of_versions 5 7) (codes "1000700500000000") ≡ notice.DataFrom far ∷ [] }
    ensures none { told_by (site_of_versions 5 7) (codes "1000700000000000") ≡ notice.DataFrom far ∷ [] }
{}
