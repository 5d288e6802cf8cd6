// Own locators that go up and down: the sources of packets, the locators that get SMRs, and the
// versions that follow.
#![tactic(auto, unfolding(crate::proofs::OnLiterals::router_on_literals))]

ghost use Rattle.std.specs.Prelude.{◌≡◌, [], ◌∷◌, codes, false, map, None, true};
ghost use Rattle.std.specs.List.{range_with_len};
ghost use Rattle.router_log.specs.declared.entry.Entry.TheVariants.{Asked, Changed, Retried, Solicited};
ghost use Rattle.router_log.specs.declared.notice.Notice.TheVariants as notice;
ghost use Rattle.router_model.specs.Journal.{statics};
ghost use Rattle.router_model.specs.Note.{note};
ghost use Rattle.router_model.specs.Standing.{stood_version};
ghost use Rattle.router_examples.specs.Frames.{outward, outward_from_the_next, packet, raw, seconds};
ghost use Rattle.router_examples.specs.Messages as message;
ghost use Rattle.router_examples.specs.Replays.{asked_once, kept, packet_at, reachable_after, report, said, second, sent, told_at, twice, versions_after};
ghost use Rattle.router_examples.specs.Sites.{asking_site_going_down, change, far, far_off, home_of_0, host, near, near_too, site_going_down, site_of_96_locators, site_with_changes, site_with_few_to_tell};

/// When an own locator goes down, packets go from the next one and under the next version. The
/// change shows in status bits, in an SMR to the other side, and in the records of Map-Replies.
pub fn an_own_locator_goes_down()
    ensures lines { said site_going_down twice ≡ report (
        codes "1 1700000000.000000000 n=1 encapsulated 192.0.2.1 198.51.100.7 64519"
        ∷ codes "2 1700000002.000000000 n=3 encapsulated 192.0.2.2 198.51.100.7 64519"
        ∷ []) }
    ensures packets { sent site_going_down twice
        ≡ packet_at (seconds 0) (outward (codes "5000500000000003"))
        ∷ packet_at (seconds 1) message.solicit_of_the_next
        ∷ packet_at (seconds 2) (outward_from_the_next (codes "5000600000000002"))
        ∷ [] }
    ensures journal { kept site_going_down twice
        ≡ Solicited (seconds 1) far home_of_0 0x0102030405060708
        ∷ Changed (seconds 1) near false
        ∷ statics site_going_down }
    ensures versions { versions_after site_going_down (kept site_going_down twice) ≡ 6 ∷ [] }
    ensures reachable { reachable_after site_going_down (kept site_going_down twice) ≡ false ∷ true ∷ [] }
{}

/// Changes are made when a second begins: a capture of one packet makes none, not even one that is
/// due at the packet's moment. The next second makes all that are due, in order, and no later
/// second makes them again.
pub fn changes_come_as_a_second_begins()
    ensures one { kept (site_with_changes (change 0 near false ∷ [])) (raw 1 (seconds 0) packet ∷ [])
        ≡ statics site_going_down }
    ensures all { (second (site_with_changes (change 0 near false ∷ change 1 near true ∷ change 2 near false ∷ []))
        [] 1).entries ≡ Changed (seconds 1) near false ∷ Changed (seconds 1) near true ∷ [] }
    ensures rest { (second (site_with_changes (change 0 near false ∷ change 1 near true ∷ change 2 near false ∷ []))
        (Changed (seconds 1) near true ∷ Changed (seconds 1) near false ∷ []) 2).entries
        ≡ Changed (seconds 2) near false ∷ [] }
    ensures none { (second site_going_down (Changed (seconds 1) near false ∷ []) 2).entries ≡ [] }
{}

/// Each change of an own locator steps the site's versions on by one, even a change to the present
/// state; 1 follows 4,095, and 0 stays 0.
pub fn a_change_steps_versions_on()
    ensures round { map (λ steps. stood_version steps 4094) (0 ∷ 1 ∷ 2 ∷ 3 ∷ [])
        ≡ 4094 ∷ 4095 ∷ 1 ∷ 2 ∷ [] }
    ensures none { stood_version 3 0 ≡ 0 }
    ensures two { versions_after site_going_down (Changed (seconds 2) near true ∷ Changed (seconds 1) near false ∷ [])
        ≡ 7 ∷ [] }
    ensures as_it_was { reachable_after site_going_down (Changed (seconds 1) near_too true ∷ []) ≡ true ∷ true ∷ [] }
    ensures still { versions_after site_going_down (Changed (seconds 1) near_too true ∷ []) ≡ 6 ∷ [] }
{}

/// Of the locators that mappings name the first 64 by address get SMRs for a change: no own
/// locator, none of priority 255, none of a family without an own locator that is up, and none
/// twice.
pub fn the_first_64_locators_are_told()
    ensures first { told_at site_of_96_locators (statics site_of_96_locators) 1 ≡ map far_off (range_with_len 1 64) }
    ensures few { told_at site_with_few_to_tell (statics site_with_few_to_tell) 1 ≡ far_off 8 ∷ [] }
    ensures no_change { told_at site_with_few_to_tell (statics site_with_few_to_tell) 0 ≡ [] }
    ensures again { told_at site_with_few_to_tell
        (Solicited (seconds 0) (far_off 8) home_of_0 1 ∷ statics site_with_few_to_tell) 1 ≡ [] }
{}

/// While no own locator of the resolver's family is up, no Map-Request is made, and none is sent
/// again.
pub fn nothing_is_asked_without_an_own_locator()
    ensures asked { (note asking_site_going_down [] (seconds 0) (notice.Ask host None)).entries
        ≡ Asked (seconds 0) host None false 0x0102030405060708 ∷ [] }
    ensures not_asked { (note asking_site_going_down (Changed (seconds 1) near false ∷ []) (seconds 1)
        (notice.Ask host None)).entries ≡ [] }
    ensures packets { sent asking_site_going_down (raw 1 (seconds 0) packet ∷ raw 2 (seconds 4) [] ∷ [])
        ≡ packet_at (seconds 0) message.asked ∷ [] }
    ensures not_again { (second asking_site_going_down asked_once 1).entries ≡ Changed (seconds 1) near false ∷ [] }
    ensures up_again { (second asking_site_going_down
        (Changed (seconds 1) near true ∷ Changed (seconds 1) near false ∷ asked_once) 1).entries
        ≡ Retried (seconds 1) 0x0102030405060708 ∷ [] }
{}
