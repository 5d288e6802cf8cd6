//! Worked examples of the router, which its definitions compute.
#![tactic(auto)]

mod answers;
mod cases;
mod changes;
mod echoes;
mod limits;
mod locators;
mod probes;
mod requests;
mod rounds;
mod ticks;
mod tunnels;
mod versions;

pub use answers::{
    a_probe_is_answered, a_reply_has_a_path, a_request_for_another_site_is_dropped,
    a_request_is_answered_with_all_within, an_smr_asks_again, what_is_encapsulated_is_no_probe,
};
pub use cases::{an_action_settles_a_packet, own_packets_are_passed_over};
pub use changes::{
    a_change_steps_versions_on, an_own_locator_goes_down, changes_come_as_a_second_begins,
    nothing_is_asked_without_an_own_locator, the_first_64_locators_are_told,
};
pub use echoes::{
    a_header_tells_of_echoes, a_locator_owes_its_echo, a_locator_without_its_echo_is_down,
    a_wanted_echo_is_given, an_echo_has_24_bits, an_echo_is_asked_for_once_a_minute,
    an_echo_is_asked_for_ten_seconds, an_echo_is_wanted_for_two_seconds,
    an_echo_keeps_a_locator_in_use, answering_goes_before_asking, echoes_have_room_for_4096,
    not_each_nonce_is_the_echo,
};
pub use limits::{
    captures_have_these_limits, packets_have_these_numbers, settings_have_these_limits,
    tables_have_these_limits, times_are_these,
};
pub use locators::{
    eight_bits_are_told_of_nine_locators, hashes_fall_to_shares, priorities_come_before_weights,
};
pub use probes::{
    a_foreign_answer_is_none, a_locator_is_probed_until_it_answers, a_locator_rests_for_a_minute,
    a_probe_is_answered_within_three_seconds, a_probe_is_for_the_least_eid,
    a_probe_speaks_against_its_locator, an_answer_keeps_a_locator_in_use,
    locators_are_probed_in_turn, sixteen_locators_are_probed_a_second,
    some_locators_are_not_probed,
};
pub use requests::{
    a_mapping_is_asked_for_once, a_mapping_lasts_to_the_nanosecond, a_message_has_a_checksum,
    a_message_is_refused_at_its_first_fault, a_missing_mapping_is_asked_for,
    a_notice_is_of_the_instance_of_its_eid, a_record_beside_is_passed_over,
    a_reply_comes_within_seven_seconds, a_reply_counts_once, a_reply_covers_what_was_asked,
    a_reply_is_of_the_instance_of_its_request, a_shorter_prefix_follows_a_longer_one,
};
pub use rounds::{
    a_round_may_be_decided_by_its_begin, a_round_may_be_decided_by_its_end,
    no_round_ends_within_a_reply, rounds_of_one_packet_are_plain,
};
pub use ticks::{
    a_request_goes_out_again_by_its_age, a_request_goes_out_three_times, a_request_is_due_twice,
    a_second_sends_a_request_again, requests_come_before_probes, requests_go_out_again_in_order,
};
pub use tunnels::{
    a_hop_is_taken_into_a_tunnel, a_nonce_comes_before_versions, a_packet_goes_into_its_tunnel,
    a_packet_leaves_its_tunnel, a_packet_may_stay_in_its_tunnel, a_tunnel_has_1500_octets,
    padding_stays_out_of_the_tunnel,
};
pub use versions::{
    a_header_tells_both_versions, a_header_tells_of_versions, a_newer_destination_is_dropped,
    a_peer_is_solicited_once_in_ten_seconds, a_peer_with_an_old_version_is_solicited,
    a_static_mapping_stays_as_it_is, a_version_of_0_drops_nothing,
    an_older_mapping_is_asked_for_again, an_older_source_is_dropped, versions_are_judged_in_order,
};
