//! The router as definitions: the course of a frame, the journal, the questions that a decision
//! puts to it, and the effects of frames, messages, notices and seconds; and the laws between the
//! journal and the short lists that a table keeps of it.
#![tactic(auto)]

mod laws;
mod own;
mod rounds;

pub use laws::{
    captures_replay_plainly, changes_come_once, closed_probes_hear_nothing,
    closed_requests_hear_nothing, decisions_are_isolated, decisions_ask_of_one_instance,
    decisions_give_sound_notices, dropped_messages_change_nothing, entries_are_absorbed,
    instances_are_short, limits_are_isolated, messages_are_read, own_and_steps, parts_answer,
    proper_journals_rise, seconds_alone_change_own_locators, tables_are_isolated,
    tables_ask_and_learn_apart, tables_go_as_journals, tables_replay_plainly,
    the_journal_has_the_static_mappings, the_live_mapping_was_learned_last,
    views_that_agree_decide_alike, what_stands_goes_on,
};
pub use own::Own;
pub use rounds::{
    batches_are_added, ends_lie_between_batches, first_entries_decide, lines_show_the_numbers,
    rounds_are_worked_step_by_step, rounds_close_when_full, rounds_follow_each_other,
    rounds_have_numbers, rounds_keep_the_frames, rounds_leave_proper_journals,
    rounds_of_one_frame_are_plain, sides_make_the_round, tables_share_a_round,
};
