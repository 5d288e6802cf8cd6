// Laws of rounds. Each function has an empty body and states one law.
ghost use Rattle.router_model.specs.Changes.{journal as of_journal};
ghost use Rattle.router_model.specs.Parts.{table};
ghost use Rattle.router_model.specs.Sharing.{BatchesAreEnds, BatchesRule, BatchesStand, CutKeeps, CutSingly, CutWithin, DataAreLeft, EndsAreBatches, EndsWithin, FilledAreBatches, FilledBehind, FirstIsProper, FirstOfMore, FirstRules, JournalAdds, LastRoundCloses, LawfulFollow, LinesShow, NumbersExist, RoundCloses, RoundStays, RoundStaysOpen, RoundsFollow, SidesMeet, SinglesAreForced, SinglesArePlain, TableRounds, TableWrites, TablesShare, WorkedAdds, WritingAdds, WritingAdvances, AllBatches, WritingFollows, EntriesFollow, ToldFollows, OpeningWithin, RoundInOrder, EventsFollow, LastCloses};

/// Law: cutting frames into rounds loses no frame and moves none. A round has at most as many
/// frames as its size, and at most 16 MiB beside the octets of one frame.
pub fn rounds_keep_the_frames()
    ensures all { CutKeeps }
    ensures within { CutWithin }
    ensures singly { CutSingly }
{}

/// Law: an open round is closed by the frame that makes it full, or by the last frame.
pub fn rounds_close_when_full()
    ensures closes { RoundCloses }
    ensures stays { RoundStaysOpen }
    ensures last { LastRoundCloses }
{}

/// Law: with rounds of one frame there is no choice of numbers, and the router with forwarders
/// gives the lines, packets and journal of the plain router.
pub fn rounds_of_one_frame_are_plain()
    ensures plain { SinglesArePlain }
    ensures forced { SinglesAreForced }
{}

/// Law: rounds, and the numbers of their data packets, begin where the rounds before them ended.
pub fn rounds_follow_each_other()
    ensures rounds { RoundsFollow }
    ensures lawful { LawfulFollow }
{}

/// Law: the events of frames in order are in order, and a round leaves a journal that a router can
/// have, whose length and last moment are bounded by the round.
pub fn rounds_leave_proper_journals()
    ensures order { RoundInOrder }
    ensures stays { RoundStays }
{}

/// Law: lawful numbers exist for all rounds, whatever came before.
pub fn rounds_have_numbers()
    ensures { NumbersExist }
{}

/// Law: the items written before data packets are decided, the decisions by numbers, and the noted
/// notices, put together, are the round. The data packets left for later are those of the round's
/// frames.
pub fn sides_make_the_round()
    ensures meet { SidesMeet }
    ensures advances { WritingAdvances }
    ensures left { DataAreLeft }
{}

/// Law: writing events leaves the state before them with the entries of its batches added, and so
/// does a whole round.
pub fn batches_are_added()
    ensures journal { JournalAdds }
    ensures by_journal { WritingAdds of_journal }
    ensures by_table { WritingAdds table }
    ensures round_by_journal { WorkedAdds of_journal }
    ensures round_by_table { WorkedAdds table }
{}

/// Law: events are written one after another and entries are added one after another; the lines,
/// packets and notices of items follow in the same order.
pub fn rounds_are_worked_step_by_step()
    ensures journal { WritingFollows of_journal }
    ensures table { WritingFollows table }
    ensures journal_entries { EntriesFollow of_journal }
    ensures table_entries { EntriesFollow table }
    ensures told { ToldFollows }
    ensures events { EventsFollow }
    ensures last { LastCloses }
{}

/// Law: each end of a round is the length of its journal after some of the batches, and that many
/// first entries are the journal after these batches.
pub fn ends_lie_between_batches()
    ensures first { FirstOfMore }
    ensures ends { EndsAreBatches }
    ensures within { EndsWithin }
    ensures batches { BatchesAreEnds }
    ensures opening_of_journal { OpeningWithin of_journal }
    ensures opening_of_table { OpeningWithin table }
    ensures filled { FilledAreBatches }
    ensures behind { FilledBehind }
{}

/// Law: a round has a line for each frame, and the lines show the numbers of its data packets.
pub fn lines_show_the_numbers()
    ensures { LinesShow }
{}

/// Law: a table that stands for the first n entries of a journal decides by these at any moment.
pub fn first_entries_decide()
    ensures proper { FirstIsProper }
    ensures rules { FirstRules }
{}

/// Law: a table writes events as the journal does. A table that absorbed some of a round's batches
/// stands for the journal after these, and decides by that many entries of the round's journal. A
/// round by a table, and by tables beside it that absorbed at least the seconds before the first
/// frame, is therefore a round by lawful numbers, and the table then stands for the journal after
/// that round.
pub fn tables_share_a_round()
    ensures writes { TableWrites }
    ensures stands { BatchesStand }
    ensures decides { BatchesRule }
    ensures rounds { TableRounds }
    ensures shares { TablesShare }
    ensures all { AllBatches }
{}
