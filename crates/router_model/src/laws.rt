// Laws of the router's definitions. Each function has an empty body and states one law.
ghost use Rattle.std.specs.Prelude.{◌≡◌, ◌<◌, ◌^◌, ℕ, List, false, true, length, None, Some};
ghost use Rattle.ip_headers.specs.declared.addr.Addr.{Addr};
ghost use Rattle.capture_io.specs.Frame.{Frame};
ghost use Rattle.mapping_records.specs.Eids.{same_address};
ghost use Rattle.mapping_records.specs.declared.eid.Eid.{Eid};
ghost use Rattle.lisp_settings.specs.declared.settings.Settings.{Settings};
ghost use Rattle.map_messages.specs.Message.{IsMessageAt};
ghost use Rattle.map_messages.specs.declared.message.MapReply.{MapReply};
ghost use Rattle.map_messages.specs.declared.message.Message.{Message};
ghost use Rattle.request_queue.specs.Queue.{with_nonce};
ghost use Rattle.router_log.specs.declared.verdict.Reason.{Reason};
ghost use Rattle.router_log.specs.declared.verdict.Reason.TheVariants.{Foreign, Unsolicited};
ghost use Rattle.router_log.specs.declared.verdict.Verdict.TheVariants.{Drop};
ghost use Rattle.router_model.specs.Alone.{NotesStay, NoticesOfOne, NumberedDecides, NumberedRequests, OthersLearn, OthersNote, OthersSolicit, PartIsOne, RetriesApart, RetriesIsolated, SecondsStay, SolicitedApart, SolicitsStay, TablesAlike, TablesAsk, TablesLearn, TablesSolicited};
ghost use Rattle.router_model.specs.Changes.{journal as of_journal, unchanged};
ghost use Rattle.router_model.specs.Decide.{decide_by};
ghost use Rattle.router_model.specs.Hear.{drops, hear, reply_heard};
ghost use Rattle.router_model.specs.Isolation.{AgreesDecides, DecisionIsolated, MomentIsolated, NoneAsks, RisingIsolated, TableIsolated};
ghost use Rattle.router_model.specs.Journal.{Journal, statics};
ghost use Rattle.router_model.specs.Lifting.{AllAbsorbed, BitsKept, CameFits, CameInOrder, CaptureReplays, ChangesComeOnce, CourseStands, EntryAbsorbed, EventsInOrder, HearsStill, LawfulMayChange, LiveIsExact, NotesStill, NoticesSound, OwnTells, PartsAnswer, ProperRises, StandingAbsorbs, StandingAdmits, StandingSees, StaticsStand, TableDecides, TableHears, TableNotes, TableReplays, TableTicks, VersionsStep};
ghost use Rattle.router_model.specs.Tenants.{HearsIsolated, LearningIsolated, NotesIsolated, RequestsIsolated};
ghost use Rattle.router_model.specs.Received.{message_in};
ghost use Rattle.router_model.specs.View.{Agrees, View, view};

/// Law: the journal of a router that begins has one entry for each static mapping.
pub fn the_journal_has_the_static_mappings()
    ensures { (settings : Settings) → length (statics settings) ≡ length settings.mappings }
{}

/// Law: two views that answer each question alike are equal, and decide each frame alike.
pub fn views_that_agree_decide_alike()
    ensures equal { (v w : View) → Agrees v w → v ≡ w }
    ensures decide { (settings : Settings) (v w : View) (frame : Frame) → Agrees v w
        → decide_by settings v frame ≡ decide_by settings w frame }
{}

/// Law: a Map-Reply without P and with the nonce of no open request is dropped as `Unsolicited`,
/// without an entry or a packet.
pub fn closed_requests_hear_nothing()
    ensures { (settings : Settings) (before : Journal) (m : ℕ) (from : Addr) (reply : MapReply)
        → reply.probe ≡ false → with_nonce (view before m).requests reply.nonce ≡ None
        → reply_heard of_journal settings m from reply (unchanged before)
        ≡ drops Unsolicited (unchanged before) }
{}

/// Law: an answer with the nonce of no open probe is dropped as `Unsolicited`, and one from another
/// address than the probed locator as `Foreign`, both without an entry or a packet.
pub fn closed_probes_hear_nothing()
    ensures closed { (settings : Settings) (before : Journal) (m : ℕ) (from : Addr)
        (reply : MapReply) → reply.probe ≡ true → (view before m).probe_open reply.nonce ≡ None
        → reply_heard of_journal settings m from reply (unchanged before)
        ≡ drops Unsolicited (unchanged before) }
    ensures foreign { (settings : Settings) (before : Journal) (m : ℕ) (from rloc : Addr)
        (reply : MapReply) → reply.probe ≡ true
        → (view before m).probe_open reply.nonce ≡ Some rloc → same_address rloc from ≡ false
        → reply_heard of_journal settings m from reply (unchanged before)
        ≡ drops Foreign (unchanged before) }
{}

/// Law: a control message that is dropped, for whatever reason, makes no entry and no packet.
pub fn dropped_messages_change_nothing()
    ensures { (settings : Settings) (before : Journal) (m : ℕ) (frame : Frame) (why : Reason)
        → (hear settings before m frame).verdict ≡ Drop why
        → hear settings before m frame ≡ drops why (unchanged before) }
{}

/// Law: `message_in` gives the message that stands at the front of octets by `IsMessageAt`.
pub fn messages_are_read()
    ensures { (octets : List ℕ) (message : Message) → IsMessageAt octets message
        → message_in octets ≡ Some message }
{}

/// Law: the parts of a journal whose moments don't fall have the journal's view at each moment, and
/// the status bits kept of a mapping are those of the journal.
pub fn parts_answer()
    ensures answer { PartsAnswer }
    ensures bits { BitsKept }
{}

/// Law: an entry that fits a journal is admitted by its parts, and turns them into the parts of the
/// journal with that entry; likewise for entries one by one from the static mappings on.
pub fn entries_are_absorbed()
    ensures one { EntryAbsorbed }
    ensures all { AllAbsorbed }
{}

/// Law: moments don't fall in a journal that a router can have.
pub fn proper_journals_rise()
    ensures { ProperRises }
{}

/// Law: a table that stands for a journal has the journal's view, admits the entries that may
/// follow it, and stands for the journal with each further entry that fits. The parts of the static
/// mappings stand for the journal that begins.
pub fn what_stands_goes_on()
    ensures statics { StaticsStand }
    ensures sees { StandingSees }
    ensures admits { StandingAdmits }
    ensures absorbs { StandingAbsorbs }
{}

/// Law: a table that stands for a journal decides, notes, hears and plays each second as the
/// journal does, and then stands for the journal with the further entries.
pub fn tables_go_as_journals()
    ensures decides { TableDecides }
    ensures notes { TableNotes }
    ensures hears { TableHears }
    ensures ticks { TableTicks }
{}

/// Law: a decision on a frame of octets gives at most five notices, all of them sound (`is_sound`).
pub fn decisions_give_sound_notices()
    ensures { NoticesSound }
{}

/// Law: from the static mappings on, a table replays events in order with the lines and packets of
/// the plain router; the events of a capture are in order if its frames are.
pub fn tables_replay_plainly()
    ensures replays { TableReplays }
    ensures order { EventsInOrder }
{}

/// Law: for frames read from a capture, whatever its format and octets, a table with lawful
/// settings gives the lines and packets of the plain router.
pub fn captures_replay_plainly()
    ensures order { CameInOrder }
    ensures room { CameFits }
    ensures replays { CaptureReplays }
{}

/// Law: the changes of own locators in a journal that a router can have are the first ones of its
/// settings, in order, each once; lawful settings meet such journals' demands (`MayChange`).
pub fn changes_come_once()
    ensures once { ChangesComeOnce }
    ensures lawful { LawfulMayChange }
{}

/// Law: seconds alone change own locators; hearing a message or noting a notice leaves the settings
/// that stand as they are.
pub fn seconds_alone_change_own_locators()
    ensures hears { HearsStill }
    ensures notes { NotesStill }
{}

/// Law: a Map-Version goes round among 1 to 4,095, and 0 stays; the two numbers of `Own` determine
/// the settings that stand; the course of a frame doesn't depend on the changes of own locators.
pub fn own_and_steps()
    ensures versions { VersionsStep }
    ensures own { OwnTells }
    ensures course { CourseStands }
{}

/// Law: the live mapping of exactly an EID, among those of a journal, is the one last learned for
/// that EID, if it is live.
pub fn the_live_mapping_was_learned_last()
    ensures { LiveIsExact }
{}

/// Law: a decision on a frame of an instance depends on a view only by the mappings in force in
/// that instance and by the state of locators, and gives no notice of an EID of another instance. A
/// decision on a frame of no instance doesn't depend on the view.
pub fn decisions_ask_of_one_instance()
    ensures one { AgreesDecides }
    ensures none { NoneAsks }
    ensures notices { NoticesOfOne }
{}

/// Law: a journal's entries of other instances count in no decision on a frame of an instance.
pub fn decisions_are_isolated()
    ensures moment { MomentIsolated }
    ensures decision { DecisionIsolated }
    ensures rising { RisingIsolated }
{}

/// Law: nonces count in no decision, and with request numbers in place of nonces the open requests
/// are the same, where no two young ones share a nonce. Two journals can therefore be equal for an
/// instance though other tenants drew nonces in between; a journal and its part of an instance are
/// equal for it.
pub fn nonces_are_numbered()
    ensures decides { NumberedDecides }
    ensures requests { NumberedRequests }
    ensures part { PartIsOne }
{}

/// Law: a table that stands for a journal decides on frames of an instance as the parts of that
/// instance's journal. Two tables whose journals are equal for an instance, nonces apart, decide
/// alike on its frames.
pub fn tables_are_isolated()
    ensures one { TableIsolated }
    ensures two { TablesAlike }
{}

/// Law: with limits of its own, an instance requests and learns by its own journal, where no two
/// young requests share a nonce: its open requests are those of that journal, and so are those of
/// them that a second sends again. A notice for its EID and a frame that answers its request are
/// noted and heard as by that journal.
pub fn limits_are_isolated()
    ensures requests { RequestsIsolated }
    ensures learning { LearningIsolated }
    ensures retries { RetriesIsolated }
    ensures notes { NotesIsolated }
    ensures hears { HearsIsolated }
{}

/// Law: the requests of a tenant that a second sends again, and those that an SMR of its prefixes
/// leads to, are the same by two journals that are equal for its instance, nonces apart.
pub fn requests_go_apart()
    ensures retries { RetriesApart }
    ensures solicited { SolicitedApart }
{}

/// Law: a tenant requests and learns as if the other tenants weren't there, nonces apart. Two
/// tables that stand for journals that are equal for its instance, by which no two young requests
/// share a nonce, request alike for its EIDs, and learn the same from replies to its requests;
/// their journals are then equal for it again. Likewise for an SMR of its prefixes, for a second
/// without probes, and for notices of its frames where no echoes are requested.
pub fn tables_ask_and_learn_apart()
    ensures ask { TablesAsk }
    ensures learn { TablesLearn }
    ensures solicited { TablesSolicited }
    ensures seconds { SecondsStay }
    ensures notes { NotesStay }
{}

/// Law: requests, learning and SMRs for other tenants leave a journal as it was for a tenant.
pub fn others_leave_a_tenant_alone()
    ensures note { OthersNote }
    ensures learn { OthersLearn }
    ensures solicit { OthersSolicit }
    ensures smr { SolicitsStay }
{}

/// Law: the instance of each EID of the definitions has 24 bits: its type has that as a field.
pub fn instances_are_short()
    ensures { (eid : Eid) → eid.iid < 2 ^ 24 }
{}
