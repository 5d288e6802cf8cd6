// Laws of the definitions. Each function has an empty body and states its law.
ghost use Rattle.std.specs.Prelude.{◌≡◌, [], ◌++◌, List, length};
ghost use Rattle.lisp_settings.specs.declared.settings.Settings.{Settings};
ghost use Rattle.router_log.specs.declared.entry.Entry.{Entry};
ghost use Rattle.router_model.specs.Journal.{extended, statics};
ghost use Rattle.router_model.specs.Sides.{joined};
ghost use Rattle.forwarders.specs.Batches.{batches_from, count_of, journal_of};
ghost use Rattle.forwarders.specs.Ruling.{DecidedAreRuled};

/// Law: a publication begins with the journal of the static mappings, further batches extend that
/// journal, and the count of a publication is the length of its journal.
pub fn batches_make_the_journal()
    ensures first { (settings : Settings)
        → journal_of (batches_from settings []) ≡ statics settings }
    ensures more { (batches more : List (List Entry))
        → journal_of (batches ++ more) ≡ extended (journal_of batches) (joined more) }
    ensures count { (batches : List (List Entry))
        → length (journal_of batches) ≡ count_of batches }
{}

/// Law: a data packet that was decided by published batches, those of the seconds before the first
/// frame among them, was decided by a table that absorbed so many of the round's batches.
pub fn decided_packets_are_ruled()
    ensures { DecidedAreRuled }
{}
