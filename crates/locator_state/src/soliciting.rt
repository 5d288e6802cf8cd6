// Solicitations in code: which of them count.
ghost use Rattle.std.specs.Prelude.{◌≡◌, ◌≤◌, ◌+◌, ◌&&◌, count_by, length, nat_lt};
ghost use Rattle.std.specs.List.{list_any};
ghost use Rattle.locator_state.specs.Limits.{most_solicits};
ghost use Rattle.locator_state.specs.Solicits.{counting_solicits, is_of, solicit_counts};

use crate::limits::{MOST_SOLICITS, SOLICIT_LIFE};
use ip_headers::Addr;
use keyed_list::{Key, KeyedList};
use mapping_records::Eid;
use router_log::Solicitation;

fn solicit_counts(now: u64, solicit: &Solicitation) -> bool
    ensures { result ≡ solicit_counts now solicit.now }
{
    now.saturating_sub(solicit.moment) < SOLICIT_LIFE
}

/// Whether a solicitation of that locator for that EID counts.
pub(crate) fn is_solicited(
    now: u64,
    rloc: &Addr,
    eid: &Eid,
    solicits: &KeyedList<Solicitation>,
) -> bool
    ensures { result
        ≡ list_any (λ solicit. is_of rloc.now eid.now solicit && solicit_counts now solicit)
        solicits.now.items }
{
    solicits
        .last(
            &Key::told(*rloc, eid),
            |solicit| solicit_counts(now, solicit),
        )
        .is_some()
}

/// Whether fewer than `MOST_SOLICITS` solicitations count.
pub(crate) fn few_solicits(now: u64, solicits: &KeyedList<Solicitation>) -> bool
    ensures { result ≡ nat_lt (count_by (solicit_counts now) solicits.now.items) most_solicits }
{
    solicits.count(now, SOLICIT_LIFE) < MOST_SOLICITS
}

/// Takes away solicitations that count no longer at a moment.
pub(crate) fn drop_solicits(now: u64, solicits: &mut KeyedList<Solicitation>)
    ensures items { solicits.new.items ≡ counting_solicits now solicits.old.items }
    ensures room { solicits.old.room ≤ solicits.new.room }
    ensures total { length solicits.new.items + solicits.new.room
        ≤ length solicits.old.items + solicits.old.room }
    ensures places { solicits.new.places ≡ solicits.old.places }
{
    solicits.purge(now, SOLICIT_LIFE);
}
