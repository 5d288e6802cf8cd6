// Copies of entries.
ghost use Rattle.std.specs.Prelude.{◌≡◌, IfOk};

use octets::NoMemory;
use router_core::copied;
use router_log::Entry;
use std::alloc::Global;

/// A copy of an entry.
pub(super) fn copied_entry(alloc: Global, entry: &Entry) -> Result<Entry, NoMemory>
    ensures { IfOk result (λ copy. copy ≡ entry.now) }
{
    match entry {
        Entry::Learned {
            moment,
            mapping,
            fixed,
        } => Ok(Entry::Learned {
            moment: *moment,
            mapping: copied(alloc, mapping)?,
            fixed: *fixed,
        }),
        Entry::Asked {
            moment,
            eid,
            source,
            invoked,
            nonce,
        } => Ok(Entry::Asked {
            moment: *moment,
            eid: *eid,
            source: *source,
            invoked: *invoked,
            nonce: *nonce,
        }),
        Entry::Retried { moment, nonce } => Ok(Entry::Retried {
            moment: *moment,
            nonce: *nonce,
        }),
        Entry::Answered { moment, nonce } => Ok(Entry::Answered {
            moment: *moment,
            nonce: *nonce,
        }),
        Entry::Probed {
            moment,
            rloc,
            nonce,
        } => Ok(Entry::Probed {
            moment: *moment,
            rloc: *rloc,
            nonce: *nonce,
        }),
        Entry::ProbeAnswered { moment, nonce } => Ok(Entry::ProbeAnswered {
            moment: *moment,
            nonce: *nonce,
        }),
        Entry::Bits {
            moment,
            eid,
            bits,
            width,
        } => Ok(Entry::Bits {
            moment: *moment,
            eid: *eid,
            bits: *bits,
            width: *width,
        }),
        Entry::EchoStarted {
            moment,
            rloc,
            nonce,
        } => Ok(Entry::EchoStarted {
            moment: *moment,
            rloc: *rloc,
            nonce: *nonce,
        }),
        Entry::EchoHeard { moment, rloc } => Ok(Entry::EchoHeard {
            moment: *moment,
            rloc: *rloc,
        }),
        Entry::DataFrom { moment, rloc } => Ok(Entry::DataFrom {
            moment: *moment,
            rloc: *rloc,
        }),
        Entry::EchoWanted {
            moment,
            rloc,
            nonce,
        } => Ok(Entry::EchoWanted {
            moment: *moment,
            rloc: *rloc,
            nonce: *nonce,
        }),
        Entry::Solicited {
            moment,
            rloc,
            eid,
            nonce,
        } => Ok(Entry::Solicited {
            moment: *moment,
            rloc: *rloc,
            eid: *eid,
            nonce: *nonce,
        }),
        Entry::Changed {
            moment,
            address,
            up,
        } => Ok(Entry::Changed {
            moment: *moment,
            address: *address,
            up: *up,
        }),
    }
}
