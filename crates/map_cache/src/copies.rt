// Copies of mappings, and of their records.
ghost use Rattle.std.specs.Prelude.{◌≡◌, IfOk};

use crate::{Mapping, NoMemory};
use mapping_records::{Locator, Locators, Record};
use octets::Items;
use std::alloc::Global;

fn copied_locators(alloc: Global, locators: &[Locator]) -> Result<Locators, NoMemory>
    ensures { IfOk result (λ copy. copy ≡ locators.now) }
{
    Ok(Items::from_vec(Vec::from_slice(alloc, locators)?))
}

/// A copy of a record, which shares no memory with it.
pub fn copied_record(alloc: Global, mapping: &Record) -> Result<Record, NoMemory>
    ensures { IfOk result (λ copy. copy ≡ mapping.now) }
{
    let locators = copied_locators(alloc, mapping.locators.as_slice())?;
    Ok(Record {
        ttl: mapping.ttl,
        action: mapping.action,
        authoritative: mapping.authoritative,
        version: mapping.version,
        eid: mapping.eid,
        locators,
    })
}

/// A copy of a mapping, which shares no memory with it.
pub(crate) fn copied(alloc: Global, mapping: &Mapping) -> Result<Mapping, NoMemory>
    ensures { IfOk result (λ copy. copy ≡ mapping.now) }
{
    let details = copied_record(alloc, &mapping.details)?;
    Ok(Mapping {
        eid: mapping.eid,
        fixed: mapping.fixed,
        end: mapping.end,
        details,
        known: mapping.known,
        bits: mapping.bits,
    })
}
