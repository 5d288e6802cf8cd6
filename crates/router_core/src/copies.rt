// Copies of mapping records and of own locators.
ghost use Rattle.std.specs.Prelude.{◌≡◌, IfOk};
ghost use Rattle.router_model.specs.Hear.{shortened};
ghost use Rattle.router_core.specs.Copies.{all_copies};

use lisp_settings::OwnLocator;
use map_cache::{MOST_LOCATORS, copied_record};
use mapping_records::{Locator, Locators, Record};
use octets::{Items, NoMemory};
use std::alloc::Global;

/// A copy of a record, which shares no memory with it.
pub fn copied(alloc: Global, mapping: &Record) -> Result<Record, NoMemory>
    ensures { IfOk result (λ copy. copy ≡ mapping.now) }
{
    copied_record(alloc, mapping)
}

/// A copy of a record with its first locators, as many as a mapping may have.
pub(crate) fn shortened(alloc: Global, mapping: &Record) -> Result<Record, NoMemory>
    ensures { IfOk result (λ copy. copy ≡ shortened mapping.now) }
{
    let locators = mapping.locators.as_slice();
    if locators.len() <= MOST_LOCATORS {
        return copied(alloc, mapping);
    }
    let (first, _) = locators.split_at(MOST_LOCATORS);
    let first = copied_locators(alloc, first)?;
    Ok(with_locators(mapping, first))
}

fn copied_locators(alloc: Global, locators: &[Locator]) -> Result<Locators, NoMemory>
    ensures { IfOk result (λ copy. copy ≡ locators.now) }
{
    Ok(Items::from_vec(Vec::from_slice(alloc, locators)?))
}

/// A copy of own locators.
pub(crate) fn copied_own(alloc: Global, own: &[OwnLocator]) -> Result<Vec<OwnLocator>, NoMemory>
    ensures { IfOk result (λ copy. copy.items ≡ own.now) }
{
    Ok(Vec::from_slice(alloc, own)?)
}

fn with_locators(mapping: &Record, locators: Locators) -> Record
    ensures { result ≡ record mapping.now { locators = locators } }
{
    Record {
        ttl: mapping.ttl,
        action: mapping.action,
        authoritative: mapping.authoritative,
        version: mapping.version,
        eid: mapping.eid,
        locators,
    }
}

/// Two copies of a record that may be learned: one for the table, one for the entry.
#[derive(Drop)]
pub(crate) struct Copies {
    pub kept: Record,
    pub told: Record,
}

/// Two copies of each record, with its first locators, as many as a mapping may have.
pub(crate) fn all_copies(alloc: Global, mappings: &[Record]) -> Result<Vec<Copies>, NoMemory>
    ensures { IfOk result (λ copies. copies.items ≡ all_copies mappings.now) }
{
    let mut copies = Vec::new(alloc);
    for mapping in mappings {
        let kept = shortened(alloc, mapping)?;
        let told = shortened(alloc, mapping)?;
        copies.push(Copies { kept, told })?;
    }
    Ok(copies)
}
