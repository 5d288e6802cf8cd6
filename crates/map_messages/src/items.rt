// Items, one after another: ITR-RLOCs, EID records, mapping records.
ghost use Rattle.std.specs.Prelude.{◌≡◌, ◌≤◌, ◌<◌, ◌+◌, ◌^◌, ℕ, Bool, List, ◌++◌, length, drop, All, IfOk, OnOk, flat_map};
ghost use Rattle.octets.specs.Rules.{first_failing};
ghost use Rattle.octets.specs.declared.refused.Refused.{Refused};
ghost use Rattle.mapping_records.specs.Record.{RefusesBy};
ghost use Rattle.map_messages.specs.Items.{items_rules, items_size, AreItems};

use crate::{MessageFault, NoMemory, Octets};
use octets::Items;
use std::alloc::Global;

/// The octets of the least item, an ITR-RLOC. They bound the room for items, so that a wrong count
/// reserves no more than the octets can hold.
const LEAST: usize = 6;

/// An item that stands in a message as often as a count states.
pub(crate) trait Item: Drop {
    ghost rules: { ℕ → List ℕ → List (Bool × Refused) };

    ghost size: { List ℕ → ℕ };

    ghost IsAt: { List ℕ → Self → Type 0 };

    ghost InRange: { Self → Type 0 };

    ghost canonical: { Self → List ℕ };

    /// The item at the front of the octets, and the octets consumed.
    fn read(alloc: Global, octets: &[u8], base: u32) -> Result<(Self, u32), MessageFault>
        requires { base + length octets.now < 2 ^ 32 }
        ensures refused { RefusesBy (first_failing (rules base octets.now)) result }
        ensures value { IfOk result (λ read. IsAt octets.now read.0) }
        ensures range { IfOk result (λ read. InRange read.0) }
        ensures size { IfOk result (λ read. read.1 ≡ size octets.now) }
        ensures inside { IfOk result (λ read. read.1 ≤ length octets.now) };

    /// Appends the item. Without memory a part of it stays.
    fn write(&self, alloc: Global, out: &mut Octets) -> Result<(), NoMemory>
        requires { InRange self.now }
        ensures { OnOk result (out.new ≡ out.old ++ canonical self.now) };
}

/// So many items at a place of the octets, and the place where they end.
pub(crate) fn read_items<T: Item>(
    alloc: Global,
    count: u8,
    octets: &[u8],
    at: u32,
    base: u32,
) -> Result<(Items<T>, u32), MessageFault>
    requires room { base + length octets.now < 2 ^ 32 }
    requires place { at ≤ length octets.now }
    ensures refused { let rules = items_rules T.rules T.size count (base + at) (drop at octets.now) in
        RefusesBy (first_failing rules) result }
    ensures value { IfOk result (λ read. AreItems T.IsAt T.size count (drop at octets.now) read.0) }
    ensures range { IfOk result (λ read. All T.InRange read.0) }
    ensures end { IfOk result (λ read. read.1 ≡ at + items_size T.size count (drop at octets.now)) }
    ensures inside { IfOk result (λ read. read.1 ≤ length octets.now) }
{
    let (_, rest) = octets.split_at(at as usize);
    let (items, size) = read_each(alloc, count, rest, base + at)?;
    Ok((items, at + size))
}

/// So many items at the front of the octets, and the octets consumed.
fn read_each<T: Item>(
    alloc: Global,
    count: u8,
    octets: &[u8],
    base: u32,
) -> Result<(Items<T>, u32), MessageFault>
    requires { base + length octets.now < 2 ^ 32 }
    ensures refused { let rules = items_rules T.rules T.size count base octets.now in
        RefusesBy (first_failing rules) result }
    ensures value { IfOk result (λ read. AreItems T.IsAt T.size count octets.now read.0) }
    ensures range { IfOk result (λ read. All T.InRange read.0) }
    ensures size { IfOk result (λ read. read.1 ≡ items_size T.size count octets.now) }
    ensures inside { IfOk result (λ read. read.1 ≤ length octets.now) }
{
    let mut items = Items::with_capacity(alloc, usize::from(count).min(octets.len() / LEAST))?;
    let mut at = 0;
    for _ in 0..count {
        let (_, rest) = octets.split_at(at as usize);
        let (item, size) = T::read(alloc, rest, base + at)?;
        items.push(item)?;
        at += size;
    }
    Ok((items, at))
}

/// Appends items. Without memory a part of them stays.
pub(crate) fn write_items<T: Item>(
    alloc: Global,
    items: &[T],
    out: &mut Octets,
) -> Result<(), NoMemory>
    requires { All T.InRange items.now }
    ensures { OnOk result (out.new ≡ out.old ++ flat_map T.canonical items.now) }
{
    for item in items {
        item.write(alloc, out)?;
    }
    Ok(())
}
