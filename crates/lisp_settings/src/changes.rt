// The `[[change]]` tables: own locators that go up and down.
ghost use Rattle.std.specs.Prelude.{◌≡◌, ◌≢◌, IfOk, IfErr, Ok, Err, codes};
ghost use Rattle.std.proofs.Common.{rules};
ghost use Rattle.toml.specs.View.{table_view, view};
ghost use Rattle.lisp_settings.specs.Changes.{IsChangeOf, change_key, change_order, is_own, only_own, own_address};
ghost use Rattle.lisp_settings.specs.Fields.{required};
ghost use Rattle.lisp_settings.specs.Settings.{change_in};
ghost use Rattle.lisp_settings.specs.declared.fault.SettingsFault.TheVariants as fault;

use crate::addresses::address_text;
use crate::fault::SettingsFault;
use crate::fields::{flag_at, needed, number_at, only_keys, taken};
use crate::lists::Item;
use crate::members::{put_flag, put_number, put_text};
use crate::settings::{Change, OwnLocator, OwnLocators};
use crate::{GREATEST_SECOND, values};
use ip_headers::{Addr, same_address};
use octets::NoMemory;
use std::alloc::Global;
use toml::{Table, Value};

/// A change as a table of `change`: its address must be that of an own locator.
impl Item for Change {
    type Key = (u32, Addr);

    type Known = OwnLocators;

    ghost reads = { change_in };

    ghost key = { change_key };

    ghost order = { change_order };

    ghost lawful = { λ change. Unit {0} };

    ghost fits = { IsChangeOf };

    ghost nested = { 0 };

    fn read(alloc: Global, own: &OwnLocators, table: &Table) -> Result<Self, SettingsFault> {
        only_keys(alloc, table, &["at", "address", "up"])?;
        let at = number_at(alloc, table, "at", GREATEST_SECOND)?;
        let address = own_address_at(alloc, own.as_slice(), table)?;
        let up = flag_at(alloc, table, "up")?;
        Ok(Change { at, address, up })
    }

    fn write(&self, alloc: Global) -> Result<Table, NoMemory> {
        let mut table = Table::new(alloc);
        put_number(alloc, &mut table, "at", self.at)?;
        put_text(
            alloc,
            &mut table,
            "address",
            address_text(alloc, self.address)?,
        )?;
        put_flag(alloc, &mut table, "up", self.up)?;
        Ok(table)
    }

    fn key(&self) -> (u32, Addr) {
        (self.at, self.address)
    }

    ghost orders = { λ a b. Prim.search rules };
}

/// The address at the required key `address`, which must be that of an own locator.
fn own_address_at(
    alloc: Global,
    locators: &[OwnLocator],
    table: &Table,
) -> Result<Addr, SettingsFault>
    ensures ok { IfOk result (λ addr.
        required (codes "address") (own_address locators.now) (table_view table.now) ≡ Ok addr) }
    ensures err { IfErr result (λ e. e ≢ fault.Memory
        → required (codes "address") (own_address locators.now) (table_view table.now) ≡ Err e) }
{
    let value = needed(alloc, table, "address")?;
    taken(alloc, "address", own_address(locators, value))
}

/// The address in a text value, if it is that of an own locator.
fn own_address(locators: &[OwnLocator], value: &Value) -> Option<Addr>
    ensures { result ≡ own_address locators.now (view value.now) }
{
    let addr = values::address(value)?;
    only_own(locators, addr)
}

fn only_own(locators: &[OwnLocator], addr: Addr) -> Option<Addr>
    ensures { result ≡ only_own locators.now addr }
{
    if is_own(locators, addr) {
        Some(addr)
    } else {
        None
    }
}

/// Whether an own locator, up or down, has this address.
pub fn is_own(locators: &[OwnLocator], addr: Addr) -> bool
    ensures { result ≡ is_own locators.now addr }
{
    locators.iter().any(|own| same_address(&own.addr, &addr))
}
