// The `[[mapping]]` tables: static mappings and their locators.
ghost use Rattle.std.specs.Prelude.{◌≡◌, ◌≢◌, IfOk, IfErr, Ok, Err};
ghost use Rattle.std.proofs.Common.{rules};
ghost use Rattle.toml.specs.View.{table_view};
ghost use Rattle.mapping_records.specs.Orders.{addr_order, eid_order};
ghost use Rattle.lisp_settings.specs.Lawful.{IsLawfulLocator, IsLawfulMapping};
ghost use Rattle.lisp_settings.specs.Settings.{mapped_in, mapped_locators, mapping_in};
ghost use Rattle.lisp_settings.specs.declared.fault.SettingsFault.TheVariants as fault;

use crate::fault::SettingsFault;
use crate::fields::{number_or, only_keys};
use crate::items::{eid_at, eid_table, version_at};
use crate::lists::{Item, any_number, write_items};
use crate::members::{put_array, put_number, put_octet};
use crate::settings::OwnLocator;
use ip_headers::Addr;
use mapping_records::{DEFAULT_MINUTES, Eid, Locator, Locators, MOST_LOCATORS, Record};
use octets::{Items, NoMemory};
use std::alloc::Global;
use toml::Table;

/// A locator of another site as a table of a mapping's `locator`.
impl Item for Locator {
    type Key = Addr;

    type Known = ();

    ghost reads = { λ known. mapped_in };

    ghost key = { λ locator. locator.addr };

    ghost order = { addr_order };

    ghost lawful = { IsLawfulLocator };

    ghost fits = { λ known item. Unit {0} };

    ghost nested = { 0 };

    fn read(alloc: Global, _: &(), table: &Table) -> Result<Self, SettingsFault> {
        let own = OwnLocator::read(alloc, &(), table)?;
        Ok(Locator {
            addr: own.addr,
            priority: own.priority,
            weight: own.weight,
            m_priority: 255,
            m_weight: 0,
            local: false,
            probed: false,
            reachable: own.up,
        })
    }

    fn write(&self, alloc: Global) -> Result<Table, NoMemory> {
        let own = OwnLocator {
            addr: self.addr,
            priority: self.priority,
            weight: self.weight,
            up: self.reachable,
        };
        own.write(alloc)
    }

    fn key(&self) -> Addr {
        self.addr
    }

    ghost orders = { λ a b. Prim.search rules };
}

/// A static mapping as a table of `mapping`.
impl Item for Record {
    type Key = Eid;

    type Known = ();

    ghost reads = { λ known. mapping_in };

    ghost key = { λ mapping. mapping.eid };

    ghost order = { eid_order };

    ghost lawful = { IsLawfulMapping };

    ghost fits = { λ known item. Unit {0} };

    ghost nested = { 2 };

    fn read(alloc: Global, _: &(), table: &Table) -> Result<Self, SettingsFault> {
        only_keys(
            alloc,
            table,
            &["iid", "prefix", "version", "action", "locator"],
        )?;
        let eid = eid_at(alloc, table)?;
        let version = version_at(alloc, table)?;
        let action = number_or(alloc, table, "action", (0, 7), 0)? as u8;
        let locators = mapped_locators(alloc, table)?;
        Ok(Record {
            ttl: DEFAULT_MINUTES,
            action,
            authoritative: true,
            version,
            eid,
            locators,
        })
    }

    fn write(&self, alloc: Global) -> Result<Table, NoMemory> {
        let locators = write_items(alloc, self.locators.as_slice())?;
        let mut table = eid_table(alloc, self.eid)?;
        put_number(alloc, &mut table, "version", u32::from(self.version))?;
        put_octet(alloc, &mut table, "action", self.action)?;
        put_array(alloc, &mut table, "locator", locators)?;
        Ok(table)
    }

    fn key(&self) -> Eid {
        self.eid
    }

    ghost orders = { λ a b. Prim.search rules };
}

/// The locators of a static mapping, in the order of the file.
fn mapped_locators(alloc: Global, table: &Table) -> Result<Locators, SettingsFault>
    ensures ok { IfOk result (λ locators. mapped_locators (table_view table.now) ≡ Ok locators) }
    ensures err { IfErr result (λ e. e ≢ fault.Memory
        → mapped_locators (table_view table.now) ≡ Err e) }
{
    let locators = any_number(alloc, &(), table, "locator", MOST_LOCATORS)?;
    Ok(Items::from_vec(locators))
}
