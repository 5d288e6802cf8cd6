// The tables of `locator`, `attachment` and `database`.
ghost use Rattle.std.specs.Prelude.{◌≡◌, ◌≢◌, ◌≤◌, IfOk, IfErr, Ok, Err};
ghost use Rattle.std.proofs.Common.{rules};
ghost use Rattle.std.specs.Ordering.{nat_cmp};
ghost use Rattle.toml.specs.View.{table_view};
ghost use Rattle.mapping_records.specs.Orders.{addr_order, eid_order};
ghost use Rattle.lisp_settings.specs.Lawful.{IsLawfulAttachment, IsLawfulDatabase};
ghost use Rattle.lisp_settings.specs.Settings.{attachment_in, database_in, eid_in, locator_in, version_in};
ghost use Rattle.lisp_settings.specs.Writing.{IsEidTable};
ghost use Rattle.lisp_settings.specs.declared.fault.SettingsFault.TheVariants as fault;

use crate::addresses::{address_text, prefix_text};
use crate::fault::SettingsFault;
use crate::fields::{address_at, flag_or, number_at, number_or, only_keys, prefix_at};
use crate::lists::Item;
use crate::members::{put_flag, put_number, put_octet, put_text};
use crate::settings::{Attachment, Database, OwnLocator};
use ip_headers::Addr;
use mapping_records::Eid;
use octets::NoMemory;
use std::alloc::Global;
use toml::Table;

/// The greatest Instance ID.
pub const GREATEST_INSTANCE: u32 = 16_777_215;

impl Item for OwnLocator {
    type Key = Addr;

    type Known = ();

    ghost reads = { λ known. locator_in };

    ghost key = { λ locator. locator.addr };

    ghost order = { addr_order };

    ghost lawful = { λ own. Unit {0} };

    ghost fits = { λ known item. Unit {0} };

    ghost nested = { 0 };

    fn read(alloc: Global, _: &(), table: &Table) -> Result<Self, SettingsFault> {
        only_keys(alloc, table, &["address", "priority", "weight", "up"])?;
        let addr = address_at(alloc, table, "address")?;
        let priority = number_or(alloc, table, "priority", (0, 255), 1)? as u8;
        let weight = number_or(alloc, table, "weight", (0, 255), 1)? as u8;
        let up = flag_or(alloc, table, "up", true)?;
        Ok(OwnLocator {
            addr,
            priority,
            weight,
            up,
        })
    }

    fn write(&self, alloc: Global) -> Result<Table, NoMemory> {
        let mut table = Table::new(alloc);
        put_text(
            alloc,
            &mut table,
            "address",
            address_text(alloc, self.addr)?,
        )?;
        put_octet(alloc, &mut table, "priority", self.priority)?;
        put_octet(alloc, &mut table, "weight", self.weight)?;
        put_flag(alloc, &mut table, "up", self.up)?;
        Ok(table)
    }

    fn key(&self) -> Addr {
        self.addr
    }

    ghost orders = { λ a b. Prim.search rules };
}

impl Item for Attachment {
    type Key = u16;

    type Known = ();

    ghost reads = { λ known. attachment_in };

    ghost key = { λ attachment. attachment.vlan };

    ghost order = { nat_cmp };

    ghost lawful = { IsLawfulAttachment };

    ghost fits = { λ known item. Unit {0} };

    ghost nested = { 0 };

    fn read(alloc: Global, _: &(), table: &Table) -> Result<Self, SettingsFault> {
        only_keys(alloc, table, &["vlan", "iid"])?;
        let vlan = number_at(alloc, table, "vlan", 4095)? as u16;
        let iid = number_at(alloc, table, "iid", GREATEST_INSTANCE)?;
        Ok(Attachment { vlan, iid })
    }

    fn write(&self, alloc: Global) -> Result<Table, NoMemory> {
        let mut table = Table::new(alloc);
        put_number(alloc, &mut table, "vlan", u32::from(self.vlan))?;
        put_number(alloc, &mut table, "iid", self.iid)?;
        Ok(table)
    }

    fn key(&self) -> u16 {
        self.vlan
    }

    ghost orders = { λ a b. Prim.search rules };
}

impl Item for Database {
    type Key = Eid;

    type Known = ();

    ghost reads = { λ known. database_in };

    ghost key = { λ database. database.eid };

    ghost order = { eid_order };

    ghost lawful = { IsLawfulDatabase };

    ghost fits = { λ known item. Unit {0} };

    ghost nested = { 0 };

    fn read(alloc: Global, _: &(), table: &Table) -> Result<Self, SettingsFault> {
        only_keys(alloc, table, &["iid", "prefix", "version"])?;
        let eid = eid_at(alloc, table)?;
        let version = version_at(alloc, table)?;
        Ok(Database { eid, version })
    }

    fn write(&self, alloc: Global) -> Result<Table, NoMemory> {
        let mut table = eid_table(alloc, self.eid)?;
        put_number(alloc, &mut table, "version", u32::from(self.version))?;
        Ok(table)
    }

    fn key(&self) -> Eid {
        self.eid
    }

    ghost orders = { λ a b. Prim.search rules };
}

/// The EID at the required keys `iid` and `prefix`.
pub fn eid_at(alloc: Global, table: &Table) -> Result<Eid, SettingsFault>
    ensures ok { IfOk result (λ eid. eid_in (table_view table.now) ≡ Ok eid) }
    ensures err { IfErr result (λ e. e ≢ fault.Memory → eid_in (table_view table.now) ≡ Err e) }
{
    let iid = number_at(alloc, table, "iid", GREATEST_INSTANCE)?;
    let prefix = prefix_at(alloc, table, "prefix")?;
    Ok(Eid { iid, prefix })
}

/// The Map-Version at the key `version`, which has 12 bits (RFC 9302, section 6); 0 without the
/// key.
pub fn version_at(alloc: Global, table: &Table) -> Result<u16, SettingsFault>
    ensures ok { IfOk result (λ version. version_in (table_view table.now) ≡ Ok version) }
    ensures err { IfErr result (λ e. e ≢ fault.Memory → version_in (table_view table.now) ≡ Err e) }
{
    Ok(number_or(alloc, table, "version", (0, 4095), 0)? as u16)
}

/// A table with an EID alone, at the keys `iid` and `prefix`.
pub fn eid_table(alloc: Global, eid: Eid) -> Result<Table, NoMemory>
    ensures { IfOk result (λ table. IsEidTable eid (table_view table)) }
{
    let mut table = Table::new(alloc);
    put_number(alloc, &mut table, "iid", eid.iid)?;
    put_text(alloc, &mut table, "prefix", prefix_text(alloc, eid.prefix)?)?;
    Ok(table)
}
