// Writing of settings as a text.
ghost use Rattle.std.specs.Prelude.{◌≡◌, ◌≤◌, IfOk, IfErr, Ok, length};
ghost use Rattle.toml.specs.View.{table_view};
ghost use Rattle.lisp_settings.specs.Lawful.{IsLawful};
ghost use Rattle.lisp_settings.specs.Limits.{most_nonces};
ghost use Rattle.lisp_settings.specs.Settings.{settings_in, settings_in_text};
ghost use Rattle.lisp_settings.specs.Writing.{IsFrontTable, IsPlain};
ghost use Rattle.lisp_settings.specs.declared.fault.SettingsFault.TheVariants as fault;

use crate::fault::SettingsFault;
use crate::hex::octets_text;
use crate::lists::write_items;
use crate::members::{put_array, put_flag, put_number, put_text};
use crate::nonces::write_nonces;
use crate::resolver::resolver_table;
use crate::settings::Settings;
use octets::{NoMemory, Octets};
use std::alloc::Global;
use toml::Table;

/// A text that reads as these settings: a TOML document with every key, also where its value is the
/// default; only `resolver` has no key where there is none. The text may have more octets than
/// `read_settings` takes. No text reads as settings that list more nonces than the limit. Fails
/// only where memory is refused.
pub fn write_settings(alloc: Global, settings: &Settings) -> Result<Octets, SettingsFault>
    requires { IsLawful settings.now }
    ensures ok { IfOk result (λ text. length settings.now.nonces ≤ most_nonces
        → settings_in_text text ≡ Ok settings.now) }
    ensures err { IfErr result (λ e. e ≡ fault.Memory) }
{
    let top = top_table(alloc, settings)?;
    match toml::table_to_string(alloc, &top) {
        Ok(text) => {
            let octets = text.into_bytes();
            Ok(Octets::from_vec(octets))
        }
        // The table holds no date, so printing it fails only where memory is refused.
        Err(_) => Err(SettingsFault::Memory),
    }
}

/// A table that reads as the settings, with at most four levels of arrays and tables inside.
fn top_table(alloc: Global, settings: &Settings) -> Result<Table, NoMemory>
    requires { IsLawful settings.now }
    ensures reads { IfOk result (λ top. length settings.now.nonces ≤ most_nonces
        → settings_in (table_view top) ≡ Ok settings.now) }
    ensures plain { IfOk result (λ top. IsPlain 4 (table_view top)) }
{
    let locators = write_items(alloc, settings.locators.as_slice())?;
    let attachments = write_items(alloc, settings.attachments.as_slice())?;
    let databases = write_items(alloc, settings.databases.as_slice())?;
    let mappings = write_items(alloc, settings.mappings.as_slice())?;
    let changes = write_items(alloc, settings.changes.as_slice())?;
    let limits = write_items(alloc, settings.limits.as_slice())?;
    let mut top = front_table(alloc, settings)?;
    put_array(alloc, &mut top, "locator", locators)?;
    put_array(alloc, &mut top, "attachment", attachments)?;
    put_array(alloc, &mut top, "database", databases)?;
    put_array(alloc, &mut top, "mapping", mappings)?;
    put_array(alloc, &mut top, "change", changes)?;
    put_array(alloc, &mut top, "limit", limits)?;
    Ok(top)
}

/// A table with the keys of the top table that hold no tables.
fn front_table(alloc: Global, settings: &Settings) -> Result<Table, NoMemory>
    ensures { IfOk result (λ table. IsFrontTable settings.now (table_view table)) }
{
    let seed = octets_text(alloc, &settings.seed)?;
    let nonces = write_nonces(alloc, settings.nonces.as_slice())?;
    let mut table = resolver_table(alloc, settings.resolver)?;
    put_text(alloc, &mut table, "seed", seed)?;
    put_array(alloc, &mut table, "nonces", nonces)?;
    put_number(alloc, &mut table, "ttl", settings.ttl)?;
    put_flag(alloc, &mut table, "probe", settings.probe)?;
    put_flag(alloc, &mut table, "echo", settings.echo)?;
    Ok(table)
}
