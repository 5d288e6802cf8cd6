// Reading of settings from a text.
ghost use Rattle.std.specs.Prelude.{◌≡◌, ◌≢◌, ◌≤◌, IfOk, IfErr, Ok, Err, codes, false, length, replicate};
ghost use Rattle.toml.specs.Data.{as_bool};
ghost use Rattle.toml.specs.View.{table_view};
ghost use Rattle.lisp_settings.specs.Fields.{optional};
ghost use Rattle.lisp_settings.specs.Lawful.{IsLawful};
ghost use Rattle.lisp_settings.specs.Limits.{most_nonces};
ghost use Rattle.lisp_settings.specs.Resolver.{resolver_in};
ghost use Rattle.lisp_settings.specs.Settings.{attachments, changes, choices_then, databases, limits, lists_then, mappings, own_locators, settings_in, settings_of, ttl_in};
ghost use Rattle.lisp_settings.specs.Values.{seed};
ghost use Rattle.lisp_settings.specs.declared.fault.SettingsFault.TheVariants as fault;

use crate::fault::SettingsFault;
use crate::fields::{flag_or, number_or, only_keys, taken, value_at};
use crate::limiting::only_within;
use crate::limits::{
    MOST_ATTACHMENTS, MOST_CHANGES, MOST_DATABASES, MOST_LIMITS, MOST_TEXT_OCTETS,
};
use crate::lists::{any_ascending, some_ascending};
use crate::nonces::nonces_at;
use crate::resolver::{only_reachable, resolver_at};
use crate::settings::{
    Attachments, Changes, Databases, LimitItems, OwnLocators, Records, Settings,
};
use crate::values;
use ip_headers::Addr;
use mapping_records::{DEFAULT_MINUTES, MOST_LOCATORS, MOST_MAPPINGS};
use std::alloc::Global;
use toml::Table;

/// The settings that a text spells, or its first fault; `Memory` where memory is refused.
pub fn read_settings(alloc: Global, text: &[u8]) -> Result<Settings, SettingsFault>
    ensures ok { IfOk result (λ settings. settings_of text.now ≡ Ok settings) }
    ensures err { IfErr result (λ e. e ≢ fault.Memory → settings_of text.now ≡ Err e) }
    ensures lawful { IfOk result (λ settings. IsLawful settings) }
    ensures few { IfOk result (λ settings. length settings.nonces ≤ most_nonces) }
{
    if text.len() > MOST_TEXT_OCTETS {
        return Err(SettingsFault::TooLong);
    }
    match toml::table_from_slice(alloc, text) {
        Ok(top) => read_top(alloc, &top),
        Err(error) if error.is_memory() => Err(SettingsFault::Memory),
        Err(_) => Err(SettingsFault::NotToml),
    }
}

fn read_top(alloc: Global, top: &Table) -> Result<Settings, SettingsFault>
    ensures ok { IfOk result (λ settings. settings_in (table_view top.now) ≡ Ok settings) }
    ensures err { IfErr result (λ e. e ≢ fault.Memory → settings_in (table_view top.now) ≡ Err e) }
{
    let known = [
        "seed",
        "nonces",
        "resolver",
        "ttl",
        "probe",
        "echo",
        "locator",
        "attachment",
        "database",
        "mapping",
        "change",
        "limit",
    ];
    only_keys(alloc, top, &known)?;
    let seed = seed_at(alloc, top)?;
    let nonces = nonces_at(alloc, top)?;
    let (resolver, ttl, probe, echo) = choices_at(alloc, top)?;
    let (locators, attachments, databases, mappings, changes, limits) = lists_at(alloc, top)?;
    only_reachable(alloc, locators.as_slice(), resolver)?;
    only_within(alloc, mappings.as_slice(), limits.as_slice())?;
    Ok(Settings {
        seed,
        nonces,
        resolver,
        ttl,
        probe,
        echo,
        locators,
        attachments,
        databases,
        mappings,
        changes,
        limits,
    })
}

// The values of the keys `resolver`, `ttl`, `probe` and `echo`.
fn choices_at(alloc: Global, top: &Table) -> Result<(Option<Addr>, u32, bool, bool), SettingsFault>
    ensures resolver { IfOk result (λ read. resolver_in (table_view top.now) ≡ Ok read.0) }
    ensures ttl { IfOk result (λ read. ttl_in (table_view top.now) ≡ Ok read.1) }
    ensures probe { IfOk result (λ read.
        optional (codes "probe") as_bool false (table_view top.now) ≡ Ok read.2) }
    ensures echo { IfOk result (λ read.
        optional (codes "echo") as_bool false (table_view top.now) ≡ Ok read.3) }
    ensures err { IfErr result (λ e. e ≢ fault.Memory
        → (next : _) → choices_then next (table_view top.now) ≡ Err e) }
{
    let resolver = resolver_at(alloc, top)?;
    let ttl = number_or(alloc, top, "ttl", (1, 4_294_967_294), DEFAULT_MINUTES)?;
    let probe = flag_or(alloc, top, "probe", false)?;
    let echo = flag_or(alloc, top, "echo", false)?;
    Ok((resolver, ttl, probe, echo))
}

// The lists of tables of the top table, in order.
fn lists_at(
    alloc: Global,
    top: &Table,
) -> Result<
    (
        OwnLocators,
        Attachments,
        Databases,
        Records,
        Changes,
        LimitItems,
    ),
    SettingsFault,
>
    ensures locators { IfOk result (λ read. own_locators (table_view top.now) ≡ Ok read.0) }
    ensures attachments { IfOk result (λ read. attachments (table_view top.now) ≡ Ok read.1) }
    ensures databases { IfOk result (λ read. databases (table_view top.now) ≡ Ok read.2) }
    ensures mappings { IfOk result (λ read. mappings (table_view top.now) ≡ Ok read.3) }
    ensures changes { IfOk result (λ read. changes read.0 (table_view top.now) ≡ Ok read.4) }
    ensures limits { IfOk result (λ read. limits read.1 (table_view top.now) ≡ Ok read.5) }
    ensures err { IfErr result (λ e. e ≢ fault.Memory
        → (next : _) → lists_then next (table_view top.now) ≡ Err e) }
{
    let locators = own_locators(alloc, top)?;
    let attachments = any_ascending(alloc, &(), top, "attachment", MOST_ATTACHMENTS)?;
    let databases = any_ascending(alloc, &(), top, "database", MOST_DATABASES)?;
    let mappings = any_ascending(alloc, &(), top, "mapping", MOST_MAPPINGS)?;
    let changes = any_ascending(alloc, &locators, top, "change", MOST_CHANGES)?;
    let limits = any_ascending(alloc, &attachments, top, "limit", MOST_LIMITS)?;
    Ok((locators, attachments, databases, mappings, changes, limits))
}

fn seed_at(alloc: Global, top: &Table) -> Result<[u8; 32], SettingsFault>
    ensures ok { IfOk result (λ read.
        optional (codes "seed") seed (replicate 32 0) (table_view top.now) ≡ Ok read) }
    ensures err { IfErr result (λ e. e ≢ fault.Memory
        → optional (codes "seed") seed (replicate 32 0) (table_view top.now) ≡ Err e) }
{
    match value_at(top, "seed") {
        Some(value) => taken(alloc, "seed", values::seed(value)),
        None => Ok([0; 32]),
    }
}

fn own_locators(alloc: Global, top: &Table) -> Result<OwnLocators, SettingsFault>
    ensures ok { IfOk result (λ items. own_locators (table_view top.now) ≡ Ok items) }
    ensures err { IfErr result (λ e. e ≢ fault.Memory → own_locators (table_view top.now) ≡ Err e) }
{
    some_ascending(alloc, &(), top, "locator", MOST_LOCATORS)
}
