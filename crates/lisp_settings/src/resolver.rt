// The Map-Resolver: its address, and the rule that it can be reached.
ghost use Rattle.std.specs.Prelude.{◌≡◌, ◌≢◌, IfOk, IfErr, OnOk, Ok, Err};
ghost use Rattle.toml.specs.View.{table_view};
ghost use Rattle.lisp_settings.specs.Resolver.{is_reachable, only_reachable, resolver_in};
ghost use Rattle.lisp_settings.specs.Writing.{IsResolverTable};
ghost use Rattle.lisp_settings.specs.declared.fault.SettingsFault.TheVariants as fault;

use crate::addresses::address_text;
use crate::fault::{Key, SettingsFault};
use crate::fields::{taken, value_at};
use crate::members::put_text;
use crate::settings::OwnLocator;
use crate::values;
use ip_headers::Addr;
use octets::NoMemory;
use std::alloc::Global;
use toml::Table;

/// The address at the key `resolver`, or None without the key.
pub fn resolver_at(alloc: Global, top: &Table) -> Result<Option<Addr>, SettingsFault>
    ensures ok { IfOk result (λ resolver. resolver_in (table_view top.now) ≡ Ok resolver) }
    ensures err { IfErr result (λ e. e ≢ fault.Memory → resolver_in (table_view top.now) ≡ Err e) }
{
    match value_at(top, "resolver") {
        Some(value) => Ok(Some(taken(alloc, "resolver", values::address(value))?)),
        None => Ok(None),
    }
}

/// A table with the address of the resolver alone; an empty table without a resolver.
pub fn resolver_table(alloc: Global, resolver: Option<Addr>) -> Result<Table, NoMemory>
    ensures { IfOk result (λ table. IsResolverTable resolver (table_view table)) }
{
    let mut table = Table::new(alloc);
    if let Some(addr) = resolver {
        put_text(alloc, &mut table, "resolver", address_text(alloc, addr)?)?;
    }
    Ok(table)
}

/// Refuses a resolver if no own locator of its address's family is up.
pub fn only_reachable(
    alloc: Global,
    locators: &[OwnLocator],
    resolver: Option<Addr>,
) -> Result<(), SettingsFault>
    ensures ok { OnOk result (only_reachable locators.now resolver ≡ Ok resolver) }
    ensures err { IfErr result (λ e. e ≢ fault.Memory
        → only_reachable locators.now resolver ≡ Err e) }
{
    match resolver {
        Some(addr) if !is_reachable(locators, addr) => {
            Err(SettingsFault::BadValue(Key::copied(alloc, "resolver")?))
        }
        _ => Ok(()),
    }
}

fn is_reachable(locators: &[OwnLocator], addr: Addr) -> bool
    ensures { result ≡ is_reachable locators.now addr }
{
    locators
        .iter()
        .any(|own| own.up && own.addr.width() == addr.width())
}
