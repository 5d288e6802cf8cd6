// The nonces of a router: those that its settings list, then words of a ChaCha8 stream.
ghost use Rattle.std.specs.Prelude.{◌≡◌, ◌≢◌, ◌<◌, ◌-◌, ◌+◌, ◌*◌, ◌^◌, length, codes, IfOk, IfErr, Ok, Err, [], option_map};
ghost use Rattle.toml.specs.Data.{as_array, get_member, no_items};
ghost use Rattle.toml.specs.View.{array_view, items_view, table_view};
ghost use Rattle.lisp_settings.specs.Fields.{value_or};
ghost use Rattle.lisp_settings.specs.Limits.{most_nonces};
ghost use Rattle.lisp_settings.specs.Lists.{each_nonce, nonces_at};
ghost use Rattle.lisp_settings.specs.Nonces.{drawn, nonce_of};
ghost use Rattle.lisp_settings.specs.Writing.{IsNonceArray};
ghost use Rattle.lisp_settings.specs.declared.fault.SettingsFault.TheVariants as fault;

use crate::fault::SettingsFault;
use crate::hex::number_text;
use crate::limits::MOST_NONCES;
use crate::lists::few_items;
use crate::settings::{Nonces, Settings};
use crate::{fields, places, values};
use octets::{Items, NoMemory};
use rand_chacha::ChaCha8Rng;
use rand_core::SeedableRng;
use rand_core::utils::NextWord;
use std::alloc::Global;
use toml::{Table, Value};

/// Nonce `i`, counted from 0: number `i` of the list, and past its end the next two words of the
/// stream, the low one first.
pub fn nonce_at(settings: &Settings, i: u64) -> u64
    requires { i - length settings.now.nonces < 2 ^ 63 }
    ensures { result ≡ nonce_of settings.now.seed settings.now.nonces i }
{
    let listed = settings.nonces.as_slice();
    if i < listed.len() as u64 {
        listed[i as usize]
    } else {
        drawn(settings.seed, i - listed.len() as u64)
    }
}

/// Number `j` that the stream of a seed gives: words 2 `j` (low) and 2 `j` + 1 (high).
fn drawn(seed: [u8; 32], j: u64) -> u64
    requires { j < 2 ^ 63 }
    ensures { result ≡ drawn seed j }
{
    let mut stream = ChaCha8Rng::from_seed(seed);
    stream.set_word_pos(2 * u128::from(j));
    let low = stream.next_word();
    let high = stream.next_word();
    u64::from(low) + u64::from(high) * 0x1_0000_0000
}

/// The nonces that the settings list at the key `nonces`; none without the key.
pub fn nonces_at(alloc: Global, table: &Table) -> Result<Nonces, SettingsFault>
    ensures ok { IfOk result (λ nonces.
        nonces_at (codes "nonces") most_nonces (table_view table.now) ≡ Ok nonces) }
    ensures err { IfErr result (λ e. e ≢ fault.Memory
        → nonces_at (codes "nonces") most_nonces (table_view table.now) ≡ Err e) }
{
    let items = items_at(alloc, table)?;
    few_items(alloc, "nonces", MOST_NONCES, items)?;
    read_nonces(alloc, items)
}

fn items_at<'a>(alloc: Global, table: &'a Table) -> Result<&'a [Value], SettingsFault>
    ensures ok { IfOk result (λ items.
        value_or (codes "nonces") as_array no_items
        (get_member (codes "nonces") (table_view table.now))
        ≡ Ok (items_view items.now)) }
    ensures err { IfErr result (λ e. e ≢ fault.Memory
        → value_or (codes "nonces") as_array no_items
        (get_member (codes "nonces") (table_view table.now))
        ≡ Err e) }
{
    match fields::value_at(table, "nonces") {
        Some(value) => fields::taken(alloc, "nonces", values::array(value)),
        None => Ok(&[]),
    }
}

fn read_nonces(alloc: Global, items: &[Value]) -> Result<Nonces, SettingsFault>
    ensures ok { IfOk result (λ nonces.
        each_nonce (codes "nonces") [] (items_view items.now) ≡ Ok nonces) }
    ensures err { IfErr result (λ e. e ≢ fault.Memory
        → each_nonce (codes "nonces") [] (items_view items.now) ≡ Err e) }
{
    let mut nonces = Items::new(alloc);
    for item in items {
        let Some(nonce) = values::nonce(item) else {
            let key = places::item_key(alloc, "nonces", nonces.len())?;
            return Err(SettingsFault::BadValue(key));
        };
        nonces.push(nonce)?;
    }
    Ok(nonces)
}

/// An array of texts that reads as these nonces.
pub fn write_nonces(alloc: Global, nonces: &[u64]) -> Result<Vec<Value>, NoMemory>
    ensures { IfOk result (λ array. IsNonceArray nonces.now (array_view array)) }
{
    let mut array = Vec::new(alloc);
    for nonce in nonces {
        array.push(Value::String(number_text(alloc, *nonce)?))?;
    }
    Ok(array)
}
