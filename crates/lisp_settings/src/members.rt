// Members of a table that is being written.
ghost use Rattle.std.specs.Prelude.{◌≡◌, ◌≤◌, OnOk, pos, string_bytes};
ghost use Rattle.toml.specs.Data.{array, boolean, integer, string};
ghost use Rattle.toml.specs.View.{array_view, table_view, view};
ghost use Rattle.lisp_settings.specs.Writing.{with_member};

use octets::NoMemory;
use std::alloc::Global;
use toml::{Table, Value};

/// Puts a value at a key of a table.
fn put(alloc: Global, table: &mut Table, key: &str, value: Value) -> Result<(), NoMemory>
    ensures { OnOk result (table_view table.new
        ≡ with_member key.now (view value) (table_view table.old)) }
{
    table.insert(String::from_str(alloc, key)?, value)?;
    Ok(())
}

/// Puts a text at a key of a table.
pub fn put_text(alloc: Global, table: &mut Table, key: &str, text: String) -> Result<(), NoMemory>
    ensures { OnOk result (table_view table.new
        ≡ with_member key.now (string (string_bytes text)) (table_view table.old)) }
{
    put(alloc, table, key, Value::String(text))
}

/// Puts a whole number at a key of a table.
pub fn put_number(alloc: Global, table: &mut Table, key: &str, number: u32) -> Result<(), NoMemory>
    ensures ok { OnOk result (table_view table.new
        ≡ with_member key.now (integer (pos number)) (table_view table.old)) }
    ensures within { number ≤ 4294967295 }
{
    put(alloc, table, key, Value::Integer(i64::from(number)))
}

/// Puts a number of 8 bits at a key of a table.
pub fn put_octet(alloc: Global, table: &mut Table, key: &str, octet: u8) -> Result<(), NoMemory>
    ensures ok { OnOk result (table_view table.new
        ≡ with_member key.now (integer (pos octet)) (table_view table.old)) }
    ensures within { octet ≤ 255 }
{
    put_number(alloc, table, key, u32::from(octet))
}

/// Puts a truth value at a key of a table.
pub fn put_flag(alloc: Global, table: &mut Table, key: &str, flag: bool) -> Result<(), NoMemory>
    ensures { OnOk result (table_view table.new
        ≡ with_member key.now (boolean flag) (table_view table.old)) }
{
    put(alloc, table, key, Value::Boolean(flag))
}

/// Puts an array at a key of a table.
pub fn put_array(
    alloc: Global,
    table: &mut Table,
    key: &str,
    values: Vec<Value>,
) -> Result<(), NoMemory>
    ensures { OnOk result (table_view table.new
        ≡ with_member key.now (array (array_view values)) (table_view table.old)) }
{
    put(alloc, table, key, Value::Array(values))
}
