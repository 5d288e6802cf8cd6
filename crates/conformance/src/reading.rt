// Files of rows. A fault names the file, the row and the key.
use crate::rows::{Row, RowFile};
use anyhow::{Context, Result, ensure};
use serde::Deserialize;
use std::alloc::Global;
use std::collections::BTreeMap;
use std::fs;
use std::rt::Files;
use toml::{Table, Value};

// A file as TOML has it. Its rows are still tables, because each is read by itself, so that a fault
// names its row.
#[derive(Drop, Deserialize)]
#[serde(deny_unknown_fields)]
struct Page {
    #[serde(default)]
    settings: BTreeMap<String, String>,
    #[serde(default)]
    packet: BTreeMap<String, String>,
    #[serde(default)]
    row: Vec<Table>,
}

/// Reads a file of rows, each with a name of its own.
pub fn read<R: Files + AllocGlobal>(rt: &R, file: &str) -> Result<RowFile> {
    let alloc = rt.alloc();
    let text = fs::read_to_string(rt, file).context(format_args!("{file}"))?;
    let page: Page = toml::from_str(alloc, text.as_str()).context(format_args!("{file}"))?;
    let mut rows: Vec<Row> = Vec::new(alloc);
    let mut number = 0usize;
    for table in &page.row {
        number = number.saturating_add(1);
        let row = match table.get("name") {
            Some(Value::String(name)) => {
                row_of(alloc, table, &rows).context(format_args!("{file}: {name}"))?
            }
            _ => row_of(alloc, table, &rows).context(format_args!("{file}: row {number}"))?,
        };
        rows.push(row)?;
    }
    Ok(RowFile {
        settings: page.settings,
        packet: page.packet,
        rows,
    })
}

// The row of a table, whose name must differ from those of the others. The table is written and
// read again, because `toml` reads rows of texts alone.
fn row_of(alloc: Global, table: &Table, others: &[Row]) -> Result<Row> {
    let text = toml::table_to_string(alloc, table)?;
    let row: Row = toml::from_str(alloc, text.as_str())?;
    let name = row.name.as_str();
    let is_new = others.iter().all(|other| other.name.as_str() != name);
    ensure!(is_new, "another row of the file has this name");
    Ok(row)
}
