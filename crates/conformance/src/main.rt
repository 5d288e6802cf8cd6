//! The program `conformance`: whole runs of the router, each a row of data in a file of TOML, over
//! desks in memory. Its words are names of files; the first holds names that the others share.
#![tactic(auto)]

mod captures;
mod cases;
mod comparing;
mod listing;
mod octets_of;
mod reading;
mod rows;
mod running;
mod wanted;

use crate::reading::read;
use crate::rows::Names;
use crate::running::differences;
use anyhow::{Context, Result, ensure};
use std::alloc::Global;
use std::env;
use std::process::ExitCode;
use std::sync::Wait;
use std::thread::Threads;

// Runs the rows of a file, prints of each whether it differs and in what, and returns how many do.
// The runtime is handed down twice, as one that may print and as one that may start threads and
// wait.
fn failures<R: Threads + Wait + Sync>(
    host: &impl Print,
    rt: &R,
    alloc: Global,
    file: &str,
    names: &Names<'_>,
) -> Result<usize> {
    let mut failed = 0usize;
    for row in &names.own.rows {
        let (name, shows) = (row.name.as_str(), row.shows.as_str());
        let found = differences(rt, alloc, names, row).context(format_args!("{file}: {name}"))?;
        if found.is_empty() {
            println!(host; "{file}: ok: {name}")?;
        } else {
            print!(host; "{file}: FAILED: {name}\n  {shows}\n{found}")?;
            failed = failed.saturating_add(1);
        }
    }
    Ok(failed)
}

fn main(rt: HostRuntime) -> Result<ExitCode> {
    let alloc = rt.alloc();
    let words: Vec<String> = env::args(&rt)?.skip(1).collect(alloc)?;
    let Some((first, others)) = words.as_slice().split_first() else {
        println!(rt; "usage: conformance SHARED.toml ROWS.toml ..")?;
        return Ok(ExitCode::from(2));
    };
    let shared = read(&rt, first.as_str())?;
    ensure!(
        shared.rows.is_empty(),
        "{first}: the first file has names alone, and no rows"
    );
    let (mut count, mut failed) = (0usize, 0usize);
    for file in others {
        let own = read(&rt, file.as_str())?;
        let names = Names {
            own: &own,
            shared: &shared,
        };
        failed = failed.saturating_add(failures(&rt, &rt, alloc, file.as_str(), &names)?);
        count = count.saturating_add(own.rows.len());
    }
    println!(rt; "{count} rows, {failed} failed")?;
    Ok(ExitCode::from(if failed == 0 { 0 } else { 1 }))
}
