// Runs over a desk in memory, and their results.
use desk::{Calls, Desk, Files, MemoryDesk, NamedFile};
use octets::{NoMemory, Octets};
use replay::{OpenGate, Status, Word, run};
use std::alloc::Global;
use std::str;
use std::str::Utf8Error;
use std::sync::Wait;
use std::thread::Threads;

/// The words of a replay of the files `settings` and `in`, with the output `out`.
pub const REPLAY: [&str; 7] = [
    "replay",
    "--settings",
    "settings",
    "--in",
    "in",
    "--out",
    "out",
];

fn named(alloc: Global, name: &str, octets: Octets) -> Result<NamedFile, NoMemory> {
    Ok(NamedFile {
        name: Octets::copied(alloc, name.as_bytes())?,
        octets,
    })
}

/// Files with these names and octets.
pub fn files_of(alloc: Global, rows: &[(&str, &[u8])]) -> Result<Files, NoMemory> {
    let mut files = Files::new(alloc);
    for (name, octets) in rows {
        files.push(named(alloc, name, Octets::copied(alloc, octets)?)?)?;
    }
    Ok(files)
}

/// A desk with the files `settings` and `in`, whose calls with the numbers in `fails` fail.
pub fn desk_with(
    alloc: Global,
    settings: &str,
    capture: Octets,
    fails: Calls,
) -> Result<MemoryDesk, NoMemory> {
    let mut files = Files::new(alloc);
    let octets = Octets::copied(alloc, settings.as_bytes())?;
    files.push(named(alloc, "settings", octets)?)?;
    files.push(named(alloc, "in", capture)?)?;
    Ok(MemoryDesk::new(alloc, files, fails))
}

/// Runs the words over the desk, and returns the status.
pub fn run_words<R: Threads + Wait + Sync, D: Desk>(
    rt: &R,
    alloc: Global,
    words: &[&str],
    desk: &mut D,
) -> Result<Status, NoMemory> {
    let mut owned: Vec<Word> = Vec::new(alloc);
    for word in words {
        owned.push(String::from_str(alloc, word)?)?;
    }
    Ok(run(rt, alloc, &owned, desk, &OpenGate))
}

/// The status of a replay of the capture, and its desk.
pub fn replayed<R: Threads + Wait + Sync>(
    rt: &R,
    alloc: Global,
    settings: &str,
    capture: Octets,
) -> Result<(Status, MemoryDesk), NoMemory> {
    let mut desk = desk_with(alloc, settings, capture, Calls::new(alloc))?;
    let status = run_words(rt, alloc, &REPLAY, &mut desk)?;
    Ok((status, desk))
}

/// A report as text.
pub fn text(report: &[u8]) -> Result<&str, Utf8Error> {
    str::from_utf8(report)
}

/// The report on a desk, as text.
pub fn said(desk: &MemoryDesk) -> Result<&str, Utf8Error> {
    text(desk.said())
}
