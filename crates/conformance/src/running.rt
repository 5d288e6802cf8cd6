// The runs of a row, each over a desk in memory.
use crate::cases::{Case, calls_of, files_of, words_of};
use crate::comparing::difference;
use crate::rows::{DeskKind, Names, Row, Texts};
use crate::wanted::{lines_of, output_of, report_of};
use anyhow::{Result, ensure};
use desk::{Files, MemoryDesk, SteadyDesk};
use replay::{OpenGate, Status, Word, run};
use std::alloc::Global;
use std::str;
use std::sync::Wait;
use std::thread::Threads;

const REPLAY: &str = "replay --settings settings --in in --out out";

/// The differences between the row's runs and the wanted ends, as lines; empty where there are
/// none.
pub fn differences<R: Threads + Wait + Sync>(
    rt: &R,
    alloc: Global,
    names: &Names<'_>,
    row: &Row,
) -> Result<String> {
    let mut found = String::new(alloc);
    match &row.words {
        None => push_each(rt, alloc, names, row, REPLAY, &mut found)?,
        Some(Texts::One(words)) => push_each(rt, alloc, names, row, words.as_str(), &mut found)?,
        Some(Texts::Several(several)) => {
            ensure!(!several.is_empty(), "`words` has none: \"\" says so");
            for words in several {
                push_each(rt, alloc, names, row, words.as_str(), &mut found)?;
            }
        }
    }
    Ok(found)
}

// Adds the differences of the runs of one list of words.
fn push_each<'a, R: Threads + Wait + Sync>(
    rt: &R,
    alloc: Global,
    names: &Names<'_>,
    row: &'a Row,
    words: &'a str,
    found: &mut String,
) -> Result<()> {
    let Some(several) = &row.each else {
        let case = Case {
            row,
            words,
            each: None,
        };
        return push_run(rt, alloc, names, case, found);
    };
    ensure!(!several.is_empty(), "`each` has no frame");
    for (said, frame) in several {
        let each = Some((said.as_str(), frame));
        push_run(rt, alloc, names, Case { row, words, each }, found)?;
    }
    Ok(())
}

fn push_run<R: Threads + Wait + Sync>(
    rt: &R,
    alloc: Global,
    names: &Names<'_>,
    case: Case<'_>,
    found: &mut String,
) -> Result<()> {
    let text = run_of(rt, alloc, names, case)?;
    if !text.is_empty() {
        let words = case.words;
        let head = match case.each {
            Some((said, _)) => format!(in alloc; "  in {words:?}, {said:?}\n")?,
            None => format!(in alloc; "  in {words:?}\n")?,
        };
        found.push_str(head.as_str())?;
        found.push_str(text.as_str())?;
    }
    Ok(())
}

fn run_of<R: Threads + Wait + Sync>(
    rt: &R,
    alloc: Global,
    names: &Names<'_>,
    case: Case<'_>,
) -> Result<String> {
    let words = words_of(alloc, case.words)?;
    let files = files_of(alloc, names, case)?;
    let calls = calls_of(alloc, case.row)?;
    match &case.row.desk {
        Some(DeskKind::Steady) => over_steady(rt, alloc, names, case, &words, files),
        _ => {
            let desk = MemoryDesk::new(alloc, files, calls);
            over_memory(rt, alloc, names, case, &words, desk)
        }
    }
}

// Each of two functions has a desk and one exit, because each exit drops all of the desk.
fn over_steady<R: Threads + Wait + Sync>(
    rt: &R,
    alloc: Global,
    names: &Names<'_>,
    case: Case<'_>,
    words: &[Word],
    files: Files,
) -> Result<String> {
    let mut desk = SteadyDesk::new(alloc, files);
    let status = run(rt, alloc, words, &mut desk, &OpenGate);
    compared(alloc, names, case, (status, desk.said(), desk.file("out")))
}

fn over_memory<R: Threads + Wait + Sync>(
    rt: &R,
    alloc: Global,
    names: &Names<'_>,
    case: Case<'_>,
    words: &[Word],
    mut desk: MemoryDesk,
) -> Result<String> {
    let status = run(rt, alloc, words, &mut desk, &OpenGate);
    compared(alloc, names, case, (status, desk.said(), desk.file("out")))
}

// The differences between a run's end and the wanted one: in its status, its report, and its output
// if any.
fn compared(
    alloc: Global,
    names: &Names<'_>,
    case: Case<'_>,
    end: (Status, &[u8], Option<&[u8]>),
) -> Result<String> {
    let (status, report, output) = end;
    let mut found = String::new(alloc);
    let wanted = report_of(alloc, case)?;
    let got = str::from_utf8(report)?;
    push_difference(alloc, "report", wanted.as_str(), got, &mut found)?;
    let wanted = output_of(alloc, names, case.row)?;
    let got = lines_of(alloc, output)?;
    push_difference(alloc, "out", wanted.as_str(), got.as_str(), &mut found)?;
    let wanted = format!(in alloc; "{}", case.row.status)?;
    let got = format!(in alloc; "{}", status as u8)?;
    push_difference(alloc, "status", wanted.as_str(), got.as_str(), &mut found)?;
    Ok(found)
}

fn push_difference(
    alloc: Global,
    place: &str,
    wanted: &str,
    got: &str,
    found: &mut String,
) -> Result<()> {
    if let Some(text) = difference(alloc, place, wanted, got)? {
        found.push_str(text.as_str())?;
    }
    Ok(())
}
