// Cases, the runs of rows: their words and files, and the calls of the desk that fail.
use crate::captures::{capture_of, header, output_of, push_frame};
use crate::octets_of::octets_of;
use crate::rows;
use crate::rows::{DeskKind, Link, Names, Row, Sent, Unit};
use anyhow::{Context, Result, bail, ensure};
use desk::{Calls, Files, NamedFile};
use octets::Octets;
use replay::Word;
use std::alloc::Global;

/// One run of a row: its words, and, where the row has `each`, a frame with the text that stands
/// for `{}` in the report.
#[derive(Clone, Copy)]
pub struct Case<'a> {
    pub row: &'a Row,
    pub words: &'a str,
    pub each: Option<(&'a str, &'a rows::Octets)>,
}

/// The words, between blanks.
pub fn words_of(alloc: Global, text: &str) -> Result<Vec<Word>> {
    let mut words: Vec<Word> = Vec::new(alloc);
    for word in text.split_ascii_whitespace() {
        words.push(String::from_str(alloc, word)?)?;
    }
    Ok(words)
}

/// The numbers of the desk's calls that fail.
pub fn calls_of(alloc: Global, row: &Row) -> Result<Calls> {
    if let Some(DeskKind::Steady) = &row.desk {
        ensure!(row.fails.is_empty(), "fails: no call of a steady desk does");
    }
    let mut calls = Calls::new(alloc);
    for call in &row.fails {
        push_call(*call, &mut calls)?;
    }
    Ok(calls)
}

/// The files of a run, among `settings`, `in` and `sent`.
pub fn files_of(alloc: Global, names: &Names<'_>, case: Case<'_>) -> Result<Files> {
    let mut files = Files::new(alloc);
    if let Some(settings) = &case.row.settings {
        let text = names.joined(alloc, settings)?;
        push_file(alloc, "settings", text.as_str().as_bytes(), &mut files)?;
    }
    if let Some(octets) = input_of(alloc, names, case)? {
        push_file(alloc, "in", &octets, &mut files)?;
    }
    if let Some(sent) = &case.row.sent {
        let octets = sent_of(alloc, names, sent).context("in `sent`")?;
        push_file(alloc, "sent", &octets, &mut files)?;
    }
    Ok(files)
}

// The capture, if there is one, with the octets of `tail` behind it.
fn input_of(alloc: Global, names: &Names<'_>, case: Case<'_>) -> Result<Option<Vec<u8>>> {
    let Some(mut octets) = frames_of(alloc, names, case)? else {
        ensure!(case.row.tail.is_none(), "tail: there is no capture");
        return Ok(None);
    };
    if let Some(tail) = &case.row.tail {
        octets.extend_from_slice(&octets_of(alloc, names, tail).context("in `tail`")?)?;
    }
    Ok(Some(octets))
}

fn frames_of(alloc: Global, names: &Names<'_>, case: Case<'_>) -> Result<Option<Vec<u8>>> {
    let row = case.row;
    let link = row.link.as_ref().unwrap_or(&Link::Raw);
    let unit = row.unit.as_ref().unwrap_or(&Unit::Us);
    let octets = match (&row.frames, &row.capture, case.each) {
        (Some(frames), None, None) => {
            capture_of(alloc, names, link, unit, frames).context("in `frames`")?
        }
        (None, Some(capture), None) => octets_of(alloc, names, capture).context("in `capture`")?,
        (None, None, Some((_, frame))) => {
            let mut capture = header(alloc, link, unit)?;
            push_frame(alloc, names, unit, ("0", frame), &mut capture).context("in `each`")?;
            capture
        }
        (None, None, None) => return Ok(None),
        _ => bail!("more than one of `frames`, `each` and `capture`"),
    };
    Ok(Some(octets))
}

fn sent_of(alloc: Global, names: &Names<'_>, sent: &Sent) -> Result<Vec<u8>> {
    match sent {
        Sent::Packets(packets) => output_of(alloc, names, packets),
        Sent::File(octets) => octets_of(alloc, names, octets),
    }
}

fn push_file(alloc: Global, name: &str, octets: &[u8], files: &mut Files) -> Result<()> {
    let file = NamedFile {
        name: copied(alloc, name.as_bytes())?,
        octets: copied(alloc, octets)?,
    };
    match files.push(file) {
        Ok(()) => Ok(()),
        Err(_) => bail!("out of memory"),
    }
}

fn push_call(call: u64, calls: &mut Calls) -> Result<()> {
    match calls.push(call) {
        Ok(()) => Ok(()),
        Err(_) => bail!("out of memory"),
    }
}

fn copied(alloc: Global, octets: &[u8]) -> Result<Octets> {
    match Octets::copied(alloc, octets) {
        Ok(copy) => Ok(copy),
        Err(_) => bail!("out of memory"),
    }
}
