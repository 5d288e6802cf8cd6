// The wanted end of a run of a row.
use crate::captures;
use crate::cases::Case;
use crate::listing::listed;
use crate::octets_of::octets_of;
use crate::rows::{Names, Row};
use anyhow::{Context, Result, bail};
use std::alloc::Global;

/// The wanted report, with the frame's text in place of the first `{}`.
pub fn report_of(alloc: Global, case: Case<'_>) -> Result<String> {
    let report = case.row.report.as_str();
    let mut text = String::new(alloc);
    match (case.each, report.split_once("{}")) {
        (Some((said, _)), Some((front, back))) => {
            text.push_str(front)?;
            text.push_str(said)?;
            text.push_str(back)?;
        }
        _ => text.push_str(report)?,
    }
    Ok(text)
}

/// The lines of the wanted output.
pub fn output_of(alloc: Global, names: &Names<'_>, row: &Row) -> Result<String> {
    match (&row.packets, &row.output) {
        (Some(packets), None) => {
            let output = captures::output_of(alloc, names, packets);
            lines_of(alloc, Some(&output.context("in `packets`")?))
        }
        (None, Some(output)) => {
            let output = octets_of(alloc, names, output).context("in `output`")?;
            lines_of(alloc, Some(&output))
        }
        (None, None) => lines_of(alloc, None),
        (Some(_), Some(_)) => bail!("both `packets` and `output`"),
    }
}

/// The lines of a file of packets that may not be there.
pub fn lines_of(alloc: Global, file: Option<&[u8]>) -> Result<String> {
    match file {
        Some(octets) => listed(alloc, octets),
        None => Ok(String::from_str(alloc, "no file\n")?),
    }
}
