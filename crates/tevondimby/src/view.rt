//! Files are shown.

use anyhow::Result;
use clap::ArgMatches;
use command_inputs::{Inputs, files_of, path_of, unless_closed};
use command_report::Outcome;
use source_tools::{FileFault, Source, Summary, View, show};
use std::io::IsTerminal;

/// How many files are shown before the line of progress is written again.
const STEP: usize = 100;

/// Names the files that are left out.
fn report(rt: &HostRuntime, sources: &[Source], faults: &[FileFault]) {
    for fault in faults {
        let path = path_of(sources, fault.index);
        let error = &fault.error;
        let _ = eprintln!(rt; "tevondimby: {path}: {error}");
    }
}

/// Writes a line of progress on a terminal, over the last one.
fn write_progress(rt: &HostRuntime, shown: usize, count: usize) {
    let _ = eprint!(rt; "\r{shown} of {count} files\r");
}

/// Returns what files that are shown came to.
fn outcome_of(summary: &Summary) -> Outcome {
    match summary.status() {
        0 => Outcome::Done,
        1 => Outcome::Found,
        _ => Outcome::Fault,
    }
}

/// Shows files, and writes a line of progress if standard error is a terminal and they are many.
pub(crate) fn view(rt: &HostRuntime, view: View, matches: &ArgMatches<'_>) -> Result<Outcome> {
    let list = files_of(rt, matches)?;
    let inputs = Inputs::new(rt);
    let sources = list.sources.as_slice();
    let has_progress = sources.len() > STEP && rt.stderr().is_terminal();
    let mut outcome = if list.has_faults {
        Outcome::Fault
    } else {
        Outcome::Done
    };
    if sources.is_empty() && !list.has_faults {
        let _ = eprintln!(rt; "tevondimby: no file");
        return Ok(Outcome::Found);
    }
    let mut shown: usize = 0;
    for part in sources.chunks(STEP) {
        if has_progress {
            write_progress(rt, shown, sources.len());
        }
        let shown_part = show(rt.alloc(), view, &inputs, part, &mut rt.stdout());
        let Some(summary) = unless_closed(shown_part)? else {
            return Ok(outcome);
        };
        report(rt, part, summary.faults.as_slice());
        outcome = outcome.and(outcome_of(&summary));
        shown = shown.saturating_add(part.len());
    }
    Ok(outcome)
}
