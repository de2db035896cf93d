//! Identifiers, lifetimes and labels are renamed in files.

use crate::advice::{advise, is_keyword_name, is_spelled_otherwise};
use crate::names::{Names, names_of, pairs_text};
use crate::survey::{Survey, survey_bytes, survey_files};
use anyhow::{Result, anyhow};
use clap::ArgMatches;
use command_inputs::{
    Dialects, Inputs, STANDARD_INPUT, is_closed, path_of, print_diffs, print_paths, print_ranges,
    report_unwritten, source_list, usage_error,
};
use command_report::{Outcome, RenameCounts, tally_row, unchanged_row};
use file_target::Target;
use parser_input::SyntaxKind;
use rename_pairs::NamePair;
use source_tools::{
    RenameFailure, RenameStop, Renaming, Source, plan_renames, rename_bytes, rename_files,
};
use std::alloc::{AllocError, Global};
use std::io::Write;
use token_names::{has_name, is_lifetime};

/// Names the file that stopped a renaming, and says what leads on.
fn report_stop(
    rt: &HostRuntime,
    pairs: &[NamePair<'_>],
    sources: &[Source],
    stop: &RenameStop,
) -> Outcome {
    match stop {
        RenameStop::RefusedFile(RenameFailure { index, fault }) => {
            let path = path_of(sources, *index);
            let _ = eprintln!(rt; "tevondimby: {path}: {fault}; no file is written");
            if let Some(source) = sources.get(*index) {
                if let Ok(contents) = Inputs::new(rt).read(rt.alloc(), source.path.as_str()) {
                    let _ = advise(rt, pairs, source, contents.bytes.as_slice(), fault);
                }
            }
        }
        RenameStop::Unwritten(path, error) => report_unwritten(rt, path.as_str(), error),
    }
    Outcome::Fault
}

/// What a renaming says and does beside it.
#[derive(Clone, Copy)]
struct Manner {
    is_written: bool,
    is_check: bool,
    is_json: bool,
    is_quiet: bool,
    /// The new names may be identifiers of the files already.
    is_merge: bool,
    /// The number of files that are read.
    files: usize,
}

/// Returns a renaming for each spelling of each old name. Past the first one of a name the new name is
/// there.
fn renamings_of<'a>(
    alloc: Global,
    pairs: &[NamePair<'a>],
    surveys: &'a [Survey],
    is_merge: bool,
) -> Result<Vec<Renaming<'a>>, AllocError> {
    let mut renamings = Vec::new(alloc);
    for (pair, survey) in pairs.iter().zip(surveys) {
        let mut merge = is_merge || is_one_name(alloc, pair)?;
        for spelling in survey.spellings.as_slice() {
            let old = spelling.as_str();
            if old != pair.new {
                renamings.push(Renaming {
                    old,
                    new: pair.new,
                    merge,
                })?;
                merge = true;
            }
        }
    }
    Ok(renamings)
}

/// Returns `true` if both names of a pair are one in two spellings.
fn is_one_name(alloc: Global, pair: &NamePair<'_>) -> Result<bool, AllocError> {
    let kind = if is_lifetime(pair.old) {
        SyntaxKind::LIFETIME_IDENT
    } else {
        SyntaxKind::IDENT
    };
    has_name(alloc, pair.old, kind, pair.new)
}

/// Returns `true` if a new name may not be in a file with these bytes, or is there in another spelling
/// and may not be, and says so.
fn is_ruled_out(
    rt: &HostRuntime,
    manner: Manner,
    pairs: &[NamePair<'_>],
    source: &Source,
    bytes: &[u8],
) -> Result<bool, AllocError> {
    if is_keyword_name(rt, pairs, source) {
        return Ok(true);
    }
    if manner.is_merge {
        return Ok(false);
    }
    for pair in pairs {
        let is_one = is_one_name(rt.alloc(), pair)?;
        if !is_one && is_spelled_otherwise(rt, source, bytes, pair.new)? {
            return Ok(true);
        }
    }
    Ok(false)
}

/// Returns `true` if a new name is ruled out in one of the files that can be read, and says so.
fn is_ruled_out_in_any(
    rt: &HostRuntime,
    manner: Manner,
    pairs: &[NamePair<'_>],
    sources: &[Source],
) -> Result<bool, AllocError> {
    for source in sources {
        let Ok(contents) = Inputs::new(rt).read(rt.alloc(), source.path.as_str()) else {
            continue;
        };
        if is_ruled_out(rt, manner, pairs, source, contents.bytes.as_slice())? {
            return Ok(true);
        }
    }
    Ok(false)
}

/// Names the spellings of an old name, if there are several: the new one does not tell them apart.
fn report_spellings(
    rt: &HostRuntime,
    pair: &NamePair<'_>,
    survey: &Survey,
) -> Result<(), AllocError> {
    let spellings = survey.spellings.as_slice();
    if spellings.len() < 2 {
        return Ok(());
    }
    let mut list = String::new(rt.alloc());
    for spelling in spellings {
        let separator = if list.is_empty() { "" } else { ", " };
        list.push_str(separator)?;
        list.push_str("`")?;
        list.push_str(spelling.as_str())?;
        list.push_str("`")?;
    }
    let (old, new, list) = (pair.old, pair.new, list.as_str());
    let _ = eprintln!(rt; "tevondimby: `{old}` is spelled {list}: each becomes `{new}`");
    Ok(())
}

/// Says where the old names are left, and how many names and files change. Returns what the renaming
/// came to.
fn report(
    rt: &HostRuntime,
    manner: Manner,
    pairs: &[NamePair<'_>],
    before: &[Survey],
    left: &[Survey],
    files: usize,
) -> Result<Outcome, AllocError> {
    let mut counts = RenameCounts {
        names: 0,
        files,
        left: 0,
    };
    let mut outcome = Outcome::Done;
    for (pair, survey) in pairs.iter().zip(before) {
        counts.names = counts.names.saturating_add(survey.names);
        if !manner.is_quiet {
            report_spellings(rt, pair, survey)?;
        }
        if survey.names == 0 {
            outcome = Outcome::Found;
            if !manner.is_quiet {
                let row = unchanged_row(rt.alloc(), pair.old, manner.files)?;
                let _ = eprint!(rt; "tevondimby: {row}");
            }
        }
    }
    for survey in left {
        counts.left = counts.left.saturating_add(survey.left);
        if !manner.is_quiet {
            survey.report(rt)?;
        }
    }
    if !manner.is_quiet && counts.names != 0 {
        let row = tally_row(rt.alloc(), counts.names, counts.files, counts.left)?;
        let _ = eprint!(rt; "tevondimby: {row}");
    }
    Ok(outcome.and(counts.outcome(manner.is_check)))
}

/// Renames in standard input, and prints the new text.
fn rename_input(
    rt: &HostRuntime,
    pairs: &[NamePair<'_>],
    manner: Manner,
    matches: &ArgMatches<'_>,
) -> Result<Outcome> {
    let alloc: Global = rt.alloc();
    let dialect = Dialects::new(rt, matches).dialect(STANDARD_INPUT)?;
    let contents = match Inputs::new(rt).read(alloc, STANDARD_INPUT) {
        Ok(contents) => contents,
        Err(error) => return Err(anyhow!("-: {error}")),
    };
    let source = Source {
        path: String::from_str(alloc, STANDARD_INPUT)?,
        dialect,
    };
    let old = contents.bytes.as_slice();
    if is_ruled_out(rt, manner, pairs, &source, old)? {
        return Ok(Outcome::Fault);
    }
    let before = survey_bytes(rt, &source, old, pairs)?;
    let renamings = renamings_of(alloc, pairs, before.as_slice(), manner.is_merge)?;
    let new = match rename_bytes(alloc, renamings.as_slice(), dialect, old) {
        Ok(new) => new,
        Err(fault) => {
            let _ = eprintln!(rt; "tevondimby: -: {fault}");
            advise(rt, pairs, &source, old, &fault)?;
            return Ok(Outcome::Fault);
        }
    };
    let new = new.as_slice();
    let mut output = rt.stdout();
    match output.write_all(new) {
        Ok(()) => {}
        Err(error) if is_closed(&error) => return Ok(Outcome::Done),
        Err(error) => return Err(anyhow!("the output could not be written: {error}")),
    }
    let after = survey_bytes(rt, &source, new, pairs)?;
    let files = if old == new { 0 } else { 1 };
    let outcome = report(
        rt,
        manner,
        pairs,
        before.as_slice(),
        after.as_slice(),
        files,
    )?;
    Ok(outcome)
}

/// Renames in files, and writes them.
fn rename_written(
    rt: &HostRuntime,
    pairs: &[NamePair<'_>],
    manner: Manner,
    sources: &[Source],
    before: &[Survey],
) -> Result<Outcome> {
    let alloc: Global = rt.alloc();
    let renamings = renamings_of(alloc, pairs, before, manner.is_merge)?;
    match rename_files(alloc, renamings.as_slice(), &mut Inputs::new(rt), sources) {
        Ok(files) => {
            let after = survey_files(rt, sources, pairs)?;
            Ok(report(rt, manner, pairs, before, after.as_slice(), files)?)
        }
        Err(stop) => Ok(report_stop(rt, pairs, sources, &stop)),
    }
}

/// Renames in files, and prints a diff, the changed ranges, or the paths of the files that would change.
fn rename_shown(
    rt: &HostRuntime,
    pairs: &[NamePair<'_>],
    manner: Manner,
    sources: &[Source],
    before: &[Survey],
) -> Result<Outcome> {
    let alloc: Global = rt.alloc();
    let renamings = renamings_of(alloc, pairs, before, manner.is_merge)?;
    let changes = match plan_renames(alloc, renamings.as_slice(), &Inputs::new(rt), sources) {
        Ok(changes) => changes,
        Err(failure) => {
            let stop = RenameStop::RefusedFile(failure);
            return Ok(report_stop(rt, pairs, sources, &stop));
        }
    };
    let files = changes.len();
    if manner.is_check {
        print_paths(rt, changes.as_slice())?;
    } else if manner.is_json {
        print_ranges(rt, changes.as_slice())?;
    } else {
        print_diffs(rt, changes)?;
    }
    Ok(report(rt, manner, pairs, before, before, files)?)
}

/// Returns `true` if standard input is one of the files.
fn has_input(paths: &[&str]) -> bool {
    for path in paths {
        if *path == STANDARD_INPUT {
            return true;
        }
    }
    false
}

/// Returns what a command line says of the manner.
fn manner_of(matches: &ArgMatches<'_>) -> Manner {
    Manner {
        is_written: matches.get_flag("write"),
        is_check: matches.get_flag("check"),
        is_json: matches.get_flag("json"),
        is_quiet: matches.get_flag("quiet"),
        is_merge: matches.get_flag("merge"),
        files: 1,
    }
}

/// Renames in files that are listed.
fn rename_listed(
    rt: &HostRuntime,
    names: &Names<'_>,
    manner: Manner,
    matches: &ArgMatches<'_>,
) -> Result<Outcome> {
    let mut dialects = Dialects::new(rt, matches);
    let excluded = matches.get_strs("exclude").unwrap_or([].as_slice());
    let list = source_list(rt, names.paths, excluded, &mut dialects)?;
    if list.has_faults {
        return Ok(Outcome::Fault);
    }
    let sources = list.sources.as_slice();
    let manner = Manner {
        files: sources.len(),
        ..manner
    };
    let pairs = names.pairs.as_slice();
    if is_ruled_out_in_any(rt, manner, pairs, sources)? {
        return Ok(Outcome::Fault);
    }
    let before = survey_files(rt, sources, pairs)?;
    if manner.is_written {
        rename_written(rt, pairs, manner, sources, before.as_slice())
    } else {
        rename_shown(rt, pairs, manner, sources, before.as_slice())
    }
}

/// Renames in files, and writes them or prints a diff; of standard input the new text is printed. Returns
/// what it came to.
///
/// # Errors
///
/// That something could not be read or written, or that an allocation failed.
pub fn rename(rt: &HostRuntime, matches: &ArgMatches<'_>) -> Result<Outcome> {
    let manner = manner_of(matches);
    let text = pairs_text(rt, matches)?;
    let words = matches.get_strs("words").unwrap_or([].as_slice());
    let names = match names_of(rt, words, matches.get_str("pairs"), text.as_str())? {
        Ok(names) => names,
        Err(outcome) => return Ok(outcome),
    };
    if !has_input(names.paths) {
        return rename_listed(rt, &names, manner, matches);
    }
    let is_shown = manner.is_check || manner.is_json || matches.get_flag("diff");
    if manner.is_written || is_shown || names.paths.len() != 1 {
        return Ok(usage_error(
            rt,
            "`-` is standard input, whose new text is printed: no other file, --write, --diff, --json or --check goes with it",
        ));
    }
    rename_input(rt, names.pairs.as_slice(), manner, matches)
}
