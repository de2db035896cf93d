//! The matches of a pattern are replaced in files.

use anyhow::{Result, anyhow};
use clap::ArgMatches;
use command_inputs::{
    Inputs, STANDARD_INPUT, files_of, is_closed, print_diffs, print_paths, print_ranges,
    report_unwritten, report_written, usage_error,
};
use command_report::Outcome;
use file_target::{Contents, Target};
use line_index::{Encoding, LineCol, LineIndex};
use parser_input::Edition;
use pattern_parser::may_match;
use rust_source::Source as Opened;
use source_tools::{
    Dialect, FileChange, FileError, Source, WriteFault, encode, text_of, write_changes,
};
use std::alloc::{AllocError, Global};
use std::io::Write;
use std::mem;
use tree_patterns::Fragment;
use tree_replace::{
    Comments, Options, Reason, Refusal, ReplaceError, Replaced, Rule, RuleError, replace,
};

/// A rule, or why its texts are none, by the edition that they are read in.
#[derive(Drop)]
struct Reading {
    edition: Edition,
    rule: Result<Rule, RuleError>,
}

/// What is replaced by what.
#[derive(Drop)]
struct Request<'a> {
    pattern: &'a str,
    template: &'a str,
    fragment: Option<Fragment>,
    options: Options,
    readings: Vec<Reading>,
}

impl<'a> Request<'a> {
    /// Returns what a command line says.
    fn new(alloc: Global, matches: &ArgMatches<'a>) -> Request<'a> {
        let comments = match matches.get_str("comments") {
            Some("before") => Comments::Before,
            Some("drop") => Comments::Drop,
            _ => Comments::Refuse,
        };
        Request {
            pattern: matches.get_str("pattern").unwrap_or(""),
            template: matches.get_str("template").unwrap_or(""),
            fragment: matches.get_str("as").and_then(Fragment::from_name),
            options: Options {
                comments,
                skips: matches.get_flag("skip"),
                allows_messages: matches.get_flag("allow-messages"),
            },
            readings: Vec::new(alloc),
        }
    }

    /// Returns the index of the reading in an edition, which is made if there is none.
    fn reading(&mut self, alloc: Global, dialect: Dialect) -> Result<usize, AllocError> {
        for (index, reading) in self.readings.iter().enumerate() {
            if reading.edition == dialect.edition {
                return Ok(index);
            }
        }
        let read_as = pattern_parser::Dialect {
            edition: dialect.edition,
            grammar: dialect.grammar,
        };
        let rule = Rule::parse(alloc, read_as, self.pattern, self.template, self.fragment);
        if let Err(RuleError::NoMemory) = &rule {
            return Err(AllocError);
        }
        self.readings.push(Reading {
            edition: dialect.edition,
            rule,
        })?;
        Ok(self.readings.len().saturating_sub(1))
    }
}

/// Names the places of matches that are not replaced.
fn report_refusals(
    rt: &HostRuntime,
    path: &str,
    text: &str,
    refusals: &[Refusal],
) -> Result<(), AllocError> {
    let index = LineIndex::try_new(rt.alloc(), text)?;
    for refusal in refusals {
        let LineCol { line, col } = index.line_col(Encoding::Utf32, refusal.start);
        let line = line.saturating_add(1);
        let column = col.saturating_add(1);
        let why = match refusal.reason {
            Reason::CommentLost => {
                "a comment would be lost; --comments before keeps it where it can, --comments drop drops it"
            },
            Reason::Unfaithful => "the new text would read as another tree",
        };
        let _ = eprintln!(rt; "tevondimby: {path}:{line}:{column}: {why}");
    }
    Ok(())
}

/// Says why a file is not changed.
fn report_error(
    rt: &HostRuntime,
    path: &str,
    text: &str,
    error: &ReplaceError,
) -> Result<(), AllocError> {
    match error {
        ReplaceError::Messages => {
            let _ = eprintln!(rt; "tevondimby: {path}: the text has messages; no file is written");
        }
        ReplaceError::Matches(refusals) => {
            report_refusals(rt, path, text, refusals.as_slice())?;
            let _ = eprintln!(rt;
                "tevondimby: {path}: --skip leaves these matches; no file is written"
            );
        }
        ReplaceError::Source(error) => {
            let _ = eprintln!(rt; "tevondimby: {path}: {error}; no file is written");
        }
        ReplaceError::TooLong => {
            let _ = eprintln!(rt; "tevondimby: {path}: too long; no file is written");
        }
        ReplaceError::NoMemory => return Err(AllocError),
    }
    Ok(())
}

/// What became of a file.
#[derive(Drop)]
enum Changed {
    /// Its bytes stay.
    Stays(Vec<u8>),
    To(FileChange),
    /// It is not changed, and standard error says why.
    Refused,
}

/// A file that is read.
#[derive(Drop)]
struct File<'a> {
    source: &'a Source,
    contents: Contents,
}

/// Replaces in a file, and notes how many matches stay.
fn replace_in(
    rt: &HostRuntime,
    rule: &Rule,
    options: Options,
    file: File<'_>,
    skipped: &mut usize,
) -> Result<Changed, AllocError> {
    let alloc = rt.alloc();
    let File { source, contents } = file;
    let path = source.path.as_str();
    let Contents { bytes, version } = contents;
    let Dialect { edition, grammar } = source.dialect;
    let Some(text) = text_of(bytes.as_slice()) else {
        let error = FileError::NotUtf8;
        let _ = eprintln!(rt; "tevondimby: {path}: {error}; no file is written");
        return Ok(Changed::Refused);
    };
    if !may_match(alloc, &rule.pattern, text.as_bytes())? {
        return Ok(Changed::Stays(bytes));
    }
    let mut opened = match Opened::open_by(alloc, edition, grammar, text) {
        Ok(opened) => opened,
        Err(error) => {
            let _ = eprintln!(rt; "tevondimby: {path}: {error}; no file is written");
            return Ok(Changed::Refused);
        }
    };
    let Replaced {
        count,
        skipped: stays,
    } = match replace(&mut opened, rule, options) {
        Ok(replaced) => replaced,
        Err(error) => {
            report_error(rt, path, text, &error)?;
            return Ok(Changed::Refused);
        }
    };
    report_refusals(rt, path, text, stays.as_slice())?;
    *skipped = skipped.saturating_add(stays.len());
    if count == 0 {
        return Ok(Changed::Stays(bytes));
    }
    let new = encode(alloc, bytes.as_slice(), opened.text())?;
    if new.as_slice() == bytes.as_slice() {
        return Ok(Changed::Stays(bytes));
    }
    let path = source.path.clone()?;
    Ok(Changed::To(FileChange {
        path,
        version,
        old: bytes,
        new,
    }))
}

/// Says why texts are no rule in the edition of a file.
fn report_rule(rt: &HostRuntime, source: &Source, error: RuleError) {
    let path = source.path.as_str();
    let _ = eprintln!(rt; "tevondimby: {path}: {error}, by the edition of this file");
}

/// Returns the new bytes of a change.
fn new_bytes(alloc: Global, change: FileChange) -> Vec<u8> {
    let mut change = change;
    mem::replace(&mut change.new, Vec::new(alloc))
}

/// The changes of files, and how many matches stay.
#[derive(Drop)]
struct Plan {
    changes: Vec<FileChange>,
    skipped: usize,
    /// The new bytes of standard input, if that is read.
    input: Option<Vec<u8>>,
}

/// Plans the changes of files. `None` if one is refused, which standard error names.
fn plan_changes(
    rt: &HostRuntime,
    inputs: &Inputs<'_>,
    request: &mut Request<'_>,
    sources: &[Source],
) -> Result<Option<Plan>, AllocError> {
    let alloc = rt.alloc();
    let mut changes = Vec::new(alloc);
    let mut skipped = 0usize;
    let mut input = None;
    for source in sources {
        let path = source.path.as_str();
        let index = request.reading(alloc, source.dialect)?;
        let Some(reading) = request.readings.get(index) else {
            return Ok(None);
        };
        let rule = match &reading.rule {
            Ok(rule) => rule,
            Err(error) => {
                report_rule(rt, source, *error);
                return Ok(None);
            }
        };
        let contents = match inputs.read(alloc, path) {
            Ok(contents) => contents,
            Err(error) => {
                let _ = eprintln!(rt; "tevondimby: {path}: {error}; no file is written");
                return Ok(None);
            }
        };
        let file = File { source, contents };
        match replace_in(rt, rule, request.options, file, &mut skipped)? {
            Changed::Stays(bytes) if path == STANDARD_INPUT => input = Some(bytes),
            Changed::Stays(_) => {}
            Changed::To(change) if path == STANDARD_INPUT => input = Some(new_bytes(alloc, change)),
            Changed::To(change) => changes.push(change)?,
            Changed::Refused => return Ok(None),
        }
    }
    Ok(Some(Plan {
        changes,
        skipped,
        input,
    }))
}

/// Writes the files.
fn write_all_files(
    rt: &HostRuntime,
    inputs: &mut Inputs<'_>,
    changes: Vec<FileChange>,
    is_quiet: bool,
) -> Outcome {
    let mut changes = changes;
    match write_changes(rt.alloc(), inputs, changes.as_slice()) {
        Ok(()) => {
            if !is_quiet {
                report_written(rt, changes.len());
            }
            Outcome::Done
        }
        Err(WriteFault { index, error }) => {
            let path = changes.swap_remove(index).into_path();
            report_unwritten(rt, path.as_str(), &error);
            Outcome::Fault
        }
    }
}

/// Prints the new text of standard input.
fn print_text(rt: &HostRuntime, text: &[u8]) -> Result<()> {
    match rt.stdout().write_all(text) {
        Ok(()) => Ok(()),
        Err(error) if is_closed(&error) => Ok(()),
        Err(error) => Err(anyhow!("the output could not be written: {error}")),
    }
}

/// Replaces the matches of a pattern in files, and writes them or prints a diff. Returns what it came to.
///
/// # Errors
///
/// That the output could not be written, or that an allocation failed.
pub fn replace_files(rt: &HostRuntime, matches: &ArgMatches<'_>) -> Result<Outcome> {
    let alloc = rt.alloc();
    let list = files_of(rt, matches)?;
    if list.has_faults {
        return Ok(Outcome::Fault);
    }
    let is_written = matches.get_flag("write");
    let has_input = list
        .sources
        .iter()
        .any(|source| source.path.as_str() == STANDARD_INPUT);
    let is_shown = matches.get_flag("check")
        || matches.get_flag("diff")
        || matches.get_flag("json");
    let is_other = is_written || is_shown;
    if has_input && (is_other || list.sources.len() > 1) {
        return Ok(usage_error(
            rt,
            "`-` is standard input, whose new text is printed: no other FILE and no --write, --diff, --check or --json goes with it",
        ));
    }
    let mut inputs = Inputs::new(rt);
    let mut request = Request::new(alloc, matches);
    let planned = plan_changes(rt, &inputs, &mut request, list.sources.as_slice())?;
    let Some(
        Plan {
            changes,
            skipped,
            input,
        },
    ) = planned
    else {
        return Ok(Outcome::Fault);
    };
    let left = if skipped > 0 {
        Outcome::Found
    } else {
        Outcome::Done
    };
    if let Some(text) = input {
        print_text(rt, text.as_slice())?;
        return Ok(left);
    }
    if is_written {
        let outcome = write_all_files(rt, &mut inputs, changes, matches.get_flag("quiet"));
        return Ok(outcome.and(left));
    }
    if matches.get_flag("json") {
        print_ranges(rt, changes.as_slice())?;
        return Ok(left);
    }
    if !matches.get_flag("check") {
        print_diffs(rt, changes)?;
        return Ok(left);
    }
    print_paths(rt, changes.as_slice())?;
    let found = if changes.is_empty() {
        Outcome::Done
    } else {
        Outcome::Found
    };
    Ok(found.and(left))
}
