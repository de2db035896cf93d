//! Files are searched for a pattern.

use anyhow::Result;
use clap::ArgMatches;
use command_inputs::{Inputs, files_of, unless_closed, usage_error};
use command_report::{Outcome, search_outcome};
use file_target::Target;
use match_rows::{push_match_object, push_matches};
use parser_input::Edition;
use pattern_parser::{PatternError, may_match, other_fragments, parse_pattern};
use rust_document::{Document, OpenError};
use source_tools::{Dialect, FileError, Source, Stop, text_of};
use std::alloc::{AllocError, Global};
use std::io::Write;
use syntax_tree::TreeIds;
use tree_patterns::{Fragment, Pattern};

/// A pattern, or why its text is none, by the edition that it is read in.
#[derive(Drop)]
struct Reading {
    edition: Edition,
    pattern: Result<Pattern, PatternError>,
}

/// What is searched for.
#[derive(Drop)]
struct Query<'a> {
    text: &'a str,
    /// Matches are printed as JSON.
    is_json: bool,
    fragment: Option<Fragment>,
    readings: Vec<Reading>,
}

/// Returns the Rust that a pattern is read as.
fn dialect_of(dialect: Dialect) -> pattern_parser::Dialect {
    pattern_parser::Dialect {
        edition: dialect.edition,
        grammar: dialect.grammar,
    }
}

impl<'a> Query<'a> {
    /// Returns what a command line says.
    fn new(alloc: Global, matches: &ArgMatches<'a>) -> Query<'a> {
        Query {
            text: matches.get_str("pattern").unwrap_or(""),
            is_json: matches.get_flag("json"),
            fragment: matches.get_str("as").and_then(Fragment::from_name),
            readings: Vec::new(alloc),
        }
    }

    /// Returns the index of the reading in an edition, which is made if there is none.
    fn reading(&mut self, alloc: Global, dialect: Dialect) -> Result<usize, AllocError> {
        for (index, reading) in self.readings.iter().enumerate() {
            if reading.edition == dialect.edition {
                return Ok(index);
            }
        }
        let pattern = parse_pattern(alloc, dialect_of(dialect), self.text, self.fragment);
        if let Err(PatternError::NoMemory) = &pattern {
            return Err(AllocError);
        }
        self.readings.push(Reading {
            edition: dialect.edition,
            pattern,
        })?;
        Ok(self.readings.len().saturating_sub(1))
    }
}

/// Says why a text is no pattern in the edition of a file.
fn report_pattern(rt: &HostRuntime, source: &Source, error: PatternError) {
    let path = source.path.as_str();
    let _ = eprintln!(rt; "tevondimby: {path}: {error}, by the edition of this file");
}

/// Names the later fragments that a pattern reads as, too.
fn report_fragments(
    rt: &HostRuntime,
    text: &str,
    dialect: Dialect,
    pattern: &Pattern,
) -> Result<(), AllocError> {
    let alloc = rt.alloc();
    match other_fragments(alloc, dialect_of(dialect), text, pattern.fragment()) {
        Ok(others) => {
            let read = pattern.fragment().name();
            for other in others {
                let name = other.name();
                let _ = eprintln!(rt;
                    "tevondimby: the pattern is read as: {read}; also with --as {name}"
                );
            }
            Ok(())
        }
        Err(PatternError::NoMemory) => Err(AllocError),
        Err(_) => Ok(()),
    }
}

/// Opens the file of a source, if it may have a match.
fn opened(
    alloc: Global,
    inputs: &Inputs<'_>,
    source: &Source,
    pattern: &Pattern,
) -> Result<Option<Document>, FileError> {
    let contents = inputs.read(alloc, source.path.as_str())?;
    let Some(text) = text_of(contents.bytes.as_slice()) else {
        return Err(FileError::NotUtf8);
    };
    match may_match(alloc, pattern, text.as_bytes()) {
        Ok(true) => {}
        Ok(false) => return Ok(None),
        Err(_) => return Err(FileError::NoMemory),
    }
    let Dialect { edition, grammar } = source.dialect;
    let mut ids = TreeIds::new();
    match Document::open_by(alloc, edition, grammar, text, &mut ids) {
        Ok(document) => Ok(Some(document)),
        Err(OpenError::TooLong) => Err(FileError::TooLong),
        Err(_) => Err(FileError::NoMemory),
    }
}

/// What is printed of a file, and the number of its matches.
#[derive(Drop)]
struct Rows {
    text: Vec<u8>,
    count: usize,
}

/// Returns the rows of the matches in a file, or names the file and returns `None` if it cannot be read.
fn rows_of(
    rt: &HostRuntime,
    inputs: &Inputs<'_>,
    source: &Source,
    pattern: &Pattern,
    is_json: bool,
) -> Result<Option<Rows>, AllocError> {
    let alloc = rt.alloc();
    let path = source.path.as_str();
    let mut text = Vec::new(alloc);
    match opened(alloc, inputs, source, pattern) {
        Ok(None) => Ok(Some(Rows { text, count: 0 })),
        Ok(Some(document)) => {
            let count = if is_json {
                push_match_object(alloc, path, &document, pattern, &mut text)?
            } else {
                push_matches(alloc, path, &document, pattern, &mut text)?
            };
            Ok(Some(Rows { text, count }))
        }
        Err(FileError::NoMemory) => Err(AllocError),
        Err(error) => {
            let _ = eprintln!(rt; "tevondimby: {path}: {error}");
            Ok(None)
        }
    }
}

/// Writes rows, and returns `false` if the reader of the output has gone.
fn write_rows(rt: &HostRuntime, rows: &[u8]) -> Result<bool> {
    let written = rt.stdout().write_all(rows).map_err(Stop::Output);
    Ok(unless_closed(written)?.is_some())
}

/// Prints the matches of a pattern in files. Returns what they came to.
///
/// # Errors
///
/// That the output could not be written, or that an allocation failed.
pub fn search(rt: &HostRuntime, matches: &ArgMatches<'_>) -> Result<Outcome> {
    let alloc = rt.alloc();
    let list = files_of(rt, matches)?;
    let inputs = Inputs::new(rt);
    let mut query = Query::new(alloc, matches);
    let (mut count, mut has_faults) = (0usize, list.has_faults);
    for source in list.sources.as_slice() {
        let known = query.readings.len();
        let index = query.reading(alloc, source.dialect)?;
        let is_new = query.readings.len() > known;
        let Some(reading) = query.readings.get(index) else {
            continue;
        };
        match &reading.pattern {
            Err(error) => {
                if is_new {
                    report_pattern(rt, source, *error);
                }
                has_faults = true;
            }
            Ok(pattern) => {
                if index == 0 && is_new && query.fragment.is_none() {
                    report_fragments(rt, query.text, source.dialect, pattern)?;
                }
                let Some(rows) = rows_of(rt, &inputs, source, pattern, query.is_json)? else {
                    has_faults = true;
                    continue;
                };
                count = count.saturating_add(rows.count);
                if !write_rows(rt, rows.text.as_slice())? {
                    break;
                }
            }
        }
    }
    Ok(search_outcome(count, has_faults))
}
