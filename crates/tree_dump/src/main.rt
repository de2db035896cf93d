//! Prints the tree of the text on standard input, parsed as a source file of edition 2021: a line
//! for each element of the tree, with its kind and its start and end in bytes, and then a line
//! `! OFFSET MESSAGE` for each message.
//!
//! With the argument `records` the input is a list of records, each a line with an edition and an
//! entry point, as `2021 SourceFile`, and the text, which the character U+001E ends; an empty line
//! follows the lines of each. A third word, `whole`, selects the grammar of the whole language.
#![tactic(auto)]

use anyhow::{Context, bail};
use parser_input::edition::Edition;
use ra_parser::{Grammar, ParseError, TopEntryPoint};
use std::alloc::Global;
use std::io::{BufWriter, Write};
use std::{env, io};
use tree_lines::{Reading, names};

#[cfg(test)]
mod tests;

/// Writes the lines of a text.
fn dump<W: Write>(
    alloc: Global,
    out: &mut W,
    edition: Edition,
    grammar: Grammar,
    entry_point: TopEntryPoint,
    text: &str,
) -> anyhow::Result<()> {
    match Reading::new(alloc, edition, grammar, entry_point, text) {
        Ok(reading) => reading.write(out)?,
        Err(ParseError::TooLong) => bail!("a text has too many tokens"),
        Err(ParseError::NoMemory) => bail!("out of memory"),
    }
    Ok(())
}

/// Writes the lines of a record's text.
fn dump_record<W: Write>(alloc: Global, out: &mut W, record: &str) -> anyhow::Result<()> {
    let (head, text) = record.split_once('\n').context("a record has no text")?;
    let (year, words) = head.split_once(' ').context("a record has no entry")?;
    let (name, grammar) = match words.strip_suffix(" whole") {
        Some(name) => (name, Grammar::Whole),
        None => (words, Grammar::Profile),
    };
    let edition = Edition::from_name(year).context("no such edition")?;
    let entry_point = names::entry_point(name).context("no such entry")?;
    dump(alloc, out, edition, grammar, entry_point, text)
}

/// Writes the lines of each record, and an empty line after them.
fn dump_records<W: Write>(alloc: Global, out: &mut W, records: &str) -> anyhow::Result<()> {
    for record in records.split_terminator('\u{1E}') {
        dump_record(alloc, out, record)?;
        writeln!(out)?;
    }
    Ok(())
}

/// Returns `true` if the program's last argument is `records`.
fn wants_records(rt: &HostRuntime) -> io::Result<bool> {
    let mut records = false;
    for word in env::args(rt)? {
        records = word.as_str() == "records";
    }
    Ok(records)
}

fn main(rt: HostRuntime) -> anyhow::Result<()> {
    let alloc = rt.alloc();
    let input = io::read_to_string(alloc, rt.reader())?;
    let mut out = BufWriter::new(alloc, io::writer(&rt))?;
    if wants_records(&rt)? {
        dump_records(alloc, &mut out, input.as_str())?;
    } else {
        let edition = Edition::Edition2021;
        dump(
            alloc,
            &mut out,
            edition,
            Grammar::Profile,
            TopEntryPoint::SourceFile,
            input.as_str(),
        )?;
    }
    out.flush()?;
    Ok(())
}
