//! Parses the texts of cases: each line of the input is a JSON object with an edition, an entry
//! point, a text, the lines of its tree, and the messages, each with its offset and its text; and
//! with the grammar `whole` if it is not the profile. Prints the cases with another result, and the
//! numbers of passed and failed cases.
//!
//! Of the cases next to it, those with a name were worked by hand; the others were computed by a
//! slow, plain reference implementation that shares no code with these crates.
#![tactic(auto)]

use anyhow::{Context, bail};
use parser_input::Edition;
use ra_parser::Grammar;
use serde_json::Value;
use std::alloc::Global;
use std::io;
use std::io::Write;
use tree_lines::{Reading, names};

#[cfg(test)]
mod tests;

/// Returns the text member `name` of a case.
fn text_at<'a>(case: &'a Value, name: &str) -> anyhow::Result<&'a str> {
    case.get(name)
        .and_then(Value::as_str)
        .context("a case lacks a text")
}

/// Returns the grammar that a case names, or the profile if it names none.
fn grammar_of(case: &Value) -> anyhow::Result<Grammar> {
    let Some(name) = case.get("grammar") else {
        return Ok(Grammar::Profile);
    };
    match name.as_str() {
        Some("whole") => Ok(Grammar::Whole),
        Some("profile") => Ok(Grammar::Profile),
        _ => bail!("no such grammar"),
    }
}

/// Returns the list member `name` of a case.
fn list_at<'a>(case: &'a Value, name: &str) -> anyhow::Result<&'a [Value]> {
    let list = case.get(name).and_then(Value::as_array);
    let list = list.context("a case lacks a list")?;
    Ok(list.as_slice())
}

/// Writes the lines that a case expects.
fn write_expected<W: Write>(out: &mut W, case: &Value) -> anyhow::Result<()> {
    for line in list_at(case, "tree")? {
        let line = line.as_str().context("a line is no text")?;
        writeln!(out, "{line}")?;
    }
    for message in list_at(case, "messages")? {
        let offset = message.get(0).and_then(Value::as_u64);
        let offset = offset.context("a message has no offset")?;
        let words = message.get(1).and_then(Value::as_str);
        let words = words.context("a message has no words")?;
        writeln!(out, "! {offset} {words}")?;
    }
    Ok(())
}

/// Returns `true` if the case on `line` has the expected tree and messages.
fn is_met(alloc: Global, line: &str) -> anyhow::Result<bool> {
    let case = Value::from_str(alloc, line)?;
    let edition = Edition::from_name(text_at(&case, "edition")?).context("no such edition")?;
    let entry_point = names::entry_point(text_at(&case, "entry")?).context("no such entry")?;
    let mut expected = Vec::new(alloc);
    write_expected(&mut expected, &case)?;
    let text = text_at(&case, "text")?;
    let Ok(reading) = Reading::new(alloc, edition, grammar_of(&case)?, entry_point, text) else {
        return Ok(false);
    };
    let mut found = Vec::new(alloc);
    reading.write(&mut found)?;
    Ok(found.as_slice() == expected.as_slice())
}

fn main(rt: HostRuntime) -> anyhow::Result<()> {
    let alloc = rt.alloc();
    let cases = io::read_to_string(alloc, rt.reader())?;
    let mut passed = 0u32;
    let mut failed = 0u32;
    for line in cases.as_str().lines() {
        if is_met(alloc, line)? {
            passed = passed.saturating_add(1);
        } else {
            println!(rt; "{line}")?;
            failed = failed.saturating_add(1);
        }
    }
    println!(rt; "{passed} passed, {failed} failed")?;
    Ok(())
}
