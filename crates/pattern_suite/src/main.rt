//! Searches the texts of cases: each line of the input is a JSON object with an edition, a text, a
//! pattern, and the matches with their bindings, or the refusal. Prints the cases with another result,
//! and the numbers of passed and failed cases.
#![tactic(auto)]

#[cfg(test)]
mod rows;

use anyhow::Context;
use parser_input::Edition;
use pattern_parser::{Dialect, PatternError, other_fragments, parse_pattern};
use ra_parser::Grammar;
use rust_document::Document;
use serde_json::Value;
use std::alloc::Global;
use std::fmt::Write as Words;
use std::io;
use syntax_tree::{SyntaxElement, TreeIds};
use tree_patterns::{Fragment, Pattern, Place};
use tree_search::{Match, search};

/// Returns the text member `name` of a case.
fn text_at<'a>(case: &'a Value, name: &str) -> anyhow::Result<&'a str> {
    case.get(name)
        .and_then(Value::as_str)
        .context("a case lacks a text")
}

/// Returns the name of a refusal.
fn refusal(error: PatternError) -> &'static str {
    match error {
        PatternError::MetavariableName => "MetavariableName",
        PatternError::PatternUnread => "PatternUnread",
        PatternError::Place => "Place",
        PatternError::Glued => "Glued",
        PatternError::Mixed => "Mixed",
        PatternError::OnlyMetavariable => "OnlyMetavariable",
        PatternError::TwoSequences => "TwoSequences",
        PatternError::TooLong => "TooLong",
        PatternError::NoMemory => "NoMemory",
    }
}

/// Writes an element's range.
fn write_range(out: &mut String, element: &SyntaxElement) -> anyhow::Result<()> {
    let range = element.text_range();
    let start = range.start().0;
    let end = range.end().0;
    write!(out, "[{start},{end}]")?;
    Ok(())
}

/// Writes a match in the form that cases have.
fn write_match(
    alloc: Global,
    out: &mut String,
    pattern: &Pattern,
    found: &Match,
) -> anyhow::Result<()> {
    let range = found.element().text_range();
    let start = range.start().0;
    let end = range.end().0;
    write!(out, "{start}..{end}")?;
    let places = pattern.places(alloc)?;
    for (number, binding) in found.bindings().iter().enumerate() {
        if number >= places.len() {
            continue;
        }
        let name = places[number].text();
        let mut is_first = name != "_";
        for before in 0..number {
            if places[before].text() == name {
                is_first = false;
            }
        }
        if !is_first {
            continue;
        }
        write!(out, " {name}=")?;
        let is_run = Place::from_raw(places[number].kind().0).is_some_and(
            |place| place.is_sequence(),
        );
        if is_run {
            write!(out, "[")?;
        }
        for (index, element) in binding.elements().iter().enumerate() {
            if index > 0 {
                write!(out, ",")?;
            }
            write_range(out, element)?;
        }
        if is_run {
            write!(out, "]")?;
        }
    }
    writeln!(out)?;
    Ok(())
}

/// Returns what a search answers to a case.
fn answer(alloc: Global, case: &Value) -> anyhow::Result<String> {
    let edition = Edition::from_name(text_at(case, "edition")?).context("no such edition")?;
    let dialect = Dialect {
        edition,
        grammar: Grammar::Whole,
    };
    let fragment = match case.get("as").and_then(Value::as_str) {
        Some(name) => Some(Fragment::from_name(name).context("no such fragment")?),
        None => None,
    };
    let mut out = String::new(alloc);
    let text = text_at(case, "pattern")?;
    let pattern = match parse_pattern(alloc, dialect, text, fragment) {
        Ok(pattern) => pattern,
        Err(error) => {
            let name = refusal(error);
            writeln!(out, "refused {name}")?;
            return Ok(out);
        }
    };
    let name = pattern.fragment().name();
    write!(out, "{name}")?;
    for other in other_fragments(alloc, dialect, text, pattern.fragment())? {
        let name = other.name();
        write!(out, " {name}")?;
    }
    writeln!(out)?;
    let mut ids = TreeIds::new();
    let document = Document::open_by(
        alloc,
        edition,
        Grammar::Whole,
        text_at(case, "text")?,
        &mut ids,
    )?;
    for found in search(alloc, &pattern, document.root())? {
        write_match(alloc, &mut out, &pattern, &found)?;
    }
    Ok(out)
}

fn main(rt: HostRuntime) -> anyhow::Result<()> {
    let alloc = rt.alloc();
    let mut passed = 0u32;
    let mut failed = 0u32;
    let cases = io::read_to_string(alloc, rt.reader())?;
    for line in cases.as_str().lines() {
        let case = Value::from_str(alloc, line)?;
        let expected = text_at(&case, "expected")?;
        let found = answer(alloc, &case)?;
        if found.as_str() == expected {
            passed = passed.saturating_add(1);
        } else {
            failed = failed.saturating_add(1);
            let text = text_at(&case, "pattern")?;
            let found = found.as_str();
            println!(rt; "{text}\n{found}instead of\n{expected}")?;
        }
    }
    println!(rt; "{passed} passed, {failed} failed")?;
    Ok(())
}
