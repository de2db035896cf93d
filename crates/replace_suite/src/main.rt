//! Replaces in the texts of cases: each line of the input is a JSON object with an edition, a text, a
//! pattern, a template, and the new text or the refusal. Prints the cases with another result, and the
//! numbers of passed and failed cases.
#![tactic(auto)]

use anyhow::Context;
use parser_input::Edition;
use pattern_parser::{Dialect, PatternError};
use ra_parser::Grammar;
use rust_source::Source;
use serde_json::Value;
use std::alloc::Global;
use std::fmt::Write as Words;
use std::io;
use tree_patterns::Fragment;
use tree_replace::{Comments, Options, Reason, Refusal, ReplaceError, Rule, RuleError, replace};

/// Returns the text member `name` of a case.
fn text_at<'a>(case: &'a Value, name: &str) -> anyhow::Result<&'a str> {
    case.get(name)
        .and_then(Value::as_str)
        .context("a case lacks a text")
}

/// Returns `true` if the member `name` of a case is.
fn is_set(case: &Value, name: &str) -> bool {
    case.get(name).and_then(Value::as_bool).unwrap_or(false)
}

/// Returns the name of a refused pattern.
fn pattern_refusal(error: PatternError) -> &'static str {
    match error {
        PatternError::MetavariableName => "MetavariableName",
        PatternError::PatternUnread => "Unread",
        PatternError::Place => "Place",
        PatternError::Glued => "Glued",
        PatternError::Mixed => "Mixed",
        PatternError::OnlyMetavariable => "OnlyMetavariable",
        PatternError::TwoSequences => "TwoSequences",
        PatternError::TooLong => "TooLong",
        PatternError::NoMemory => "NoMemory",
    }
}

/// Writes the matches that are not replaced.
fn write_refusals(out: &mut String, refusals: &[Refusal]) -> anyhow::Result<()> {
    for refusal in refusals {
        let reason = match refusal.reason {
            Reason::CommentLost => "CommentLost",
            Reason::Unfaithful => "Unfaithful",
        };
        let start = refusal.start;
        let end = refusal.end;
        writeln!(out, "{reason} {start}..{end}")?;
    }
    Ok(())
}

/// Writes why a rule is none.
fn write_rule_error(out: &mut String, error: RuleError) -> anyhow::Result<()> {
    let name = match error {
        RuleError::Pattern(error) => {
            let name = pattern_refusal(error);
            writeln!(out, "refused Pattern {name}")?;
            return Ok(());
        }
        RuleError::Template(error) => {
            let name = pattern_refusal(error);
            writeln!(out, "refused Template {name}")?;
            return Ok(());
        }
        RuleError::Unbound => "Unbound",
        RuleError::Mixed => "Mixed",
        RuleError::FragmentMismatch => "FragmentMismatch",
        RuleError::LooseTokens => "LooseTokens",
        RuleError::NoMemory => "NoMemory",
    };
    writeln!(out, "refused {name}")?;
    Ok(())
}

/// Returns what a replacement answers to a case.
fn answer(alloc: Global, case: &Value) -> anyhow::Result<String> {
    let edition = Edition::from_name(text_at(case, "edition")?).context("no such edition")?;
    let dialect = Dialect {
        edition,
        grammar: Grammar::Whole,
    };
    let fragment = match case.get("as").and_then(Value::as_str) {
        Some(name) => Some(Fragment::from_name(name).context("no such fragment")?),
        None => None,
    };
    let options = Options {
        comments: if is_set(case, "drop") {
            Comments::Drop
        } else if is_set(case, "before") {
            Comments::Before
        } else {
            Comments::Refuse
        },
        skips: is_set(case, "skip"),
        allows_messages: false,
    };
    let mut out = String::new(alloc);
    let pattern = text_at(case, "pattern")?;
    let template = text_at(case, "template")?;
    let rule = match Rule::parse(alloc, dialect, pattern, template, fragment) {
        Ok(rule) => rule,
        Err(error) => {
            write_rule_error(&mut out, error)?;
            return Ok(out);
        }
    };
    let mut source = Source::open_by(alloc, edition, Grammar::Whole, text_at(case, "text")?)?;
    match replace(&mut source, &rule, options) {
        Ok(replaced) => {
            let text = source.text();
            write!(out, "{text}\n")?;
            write_refusals(&mut out, replaced.skipped.as_slice())?;
        }
        Err(ReplaceError::Messages) => writeln!(out, "refused Messages")?,
        Err(ReplaceError::Matches(refusals)) => {
            writeln!(out, "refused")?;
            write_refusals(&mut out, refusals.as_slice())?;
        }
        Err(ReplaceError::Source(_)) => writeln!(out, "refused by the source")?,
        Err(ReplaceError::TooLong) => writeln!(out, "refused TooLong")?,
        Err(ReplaceError::NoMemory) => writeln!(out, "refused NoMemory")?,
    }
    Ok(out)
}

fn main(rt: HostRuntime) -> anyhow::Result<()> {
    let alloc = rt.alloc();
    let mut passed = 0u32;
    let mut failed = 0u32;
    let cases = io::read_to_string(alloc, rt.reader())?;
    for line in cases.as_str().lines() {
        let case = Value::from_str(alloc, line)?;
        let expected = text_at(&case, "expected")?;
        let found = answer(alloc, &case)?;
        if found.as_str() == expected {
            passed = passed.saturating_add(1);
        } else {
            failed = failed.saturating_add(1);
            let text = text_at(&case, "text")?;
            let pattern = text_at(&case, "pattern")?;
            let template = text_at(&case, "template")?;
            let found = found.as_str();
            println!(rt;
                "{pattern}  to  {template}  in\n{text}\ngives\n{found}instead of\n{expected}"
            )?;
        }
    }
    println!(rt; "{passed} passed, {failed} failed")?;
    Ok(())
}
