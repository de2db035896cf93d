//! Edits documents: each line of the input is a JSON object with an edition, a text, an edit (the
//! start and the end of a byte range, and the text that replaces it), the numbers of tokens that
//! are kept in front, lexed, and kept after, and whether the parser's input stays the same. Prints
//! for each the outcome of the document's edit, and whether it agrees; then the number of cases
//! that agree, and the number for which the edit of a `LexedText` of the whole text has the same
//! counts.
//!
//! The cases next to it were computed by a slow, plain reference implementation that shares no code
//! with these crates. A document's edit has the counts of the whole text in the cases with no
//! shebang, no frontmatter and no `#"` or `##`.
#![tactic(auto)]

use anyhow::{Context, bail};
use lexed_text::{Kept, LexedText};
use parser_input::edition::Edition;
use rowan_green::{TextRange, TextSize};
use rust_document::{Document, Edited};
use serde_json::Value;
use std::alloc::Global;
use std::io;
use syntax_tree::TreeIds;

#[cfg(test)]
mod tests;

/// An edit of a text.
#[derive(Clone, Copy)]
struct Case<'a> {
    edition: Edition,
    text: &'a str,
    start: u32,
    end: u32,
    put: &'a str,
}

/// Returns the number at `index` of a list.
fn number_at(list: &Value, index: usize) -> anyhow::Result<u32> {
    let number = list.get(index).and_then(Value::as_u64);
    let number = number.context("a case lacks a number")?;
    u32::try_from(number).ok().context("a number is too large")
}

/// Returns the count at `index` of a list.
fn count_at(list: &Value, index: usize) -> anyhow::Result<usize> {
    Ok(number_at(list, index)? as usize)
}

/// Returns the edit of a case.
fn edit_in(case: &Value) -> anyhow::Result<Case<'_>> {
    let name = case.get("edition").and_then(Value::as_str);
    let edition = name.and_then(Edition::from_name);
    let text = case.get("text").and_then(Value::as_str);
    let edit = case.get("edit").context("a case lacks an edit")?;
    let put = edit.get(2).and_then(Value::as_str);
    Ok(Case {
        edition: edition.context("a case lacks an edition")?,
        text: text.context("a case lacks a text")?,
        start: number_at(edit, 0)?,
        end: number_at(edit, 1)?,
        put: put.context("an edit lacks a text")?,
    })
}

/// Edits the text of a case as a document, and returns the outcome.
fn edit_document(alloc: Global, case: &Case<'_>) -> anyhow::Result<Edited> {
    if case.end < case.start {
        bail!("a range ends before it starts");
    }
    let range = TextRange::new(TextSize::new(case.start), TextSize::new(case.end));
    let mut ids = TreeIds::new();
    let mut document = Document::open(alloc, case.edition, case.text, &mut ids)?;
    if !document.can_edit(range) {
        bail!("an edit is none of its text");
    }
    Ok(document.edit(alloc, range, case.put, &mut ids)?)
}

/// Edits the text of a case as one `LexedText`, and returns the counts.
fn edit_text(alloc: Global, case: &Case<'_>) -> anyhow::Result<Kept> {
    let start = case.start as usize;
    let end = case.end as usize;
    let mut lexed = LexedText::new(alloc, case.text)?;
    if !lexed.can_edit(start..end, case.put.len()) {
        bail!("an edit is none of its text");
    }
    Ok(lexed.edit(start..end, case.put)?)
}

/// Returns the counts that a case expects.
fn expected_counts(case: &Value) -> anyhow::Result<Kept> {
    let counts = case.get("kept").context("a case lacks its counts")?;
    Ok(Kept {
        front: count_at(counts, 0)?,
        lexed: count_at(counts, 1)?,
        back: count_at(counts, 2)?,
    })
}

/// Returns `true` if a case expects that the parser's input stays the same.
fn has_same_input(case: &Value) -> anyhow::Result<bool> {
    let same = case.get("same_input").and_then(Value::as_bool);
    same.context("a case does not tell of the input")
}

fn main(rt: HostRuntime) -> anyhow::Result<()> {
    let alloc: Global = rt.alloc();
    let cases = io::read_to_string(alloc, rt.reader())?;
    let mut documents = 0u64;
    let mut texts = 0u64;
    for line in cases.as_str().lines() {
        let value = Value::from_str(alloc, line).context("a line is no JSON")?;
        let case = edit_in(&value)?;
        let wanted = expected_counts(&value)?;
        let edited = edit_document(alloc, &case)?;
        let kept = Kept {
            front: edited.front,
            lexed: edited.lexed,
            back: edited.back,
        };
        let output = if edited.steps == 0 { "kept" } else { "new" };
        let agrees = kept == wanted && (edited.steps == 0) == has_same_input(&value)?;
        let verdict = if agrees { "agrees" } else { "differs" };
        documents = documents.saturating_add(agrees as u64);
        texts = texts.saturating_add((edit_text(alloc, &case)? == wanted) as u64);
        println!(rt;
            "{} {} {} {output} {verdict}",
            kept.front, kept.lexed, kept.back
        )?;
    }
    println!(rt; "{documents} documents, {texts} texts")?;
    Ok(())
}
