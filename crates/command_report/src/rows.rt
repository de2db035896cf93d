//! Rows for standard error.

ghost use Rattle.std.specs.Prelude.{◌≡◌, ◌<◌, ◌-◌, ◌+◌, ◌^◌, ◌++◌, OnOk, IfOk, string_bytes, if◌then◌else◌};
ghost use Rattle.command_report.specs.Rows.{counted, place_row, plural, rest_row, row_if_shown, tally_row, unchanged_row};

use std::alloc::{AllocError, Global};

/// The most places that are named.
pub const MAX_ROWS: usize = 20;

/// Returns the ending of a noun behind a number.
fn plural(count: usize) -> &'static str
    ensures { result.now ≡ plural count }
{
    if count == 1 { "" } else { "s" }
}

/// Returns a number and a noun.
fn counted(alloc: Global, count: usize, noun: &str) -> Result<String, AllocError>
    ensures { IfOk result (λ words. string_bytes words ≡ counted count noun.now) }
{
    let ending = plural(count);
    format!(in alloc; "{count} {noun}{ending}")
}

/// Returns the row of a place in a file: its path, its line and column, which count from 1, and words.
///
/// # Errors
///
/// Out of memory.
pub fn place_row(
    alloc: Global,
    path: &str,
    line: usize,
    column: usize,
    words: &str,
) -> Result<String, AllocError>
    ensures { IfOk result (λ row. string_bytes row ≡ place_row path.now line column words.now) }
{
    format!(in alloc; "{path}:{line}:{column}: {words}\n")
}

/// Appends a row, if fewer than 20 rows are before it. Only then it is shown.
///
/// # Errors
///
/// Out of memory.
pub fn push_row(row: &str, before: usize, rows: &mut String) -> Result<(), AllocError>
    ensures { OnOk result (string_bytes rows.new
        ≡ string_bytes rows.old ++ row_if_shown row.now before) }
{
    if before < MAX_ROWS {
        rows.push_str(row)?;
    }
    Ok(())
}

/// Returns the row that counts the places past the 20th, of `count` places; empty if there are none.
///
/// # Errors
///
/// Out of memory.
pub fn rest_row(alloc: Global, count: usize) -> Result<String, AllocError>
    ensures { IfOk result (λ row. string_bytes row ≡ rest_row count) }
{
    if count <= MAX_ROWS {
        return Ok(String::new(alloc));
    }
    let rest = counted(alloc, count - MAX_ROWS, "more place")?;
    format!(in alloc; "and {rest}\n")
}

/// Returns the row that says how many names and files change.
///
/// # Errors
///
/// Out of memory.
pub fn tally_row(
    alloc: Global,
    names: usize,
    files: usize,
    left: usize,
) -> Result<String, AllocError>
    ensures { IfOk result (λ row. string_bytes row ≡ tally_row names files left) }
{
    let names = counted(alloc, names, "name")?;
    let files = counted(alloc, files, "file")?;
    let left = counted(alloc, left, "place")?;
    format!(in alloc; "{names} in {files}, {left} left\n")
}

/// Returns the row that says that no identifier of the files is the name, or no lifetime if it begins with
/// a quote; `files` is their number.
///
/// # Errors
///
/// Out of memory.
pub fn unchanged_row(alloc: Global, name: &str, files: usize) -> Result<String, AllocError>
    ensures { IfOk result (λ row. string_bytes row ≡ unchanged_row name.now files) }
{
    let files = counted(alloc, files, "file")?;
    if name.starts_with("'") {
        return format!(in alloc; "no lifetime or label `{name}` in {files}\n");
    }
    format!(in alloc; "no identifier `{name}` in {files}\n")
}
