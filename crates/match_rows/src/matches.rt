//! The matches of a pattern in a document.

ghost use Rattle.std.specs.Prelude.{◌≡◌, ◌++◌, IfOk};
ghost use Rattle.match_rows.specs.Rows.{AreRows};

use crate::rows::push_rows;
use line_index::LineIndex;
use rust_document::Document;
use std::alloc::{AllocError, Global};
use tree_patterns::Pattern;
use tree_search::search;

/// Appends a row for each match of `pattern` in the tree of `document`, in source order: `path`, line and column, counted
/// from 1 in characters, and the first line of what matches. Returns the number of matches.
///
/// # Errors
///
/// [`AllocError`] if an allocation fails or a reference count overflows.
pub fn push_matches(
    alloc: Global,
    path: &str,
    document: &Document,
    pattern: &Pattern,
    rows: &mut Vec<u8>,
) -> Result<usize, AllocError>
    ensures { IfOk result (λ count. AreRows path.now document.now pattern.now
        rows.old.items rows.new.items count) }
{
    let matches = search(alloc, pattern, document.root())?;
    let index = LineIndex::try_new(alloc, document.text())?;
    push_rows(alloc, path, &index, matches.as_slice(), rows)?;
    Ok(matches.len())
}
