//! Changes of a text between two places.

ghost use Rattle.std.specs.Prelude.{◌≡◌, OnOk, OnErr, IfOk, IfSome, IsCharBoundary, is_some, unwrap_or, string_bytes};
ghost use Rattle.text_changes.specs.Changes.{changed};
ghost use Rattle.text_changes.specs.Places.{offset_in};

use crate::place::offset_in;
use line_index::{Encoding, LineCol, LineIndex};
use std::alloc::{AllocError, Global};

/// A change of a text: what is between two places is replaced.
#[derive(Clone, Copy, Debug, Drop)]
pub struct Change<'a> {
    /// Where the replaced text begins.
    pub start: LineCol,
    /// Where the replaced text ends.
    pub end: LineCol,
    /// The text in its place.
    pub text: &'a str,
}

/// Returns the offsets of two places in `text`, each `None` inside a character.
fn offsets_in(
    alloc: Global,
    encoding: Encoding,
    text: &str,
    start: LineCol,
    end: LineCol,
) -> Result<(Option<usize>, Option<usize>), AllocError>
    ensures start { IfOk result (λ found. found.0 ≡ offset_in encoding text.now start) }
    ensures end { IfOk result (λ found. found.1 ≡ offset_in encoding text.now end) }
    ensures cuts_start { IfOk result (λ found. IfSome found.0 (λ n. IsCharBoundary text.now n)) }
    ensures cuts_end { IfOk result (λ found. IfSome found.1 (λ n. IsCharBoundary text.now n)) }
{
    let index = LineIndex::try_new(alloc, text)?;
    let start = offset_in(&index, encoding, start);
    let end = offset_in(&index, encoding, end);
    Ok((start, end))
}

/// Makes a change of `text` and returns `true`. Leaves `text` as it is and returns `false` if a place is inside a
/// character, the end is before the start, or `text` would be longer than `limit`.
///
/// # Errors
///
/// Out of memory: `text` is as before.
pub fn apply_change(
    alloc: Global,
    encoding: Encoding,
    limit: usize,
    text: &mut String,
    change: &Change<'_>,
) -> Result<bool, AllocError>
    ensures made { IfOk result (λ made. made
        ≡ is_some (changed encoding limit (string_bytes text.old) change.now)) }
    ensures text { OnOk result (string_bytes text.new ≡ unwrap_or
        (changed encoding limit (string_bytes text.old) change.now) (string_bytes text.old)) }
    ensures refused { OnErr result (string_bytes text.new ≡ string_bytes text.old) }
{
    let new = change.text;
    let found = offsets_in(alloc, encoding, text.as_str(), change.start, change.end)?;
    let (Some(start), Some(end)) = found else {
        return Ok(false);
    };
    if start > end || text.len() - (end - start) + new.len() > limit {
        return Ok(false);
    }
    text.replace_range(start..end, new)?;
    Ok(true)
}
