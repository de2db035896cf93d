//! The messages about a text.

ghost use Rattle.std.specs.Prelude.{◌≡◌, IfOk, map, take};
ghost use Rattle.line_index.specs.Columns.{line_col};
ghost use Rattle.rust_source.specs.RangedErrors.{ranged};
ghost use Rattle.session_words.specs.Replies.{shown_of};
ghost use Rattle.document_views.specs.Listings.{listing_by, shown};

use crate::wording::message_words;
use line_index::{Encoding, LineCol, LineIndex};
use rust_source::{RangedError, Source};
use session_words::Diagnostic;
use std::alloc::{AllocError, Global};

/// The most messages that are shown of one text.
const MAX_SHOWN: usize = 1000;

/// Returns a message with its places, given the place where it begins.
fn diagnostic(
    alloc: Global,
    index: &LineIndex<'_>,
    encoding: Encoding,
    found: &RangedError,
    start: LineCol,
) -> Result<Diagnostic, AllocError>
    requires { start ≡ line_col encoding index.now found.now.error.offset }
    ensures { IfOk result (λ d. shown_of d ≡ shown encoding index.now (ranged found.now)) }
{
    let error = found.error;
    let end = index.line_col_from(encoding, error.offset, start, found.end);
    let message = message_words(alloc, &error.message)?;
    Ok(Diagnostic {
        start,
        end,
        message,
    })
}

/// Returns messages with their places. Columns are counted on from one message to the next.
fn diagnostics_of(
    alloc: Global,
    index: &LineIndex<'_>,
    encoding: Encoding,
    errors: &[RangedError],
) -> Result<Vec<Diagnostic>, AllocError>
    ensures { IfOk result (λ list. map shown_of list.items
        ≡ map (shown encoding index.now) (map ranged errors.now)) }
{
    let mut list = Vec::with_capacity(alloc, errors.len())?;
    let mut from = 0;
    let mut place = index.line_col(encoding, 0);
    for error in errors {
        let start = index.line_col_from(encoding, from, place, error.error.offset);
        list.push(diagnostic(alloc, index, encoding, error, start)?)?;
        from = error.error.offset;
        place = start;
    }
    Ok(list)
}

/// Returns the first 1,000 messages about a text in the order of [`Source::errors`], at their places in the units of
/// `encoding`. A message of the lexer has the range of its token, one of the parser an empty one.
///
/// # Errors
///
/// Out of memory.
pub fn diagnostics(
    alloc: Global,
    encoding: Encoding,
    source: &Source,
) -> Result<Vec<Diagnostic>, AllocError>
    ensures { IfOk result (λ list. map shown_of list.items
        ≡ listing_by source.now.document.grammar encoding source.now.document.edition
        source.now.document.text) }
{
    let index = LineIndex::try_new(alloc, source.text())?;
    let errors = source.ranged_errors()?;
    let errors = errors.as_slice();
    let count = errors.len().min(MAX_SHOWN);
    let (first, _) = errors.split_at(count);
    diagnostics_of(alloc, &index, encoding, first)
}
