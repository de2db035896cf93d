//! The messages of a document as rows.

ghost use Rattle.std.specs.Prelude.{◌≡◌, ◌<◌, ◌^◌, ◌++◌, OnOk, codes, length, chars, map};
ghost use Rattle.std.specs.List.{flat_map};
ghost use Rattle.rust_document.specs.Reading.{messages_in};
ghost use Rattle.rust_document.specs.Seen.{fault_of, message_of_error};
ghost use Rattle.rust_document.specs.Tokens.{tokens_of};
ghost use Rattle.message_ends.specs.Ends.{all_tokens};
ghost use Rattle.line_index.specs.declared.encoding.Encoding.TheVariants.{Utf32};
ghost use Rattle.line_index.specs.Columns.{line_col};
ghost use Rattle.source_tools.specs.Json.{file_object, message_item};
ghost use Rattle.source_tools.specs.Order.{in_order};
ghost use Rattle.source_tools.specs.Texts.{item_of_message, rows_of_message};
ghost use Rattle.source_tools.specs.Words.{words};

use crate::json::{push_message_item, push_object};
use crate::order::in_order;
use crate::rows::{Message, push_message};
use crate::wording::error_words;
use line_index::{Encoding, LineCol, LineIndex};
use message_ends::MessageEnds;
use rust_document::{Document, SyntaxError};
use std::alloc::{AllocError, Global};

/// An error, and the line and column of its offset in characters.
#[derive(Clone, Copy)]
struct PlacedError {
    error: SyntaxError,
    place: LineCol,
}

/// Appends the rows of an error, which is about the text of `index`.
fn push_error(
    alloc: Global,
    path: &str,
    index: &LineIndex<'_>,
    placed: &PlacedError,
    rows: &mut Vec<u8>,
) -> Result<(), AllocError>
    requires text { length index.now < 2 ^ 32 }
    requires place { placed.now.place ≡ line_col Utf32 index.now placed.now.error.offset }
    ensures { OnOk result (rows.new.items ≡ rows.old.items
        ++ rows_of_message path.now index.now (message_of_error placed.now.error)) }
{
    let error = placed.error;
    let words = error_words(alloc, &error.message)?;
    let message = Message {
        offset: error.offset,
        place: placed.place,
        words: words.as_str(),
    };
    push_message(alloc, path, index, &message, rows)?;
    Ok(())
}

/// Appends the rows of `errors`, which are about the text of `index`.
///
/// Columns are counted on from one error to the next, so errors in order of place take time linear
/// in the text.
fn push_errors(
    alloc: Global,
    path: &str,
    index: &LineIndex<'_>,
    errors: &[SyntaxError],
    rows: &mut Vec<u8>,
) -> Result<(), AllocError>
    requires { length index.now < 2 ^ 32 }
    ensures { OnOk result (rows.new.items ≡ rows.old.items
        ++ flat_map (rows_of_message path.now index.now) (map message_of_error errors.now)) }
{
    let mut offset = 0;
    let mut place = index.line_col(Encoding::Utf32, 0);
    for error in errors {
        place = index.line_col_from(Encoding::Utf32, offset, place, error.offset);
        offset = error.offset;
        let placed = PlacedError {
            error: *error,
            place,
        };
        push_error(alloc, path, index, &placed, rows)?;
    }
    Ok(())
}

/// Appends the rows of the messages of `document`.
pub(crate) fn push_messages(
    alloc: Global,
    path: &str,
    document: &Document,
    rows: &mut Vec<u8>,
) -> Result<(), AllocError>
    ensures { OnOk result (rows.new.items ≡ rows.old.items
        ++ flat_map (rows_of_message path.now document.now.text)
        (in_order (messages_in document.now.grammar document.now.edition
        (chars document.now.text)))) }
{
    let index = LineIndex::try_new(alloc, document.text())?;
    let errors = in_order(alloc, document.errors())?;
    push_errors(alloc, path, &index, errors.as_slice(), rows)?;
    Ok(())
}

/// Appends the item of an error, which is about the text of `index` and ends at the offset `end`.
fn push_error_item(
    alloc: Global,
    index: &LineIndex<'_>,
    placed: &PlacedError,
    end: usize,
    items: &mut Vec<u8>,
) -> Result<(), AllocError>
    requires text { length index.now < 2 ^ 32 }
    requires place { placed.now.place ≡ line_col Utf32 index.now placed.now.error.offset }
    ensures { OnOk result (items.new.items ≡ items.old.items
        ++ message_item (line_col Utf32 index.now placed.now.error.offset)
        placed.now.error.offset end (words (fault_of placed.now.error.message))) }
{
    let error = placed.error;
    let words = error_words(alloc, &error.message)?;
    let message = Message {
        offset: placed.error.offset,
        place: placed.place,
        words: words.as_str(),
    };
    push_message_item(alloc, &message, end, items)?;
    Ok(())
}

/// Appends the items of `errors`, which are about the text of `index` and end where `ends` says.
fn push_error_items(
    alloc: Global,
    index: &LineIndex<'_>,
    ends: &mut MessageEnds<'_>,
    errors: &[SyntaxError],
    items: &mut Vec<u8>,
) -> Result<(), AllocError>
    requires { length index.now < 2 ^ 32 }
    ensures { OnOk result (items.new.items ≡ items.old.items
        ++ flat_map (item_of_message (all_tokens ends.old) index.now)
        (map message_of_error errors.now)) }
{
    let mut from = 0;
    let mut place = index.line_col(Encoding::Utf32, 0);
    for error in errors {
        place = index.line_col_from(Encoding::Utf32, from, place, error.offset);
        from = error.offset;
        let placed = PlacedError {
            error: *error,
            place,
        };
        let end = ends.end_of(error);
        push_error_item(alloc, index, &placed, end, items)?;
    }
    Ok(())
}

/// Appends the object of the messages of `document`.
pub(crate) fn push_message_list(
    alloc: Global,
    path: &str,
    document: &Document,
    rows: &mut Vec<u8>,
) -> Result<(), AllocError>
    ensures { OnOk result (rows.new.items ≡ rows.old.items ++ file_object path.now (codes "messages")
        (flat_map (item_of_message (tokens_of document.now.edition (chars document.now.text))
        document.now.text) (in_order (messages_in document.now.grammar document.now.edition
        (chars document.now.text))))) }
{
    let index = LineIndex::try_new(alloc, document.text())?;
    let errors = in_order(alloc, document.errors())?;
    let mut ends = MessageEnds::of(document);
    let mut items = Vec::new(alloc);
    push_error_items(alloc, &index, &mut ends, errors.as_slice(), &mut items)?;
    push_object(alloc, path, "messages", items.as_slice(), rows)?;
    Ok(())
}
