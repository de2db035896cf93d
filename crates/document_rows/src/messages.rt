//! Messages as rows, and the bytes of their words.
ghost use Rattle.std.specs.Prelude.{◌≡◌, ◌++◌, map, string_bytes, IfOk, OnOk};
ghost use Rattle.rust_document.specs.Seen.{message_of_error};
ghost use Rattle.document_requests.specs.Messages.{worded};
ghost use Rattle.document_rows.specs.Rows.{message_row, message_rows, message_rows_of, message_words, message_words_of};

use crate::rows::{MessageRow, shown};
use rust_document::{Document, SyntaxError};
use std::alloc::{AllocError, Global};

/// Messages as rows, and their words, one after another.
#[derive(Drop)]
pub struct MessageRows {
    pub rows: Vec<MessageRow>,
    pub words: String,
}

/// Appends a message.
fn push_message(alloc: Global, error: SyntaxError, to: &mut MessageRows) -> Result<(), AllocError>
    ensures words { OnOk result (string_bytes to.new.words
        ≡ string_bytes to.old.words ++ (worded (message_of_error error)).1) }
    ensures row { OnOk result (to.new.rows.items ≡ to.old.rows.items
        ++ message_row (string_bytes to.old.words) (worded (message_of_error error))) }
{
    let words_start = shown(to.words.len());
    let words = format!(in alloc; "{error}")?;
    to.words.push_str(&words)?;
    to.rows.push(MessageRow {
        offset: shown(error.offset),
        words_start,
        words_end: shown(to.words.len()),
    })?;
    Ok(())
}

/// Returns a row for each message of a document, in order, and the words of all.
///
/// # Errors
///
/// [`AllocError`] if an allocation fails.
pub fn message_rows(alloc: Global, document: &Document) -> Result<MessageRows, AllocError>
    ensures rows { IfOk result (λ found. found.rows.items ≡ message_rows_of document.now) }
    ensures words { IfOk result (λ found. string_bytes found.words ≡ message_words_of document.now) }
{
    let mut found = MessageRows {
        rows: Vec::new(alloc),
        words: String::new(alloc),
    };
    let errors = document.errors();
    for error in errors {
        push_message(alloc, *error, &mut found)?;
    }
    Ok(found)
}
