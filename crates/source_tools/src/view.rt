//! What is shown of a text.

ghost use Rattle.std.specs.Prelude.{◌≡◌, ◌++◌, IfOk, IfSome, OnOk};
ghost use Rattle.source_tools.specs.Texts.{dialect_of, message_view, rows_of, token_view, tree_view};
ghost use Rattle.source_tools.specs.Outcomes.{IsOutcome, has_messages, outcome_in, outcome_of, viewed};

use crate::decode::text_of;
use crate::messages::{push_message_list, push_messages};
use crate::source::{Dialect, FileError, Source};
use crate::tokens::{push_token_list, push_tokens};
use crate::tree::{push_tree, push_tree_list};
use file_target::Target;
use parser_input::Edition;
use rust_document::{Document, OpenError};
use std::alloc::{AllocError, Global};
use syntax_tree::TreeIds;

/// How a text is shown.
#[derive(Clone, Copy, Debug, PartialEq, Eq, Drop)]
pub enum Format {
    /// Rows of text.
    Text,
    /// An object in JSON, on a line of its own.
    Json,
}

/// What is shown of a text.
#[derive(Clone, Copy, Debug, PartialEq, Eq, Drop)]
pub enum View {
    /// Its messages, with their lines.
    Messages(Format),
    /// Its tokens, a row each.
    Tokens(Format),
    /// Its tree, a row for each element.
    Tree(Format),
}

/// The rows that are shown of a file.
#[derive(Debug, Drop)]
pub struct FileView {
    pub rows: Vec<u8>,
    /// The view is of messages, and there are some.
    pub has_messages: bool,
}

/// Appends the messages of `document` in a format.
fn push_message_view(
    alloc: Global,
    format: Format,
    path: &str,
    document: &Document,
    rows: &mut Vec<u8>,
) -> Result<(), AllocError>
    ensures { OnOk result (rows.new.items ≡ rows.old.items
        ++ message_view format path.now (dialect_of document.now) document.now.text) }
{
    match format {
        Format::Text => push_messages(alloc, path, document, rows),
        Format::Json => push_message_list(alloc, path, document, rows),
    }
}

/// Appends the tokens of `document` in a format.
fn push_token_view(
    alloc: Global,
    format: Format,
    path: &str,
    document: &Document,
    rows: &mut Vec<u8>,
) -> Result<(), AllocError>
    ensures { OnOk result (rows.new.items ≡ rows.old.items
        ++ token_view format path.now (dialect_of document.now) document.now.text) }
{
    match format {
        Format::Text => push_tokens(alloc, document, rows),
        Format::Json => push_token_list(alloc, path, document, rows),
    }
}

/// Appends the tree of `document` in a format.
fn push_tree_view(
    alloc: Global,
    format: Format,
    path: &str,
    document: &Document,
    rows: &mut Vec<u8>,
) -> Result<(), AllocError>
    ensures { OnOk result (rows.new.items ≡ rows.old.items
        ++ tree_view format path.now (dialect_of document.now) document.now.text) }
{
    match format {
        Format::Text => push_tree(alloc, document, rows),
        Format::Json => push_tree_list(alloc, path, document, rows),
    }
}

/// Returns the rows that are shown of `document`.
fn rows_of(
    alloc: Global,
    view: View,
    path: &str,
    document: &Document,
) -> Result<Vec<u8>, AllocError>
    ensures { IfOk result (λ rows. rows.items
        ≡ rows_of view path.now (dialect_of document.now) document.now.text) }
{
    let mut rows = Vec::new(alloc);
    match view {
        View::Messages(format) => push_message_view(alloc, format, path, document, &mut rows)?,
        View::Tokens(format) => push_token_view(alloc, format, path, document, &mut rows)?,
        View::Tree(format) => push_tree_view(alloc, format, path, document, &mut rows)?,
    }
    Ok(rows)
}

/// Returns `true` if messages are shown.
fn has_messages(view: View, document: &Document) -> bool
    ensures { result ≡ has_messages view (dialect_of document.now) document.now.text }
{
    match view {
        View::Messages(_) => !document.errors().is_empty(),
        View::Tokens(_) | View::Tree(_) => false,
    }
}

/// Returns what is shown of a file with these bytes. `source.path` is not read.
///
/// # Errors
///
/// - [`FileError::NotUtf8`] if the bytes are not UTF-8.
/// - [`FileError::TooLong`] if the text has more than 16,777,216 bytes.
/// - [`FileError::NoMemory`] if an allocation fails.
pub fn view_bytes(
    alloc: Global,
    view: View,
    source: &Source,
    bytes: &[u8],
) -> Result<FileView, FileError>
    ensures { IsOutcome (outcome_of view source.now bytes.now) result }
{
    let Some(text) = text_of(bytes) else {
        return Err(FileError::NotUtf8);
    };
    let mut ids = TreeIds::new();
    let Dialect { edition, grammar } = source.dialect;
    let document = match Document::open_by(alloc, edition, grammar, text, &mut ids) {
        Ok(document) => document,
        Err(OpenError::TooLong) => return Err(FileError::TooLong),
        Err(OpenError::NoTreeNumber) => unreachable!(),
        Err(OpenError::NoMemory) => return Err(FileError::NoMemory),
    };
    let rows = rows_of(alloc, view, source.path.as_str(), &document)?;
    Ok(FileView {
        rows,
        has_messages: has_messages(view, &document),
    })
}

/// Returns what is shown of the file at `source.path`.
///
/// # Errors
///
/// - [`FileError::NotFound`] if there is no file.
/// - [`FileError::NotUtf8`] if the bytes are not UTF-8.
/// - [`FileError::TooLong`] if the text has more than 16,777,216 bytes.
/// - [`FileError::NoMemory`] if an allocation fails.
/// - [`FileError::Io`] if the system does not read the file.
/// - [`FileError::Changed`] of a target whose files are not known.
pub fn view_file<T: Target>(
    alloc: Global,
    view: View,
    target: &T,
    source: &Source,
) -> Result<FileView, FileError>
    ensures { IfSome (T.files target.now)
        (λ files. IsOutcome (outcome_in view files source.now) result) }
{
    match target.read(alloc, source.path.as_str()) {
        Ok(contents) => view_bytes(alloc, view, source, contents.bytes.as_slice()),
        Err(error) => Err(FileError::from(error)),
    }
}
