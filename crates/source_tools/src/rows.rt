//! Messages as rows of text.

ghost use Rattle.std.specs.Prelude.{◌≡◌, ◌≤◌, ◌<◌, ◌+◌, ◌^◌, ◌++◌, OnOk, IfOk, length, take, string_bytes, codes};
ghost use Rattle.std.specs.List.{flat_map};
ghost use Rattle.line_index.specs.declared.encoding.Encoding.TheVariants.{Utf32};
ghost use Rattle.line_index.specs.Columns.{line_col};
ghost use Rattle.line_index.specs.Lines.{feeds};
ghost use Rattle.source_tools.specs.Rows.{escaped, message_rows, quoted, range_text, row, token_row};

use line_index::{Encoding, LineCol, LineIndex};
use shown_lines::push_excerpt;
use std::alloc::{AllocError, Global};

/// Returns the row of a message.
fn row_of(alloc: Global, path: &str, place: LineCol, words: &str) -> Result<String, AllocError>
    requires line { place.line + 1 < 2 ^ 64 }
    requires col { place.col + 1 < 2 ^ 64 }
    ensures { IfOk result (λ text. string_bytes text ≡ row path.now place words.now) }
{
    let line = place.line + 1;
    let col = place.col + 1;
    format!(in alloc; "{path}:{line}:{col}: {words}\n")
}

/// A message about a byte of a text.
#[derive(Drop)]
pub(crate) struct Message<'a> {
    pub(crate) offset: usize,
    /// The line and column of the offset, in characters.
    pub(crate) place: LineCol,
    pub(crate) words: &'a str,
}

/// Appends the rows of a message about the text of `index`.
pub(crate) fn push_message(
    alloc: Global,
    path: &str,
    index: &LineIndex<'_>,
    message: &Message<'_>,
    rows: &mut Vec<u8>,
) -> Result<(), AllocError>
    requires text { length index.now < 2 ^ 32 }
    requires place { message.now.place ≡ line_col Utf32 index.now message.now.offset }
    ensures { OnOk result (rows.new.items ≡ rows.old.items
        ++ message_rows path.now index.now message.now.offset message.now.words.now) }
{
    let place = message.place;
    let byte = index.line_col(Encoding::Utf8, message.offset);
    let Some(line) = index.line(place.line) else {
        unreachable!()
    };
    let row = row_of(alloc, path, place, message.words)?;
    rows.extend_from_slice(row.as_str().as_bytes())?;
    push_excerpt(alloc, line, byte.col, rows)
}

/// Appends `text` in quotes. Line feeds, carriage returns, tabs, quotes and backslashes are escaped.
fn push_quoted(text: &[u8], rows: &mut Vec<u8>) -> Result<(), AllocError>
    ensures { OnOk result (rows.new.items ≡ rows.old.items ++ quoted text.now) }
{
    rows.push(b'"')?;
    for byte in text {
        match *byte {
            b'\n' => rows.extend_from_slice(b"\\n")?,
            b'\r' => rows.extend_from_slice(b"\\r")?,
            b'\t' => rows.extend_from_slice(b"\\t")?,
            b'"' => rows.extend_from_slice(b"\\\"")?,
            b'\\' => rows.extend_from_slice(b"\\\\")?,
            other => rows.push(other)?,
        }
    }
    rows.push(b'"')?;
    Ok(())
}

/// Appends what an element's row begins with: its name and range.
pub(crate) fn push_range(
    alloc: Global,
    name: &str,
    start: usize,
    end: usize,
    rows: &mut Vec<u8>,
) -> Result<(), AllocError>
    ensures { OnOk result (rows.new.items ≡ rows.old.items ++ range_text name.now start end) }
{
    let text = format!(in alloc; "{name}@{start}..{end}")?;
    rows.extend_from_slice(text.as_str().as_bytes())
}

/// Appends the end of a token's row: its text, quoted.
pub(crate) fn push_text(text: &[u8], rows: &mut Vec<u8>) -> Result<(), AllocError>
    ensures { OnOk result (rows.new.items
        ≡ rows.old.items ++ (codes " " ++ (quoted text.now ++ codes "\n"))) }
{
    rows.push(b' ')?;
    push_quoted(text, rows)?;
    rows.push(b'\n')?;
    Ok(())
}
