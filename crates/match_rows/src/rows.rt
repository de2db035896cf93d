//! A match as a row of text.

ghost use Rattle.std.specs.Prelude.{◌≡◌, ◌+◌, ◌<◌, ◌^◌, ◌++◌, IfOk, OnOk, length, string_bytes};
ghost use Rattle.std.specs.List.{flat_map};
ghost use Rattle.match_rows.specs.Rows.{element_text, first_line, match_row, row};

use line_index::{Encoding, LineCol, LineIndex};
use std::alloc::{AllocError, Global};
use syntax_tree::SyntaxElement;
use tree_search::Match;

/// Returns the first line of `text`.
fn first_line(text: &str) -> &str
    ensures { result.now ≡ first_line text.now }
{
    match text.split_once('\n') {
        Some((line, _)) => line,
        None => text,
    }
}

/// Returns the text of an element.
fn text_of(alloc: Global, element: &SyntaxElement) -> Result<String, AllocError>
    ensures { IfOk result (λ text. string_bytes text ≡ element_text element.now) }
{
    match element {
        SyntaxElement::Node(node) => {
            let text = node.text()?;
            format!(in alloc; "{text}")
        }
        SyntaxElement::Token(token) => String::from_str(alloc, token.text()),
    }
}

/// Returns a row with a place and a text.
fn row_of(alloc: Global, path: &str, place: LineCol, text: &str) -> Result<String, AllocError>
    requires line { place.line + 1 < 2 ^ 64 }
    requires col { place.col + 1 < 2 ^ 64 }
    ensures { IfOk result (λ text_of_row. string_bytes text_of_row
        ≡ row path.now place text.now) }
{
    let line = place.line + 1;
    let col = place.col + 1;
    format!(in alloc; "{path}:{line}:{col}: {text}\n")
}

/// Appends the row of a match in the text of `index`.
fn push_row(
    alloc: Global,
    path: &str,
    index: &LineIndex<'_>,
    found: &Match,
    rows: &mut Vec<u8>,
) -> Result<(), AllocError>
    requires { length index.now < 2 ^ 32 }
    ensures { OnOk result (rows.new.items
        ≡ rows.old.items ++ match_row path.now index.now found.now) }
{
    let element = found.element();
    let start = element.text_range().start().0;
    let place = index.line_col(Encoding::Utf32, start as usize);
    let text = text_of(alloc, element)?;
    let row = row_of(alloc, path, place, first_line(text.as_str()))?;
    rows.extend_from_slice(row.as_str().as_bytes())
}

/// Appends the rows of matches in the text of `index`.
pub(crate) fn push_rows(
    alloc: Global,
    path: &str,
    index: &LineIndex<'_>,
    matches: &[Match],
    rows: &mut Vec<u8>,
) -> Result<(), AllocError>
    requires { length index.now < 2 ^ 32 }
    ensures { OnOk result (rows.new.items
        ≡ rows.old.items ++ flat_map (match_row path.now index.now) matches.now) }
{
    for found in matches {
        push_row(alloc, path, index, found, rows)?;
    }
    Ok(())
}
