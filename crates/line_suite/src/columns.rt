//! Places of a text with characters of one to four bytes, worked by hand.

use line_index::{Encoding, LineCol, LineIndex};
use std::alloc::{AllocError, Global};
use std::test::Fail;

/// Offsets: `a` 0, `ß` 1, `\r` 3, `\n` 4, `€` 5, `𝕏` 8, `y` 12, `\n` 13, the end 14.
const TEXT: &str = "aß\r\n€𝕏y\n";

/// Offset, line, and the column in UTF-8, UTF-16 and UTF-32, at each character boundary.
const PLACES: [(usize, usize, [usize; 3]); 9] = [
    (0, 0, [0, 0, 0]),
    (1, 0, [1, 1, 1]),
    (3, 0, [3, 2, 2]),
    (4, 0, [4, 3, 3]),
    (5, 1, [0, 0, 0]),
    (8, 1, [3, 1, 1]),
    (12, 1, [7, 3, 2]),
    (13, 1, [8, 4, 3]),
    (14, 2, [0, 0, 0]),
];

/// Offsets past the end or inside a character, and the offsets that they count as.
const ROUNDED: [(usize, usize); 4] = [(2, 1), (7, 5), (11, 8), (99, 14)];

/// Line, column in UTF-16, and offset, of places at no character boundary.
const CLAMPED: [(usize, usize, usize); 5] = [
    (0, 9, 4),
    (1, 2, 8),
    (1, 99, 13),
    (2, 1, 14),
    (3, 0, 14),
];

const ENCODINGS: [Encoding; 3] = [Encoding::Utf8, Encoding::Utf16, Encoding::Utf32];

fn are_places(index: &LineIndex<'_>) -> bool {
    PLACES.iter().all(|(offset, line, cols)| {
        ENCODINGS.iter().zip(cols.iter()).all(|(encoding, col)| {
            let place = LineCol {
                line: *line,
                col: *col,
            };
            index.line_col(*encoding, *offset) == place && index.offset(*encoding, place) == *offset
        })
    })
}

/// Returns `true` if counting on from each place to each other one leads to that one's columns.
fn are_counted_on(index: &LineIndex<'_>) -> bool {
    PLACES.iter().all(|(from, _, _)| {
        let known = index.line_col(Encoding::Utf16, *from);
        PLACES.iter().all(|(offset, line, cols)| {
            index.line_col_from(Encoding::Utf16, *from, known, *offset)
                == LineCol {
                    line: *line,
                    col: cols[1],
                }
        })
    })
}

fn are_rounded(index: &LineIndex<'_>) -> bool {
    ROUNDED.iter().all(|(offset, as_offset)| {
        index.line_col(Encoding::Utf16, *offset) == index.line_col(Encoding::Utf16, *as_offset)
    })
}

fn are_clamped(index: &LineIndex<'_>) -> bool {
    CLAMPED.iter().all(|(line, col, offset)| {
        let place = LineCol {
            line: *line,
            col: *col,
        };
        index.offset(Encoding::Utf16, place) == *offset
    })
}

fn are_lines(index: &LineIndex<'_>) -> bool {
    index.line_count() == 3
        && index.line(0) == Some("aß\r")
        && index.line(1) == Some("€𝕏y")
        && index.line(2) == Some("")
        && index.line(3).is_none()
        && index.line_start(1) == Some(5)
        && index.line_end(1) == Some(13)
        && index.line_start(3).is_none()
        && index.line_end(3).is_none()
        && index.text() == TEXT
}

/// With `rt try --test --fail-alloc N` one allocation fails; a second call then succeeds.
fn index_of(alloc: Global, text: &str) -> Result<LineIndex<'_>, AllocError> {
    match LineIndex::try_new(alloc, text) {
        Ok(index) => Ok(index),
        Err(AllocError) => LineIndex::try_new(alloc, text),
    }
}

#[test]
fn places_are_as_worked_by_hand(rt: HostRuntime) -> Result<(), Fail> {
    let index = index_of(rt.alloc(), TEXT)?;
    let is_right = are_places(&index)
        & are_counted_on(&index)
        & are_rounded(&index)
        & are_clamped(&index)
        & are_lines(&index);
    assert!(rt; is_right);
    Ok(())
}

#[test]
fn an_empty_text_has_one_line(rt: HostRuntime) -> Result<(), Fail> {
    let index = index_of(rt.alloc(), "")?;
    let start = LineCol { line: 0, col: 0 };
    let far = LineCol { line: 0, col: 7 };
    let is_right = index.line_count() == 1
        && index.line(0) == Some("")
        && index.line_col(Encoding::Utf16, 7) == start
        && index.offset(Encoding::Utf16, far) == 0;
    assert!(rt; is_right);
    Ok(())
}
