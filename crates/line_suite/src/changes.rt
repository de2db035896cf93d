//! Changes of a text by lines and columns.
use line_index::{Encoding, LineCol, LineIndex};
use std::test::Fail;
use text_changes::{Change, apply_change, offset_in, replaced_range};

/// Offsets: `a` 0, `ß` 1, `\r` 3, `\n` 4, `€` 5, `𝕏` 8, `y` 12, `\n` 13, the end 14.
const TEXT: &str = "aß\r\n€𝕏y\n";

/// The offset of a place inside a character.
const NONE: usize = 99;

/// Line, column in UTF-16, and the offset.
const PLACES: [(usize, usize, usize); 12] = [
    (0, 0, 0),
    (0, 2, 3),
    (0, 3, 4),
    (0, 4, 3),
    (0, 2_147_483_647, 3),
    (1, 1, 8),
    (1, 2, NONE),
    (1, 4, 13),
    (1, 5, 13),
    (2, 0, 14),
    (2, 7, 14),
    (9, 9, 14),
];

fn place(line: usize, col: usize) -> LineCol {
    LineCol { line, col }
}

#[test]
fn places_lead_to_offsets(rt: HostRuntime) -> Result<(), Fail> {
    let index = LineIndex::try_new(rt.alloc(), TEXT)?;
    for (line, col, wanted) in PLACES {
        let found = offset_in(&index, Encoding::Utf16, place(line, col));
        assert!(rt; found.unwrap_or(NONE) == wanted);
    }
    let inside = offset_in(&index, Encoding::Utf8, place(0, 2));
    assert!(rt; inside.is_none() && offset_in(&index, Encoding::Utf32, place(1, 2)) == Some(12));
    Ok(())
}

#[test]
fn changes_are_made_or_refused(rt: HostRuntime) -> Result<(), Fail> {
    let alloc = rt.alloc();
    // Start, end, new text, limit, and the text afterwards, if the change is made.
    let rows = [
        (place(1, 0), place(1, 1), "é", 100, Some("aß\r\né𝕏y\n")),
        (place(0, 9), place(1, 0), "", 100, Some("aß€𝕏y\n")),
        (place(2, 0), place(2, 0), "z", 15, Some("aß\r\n€𝕏y\nz")),
        (place(2, 0), place(2, 0), "z", 14, None),
        (place(1, 2), place(1, 3), "", 100, None),
        (place(1, 3), place(1, 0), "", 100, None),
    ];
    for (start, end, new, limit, after) in rows {
        let mut text = String::from_str(alloc, TEXT)?;
        let change = Change {
            start,
            end,
            text: new,
        };
        let is_made = apply_change(alloc, Encoding::Utf16, limit, &mut text, &change)?;
        assert!(rt; is_made == after.is_some() && text.as_str() == after.unwrap_or(TEXT));
    }
    Ok(())
}

#[test]
fn differences_cut_no_character(rt: HostRuntime) {
    // Two texts, where they differ, and the ends of the differing parts.
    let rows = [
        ("abc", "abc", 3, 3, 3),
        ("abc", "axc", 1, 2, 2),
        ("aß", "aà", 1, 3, 3),
        ("aa", "aaa", 2, 2, 3),
        ("€x", "₭x", 0, 3, 3),
        ("", "ab", 0, 0, 2),
    ];
    for (old, new, start, old_end, new_end) in rows {
        let found = replaced_range(old, new);
        assert!(rt; found.start == start && found.old_end == old_end && found.new_end == new_end);
    }
}
