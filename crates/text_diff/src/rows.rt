//! Rows of a unified diff.

ghost use Rattle.std.specs.Prelude.{◌≡◌, ◌++◌, OnOk, map, slice_range};
ghost use Rattle.std.specs.List.{flat_map};
ghost use Rattle.text_diff.specs.Hunks.{rows_in};
ghost use Rattle.text_diff.specs.Unified.{is_ended, marked, row_text};

use crate::change::Change;
use std::alloc::AllocError;

/// Returns the lines from `from` to `to`, as far as there are any.
fn part<'a, 'b>(lines: &'b [&'a [u8]], from: usize, to: usize) -> &'b [&'a [u8]]
    ensures { map (λ l. l.now) result.now ≡ slice_range (map (λ l. l.now) lines.now) from to }
{
    let to = to.min(lines.len());
    let from = from.min(to);
    &lines[from..to]
}

/// Returns `true` if `line` has a line feed.
fn is_ended(line: &[u8]) -> bool
    ensures { result ≡ is_ended line.now }
{
    line.contains(&b'\n')
}

/// Appends `line` after `mark`, and a note if it has no line feed.
fn push_row(mark: u8, line: &[u8], text: &mut Vec<u8>) -> Result<(), AllocError>
    ensures { OnOk result (text.new.items ≡ text.old.items ++ marked mark line.now) }
{
    text.push(mark)?;
    text.extend_from_slice(line)?;
    if !is_ended(line) {
        text.extend_from_slice(b"\n\\ No newline at end of file\n")?;
    }
    Ok(())
}

/// Appends `lines`, each after `mark`.
fn push_rows(mark: u8, lines: &[&[u8]], text: &mut Vec<u8>) -> Result<(), AllocError>
    ensures { OnOk result (text.new.items
        ≡ text.old.items ++ flat_map (λ l. marked mark l) (map (λ l. l.now) lines.now)) }
{
    for line in lines {
        push_row(mark, line, text)?;
    }
    Ok(())
}

/// Appends a change as rows.
fn push_change(
    old: &[&[u8]],
    new: &[&[u8]],
    change: &Change,
    text: &mut Vec<u8>,
) -> Result<(), AllocError>
    ensures { OnOk result (text.new.items ≡ text.old.items
        ++ (flat_map (λ l. marked 45 l)
        (slice_range (map (λ l. l.now) old.now) change.now.old_start change.now.old_end)
        ++ flat_map (λ l. marked 43 l)
        (slice_range (map (λ l. l.now) new.now) change.now.new_start change.now.new_end))) }
{
    push_rows(b'-', part(old, change.old_start, change.old_end), text)?;
    push_rows(b'+', part(new, change.new_start, change.new_end), text)
}

/// Appends the rows from old line `from` to old line `to`, with `changes` between.
pub(crate) fn push_group(
    old: &[&[u8]],
    new: &[&[u8]],
    from: usize,
    to: usize,
    changes: &[Change],
    text: &mut Vec<u8>,
) -> Result<(), AllocError>
    ensures { OnOk result (text.new.items ≡ text.old.items ++ flat_map row_text
        (rows_in (map (λ l. l.now) old.now) (map (λ l. l.now) new.now) from changes.now to)) }
{
    let mut at = from;
    for change in changes {
        push_rows(b' ', part(old, at, change.old_start), text)?;
        push_change(old, new, change, text)?;
        at = change.old_end;
    }
    push_rows(b' ', part(old, at, to), text)?;
    Ok(())
}
