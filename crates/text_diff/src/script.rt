//! Edit scripts over lines.

ghost use Rattle.std.specs.Prelude.{◌≡◌, ◌≤◌, ◌<◌, ◌+◌, ◌-◌, ◌↔◌, [], IsTrue, IfOk, IfSome, length, get_or, map};
ghost use Rattle.text_diff.specs.Lines.{lines};
ghost use Rattle.text_diff.specs.Script.{EndsDiffer, IsAhead, IsSamePair, IsScript, LastDiffer, StartsDiffer};

use crate::change::Change;
use crate::lines::lines;
use std::alloc::{AllocError, Global};

/// The maximum number of lines, old and new together, over which equal lines are sought.
const REACH: usize = 256;

/// Returns `true` if there are an old line `i` and a new line `j`, and they are the same.
fn is_same(old: &[&[u8]], new: &[&[u8]], i: usize, j: usize) -> bool
    ensures { IsTrue result ↔ (i < length old.now) × (j < length new.now)
        × (get_or (map (λ l. l.now) old.now) i [] ≡ get_or (map (λ l. l.now) new.now) j []) }
{
    if i >= old.len() || j >= new.len() {
        return false;
    }
    old[i] == new[j]
}

/// Returns the nearest lines after `i` and `j` that are the same, if they are in reach.
fn next_same(old: &[&[u8]], new: &[&[u8]], i: usize, j: usize) -> Option<(usize, usize)>
    requires old_line { i ≤ length old.now }
    requires new_line { j ≤ length new.now }
    requires differ { IsSamePair (map (λ l. l.now) old.now) (map (λ l. l.now) new.now) i j → ⊥ }
    ensures ahead { IfSome result
        (λ at. IsAhead (length old.now) (length new.now) i j at.0 at.1) }
    ensures last { IfSome result (λ at.
        LastDiffer (map (λ l. l.now) old.now) (map (λ l. l.now) new.now) i j at.0 at.1) }
{
    for distance in 1..REACH {
        for removed in 0..distance + 1 {
            let p = i + removed;
            let q = j + (distance - removed);
            if is_same(old, new, p, q) {
                return Some((p, q));
            }
        }
    }
    None
}

/// Returns the number of lines at the end that are the same, at most `most`.
fn same_end(old: &[&[u8]], new: &[&[u8]], most: usize) -> usize
    requires old_lines { most ≤ length old.now }
    requires new_lines { most ≤ length new.now }
    ensures most { result ≤ most }
    ensures last { result < most
        → get_or (map (λ l. l.now) old.now) (length old.now - 1 - result) []
        ≡ get_or (map (λ l. l.now) new.now) (length new.now - 1 - result) [] → ⊥ }
{
    for k in 0..most {
        if old[old.len() - 1 - k] != new[new.len() - 1 - k] {
            return k;
        }
    }
    most
}

/// Returns where a change that starts at `i` and `j` ends: before the nearest lines that are the
/// same, or, if none are in reach, before the lines at the end that are the same.
fn change_end(old: &[&[u8]], new: &[&[u8]], i: usize, j: usize) -> (usize, usize)
    requires old_line { i ≤ length old.now }
    requires new_line { j ≤ length new.now }
    requires some_left { i + j < length old.now + length new.now }
    requires differ { IsSamePair (map (λ l. l.now) old.now) (map (λ l. l.now) new.now) i j → ⊥ }
    ensures ahead { IsAhead (length old.now) (length new.now) i j result.0 result.1 }
    ensures last { LastDiffer (map (λ l. l.now) old.now) (map (λ l. l.now) new.now)
        i j result.0 result.1 }
{
    if let Some(at) = next_same(old, new, i, j) {
        return at;
    }
    let old_left = old.len() - i;
    let new_left = new.len() - j;
    let most = old_left.min(new_left).min(old_left.max(new_left) - 1);
    let same = same_end(old, new, most);
    (old.len() - same, new.len() - same)
}

/// Returns a script that leads from the old lines to the new ones, in linear time.
pub(crate) fn script(alloc: Global, old: &[&[u8]], new: &[&[u8]]) -> Result<Vec<Change>, AllocError>
    ensures script { IfOk result (λ changes.
        IsScript (map (λ l. l.now) old.now) (map (λ l. l.now) new.now) changes.items) }
    ensures differ { IfOk result (λ changes.
        StartsDiffer (map (λ l. l.now) old.now) (map (λ l. l.now) new.now) changes.items) }
    ensures ends_differ { IfOk result (λ changes.
        EndsDiffer (map (λ l. l.now) old.now) (map (λ l. l.now) new.now) changes.items) }
    ensures same { IfOk result (λ changes.
        map (λ l. l.now) old.now ≡ map (λ l. l.now) new.now → changes.items ≡ []) }
{
    let mut changes = Vec::new(alloc);
    let mut i = 0;
    let mut j = 0;
    while i < old.len() || j < new.len() {
        if is_same(old, new, i, j) {
            i += 1;
            j += 1;
        } else {
            let (old_end, new_end) = change_end(old, new, i, j);
            changes.push(Change {
                old_start: i,
                old_end,
                new_start: j,
                new_end,
            })?;
            i = old_end;
            j = new_end;
        }
    }
    Ok(changes)
}

/// Returns the changes that lead from the lines of `old` to those of `new`, in linear time: none if
/// the texts are the same.
///
/// # Errors
///
/// Out of memory.
pub fn line_changes(alloc: Global, old: &[u8], new: &[u8]) -> Result<Vec<Change>, AllocError>
    ensures script { IfOk result (λ changes.
        IsScript (lines old.now) (lines new.now) changes.items) }
    ensures differ { IfOk result (λ changes.
        StartsDiffer (lines old.now) (lines new.now) changes.items) }
    ensures ends_differ { IfOk result (λ changes.
        EndsDiffer (lines old.now) (lines new.now) changes.items) }
    ensures same { IfOk result (λ changes. old.now ≡ new.now → changes.items ≡ []) }
{
    let old = lines(alloc, old)?;
    let new = lines(alloc, new)?;
    let changes = script(alloc, old.as_slice(), new.as_slice())?;
    Ok(changes)
}
