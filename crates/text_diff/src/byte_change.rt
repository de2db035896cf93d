//! Changes of lines as ranges of bytes.

ghost use Rattle.std.specs.Prelude.{◌≡◌, ◌<◌, ◌^◌, [], IfOk, List, length, get_or, map};
ghost use Rattle.text_diff.specs.Bytes.{bytes_of, start_of, starts_from};
ghost use Rattle.text_diff.specs.Lines.{joined, lines};
ghost use Rattle.text_diff.specs.Script.{EndsDiffer, IsScript, StartsDiffer};
ghost use Rattle.text_diff.specs.declared.change.Change.{Change};

use crate::change::Change;
use crate::lines::lines;
use crate::script::script;
use std::alloc::{AllocError, Global};

/// Old bytes that are replaced with new ones; either may be none.
#[derive(Clone, Copy, Debug, PartialEq, Eq, Drop)]
pub struct ByteChange {
    /// The offset of the first old byte.
    pub old_start: usize,
    /// The offset after the last old byte.
    pub old_end: usize,
    /// The offset of the first new byte.
    pub new_start: usize,
    /// The offset after the last new byte.
    pub new_end: usize,
}

/// Returns where each line begins, and where the last one ends.
fn starts(alloc: Global, lines: &[&[u8]]) -> Result<Vec<usize>, AllocError>
    requires { length (joined (map (λ l. l.now) lines.now)) < 2 ^ 64 }
    ensures { IfOk result (λ found. found.items ≡ starts_from 0 (map (λ l. l.now) lines.now)) }
{
    let mut found = Vec::new(alloc);
    let mut at = 0;
    for line in lines {
        found.push(at)?;
        at += line.len();
    }
    found.push(at)?;
    Ok(found)
}

/// Returns the offset with this index.
fn offset_at(starts: &[usize], index: usize) -> usize
    ensures { result ≡ get_or starts.now index 0 }
{
    match starts.get(index) {
        Some(offset) => *offset,
        None => 0,
    }
}

/// Returns the bytes of the lines of a change.
fn bytes_of(old: &[usize], new: &[usize], change: &Change) -> ByteChange
    ensures old_start { result.old_start ≡ get_or old.now change.now.old_start 0 }
    ensures old_end { result.old_end ≡ get_or old.now change.now.old_end 0 }
    ensures new_start { result.new_start ≡ get_or new.now change.now.new_start 0 }
    ensures new_end { result.new_end ≡ get_or new.now change.now.new_end 0 }
{
    ByteChange {
        old_start: offset_at(old, change.old_start),
        old_end: offset_at(old, change.old_end),
        new_start: offset_at(new, change.new_start),
        new_end: offset_at(new, change.new_end),
    }
}

/// Returns the bytes of the lines of changes.
fn all_bytes(
    alloc: Global,
    old: &[&[u8]],
    new: &[&[u8]],
    changes: &[Change],
) -> Result<Vec<ByteChange>, AllocError>
    requires old_text { length (joined (map (λ l. l.now) old.now)) < 2 ^ 64 }
    requires new_text { length (joined (map (λ l. l.now) new.now)) < 2 ^ 64 }
    ensures { IfOk result (λ found. found.items
        ≡ map (bytes_of (map (λ l. l.now) old.now) (map (λ l. l.now) new.now)) changes.now) }
{
    let old = starts(alloc, old)?;
    let new = starts(alloc, new)?;
    let mut found = Vec::new(alloc);
    for change in changes {
        found.push(bytes_of(old.as_slice(), new.as_slice(), change))?;
    }
    Ok(found)
}

/// Returns the bytes in which the texts differ, by whole lines: those of the changes of
/// [`line_changes`](crate::line_changes). None if the texts are the same.
///
/// # Errors
///
/// Out of memory.
pub fn byte_changes(alloc: Global, old: &[u8], new: &[u8]) -> Result<Vec<ByteChange>, AllocError>
    ensures changes { IfOk result (λ found. (changes : List Change)
        × IsScript (lines old.now) (lines new.now) changes
        × StartsDiffer (lines old.now) (lines new.now) changes
        × EndsDiffer (lines old.now) (lines new.now) changes
        × (found.items ≡ map (bytes_of (lines old.now) (lines new.now)) changes)) }
    ensures same { IfOk result (λ found. old.now ≡ new.now → found.items ≡ []) }
{
    let old = lines(alloc, old)?;
    let new = lines(alloc, new)?;
    let changes = script(alloc, old.as_slice(), new.as_slice())?;
    let found = all_bytes(alloc, old.as_slice(), new.as_slice(), changes.as_slice())?;
    Ok(found)
}
