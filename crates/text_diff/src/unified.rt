//! The text of a unified diff.

ghost use Rattle.std.specs.Prelude.{◌≡◌, ◌≤◌, ◌<◌, ◌+◌, ◌-◌, ◌^◌, ◌++◌, List, [], Some, OnOk, IfOk, length, map};
ghost use Rattle.std.specs.List.{flat_map};
ghost use Rattle.text_diff.specs.DiffText.{patched_text};
ghost use Rattle.text_diff.specs.Lines.{lines};
ghost use Rattle.text_diff.specs.Script.{IsScript, StartsDiffer};
ghost use Rattle.text_diff.specs.declared.change.Change.{Change};
ghost use Rattle.text_diff.specs.Hunks.{Hunk, is_near, group_len, IsGroup, hunk_of, hunks};
ghost use Rattle.text_diff.specs.Patch.{patched};
ghost use Rattle.text_diff.specs.Unified.{range_text, header_text, hunk_text, unified_text};

use crate::change::Change;
use crate::lines::lines;
use crate::names::push_names;
use crate::rows::push_group;
use crate::script::script;
use std::alloc::{AllocError, Global};

/// How many lines are shown before and after a change.
const CONTEXT: usize = 3;

/// Returns `true` if the context of `change` meets that of `next`.
fn is_near(change: &Change, next: &Change) -> bool
    ensures { result ≡ is_near change.now next.now }
{
    next.old_start <= change.old_end.saturating_add(2 * CONTEXT)
}

/// Returns the number of changes that are in the first hunk.
fn group_len(changes: &[Change]) -> usize
    requires { 0 < length changes.now }
    ensures value { result ≡ group_len changes.now }
    ensures some { 0 < result }
    ensures within { result ≤ length changes.now }
{
    for len in 1..changes.len() {
        if !is_near(&changes[len - 1], &changes[len]) {
            return len;
        }
    }
    changes.len()
}

/// Appends the number of the first of `count` lines after `start` others, and `count`.
fn push_range(
    alloc: Global,
    start: usize,
    count: usize,
    text: &mut Vec<u8>,
) -> Result<(), AllocError>
    requires { start + count < 2 ^ 64 }
    ensures { OnOk result (text.new.items ≡ text.old.items ++ range_text start count) }
{
    let first = if count == 0 { start } else { start + 1 };
    let range = format!(in alloc; "{first},{count}")?;
    text.extend_from_slice(range.as_str().as_bytes())
}

/// Appends the header of the hunk of old lines `old.0` to `old.1` and new lines `new.0` to `new.1`.
fn push_header(
    alloc: Global,
    old: (usize, usize),
    new: (usize, usize),
    text: &mut Vec<u8>,
) -> Result<(), AllocError>
    requires old_order { old.0 ≤ old.1 }
    requires new_order { new.0 ≤ new.1 }
    ensures { OnOk result (text.new.items
        ≡ text.old.items ++ header_text old.0 (old.1 - old.0) new.0 (new.1 - new.0)) }
{
    text.extend_from_slice(b"@@ -")?;
    push_range(alloc, old.0, old.1 - old.0, text)?;
    text.extend_from_slice(b" +")?;
    push_range(alloc, new.0, new.1 - new.0, text)?;
    text.extend_from_slice(b" @@\n")
}

/// Appends the hunk of `group`: changes whose contexts meet.
fn push_hunk(
    alloc: Global,
    old: &[&[u8]],
    new: &[&[u8]],
    group: &[Change],
    text: &mut Vec<u8>,
) -> Result<(), AllocError>
    requires some { 0 < length group.now }
    requires run { IsGroup (map (λ l. l.now) old.now) (map (λ l. l.now) new.now) group.now }
    ensures { OnOk result (text.new.items ≡ text.old.items ++ hunk_text
        (hunk_of (map (λ l. l.now) old.now) (map (λ l. l.now) new.now) group.now)) }
{
    let first = group[0];
    let last = group[group.len() - 1];
    let from = first.old_start.saturating_sub(CONTEXT);
    let to = old.len().min(last.old_end.saturating_add(CONTEXT));
    let new_from = first.new_start - (first.old_start - from);
    let new_to = last.new_end + (to - last.old_end);
    push_header(alloc, (from, to), (new_from, new_to), text)?;
    push_group(old, new, from, to, group, text)?;
    Ok(())
}

/// Appends the hunks of `changes`.
fn push_hunks(
    alloc: Global,
    old: &[&[u8]],
    new: &[&[u8]],
    changes: &[Change],
    text: &mut Vec<u8>,
) -> Result<(), AllocError>
    requires { IsScript (map (λ l. l.now) old.now) (map (λ l. l.now) new.now) changes.now }
    ensures { OnOk result (text.new.items ≡ text.old.items ++ flat_map hunk_text
        (hunks (map (λ l. l.now) old.now) (map (λ l. l.now) new.now) changes.now)) }
{
    let mut rest = changes;
    while !rest.is_empty() {
        let (group, after) = rest.split_at(group_len(rest));
        push_hunk(alloc, old, new, group, text)?;
        rest = after;
    }
    Ok(())
}

/// Returns the text of the hunks of `changes`.
fn diff_text(
    alloc: Global,
    path: &str,
    old: &[&[u8]],
    new: &[&[u8]],
    changes: &[Change],
) -> Result<Vec<u8>, AllocError>
    requires { IsScript (map (λ l. l.now) old.now) (map (λ l. l.now) new.now) changes.now }
    ensures { IfOk result (λ text. text.items ≡ unified_text path.now
        (hunks (map (λ l. l.now) old.now) (map (λ l. l.now) new.now) changes.now)) }
{
    let mut text = Vec::new(alloc);
    if changes.is_empty() {
        return Ok(text);
    }
    push_names(path, &mut text)?;
    push_hunks(alloc, old, new, changes, &mut text)?;
    Ok(text)
}

/// Returns a unified diff that makes `new` of `old`, or nothing if the texts are the same.
///
/// `path` names both texts, after `a/` and `b/`; in quotes, as `git` has them, if it has a control
/// character, a quote or a backslash. `patch -p1` and `git apply` read it.
///
/// # Errors
///
/// Out of memory.
pub fn unified_diff(
    alloc: Global,
    path: &str,
    old: &[u8],
    new: &[u8],
) -> Result<Vec<u8>, AllocError>
    ensures patches { IfOk result (λ text. (hs : List Hunk)
        × (text.items ≡ unified_text path.now hs)
        × (patched hs (lines old.now) ≡ Some (lines new.now))) }
    ensures hunks { IfOk result (λ text. (changes : List Change)
        × IsScript (lines old.now) (lines new.now) changes
        × StartsDiffer (lines old.now) (lines new.now) changes
        × (text.items ≡ unified_text path.now
        (hunks (lines old.now) (lines new.now) changes))) }
    ensures applies { IfOk result (λ text. patched_text text.items old.now ≡ Some new.now) }
    ensures same { IfOk result (λ text. old.now ≡ new.now → text.items ≡ []) }
{
    let old = lines(alloc, old)?;
    let new = lines(alloc, new)?;
    let changes = script(alloc, old.as_slice(), new.as_slice())?;
    let text = diff_text(
        alloc,
        path,
        old.as_slice(),
        new.as_slice(),
        changes.as_slice(),
    )?;
    Ok(text)
}
