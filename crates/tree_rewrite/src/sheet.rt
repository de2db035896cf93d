//! Contents of the gaps and slots of an overlay's target tree after some executed changes. Only the
//! executed changes whose indices are given are examined.
ghost use Rattle.std.specs.Prelude.{◌≡◌, List, Some, ℕ, ◌&&◌, length, slice_get, is_some, if◌then◌else◌, IfOk, OnOk};
ghost use Rattle.std.specs.Bool.{OnFalse};
ghost use Rattle.std.specs.List.{list_any};
ghost use Rattle.std.specs.Option.{option_copied};
ghost use Rattle.syntax_tree.specs.Element.{Way, same_way};
ghost use Rattle.tree_rewrite.specs.Marked.{Marked, nothing, gap, slot};
ghost use Rattle.tree_rewrite.specs.Rewrite.{Job, same_sheet, sets, first_way};
ghost use Rattle.tree_rewrite.specs.Recorded.{target_of};
ghost use Rattle.tree_rewrite.specs.Fill.{Given, IsGiven, touches, is_deep_on, AreAlong, IsBlankBelow, at_gap, at_slot};
ghost use Rattle.tree_rewrite.specs.Shown.{IsShown, AreShown, shown};
ghost use Rattle.tree_rewrite.specs.Pieces.{Adds};

use crate::job::Job;
use crate::overlay::Overlay;
use crate::path::Path;
use crate::piece::{Piece, Put, push_pieces};
use std::alloc::AllocError;

/// Returns the planned change of the executed change at index `number`.
pub(crate) fn job_of<'a>(overlay: &Overlay<'a>, number: usize) -> Option<&'a Job>
    ensures { (g : Given) → IsShown overlay.now number g → option_copied result ≡ Some g.0 }
{
    let put = overlay.made.get(number)?;
    overlay.jobs.get(put.number)
}

/// Returns `true` if the executed change at index `number` inserts into gap `index` of the node at
/// `path` in the target tree.
fn sets_gap(overlay: &Overlay<'_>, number: usize, path: &Path, index: usize) -> bool
    ensures { (g : Given) → IsShown overlay.now number g
        → result ≡ (same_sheet g.0.sheet (target_of overlay.now.target)
        && sets g.0.change (gap path.now index)) }
{
    match job_of(overlay, number) {
        Some(job) => job.sets_gap(overlay.target, path, index),
        None => false,
    }
}

/// Returns `true` if the executed change at index `number` replaces the element at `path` in
/// the target tree.
fn sets_slot(overlay: &Overlay<'_>, number: usize, path: &Path) -> bool
    ensures { (g : Given) → IsShown overlay.now number g
        → result ≡ (same_sheet g.0.sheet (target_of overlay.now.target)
        && sets g.0.change (slot path.now)) }
{
    match job_of(overlay, number) {
        Some(job) => job.sets_slot(overlay.target, path),
        None => false,
    }
}

/// Returns `true` if `path` leads to the first element that the executed change at index `number`
/// replaces; for an insertion, if `path` leads to the root.
fn begins_at(overlay: &Overlay<'_>, number: usize, path: &Path) -> bool
    ensures { (g : Given) → IsShown overlay.now number g
        → result ≡ same_way (first_way g.0.change) path.now }
{
    match job_of(overlay, number) {
        Some(job) => job.begins_at(path),
        None => false,
    }
}

/// Appends the pieces that the executed changes at `numbers` inserted into gap `index` of the node
/// at `path` in the target tree, the last executed change first.
pub fn push_gap(
    overlay: &Overlay<'_>,
    numbers: &[usize],
    path: &Path,
    index: usize,
    pieces: &mut Vec<Piece>,
) -> Result<(), AllocError>
    ensures { (gs : List Given) → AreShown overlay.now numbers.now gs → OnOk result
        (Adds pieces.old.items pieces.new.items
        (at_gap gs (target_of overlay.now.target) path.now index)) }
{
    let mut rest = numbers;
    while let Some((number, before)) = rest.split_last() {
        let is_there = sets_gap(overlay, *number, path, index);
        push_if(is_there, overlay.made, *number, pieces)?;
        rest = before;
    }
    Ok(())
}

/// Returns the executed change at index `number`.
fn put_at(made: &[Put], number: usize) -> Option<&Put>
    ensures { option_copied result ≡ slice_get made.now number }
{
    made.get(number)
}

/// Appends the pieces of the executed change at index `number`.
fn push_put(made: &[Put], number: usize, pieces: &mut Vec<Piece>) -> Result<(), AllocError>
    ensures { (js : List Job) (g : Given) → IsGiven js (slice_get made.now number) g → OnOk result
        (Adds pieces.old.items pieces.new.items g.1) }
{
    if let Some(put) = put_at(made, number) {
        push_pieces(&put.pieces, pieces)?;
    }
    Ok(())
}

/// Appends the pieces of the executed change at index `number` if `is_there`.
fn push_if(
    is_there: bool,
    made: &[Put],
    number: usize,
    pieces: &mut Vec<Piece>,
) -> Result<(), AllocError>
    ensures { (js : List Job) (g : Given) → IsGiven js (slice_get made.now number) g → OnOk result
        (Adds pieces.old.items pieces.new.items (if is_there then g.1 else nothing)) }
{
    if is_there {
        push_put(made, number, pieces)?;
    }
    Ok(())
}

/// Appends the pieces that replace the element at `path` in the target tree. Returns
/// `true` if the element is replaced.
pub fn push_slot(
    overlay: &Overlay<'_>,
    numbers: &[usize],
    path: &Path,
    pieces: &mut Vec<Piece>,
) -> Result<bool, AllocError>
    ensures replaced { (gs : List Given) → AreShown overlay.now numbers.now gs
        → IfOk result (λ b. b ≡ is_some (shown overlay.now gs (slot path.now))) }
    ensures added { (gs : List Given) → AreShown overlay.now numbers.now gs → OnOk result
        (Adds pieces.old.items pieces.new.items
        (at_slot gs (target_of overlay.now.target) path.now)) }
{
    let mut rest = numbers;
    while let Some((number, before)) = rest.split_last() {
        if sets_slot(overlay, *number, path) {
            push_if(
                begins_at(overlay, *number, path),
                overlay.made,
                *number,
                pieces,
            )?;
            return Ok(true);
        }
        rest = before;
    }
    Ok(false)
}

/// Returns `true` if the executed change at index `number` affects, in the target tree,
/// children of an element at depth `depth`, or elements below these.
fn is_deep(overlay: &Overlay<'_>, number: usize, depth: usize) -> bool
    ensures { (g : Given) → IsShown overlay.now number g
        → result ≡ is_deep_on (target_of overlay.now.target) depth g }
{
    match job_of(overlay, number) {
        Some(job) => job.is_deep(overlay.target, depth),
        None => true,
    }
}

/// Returns `true` if one of the executed changes at `numbers` affects elements below one at depth
/// `depth` in the target tree. Only depths are compared: each of them must lead through that
/// element if it leads as deep, as those do that `lists_below` lists for it. If the result is
/// `false`, the elements below are unchanged.
pub fn is_touched(overlay: &Overlay<'_>, numbers: &[usize], depth: usize) -> bool
    ensures touched { (gs : List Given) (w : Way)
        → AreShown overlay.now numbers.now gs → length w ≡ depth → AreAlong w gs
        → result ≡ list_any (touches (target_of overlay.now.target) w) gs }
    ensures blank { (gs : List Given) (w : Way)
        → AreShown overlay.now numbers.now gs → length w ≡ depth
        → OnFalse result (IsBlankBelow gs (target_of overlay.now.target) w) }
{
    let mut rest = numbers;
    while let Some((number, before)) = rest.split_last() {
        if is_deep(overlay, *number, depth) {
            return true;
        }
        rest = before;
    }
    false
}
