//! Executed changes, distributed over the children of a node that they affect, so that no other
//! change is examined at a child.
ghost use Rattle.std.specs.Prelude.{◌≡◌, ◌∷◌, ◌<◌, ℕ, List, [], Some, Option, length, slice_get, IfOk, OnOk};
ghost use Rattle.std.specs.List.{All};
ghost use Rattle.std.specs.Global.{Vec};
ghost use Rattle.syntax_tree.specs.Element.{Way};
ghost use Rattle.tree_rewrite.specs.Rewrite.{Job, same_sheet, puts, terms_of};
ghost use Rattle.tree_rewrite.specs.Recorded.{target_of};
ghost use Rattle.tree_rewrite.specs.Fill.{Given, HavePut};
ghost use Rattle.tree_rewrite.specs.Below.{IsBeyond, LeavesChild, with_row, lists_of};
ghost use Rattle.tree_rewrite.specs.Shown.{IsShown, AreShown, AreSpread, AreAllOn};

use crate::overlay::Overlay;
use crate::sheet::job_of;
use std::alloc::{AllocError, Global};

/// Returns `count` empty lists.
fn empty_lists(alloc: Global, count: usize) -> Result<Vec<Vec<usize>>, AllocError>
    ensures empty { IfOk result (λ v. All (λ u. u.items ≡ []) v.items) }
    ensures count { IfOk result (λ v. length v.items ≡ count) }
{
    let mut lists = Vec::new(alloc);
    for _ in 0..count {
        lists.push(Vec::new(alloc))?;
    }
    Ok(lists)
}

/// Appends `number` to list `start` and to the `more` lists after it, as far as they exist.
fn push_row(
    number: usize,
    start: usize,
    more: usize,
    lists: &mut Vec<Vec<usize>>,
) -> Result<(), AllocError>
    ensures { OnOk result (lists_of lists.new.items
        ≡ with_row number start more (lists_of lists.old.items)) }
{
    let mut index = start;
    let mut left = more;
    while index < lists.len() {
        lists[index].push(number)?;
        if left == 0 {
            return Ok(());
        }
        left -= 1;
        index += 1;
    }
    Ok(())
}

/// Returns the children that the executed change at index `number` may affect in a node at depth
/// `depth`: the index of the first, and the number of further ones. Returns `None` if it affects
/// none.
fn row_of(overlay: &Overlay<'_>, number: usize, depth: usize) -> Option<(usize, usize)>
    ensures { (g : Given) (w : Way) (i : ℕ)
        → IsShown overlay.now number g → length w ≡ depth → IsBeyond result i
        → LeavesChild g.0.change w i }
{
    let job = job_of(overlay, number)?;
    job.row_below(depth)
}

/// Appends `number` to the lists of the children that the executed change at that index may affect.
fn push_number(
    overlay: &Overlay<'_>,
    number: usize,
    depth: usize,
    lists: &mut Vec<Vec<usize>>,
) -> Result<(), AllocError>
    ensures lists { (gs : List Given) (g : Given) (n : Option Way) (w : Way)
        → IsShown overlay.now number g → length w ≡ depth
        → AreSpread overlay.now lists.old.items n w gs
        → OnOk result (AreSpread overlay.now lists.new.items n w (g ∷ gs)) }
    ensures count { OnOk result (length lists.new.items ≡ length lists.old.items) }
{
    match row_of(overlay, number, depth) {
        Some((start, more)) => push_row(number, start, more, lists),
        None => Ok(()),
    }
}

/// Returns a list for each of `count` children of a node at depth `depth`: those of `numbers` whose
/// executed changes may affect the gap before the child, its slot, or the elements below it.
pub fn lists_below(
    overlay: &Overlay<'_>,
    numbers: &[usize],
    depth: usize,
    count: usize,
) -> Result<Vec<Vec<usize>>, AllocError>
    ensures count { IfOk result (λ v. length v.items ≡ count) }
    ensures lists { (gs : List Given) (n : Option Way) (w : Way)
        → AreShown overlay.now numbers.now gs → length w ≡ depth
        → IfOk result (λ v. AreSpread overlay.now v.items n w gs) }
{
    let mut lists = empty_lists(overlay.alloc, count)?;
    for number in numbers {
        push_number(overlay, *number, depth, &mut lists)?;
    }
    Ok(lists)
}

/// Returns the list of the child at index `index`.
pub fn list_at(lists: &[Vec<usize>], index: usize) -> &[usize]
    requires { index < length lists.now }
    ensures { slice_get (lists_of lists.now) index ≡ Some result.now }
{
    lists[index].as_slice()
}

/// Returns `true` if the executed change at index `number` applies to the target tree.
fn is_on(overlay: &Overlay<'_>, number: usize) -> bool
    ensures { (g : Given) → IsShown overlay.now number g
        → result ≡ same_sheet g.0.sheet (target_of overlay.now.target) }
{
    match job_of(overlay, number) {
        Some(job) => job.is_on(overlay.target),
        None => false,
    }
}

/// Appends `number` to `numbers` if the executed change at that index applies to the target
/// tree.
fn push_on(overlay: &Overlay<'_>, number: usize, numbers: &mut Vec<usize>) -> Result<(), AllocError>
    ensures { (j : Job) (js : List Job)
        → IsShown overlay.now number (j, terms_of (puts js) j)
        → AreAllOn overlay.now numbers.old.items js
        → OnOk result (AreAllOn overlay.now numbers.new.items (j ∷ js)) }
{
    if is_on(overlay, number) {
        numbers.push(number)?;
    }
    Ok(())
}

/// Returns the indices of the executed changes that apply to the target tree.
pub fn on_sheet(overlay: &Overlay<'_>) -> Result<Vec<usize>, AllocError>
    ensures { (js : List Job) → HavePut overlay.now.jobs.now overlay.now.made.now js
        → IfOk result (λ v. AreAllOn overlay.now v.items js) }
{
    let mut numbers = Vec::new(overlay.alloc);
    for number in 0..overlay.made.len() {
        push_on(overlay, number, &mut numbers)?;
    }
    Ok(numbers)
}
