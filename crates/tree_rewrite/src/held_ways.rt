//! The index of the change that replaces an element, by the up-path of the element.
ghost use Rattle.std.specs.Prelude.{◌≡◌, ◌+◌, ◌<◌, ◌∷◌, ◌^◌, [], true, is_none, IfOk, IfSome, OnOk};
ghost use Rattle.std.specs.List.{All};
ghost use Rattle.tree_rewrite.specs.Change.{covers, replace, replaces, has_collision};
ghost use Rattle.tree_rewrite.specs.Held.{IsPutOrTaken, FitsRow, Holds};
ghost use Rattle.tree_rewrite.specs.WayTrie.{IsSound};

use crate::tree_change::{Target, TreeChange};
use crate::way_trie::WayTrie;
use std::alloc::{AllocError, Global};

/// Assigns `number` to the children `start` to `start + more` of the node at up-path `above`.
/// Returns `false` if one of them already has a number.
fn put_children(
    start: usize,
    above: &[usize],
    more: usize,
    number: usize,
    held: &mut WayTrie,
) -> Result<bool, AllocError>
    requires row { start + more < 2 ^ 64 }
    requires sound { IsSound held.old }
    ensures put { IfOk result
        (IsPutOrTaken (covers (start ∷ above.now) more) number held.old held.new) }
    ensures sound { OnOk result (IsSound held.new) }
{
    let parent = held.enter_way(above)?;
    let mut step = 0;
    loop {
        if !held.put_child(parent, start + step, number)? {
            return Ok(false);
        }
        if step == more {
            return Ok(true);
        }
        step += 1;
    }
}

/// Assigns `number` to the elements of a range of siblings. Returns `false` if one of them already
/// has a number.
fn put_row(
    first: &[usize],
    more: usize,
    number: usize,
    held: &mut WayTrie,
) -> Result<bool, AllocError>
    requires row { FitsRow (replace first.now more [] true) }
    requires sound { IsSound held.old }
    ensures put { IfOk result (IsPutOrTaken (covers first.now more) number held.old held.new) }
    ensures sound { OnOk result (IsSound held.new) }
{
    match first.split_first() {
        Some((start, above)) => put_children(*start, above, more, number, held),
        None => held.put_free(&[], number),
    }
}

/// Assigns `number` to the elements that `change` replaces. Returns `false` if one of them already
/// has a number.
fn put_change(change: &TreeChange, number: usize, held: &mut WayTrie) -> Result<bool, AllocError>
    requires row { FitsRow change.now }
    requires sound { IsSound held.old }
    ensures put { IfOk result (IsPutOrTaken (replaces change.now) number held.old held.new) }
    ensures sound { OnOk result (IsSound held.new) }
{
    match change.target() {
        Target::Gap { .. } => Ok(true),
        Target::Slots { first, more, .. } => put_row(first, *more, number, held),
    }
}

/// Returns a trie from the up-path of each replaced element to the index of the change that
/// replaces it; `None` if two changes replace the same element.
pub fn held_ways(alloc: Global, changes: &[TreeChange]) -> Result<Option<WayTrie>, AllocError>
    requires { All FitsRow changes.now }
    ensures collision { IfOk result (λ held. is_none held ≡ has_collision changes.now) }
    ensures holds { IfOk result (λ held. IfSome held (λ m. Holds m changes.now)) }
{
    let mut held = WayTrie::new(alloc)?;
    for (number, change) in changes.iter().enumerate() {
        if !put_change(change, number, &mut held)? {
            return Ok(None);
        }
    }
    Ok(Some(held))
}
