//! Lists of elements that are joined from parts of other lists, and share them.
ghost use Rattle.std.specs.Prelude.{◌≡◌, ◌+◌, ◌<◌, ◌≤◌, ◌++◌, max, length, take, drop, IfOk, IfErr, OnOk, false};
ghost use Rattle.std.specs.Bool.{OnTrue};
ghost use Rattle.rowan_green.specs.Term.{FitsNode, spliced};
ghost use Rattle.rowan_green.specs.Refusal.{RefusesUnless};
ghost use Rattle.rowan_green.specs.Balanced.{CanJoin, join, IsJoinHeight};

use crate::element::GreenElement;
use crate::element_clones::push_clones;
use crate::element_list::{ElementList, FEWEST, MOST, Part};
use crate::error::GreenError;
use std::alloc::{AllocError, Global};
use std::rc::Rc;

/// Returns the fork of two lists whose heights differ by at most 1.
fn forked(alloc: Global, left: &Rc<Part>, right: &Rc<Part>) -> Result<Rc<Part>, AllocError>
    requires { CanJoin 1 left.now.value right.now.value }
    ensures { IfOk result (λ l. l.value ≡ join left.now.value right.now.value) }
{
    let list = Part::fork(left.clone()?, right.clone()?);
    Ok(Rc::new(alloc, list)?)
}

/// Returns the list of both, where `left`'s height is greater by 2.
fn lean_left(alloc: Global, left: &Rc<Part>, right: &Rc<Part>) -> Result<Rc<Part>, AllocError>
    requires higher { left.now.value.1 ≡ right.now.value.1 + 2 }
    requires count { 8 ≤ length right.now.value.0 }
    requires fits { FitsNode (left.now.value.0 ++ right.now.value.0) }
    ensures terms { IfOk result (λ l. l.value.0 ≡ left.now.value.0 ++ right.now.value.0) }
    ensures not_lower { IfOk result (λ l. left.now.value.1 ≤ l.value.1) }
    ensures not_higher { IfOk result (λ l. l.value.1 ≤ left.now.value.1 + 1) }
{
    let Some((outer, inner)) = left.sides(alloc)? else {
        unreachable!()
    };
    if outer.height() >= inner.height() {
        let below = forked(alloc, &inner, right)?;
        return forked(alloc, &outer, &below);
    }
    let Some((front, back)) = inner.sides(alloc)? else {
        unreachable!()
    };
    let below_left = forked(alloc, &outer, &front)?;
    let below_right = forked(alloc, &back, right)?;
    forked(alloc, &below_left, &below_right)
}

/// Returns the list of both, where `right`'s height is greater by 2.
fn lean_right(alloc: Global, left: &Rc<Part>, right: &Rc<Part>) -> Result<Rc<Part>, AllocError>
    requires higher { right.now.value.1 ≡ left.now.value.1 + 2 }
    requires count { 8 ≤ length left.now.value.0 }
    requires fits { FitsNode (left.now.value.0 ++ right.now.value.0) }
    ensures terms { IfOk result (λ l. l.value.0 ≡ left.now.value.0 ++ right.now.value.0) }
    ensures not_lower { IfOk result (λ l. right.now.value.1 ≤ l.value.1) }
    ensures not_higher { IfOk result (λ l. l.value.1 ≤ right.now.value.1 + 1) }
{
    let Some((inner, outer)) = right.sides(alloc)? else {
        unreachable!()
    };
    if outer.height() >= inner.height() {
        let below = forked(alloc, left, &inner)?;
        return forked(alloc, &below, &outer);
    }
    let Some((front, back)) = inner.sides(alloc)? else {
        unreachable!()
    };
    let below_left = forked(alloc, left, &front)?;
    let below_right = forked(alloc, &back, &outer)?;
    forked(alloc, &below_left, &below_right)
}

/// Returns the list of both, whose heights differ by at most 2.
fn balanced(alloc: Global, left: &Rc<Part>, right: &Rc<Part>) -> Result<Rc<Part>, AllocError>
    requires { CanJoin 2 left.now.value right.now.value }
    ensures terms { IfOk result (λ l. l.value.0 ≡ left.now.value.0 ++ right.now.value.0) }
    ensures height { IfOk result (λ l. IsJoinHeight left.now.value.1 right.now.value.1 l.value.1) }
{
    let (left_height, right_height) = (left.height(), right.height());
    if left_height > right_height + 1 {
        lean_left(alloc, left, right)
    } else if right_height > left_height + 1 {
        lean_right(alloc, left, right)
    } else {
        forked(alloc, left, right)
    }
}

/// Returns the list of at most 32 elements, in one block or in two.
fn in_blocks(alloc: Global, mut elements: Vec<GreenElement>) -> Result<Rc<Part>, AllocError>
    requires few { length elements.items ≤ 32 }
    requires fits { FitsNode elements.items }
    ensures terms { IfOk result (λ l. l.value.0 ≡ elements.items) }
    ensures low { IfOk result (λ l. l.value.1 ≤ 1) }
{
    if elements.len() <= MOST {
        return Ok(Rc::new(alloc, Part::few(elements))?);
    }
    let back = elements.split_off(elements.len() / 2)?;
    let left = Rc::new(alloc, Part::block(elements))?;
    let right = Rc::new(alloc, Part::block(back))?;
    forked(alloc, &left, &right)
}

/// Returns the list of both, each of at most 16 elements.
fn merged(alloc: Global, left: &Part, right: &Part) -> Result<Rc<Part>, AllocError>
    requires left { length left.now.0 ≤ 16 }
    requires right { length right.now.0 ≤ 16 }
    requires fits { FitsNode (left.now.0 ++ right.now.0) }
    ensures terms { IfOk result (λ l. l.value.0 ≡ left.now.0 ++ right.now.0) }
    ensures low { IfOk result (λ l. l.value.1 ≤ 1) }
{
    let mut elements = Vec::with_capacity(alloc, left.len() + right.len())?;
    push_clones(&mut elements, left.list(), 0, left.len())?;
    push_clones(&mut elements, right.list(), 0, right.len())?;
    in_blocks(alloc, elements)
}

/// Returns the list of both, which shares all parts but those along the seam.
pub(crate) fn joined(
    alloc: Global,
    left: &Rc<Part>,
    right: &Rc<Part>,
) -> Result<Rc<Part>, AllocError>
    requires { FitsNode (left.now.value.0 ++ right.now.value.0) }
    ensures terms { IfOk result (λ l. l.value.0 ≡ left.now.value.0 ++ right.now.value.0) }
    ensures not_lower { IfOk result (λ l. max left.now.value.1 right.now.value.1 ≤ l.value.1) }
    ensures not_higher { IfOk result (λ l. l.value.1 ≤ max left.now.value.1 right.now.value.1 + 1) }
{
    let (left_height, right_height) = (left.height(), right.height());
    if left_height == 0 && right_height == 0 {
        return merged(alloc, left, right);
    }
    if left_height > right_height + 1 || right.len() < FEWEST {
        let Some((outer, inner)) = left.sides(alloc)? else {
            unreachable!()
        };
        let seam = joined(alloc, &inner, right)?;
        return balanced(alloc, &outer, &seam);
    }
    if right_height > left_height + 1 || left.len() < FEWEST {
        let Some((inner, outer)) = right.sides(alloc)? else {
            unreachable!()
        };
        let seam = joined(alloc, left, &inner)?;
        return balanced(alloc, &seam, &outer);
    }
    forked(alloc, left, right)
}

/// Returns the elements of a block from index `start` to before `end`.
fn part_of_block(
    alloc: Global,
    list: &Part,
    start: usize,
    end: usize,
) -> Result<Rc<Part>, AllocError>
    requires few { length list.now.0 ≤ 16 }
    requires fits { FitsNode list.now.0 }
    requires ordered { start ≤ end }
    requires in_bounds { end ≤ length list.now.0 }
    ensures { IfOk result (λ l. l.value ≡ (drop start (take end list.now.0), 0)) }
{
    let mut elements = Vec::with_capacity(alloc, end - start)?;
    push_clones(&mut elements, list.list(), start, end)?;
    Ok(Rc::new(alloc, Part::few(elements))?)
}

/// Returns the first `count` elements of a list.
pub(crate) fn first(alloc: Global, list: &Rc<Part>, count: usize) -> Result<Rc<Part>, AllocError>
    requires { count ≤ length list.now.value.0 }
    ensures { IfOk result (λ l. l.value.0 ≡ take count list.now.value.0) }
{
    if count == list.len() {
        return list.clone();
    }
    let Some((left, right)) = list.sides(alloc)? else {
        return part_of_block(alloc, list, 0, count);
    };
    let before = left.len();
    if count <= before {
        return first(alloc, &left, count);
    }
    let more = first(alloc, &right, count - before)?;
    joined(alloc, &left, &more)
}

/// Returns the elements of a list from index `start` on.
pub(crate) fn last(alloc: Global, list: &Rc<Part>, start: usize) -> Result<Rc<Part>, AllocError>
    requires { start ≤ length list.now.value.0 }
    ensures { IfOk result (λ l. l.value.0 ≡ drop start list.now.value.0) }
{
    if start == 0 {
        return list.clone();
    }
    let Some((left, right)) = list.sides(alloc)? else {
        return part_of_block(alloc, list, start, list.len());
    };
    let before = left.len();
    if start >= before {
        return last(alloc, &right, start - before);
    }
    let more = last(alloc, &left, start)?;
    joined(alloc, &more, &right)
}

/// Returns the list with the elements from index `start` to before `end` replaced by those of
/// `middle`.
pub(crate) fn splice(
    alloc: Global,
    list: &ElementList,
    start: usize,
    end: usize,
    middle: &Rc<Part>,
) -> Result<Part, GreenError>
    requires ordered { start ≤ end }
    requires in_bounds { end ≤ length list.now.0 }
    ensures ok { IfOk result (λ l. l.0 ≡ spliced list.now.0 start end middle.now.value.0) }
    ensures fits { OnOk result (FitsNode (spliced list.now.0 start end middle.now.value.0)) }
    ensures refused { IfErr result
        (RefusesUnless (FitsNode (spliced list.now.0 start end middle.now.value.0))) }
{
    let whole = Rc::new(alloc, list.copy(alloc)?)?;
    let front = first(alloc, &whole, start)?;
    let back = last(alloc, &whole, end)?;
    if !fit_together(&front, middle, &back) {
        return Err(GreenError::TooLong);
    }
    let front = joined(alloc, &front, middle)?;
    let all = joined(alloc, &front, &back)?;
    Ok(all.list().copy(alloc)?)
}

/// Returns `true` if a node may have the elements of all three lists.
#[tactic(auto, using(crate::proofs::Joining::thirds))]
fn fit_together(front: &Part, middle: &Part, back: &Part) -> bool
    ensures fit { OnTrue result (FitsNode (front.now.0 ++ middle.now.0 ++ back.now.0)) }
    ensures too_long { result ≡ false → FitsNode (front.now.0 ++ middle.now.0 ++ back.now.0) → ⊥ }
{
    let count = front.len() + middle.len() + back.len();
    let text = u64::from(front.text_len())
        + u64::from(middle.text_len())
        + u64::from(back.text_len());
    if count > u32::MAX as usize || text > u64::from(u32::MAX) {
        return false;
    }
    true
}
