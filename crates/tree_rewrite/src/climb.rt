//! The up-path from a replaced node to its payload, through the entries of a mapping.
ghost use Rattle.std.specs.Prelude.{◌≡◌, ◌+◌, length, Option, option_map, IfOk};
ghost use Rattle.rowan_green.specs.Forest.{Tree};
ghost use Rattle.syntax_tree.specs.Element.{Way, Element, same_element, element_at};
ghost use Rattle.tree_rewrite.specs.Moved.{way_up, way_to};
ghost use Rattle.tree_rewrite.specs.Climbing.{StandsAt, after_numbers, way_left};

use crate::mapped::MappedNodes;
use std::alloc::{AllocError, Global};
use syntax_tree::SyntaxNode;

/// The payload that a climb looks for, by the number of its tree and its up-path.
#[derive(Clone, Copy)]
struct Goal<'a> {
    tree: u32,
    way: &'a [usize],
}

/// The end of a climb.
enum ClimbEnd<'a> {
    /// The payload was reached.
    Payload,
    /// A root without a mapping entry was reached.
    Root,
    /// A node was reached that is mapped to this one.
    Mapped(&'a SyntaxNode),
}

/// Returns `true` if the payload `goal` is at up-path `way` in the tree with number `tree`. Up-paths
/// of other lengths are not examined.
fn is_at(goal: Goal<'_>, tree: u32, way: &[usize]) -> bool
    ensures { (b : Element) (t : Tree) → StandsAt b goal.entry.tree goal.entry.way.now
        → result ≡ same_element b (element_at tree t way.now) }
{
    goal.tree == tree && goal.way == way
}

/// Walks up from the element at `way` until it reaches the payload, a mapped node or the root.
/// Appends the indices of the elements that it leaves to `numbers`.
fn climb<'m>(
    mapping: &MappedNodes<'m>,
    goal: Goal<'_>,
    tree: u32,
    way: &[usize],
    numbers: &mut Vec<usize>,
) -> Result<ClimbEnd<'m>, AllocError>
    ensures { (on : Element → Option Way) (b : Element) (t : Tree)
        → StandsAt b goal.entry.tree goal.entry.way.now → IfOk result (λ end.
        after_numbers numbers.old.items (way_up on mapping.now b tree t way.now)
        ≡ after_numbers numbers.new.items (way_left on b end)) }
{
    let mut images = mapping.images(tree, way)?;
    let mut rest = way;
    loop {
        if is_at(goal, tree, rest) {
            return Ok(ClimbEnd::Payload);
        }
        if let Some(output) = images.pop().flatten() {
            return Ok(ClimbEnd::Mapped(output));
        }
        let Some((number, up)) = rest.split_first() else {
            return Ok(ClimbEnd::Root);
        };
        numbers.push(*number)?;
        rest = up;
    }
}

/// Returns `true` if the payload `goal` is `other`.
fn is_same(alloc: Global, goal: Goal<'_>, other: &SyntaxNode) -> Result<bool, AllocError>
    ensures { (b : Element) → StandsAt b goal.entry.tree goal.entry.way.now
        → IfOk result (λ r. r ≡ same_element b other.now) }
{
    let way = other.way(alloc)?;
    Ok(is_at(goal, other.tree(), &way))
}

/// Returns the up-path to `payload` from the element at up-path `way` in the tree with number
/// `tree`: child indices, innermost first. From a mapped node it continues at the output of the
/// mapping. Returns `None` if `payload` is not reached.
pub fn way_to(
    alloc: Global,
    mapping: &MappedNodes<'_>,
    payload: &SyntaxNode,
    tree: u32,
    way: &[usize],
) -> Result<Option<Vec<usize>>, AllocError>
    ensures { (t : Tree) → IfOk result (λ r. option_map (λ v. v.items) r
        ≡ way_to (length mapping.now + 1) mapping.now payload.now (element_at tree t way.now)) }
{
    let place = payload.way(alloc)?;
    let goal = Goal {
        tree: payload.tree(),
        way: &place,
    };
    let mut numbers = Vec::new(alloc);
    let mut at = tree;
    let mut rest = Vec::from_slice(alloc, way)?;
    let mut left = mapping.len();
    loop {
        let output = match climb(mapping, goal, at, &rest, &mut numbers)? {
            ClimbEnd::Payload => return Ok(Some(numbers)),
            ClimbEnd::Root => return Ok(None),
            ClimbEnd::Mapped(output) => output,
        };
        if is_same(alloc, goal, output)? {
            return Ok(Some(numbers));
        }
        let Some(parent) = output.parent()? else {
            return Ok(None);
        };
        numbers.push(output.cursor().index())?;
        if left == 0 {
            return Ok(None);
        }
        left -= 1;
        let above = parent.way(alloc)?;
        at = parent.tree();
        rest = above;
    }
}
