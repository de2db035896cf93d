//! Recorded changes that name their elements by up-paths.
ghost use Rattle.std.specs.Prelude.{◌≡◌, ◌∷◌, List, ℕ, length, reverse, false, map, IfOk};
ghost use Rattle.syntax_tree.specs.Element.{Element};
ghost use Rattle.syntax_tree.specs.Handle.{element_of};
ghost use Rattle.syntax_tree.specs.Element.{Way, same_way};
ghost use Rattle.tree_rewrite.specs.Marked.{gap, slot};
ghost use Rattle.tree_rewrite.specs.Reach.{is_deep};
ghost use Rattle.tree_rewrite.specs.Change.{is_within};
ghost use Rattle.tree_rewrite.specs.Below.{IsBeyond, LeavesChild};
ghost use Rattle.tree_rewrite.specs.Rewrite.{payload_of, sets, first_way};
ghost use Rattle.tree_rewrite.specs.Orders.{same_gap_at};
ghost use Rattle.tree_rewrite.specs.Recorded.{change_of};

use crate::path::Path;
use crate::ways::{covers_path, has_path};
use std::alloc::{AllocError, Global};
use std::marker::Model;
use syntax_tree::SyntaxElement;

/// The target of a change.
#[derive(Drop)]
pub enum Target {
    /// The gap before child `index` of the node at up-path `parent`, or after its last child.
    Gap {
        parent: Vec<usize>,
        index: usize,
    },
    /// The element at up-path `first` and the `more` siblings after it; `single` if the change
    /// names a single element.
    Slots {
        first: Vec<usize>,
        more: usize,
        single: bool,
    },
}

impl Target {
    /// Returns a copy of the target.
    fn copied(&self, alloc: Global) -> Result<Target, AllocError>
        ensures { (es : List Element) → IfOk result (λ t. change_of t es ≡ change_of self.now es) }
    {
        match self {
            Target::Gap { parent, index } => Ok(Target::Gap {
                parent: Vec::from_slice(alloc, parent)?,
                index: *index,
            }),
            Target::Slots {
                first,
                more,
                single,
            } => Ok(Target::Slots {
                first: Vec::from_slice(alloc, first)?,
                more: *more,
                single: *single,
            }),
        }
    }
}

/// Returns clones of `elements`.
fn copies(alloc: Global, elements: &[SyntaxElement]) -> Result<Vec<SyntaxElement>, AllocError>
    ensures { IfOk result (λ v. v.items ≡ elements.now) }
{
    let mut copies = Vec::new(alloc);
    for element in elements {
        copies.push(element.clone()?)?;
    }
    Ok(copies)
}

/// Returns the child, of a node at depth `depth`, through which `way` leads: its index, and 0
/// further children. Returns `None` if `way` does not lead below that depth.
fn row_through(way: &[usize], depth: usize) -> Option<(usize, usize)>
    ensures { (w : Way) (i : ℕ) → length w ≡ depth → IsBeyond result i
        → is_within (i ∷ w) 0 way.now ≡ false }
{
    if depth >= way.len() {
        return None;
    }
    Some((way[way.len() - 1 - depth], 0))
}

/// A change of a tree, which names its elements by up-paths.
pub struct TreeChange {
    target: Target,
    new: Vec<SyntaxElement>,
}

// Not derived: a derived drop is opened field by field in each function that drops one.
impl Drop for TreeChange {
    fn drop(self) {
        let TreeChange {
            target: _target,
            new: _new,
        } = self;
    }
}

impl Model for TreeChange {
    ghost use Rattle.std.specs.Prelude.{map};
    ghost use Rattle.std.specs.Coded.{codes};
    ghost use Rattle.rowan_green.specs.Forest.{tree_code};
    ghost use Rattle.syntax_tree.specs.Handle.{element_of};
    ghost use Rattle.tree_rewrite.specs.Change.{Change};
    ghost use Rattle.tree_rewrite.specs.Recorded.{change_of};

    ghost Value = { Change };

    ghost coded = { Prim.hlevel (codes, tree_code) };

    ghost view = { λ c. change_of c.target (map element_of c.new.items) };
}

impl TreeChange {
    /// Creates a change that inserts the elements `new` at `target`, or replaces the elements there
    /// by them.
    pub fn new(target: Target, new: Vec<SyntaxElement>) -> TreeChange
        ensures { result ≡ change_of target (map element_of new.items) }
    {
        TreeChange { target, new }
    }

    /// Returns the target.
    pub(crate) fn target(&self) -> &Target
        ensures { (es : List Element) × (self.now ≡ change_of result.now es) }
    {
        &self.target
    }

    /// Returns the inserted elements.
    pub fn payload(&self) -> &[SyntaxElement]
        ensures { map element_of result.now ≡ payload_of self.now }
    {
        &self.new
    }

    /// Returns a change of `target` with the same inserted elements.
    pub fn moved_to(&self, alloc: Global, target: Target) -> Result<TreeChange, AllocError>
        ensures { IfOk result (λ c. c ≡ change_of target (payload_of self.now)) }
    {
        let new = copies(alloc, &self.new)?;
        Ok(TreeChange { target, new })
    }

    /// Returns a copy of the change.
    pub fn copied(&self, alloc: Global) -> Result<TreeChange, AllocError>
        ensures { IfOk result (λ c. c ≡ self.now) }
    {
        let target = self.target.copied(alloc)?;
        self.moved_to(alloc, target)
    }

    /// Returns `true` if it inserts into gap `number` of the node at `path`.
    pub(crate) fn sets_gap(&self, path: &Path, number: usize) -> bool
        ensures { result ≡ sets self.now (gap path.now number) }
    {
        match &self.target {
            Target::Gap { parent, index } => has_path(parent, path.indices()) && *index == number,
            Target::Slots { .. } => false,
        }
    }

    /// Returns `true` if it replaces the element at `path`.
    pub(crate) fn sets_slot(&self, path: &Path) -> bool
        ensures { result ≡ sets self.now (slot path.now) }
    {
        match &self.target {
            Target::Gap { .. } => false,
            Target::Slots { first, more, .. } => covers_path(first, *more, path.indices()),
        }
    }

    /// Returns `true` if it affects children of an element at depth `depth`, or elements below
    /// these.
    pub(crate) fn is_deep(&self, depth: usize) -> bool
        ensures { result ≡ is_deep depth self.now }
    {
        match &self.target {
            Target::Gap { parent, .. } => depth <= parent.len(),
            Target::Slots { first, .. } => depth < first.len(),
        }
    }

    /// Returns `true` if `path` leads to the first element that it replaces; for an insertion, if
    /// `path` leads to the root.
    pub(crate) fn begins_at(&self, path: &Path) -> bool
        ensures { result ≡ same_way (first_way self.now) path.now }
    {
        match &self.target {
            Target::Gap { .. } => path.depth() == 0,
            Target::Slots { first, .. } => has_path(first, path.indices()),
        }
    }

    /// Returns the children that it may affect in a node at depth `depth`: the index of the first,
    /// and the number of further ones. Returns `None` if it affects none.
    pub(crate) fn row_below(&self, depth: usize) -> Option<(usize, usize)>
        ensures { (w : Way) (i : ℕ) → length w ≡ depth → IsBeyond result i
            → LeavesChild self.now w i }
    {
        match &self.target {
            Target::Gap { parent, index } => {
                if parent.len() == depth {
                    return Some((*index, 0));
                }
                row_through(parent, depth)
            }
            Target::Slots { first, more, .. } => {
                let (start, above) = first.split_first()?;
                if above.len() == depth {
                    return Some((*start, *more));
                }
                row_through(above, depth)
            }
        }
    }

    /// Returns `true` if both insert into the same gap.
    pub fn has_gap_of(&self, other: &TreeChange) -> bool
        ensures { result ≡ same_gap_at self.now other.now }
    {
        match (&self.target, &other.target) {
            (
                Target::Gap { parent, index },
                Target::Gap {
                    parent: above,
                    index: number,
                },
            ) => { parent.as_slice() == above.as_slice() && *index == *number }
            _ => false,
        }
    }
}
