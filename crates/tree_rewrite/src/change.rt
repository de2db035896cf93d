//! Changes as an editor records them.
ghost use Rattle.std.specs.Prelude.{◌≡◌, ◌≤◌, IfOk};
ghost use Rattle.tree_rewrite.specs.Held.{FitsRow};
ghost use Rattle.tree_rewrite.specs.Recorded.{recorded, IsOrdered};

use crate::tree_change::{Target, TreeChange};
use std::alloc::{AllocError, Global};
use syntax_tree::{Position, SyntaxElement};

/// A change of the tree that contains its position or its first element.
#[derive(Drop)]
pub enum Change {
    /// Inserts `new` at the gap `place`.
    Insert {
        place: Position,
        new: Vec<SyntaxElement>,
    },
    /// Replaces the elements from `first` to `last` by `new`. They are children of one parent, in
    /// this order, or both are the root. `single` if the change names a single element.
    Replace {
        first: SyntaxElement,
        last: SyntaxElement,
        new: Vec<SyntaxElement>,
        single: bool,
    },
}

impl Change {
    /// Converts into a change that names its elements by up-paths. `first` must not be after
    /// `last`.
    pub fn into_tree_change(self, alloc: Global) -> Result<TreeChange, AllocError>
        requires { IsOrdered self }
        ensures same { IfOk result (λ c. c ≡ recorded self) }
        ensures fits { IfOk result FitsRow }
    {
        match self {
            Change::Insert { place, new } => {
                let parent = place.parent.way(alloc)?;
                let target = Target::Gap {
                    parent,
                    index: place.index,
                };
                Ok(TreeChange::new(target, new))
            }
            Change::Replace {
                first,
                last,
                new,
                single,
            } => {
                let more = last.index() - first.index();
                let target = Target::Slots {
                    first: first.way(alloc)?,
                    more,
                    single,
                };
                Ok(TreeChange::new(target, new))
            }
        }
    }
}
