//! Paths of elements from the root of a target tree.
ghost use Rattle.std.specs.Prelude.{◌≡◌, [], ◌∷◌, length, reverse, OnOk};
ghost use Rattle.tree_rewrite.specs.Moved.{way_above};

use std::alloc::{AllocError, Global};
use std::marker::Model;

/// The path of an element: child indices from the root down. A contract sees the up-path: these
/// indices, the innermost first.
#[derive(Drop)]
pub struct Path {
    indices: Vec<usize>,
}

impl Model for Path {
    ghost use Rattle.std.specs.Prelude.{reverse};
    ghost use Rattle.std.specs.Coded.{codes};
    ghost use Rattle.syntax_tree.specs.Element.{Way};

    ghost Value = { Way };

    ghost coded = { Prim.hlevel codes };

    ghost view = { λ p. reverse p.indices.items };
}

impl Path {
    /// Creates the path of the root.
    pub fn new(alloc: Global) -> Path
        ensures { result ≡ [] }
    {
        Path {
            indices: Vec::new(alloc),
        }
    }

    /// Returns the child indices, from the root down.
    pub fn indices(&self) -> &[usize]
        ensures { reverse result.now ≡ self.now }
    {
        &self.indices
    }

    /// Returns the number of child indices.
    pub fn depth(&self) -> usize
        ensures { result ≡ length self.now }
    {
        self.indices.len()
    }

    /// Goes on to child `index`.
    pub fn push(&mut self, index: usize) -> Result<(), AllocError>
        ensures { OnOk result (self.new ≡ index ∷ self.old) }
    {
        self.indices.push(index)?;
        Ok(())
    }

    /// Goes back to the parent, if there is one.
    pub fn pop(&mut self)
        ensures { self.new ≡ way_above self.old }
    {
        self.indices.pop();
    }
}
