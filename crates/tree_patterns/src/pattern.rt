//! Patterns.
ghost use Rattle.std.specs.Prelude.{◌≡◌, IfOk};
ghost use Rattle.tree_patterns.specs.Patterns.{places};

use crate::fragment::Fragment;
use crate::leaves::leaves_of;
use crate::place::Place;
use rowan_green::{GreenNode, GreenTokenRef};
use std::alloc::{AllocError, Global};
use std::marker::Model;

/// A pattern: a fragment of Rust with places.
#[derive(Drop)]
pub struct Pattern {
    fragment: Fragment,
    tree: GreenNode,
}

impl Model for Pattern {
    ghost use Rattle.std.specs.Coded.{codes};
    ghost use Rattle.rowan_green.specs.Forest.{tree_code};
    ghost use Rattle.tree_patterns.specs.Patterns.{Shape};

    ghost Value = { Shape };

    ghost coded = { Prim.hlevel (codes, tree_code) };

    ghost view = { λ p. record { fragment = p.fragment; tree = p.tree } };
}

impl Pattern {
    /// Returns the pattern with this tree.
    pub fn of(fragment: Fragment, tree: GreenNode) -> Pattern
        ensures { result ≡ record { fragment = fragment; tree = tree } }
    {
        Pattern { fragment, tree }
    }

    /// Returns what it was read as.
    pub fn fragment(&self) -> Fragment
        ensures { result ≡ self.now.fragment }
    {
        self.fragment
    }

    /// Returns its tree.
    pub fn tree(&self) -> &GreenNode
        ensures { result.now ≡ self.now.tree }
    {
        &self.tree
    }

    /// Returns the leaves of its tree that stand for its places, in order. The kind of each is the
    /// place's, its text the name of the metavariable.
    pub fn places(&self, alloc: Global) -> Result<Vec<GreenTokenRef<'_>>, AllocError>
        ensures { IfOk result (λ v. v.items ≡ places self.now.tree) }
    {
        let mut places = Vec::new(alloc);
        for leaf in leaves_of(alloc, &self.tree.as_ref())? {
            if Place::from_raw(leaf.kind().0).is_some() {
                places.push(leaf)?;
            }
        }
        Ok(places)
    }
}
