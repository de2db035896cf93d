//! A cache of trees, so that equal trees are shared.
//!
//! A cache changes no tree: a tree that it returns is equal to the one that was built. Once the
//! cache is full, a new tree replaces the oldest one.
ghost use Rattle.std.specs.Prelude.{◌≡◌, IfSome};
ghost use Rattle.std.specs.Bool.{OnTrue};

use crate::equality::same_node;
use crate::node::GreenNode;
use std::alloc::{AllocError, Global};

/// The maximum number of trees of a cache.
const MOST_TREES: usize = 16;

/// A cache of the last trees that builders finished. Several builders may use it, one after
/// another.
#[derive(Drop)]
pub struct NodeCache {
    trees: Vec<GreenNode>,
    /// The index of the oldest tree, which is the next to be replaced once the cache is full.
    oldest: usize,
}

impl NodeCache {
    /// Creates an empty cache. The first tree that it keeps allocates its memory.
    pub fn new(alloc: Global) -> NodeCache {
        NodeCache {
            trees: Vec::new(alloc),
            oldest: 0,
        }
    }

    /// Returns the equal tree of the cache if there is one; otherwise returns `tree`, which the
    /// cache keeps if no allocation fails.
    pub(crate) fn share(&mut self, tree: GreenNode) -> GreenNode
        ensures { result ≡ tree }
    {
        if let Some(found) = found_tree(&self.trees, &tree) {
            return found;
        }
        if let Ok(copy) = tree.clone() {
            let _ = self.keep(copy);
        }
        tree
    }

    /// Keeps `tree`; replaces the oldest tree if the cache is full.
    ///
    /// # Errors
    ///
    /// [`AllocError`] if an allocation fails.
    ///
    /// On error, the cache is unchanged.
    fn keep(&mut self, tree: GreenNode) -> Result<(), AllocError> {
        if self.trees.len() < MOST_TREES {
            self.trees.push(tree)?;
            return Ok(());
        }
        let index = self.oldest;
        if index < self.trees.len() {
            self.trees[index] = tree;
            self.oldest = (index + 1) % MOST_TREES;
        }
        Ok(())
    }
}

/// Returns a clone of the first of the trees that is equal to `tree`, if any.
fn found_tree(trees: &[GreenNode], tree: &GreenNode) -> Option<GreenNode>
    ensures { IfSome result (λ t. t ≡ tree.now) }
{
    for kept in trees {
        if is_same(kept, tree) {
            return kept.clone().ok();
        }
    }
    None
}

/// Returns `true` if the trees are equal. Compares kinds and lengths first.
fn is_same(kept: &GreenNode, tree: &GreenNode) -> bool
    ensures { OnTrue result (kept.now ≡ tree.now) }
{
    kept.kind() == tree.kind()
        && kept.text_len() == tree.text_len()
        && same_node(kept.as_ref(), tree.as_ref())
}
