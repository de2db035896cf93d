//! The executed changes of a target tree.
ghost use Rattle.std.specs.Prelude.{◌≡◌, None};
ghost use Rattle.tree_rewrite.specs.Recorded.{target_of};

use crate::job::Job;
use crate::piece::Put;
use crate::target_tree::TargetTree;
use std::alloc::Global;

/// The executed changes `made` of the planned changes `jobs`, for one target tree.
#[derive(Clone, Copy)]
pub struct Overlay<'a> {
    pub alloc: Global,
    pub jobs: &'a [Job],
    pub made: &'a [Put],
    pub target: TargetTree<'a>,
}

impl<'a> Overlay<'a> {
    /// Creates the overlay of the tree itself.
    pub fn of_tree(alloc: Global, jobs: &'a [Job], made: &'a [Put]) -> Overlay<'a>
        ensures jobs { result.jobs.now ≡ jobs.entry.now }
        ensures made { result.made.now ≡ made.entry.now }
        ensures target { target_of result.target ≡ None }
    {
        Overlay {
            alloc,
            jobs,
            made,
            target: TargetTree::Tree,
        }
    }
}
