//! Executed changes by the payload that they apply to, so that no planned change examines all
//! others.
ghost use Rattle.std.specs.Prelude.{◌≡◌, ◌∷◌, ◌++◌, [], List, Some, slice_get, IfOk, OnOk};
ghost use Rattle.std.specs.Option.{option_copied};
ghost use Rattle.tree_rewrite.specs.Rewrite.{Job};
ghost use Rattle.tree_rewrite.specs.Fill.{HavePut};
ghost use Rattle.tree_rewrite.specs.Below.{OnSheet};
ghost use Rattle.tree_rewrite.specs.Listed.{HaveChains, IsListed};
ghost use Rattle.tree_rewrite.specs.declared.piece.Put.{Put};

use crate::job::Job;
use crate::target_tree::TargetTree;
use crate::way_map::{WayMap, number_at, put};
use std::alloc::{AllocError, Global};
use std::collections::HashMap;

/// The indices of the executed changes by target tree. A payload is named by the up-path of the
/// node that it replaces.
#[derive(Drop)]
pub struct OnPayloads {
    /// For each payload, the index of its last executed change.
    pub last: WayMap,
    /// For each executed change, the index of the one before it with the same target tree.
    pub before: Vec<Option<usize>>,
}

impl OnPayloads {
    /// Creates an index without executed changes.
    pub fn new(alloc: Global) -> OnPayloads
        ensures { (all : List Job) → IsListed all [] result }
    {
        OnPayloads {
            last: HashMap::new(alloc),
            before: Vec::new(alloc),
        }
    }

    /// Returns the entry of the executed change at index `number`.
    fn noted(&self, number: usize) -> Option<&Option<usize>>
        ensures { option_copied result ≡ slice_get self.now.before.items number }
    {
        self.before.get(number)
    }

    /// Returns the indices of the executed changes of the payload `way`, in order of execution.
    pub fn numbers(&self, alloc: Global, way: &[usize]) -> Result<Vec<usize>, AllocError>
        requires { HaveChains self.now }
        ensures { (all : List Job) (ps : List Put) (js : List Job) → IsListed all ps self.now
            → HavePut all ps js → IfOk result (λ v. OnSheet all ps v.items (Some way.now) js) }
    {
        let mut numbers = Vec::new(alloc);
        let mut next = number_at(&self.last, way);
        while let Some(number) = next {
            numbers.push(number)?;
            next = match self.noted(number) {
                Some(before) => *before,
                None => None,
            };
        }
        numbers.reverse();
        Ok(numbers)
    }

    /// Records that the planned change `job` is executed next.
    pub fn note(&mut self, alloc: Global, job: &Job) -> Result<(), AllocError>
        ensures { (all : List Job) (ps : List Put) (p : Put) → IsListed all ps self.old
            → slice_get all p.number ≡ Some job.now
            → OnOk result (IsListed all (ps ++ p ∷ []) self.new) }
    {
        let TargetTree::Payload(way) = job.target() else {
            self.before.push(None)?;
            return Ok(());
        };
        let number = self.before.len();
        self.before.push(number_at(&self.last, way))?;
        put(&mut self.last, Vec::from_slice(alloc, way)?, number)
    }
}
