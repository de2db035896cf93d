//! Planned changes: the recorded changes that are not discarded.
ghost use Rattle.std.specs.Prelude.{◌≡◌, [], false, map, option_map, IfOk};
ghost use Rattle.std.specs.Option.{option_copied};
ghost use Rattle.syntax_tree.specs.Handle.{element_of};
ghost use Rattle.tree_rewrite.specs.Change.{is_dropped, is_node_by_node, has_collision};
ghost use Rattle.tree_rewrite.specs.Held.{Holds};
ghost use Rattle.tree_rewrite.specs.Rewrite.{payload_at, own_of, job_of, jobs};
ghost use Rattle.tree_rewrite.specs.Recorded.{way_of};

use crate::job::Job;
use crate::mapped::MappedNodes;
use crate::moved::{Replacement, change_in};
use crate::nesting::{change_at, is_dropped, is_node_by_node, owner_of};
use crate::tree_change::{Target, TreeChange};
use crate::way_trie::WayTrie;
use rowan_green::GreenNode;
use std::alloc::{AllocError, Global};
use syntax_tree::{SyntaxElement, SyntaxNode};

/// Returns the payload that replaces the element at up-path `way`, if any.
fn payload_at<'a>(
    changes: &'a [TreeChange],
    held: &WayTrie,
    way: &[usize],
) -> Option<&'a SyntaxElement>
    requires apart { has_collision changes.now ≡ false }
    requires holds { Holds held.now changes.now }
    ensures { option_map element_of (option_copied result) ≡ payload_at changes.now way.now }
{
    let change = change_at(changes, held, way)?;
    change.payload().first()
}

/// Returns the up-path of the node that `change` replaces by a node, if it does. Only the payload
/// of such a node can be changed itself.
fn own_of(
    alloc: Global,
    root: &GreenNode,
    change: &TreeChange,
) -> Result<Option<Vec<usize>>, AllocError>
    ensures { IfOk result (λ w. way_of w ≡ own_of root.now change.now) }
{
    match change.target() {
        Target::Slots { first, .. } if is_node_by_node(root, change) => {
            Ok(Some(Vec::from_slice(alloc, first)?))
        }
        _ => Ok(None),
    }
}

/// The changes that were recorded on the tree of `root`: `held` finds the one that replaces an
/// element, and `mapping` the places in payloads.
#[derive(Clone, Copy)]
struct Recording<'a> {
    root: &'a SyntaxNode,
    changes: &'a [TreeChange],
    held: &'a WayTrie,
    mapping: &'a MappedNodes<'a>,
}

/// Returns the planned change of `change`, which is not discarded; `None` if it has no place in the
/// payload that contains it.
fn job_of(
    alloc: Global,
    recording: Recording<'_>,
    change: &TreeChange,
) -> Result<Option<Job>, AllocError>
    requires top { recording.root.now.place.up ≡ [] }
    requires apart { has_collision recording.changes.now ≡ false }
    requires holds { Holds recording.held.now recording.changes.now }
    requires kept { is_dropped recording.root.now.place.root recording.changes.now change.now
        ≡ false }
    ensures { IfOk result (λ r. r ≡ job_of recording.entry.root.now recording.entry.changes.now
        recording.entry.mapping.now change.now) }
{
    let Recording {
        root,
        changes,
        held,
        mapping,
    } = recording;
    let own = own_of(alloc, root.cursor().green(), change)?;
    let Some(holder) = owner_of(changes, held, change) else {
        return Ok(Some(Job::new(None, change.copied(alloc)?, own)));
    };
    let payload = match payload_at(changes, held, holder) {
        Some(SyntaxElement::Node(payload)) => payload,
        Some(SyntaxElement::Token(token)) => {
            let _leaf = token.cursor().green();
            unreachable!()
        }
        None => return Ok(None),
    };
    let replacement = Replacement {
        way: holder,
        payload,
    };
    match change_in(alloc, root, mapping, replacement, change)? {
        Some(moved) => {
            let holder = Vec::from_slice(alloc, holder)?;
            Ok(Some(Job::new(Some(holder), moved, own)))
        }
        None => Ok(None),
    }
}

/// Returns the planned changes: the changes that are not discarded, in recorded order. Returns
/// `None` if one of them has no place in the payload that contains it. No two of `changes` replace
/// the same element.
pub fn jobs_of(
    alloc: Global,
    root: &SyntaxNode,
    changes: &[TreeChange],
    held: &WayTrie,
    mapping: &MappedNodes<'_>,
) -> Result<Option<Vec<Job>>, AllocError>
    requires top { root.now.place.up ≡ [] }
    requires apart { has_collision changes.now ≡ false }
    requires holds { Holds held.now changes.now }
    ensures { IfOk result
        (λ r. option_map (λ v. v.items) r ≡ jobs root.now changes.now mapping.now) }
{
    let recording = Recording {
        root,
        changes,
        held,
        mapping,
    };
    let mut jobs = Vec::new(alloc);
    for change in changes {
        let dropped = is_dropped(alloc, root.cursor().green(), changes, held, change)?;
        if !dropped {
            let Some(job) = job_of(alloc, recording, change)? else {
                return Ok(None);
            };
            jobs.push(job)?;
        }
    }
    Ok(Some(jobs))
}
