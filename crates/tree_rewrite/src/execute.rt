//! Execution of planned changes, one at a time, in a given order.
ghost use Rattle.std.specs.Prelude.{◌≡◌, List, [], map, slice_get, IfOk, OnOk};
ghost use Rattle.std.specs.Option.{option_copied};
ghost use Rattle.syntax_tree.specs.Handle.{element_of};
ghost use Rattle.tree_rewrite.specs.Marked.{blank, readings_of};
ghost use Rattle.tree_rewrite.specs.Rewrite.{Job, puts, terms_of};
ghost use Rattle.tree_rewrite.specs.Orders.{with_picked, picked};
ghost use Rattle.tree_rewrite.specs.Fill.{Given, HavePut};
ghost use Rattle.tree_rewrite.specs.Listed.{IsListed};
ghost use Rattle.tree_rewrite.specs.Shown.{AreShown, shown};
ghost use Rattle.tree_rewrite.specs.Pieces.{Adds, Say};

use crate::fill::{push_standing, push_whole};
use crate::job::Job;
use crate::on_payloads::OnPayloads;
use crate::overlay::Overlay;
use crate::piece::{Piece, Put};
use crate::target_tree::TargetTree;
use std::alloc::{AllocError, Global};
use syntax_tree::SyntaxElement;

/// Appends the elements of a payload, unchanged.
fn push_wholes(elements: &[SyntaxElement], pieces: &mut Vec<Piece>) -> Result<(), AllocError>
    ensures { OnOk result (Adds pieces.old.items pieces.new.items
        (readings_of blank (map element_of elements.now))) }
{
    for element in elements {
        push_whole(element.clone()?, pieces)?;
    }
    Ok(())
}

/// Appends the elements of the payload that is the target tree, with the executed changes at
/// `numbers`.
fn push_all(
    overlay: &Overlay<'_>,
    numbers: &[usize],
    elements: &[SyntaxElement],
    pieces: &mut Vec<Piece>,
) -> Result<(), AllocError>
    ensures { (gs : List Given) → AreShown overlay.now numbers.now gs → OnOk result
        (Adds pieces.old.items pieces.new.items
        (readings_of (shown overlay.now gs) (map element_of elements.now))) }
{
    for element in elements {
        push_standing(overlay, numbers, element.clone()?, pieces)?;
    }
    Ok(())
}

/// Returns the pieces that the planned change `job` inserts after the executed changes `made`. If it
/// replaces a node by a node, its payload is a target tree, and has its executed changes.
fn content_of(
    alloc: Global,
    jobs: &[Job],
    made: &[Put],
    listed: &OnPayloads,
    job: &Job,
) -> Result<Vec<Piece>, AllocError>
    requires { IsListed jobs.now made.now listed.now }
    ensures { (js : List Job) → HavePut jobs.now made.now js
        → IfOk result (λ v. Say v.items (terms_of (puts js) job.now)) }
{
    let mut pieces = Vec::new(alloc);
    pieces.push(Piece::Group(job.target().nesting()))?;
    match job.own() {
        None => push_wholes(job.payload(), &mut pieces)?,
        Some(way) => {
            let overlay = Overlay {
                alloc,
                jobs,
                made,
                target: TargetTree::Payload(way),
            };
            let numbers = listed.numbers(alloc, way)?;
            push_all(&overlay, &numbers, job.payload(), &mut pieces)?;
        }
    }
    pieces.push(Piece::Close)?;
    Ok(pieces)
}

/// Returns the planned change at index `number`.
fn job_at(jobs: &[Job], number: usize) -> Option<&Job>
    ensures { option_copied result ≡ slice_get jobs.now number }
{
    jobs.get(number)
}

/// Executes the planned change at index `number`, if there is one, after the executed changes
/// `made`.
fn make(
    alloc: Global,
    jobs: &[Job],
    number: usize,
    made: &mut Vec<Put>,
    listed: &mut OnPayloads,
) -> Result<(), AllocError>
    requires { IsListed jobs.now made.old.items listed.old }
    ensures put { (js : List Job) → HavePut jobs.now made.old.items js → OnOk result
        (HavePut jobs.now made.new.items (with_picked (slice_get jobs.now number) js)) }
    ensures listed { OnOk result (IsListed jobs.now made.new.items listed.new) }
{
    if let Some(job) = job_at(jobs, number) {
        let pieces = content_of(alloc, jobs, made, listed, job)?;
        listed.note(alloc, job)?;
        made.push(Put { number, pieces })?;
    }
    Ok(())
}

/// Executes the planned changes at the indices `order`, one at a time.
pub fn make_all(alloc: Global, jobs: &[Job], order: &[usize]) -> Result<Vec<Put>, AllocError>
    ensures { IfOk result (λ v. HavePut jobs.now v.items (picked jobs.now order.now [])) }
{
    let mut made = Vec::new(alloc);
    let mut listed = OnPayloads::new(alloc);
    for number in order {
        make(alloc, jobs, *number, &mut made, &mut listed)?;
    }
    Ok(made)
}
