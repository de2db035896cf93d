//! Tests that the texts of a commit take few levels, before any of them is read.
ghost use Rattle.std.specs.Prelude.{◌≡◌, false, map, IfErr, IfOk, OnOk};
ghost use Rattle.document_requests.specs.Asked.{change as change_in};
ghost use Rattle.kept_document.specs.Commits.{StopsChanges};
ghost use Rattle.kept_document.specs.Depth.{is_deep_change, is_deep_commit, is_deep_if_any, made_text, puts_deep};

use crate::reason::Reason;
use crate::rehearsal::committed_text;
use document_requests::Change;
use rust_document::{Document, Edition};
use std::alloc::{AllocError, Global};
use text_levels::is_too_deep;

/// Returns `true` if a change puts a text that is too deep.
fn is_deep_change(alloc: Global, edition: Edition, change: Change<'_>) -> Result<bool, AllocError>
    ensures { IfOk result (λ deep. deep ≡ is_deep_change edition (change_in change.entry)) }
{
    match change {
        Change::Put {
            op: _,
            target: _,
            entry: _,
            text,
        } => is_too_deep(alloc, edition, text),
        Change::Delete { target: _ } => Ok(false),
    }
}

/// Returns `true` if one of these changes puts a text that is too deep.
fn puts_deep(alloc: Global, edition: Edition, changes: &[Change<'_>]) -> Result<bool, AllocError>
    ensures { IfOk result (λ deep. deep ≡ puts_deep edition (map change_in changes.now)) }
{
    for change in changes {
        if is_deep_change(alloc, edition, *change)? {
            return Ok(true);
        }
    }
    Ok(false)
}

/// Returns `true` if the text that a commit of these changes would make is too deep.
fn makes_deep(
    alloc: Global,
    document: &Document,
    changes: &[Change<'_>],
) -> Result<bool, AllocError>
    ensures { IfOk result (λ deep. deep ≡ is_deep_if_any document.now.edition
        (made_text document.now (map change_in changes.now))) }
{
    match committed_text(alloc, document, changes)? {
        Some(text) => is_too_deep(alloc, document.edition(), text.as_str()),
        None => Ok(false),
    }
}

/// Tests that the texts which a commit puts, and the one that it would make, take few levels.
///
/// # Errors
///
/// - [`Reason::TooDeep`] if one of them takes more than [`LEVELS`](text_levels::LEVELS).
/// - [`Reason::NoMemory`] if an allocation fails.
pub(crate) fn test_levels(
    alloc: Global,
    document: &Document,
    changes: &[Change<'_>],
) -> Result<(), Reason>
    ensures flat { OnOk result (is_deep_commit document.now (map change_in changes.now) ≡ false) }
    ensures refused { IfErr result (StopsChanges document.now (map change_in changes.now)) }
{
    if puts_deep(alloc, document.edition(), changes)? {
        return Err(Reason::TooDeep);
    }
    if makes_deep(alloc, document, changes)? {
        return Err(Reason::TooDeep);
    }
    Ok(())
}
