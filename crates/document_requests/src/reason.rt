//! Why a commit is unfaithful.
ghost use Rattle.std.specs.Prelude.{◌≡◌, map, option_map, IfOk, OnErr, OnOk};
ghost use Rattle.rust_document.specs.Difference.{told_of};
ghost use Rattle.document_requests.specs.Applied.{TakesSome};
ghost use Rattle.document_requests.specs.Asked.{change as change_in};
ghost use Rattle.document_requests.specs.Reasons.{difference_between, first_difference, number_after_reasons};

use crate::apply::prepare_all;
use crate::request::Change;
use crate::stop::Stop;
use rust_document::{CommitError, Difference, Document, SyntaxEditor};
use std::alloc::{AllocError, Global};
use syntax_tree::TreeIds;

/// Returns the first difference between the rewritten tree of an editor and the reading of its text;
/// `None` if `commit` would refuse it with another error, or accept it.
fn difference_of(
    alloc: Global,
    document: &Document,
    editor: &SyntaxEditor,
) -> Result<Option<Difference>, AllocError>
    ensures { IfOk result (λ found. option_map told_of found
        ≡ difference_between document.now editor.now) }
{
    match document.difference(alloc, editor) {
        Ok(found) => Ok(found),
        Err(CommitError::NoMemory) => Err(AllocError),
        Err(CommitError::Foreign) => Ok(None),
        Err(CommitError::Intersecting) => Ok(None),
        Err(CommitError::MissingMapping) => Ok(None),
        Err(CommitError::TooLong) => Ok(None),
        Err(CommitError::Unfaithful) => Ok(None),
        Err(CommitError::NoTreeNumber) => Ok(None),
    }
}

/// Returns where the tree of a commit first differs from the reading of its text, whitespace and
/// comments aside: `Some` exactly if the commit of these changes is refused as `Unfaithful`. The range
/// is one of the new text. Payloads take the tree numbers of `ids` that they take in a commit.
///
/// # Errors
///
/// [`AllocError`] if an allocation fails. Then some of these numbers may be used up.
pub fn first_difference(
    alloc: Global,
    document: &Document,
    changes: &[Change<'_>],
    ids: &mut TreeIds,
) -> Result<Option<Difference>, AllocError>
    ensures found { IfOk result (λ found. option_map told_of found
        ≡ first_difference (map change_in changes.now) document.now ids.old) }
    ensures taken { OnOk result (ids.new
        ≡ number_after_reasons (map change_in changes.now) document.now ids.old) }
    ensures numbers { OnErr result (TakesSome ids.old ids.new
        (number_after_reasons (map change_in changes.now) document.now ids.old)) }
{
    let mut editor = document.editor(alloc)?;
    match prepare_all(alloc, document, &mut editor, changes, ids) {
        Ok(()) => difference_of(alloc, document, &editor),
        Err(Stop::NoMemory) => Err(AllocError),
        Err(Stop::Refused(_)) => Ok(None),
    }
}
