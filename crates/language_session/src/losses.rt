//! Texts are lost.

ghost use Rattle.std.specs.Prelude.{◌≡◌, ◌++◌, IfOk, OnOk, map};
ghost use Rattle.std.specs.List.{flat_map};
ghost use Rattle.language_session.specs.Sessions.{lost, open_of, session_of};
ghost use Rattle.language_session.specs.Steps.{losing, loss, written};

use crate::session::{OpenText, Session};
use crate::telling::tell;
use session_words::Reply;
use std::alloc::{AllocError, Global};

/// Returns a document without its text, and tells the client that it is lost, if that was not told yet.
fn lost(alloc: Global, document: &OpenText, out: &mut Vec<u8>) -> Result<OpenText, AllocError>
    ensures document { IfOk result (λ d. open_of d ≡ lost (open_of document.now)) }
    ensures told { OnOk result
        (out.new.items ≡ out.old.items ++ written (loss (open_of document.now))) }
{
    if document.text.is_some() {
        tell(
            alloc,
            Reply::Lost(document.uri.as_str(), document.version),
            out,
        )?;
    }
    Ok(OpenText {
        uri: document.uri.clone()?,
        version: document.version,
        text: None,
    })
}

/// Returns documents without their texts, and tells the client which are lost.
fn all_lost(
    alloc: Global,
    documents: &[OpenText],
    out: &mut Vec<u8>,
) -> Result<Vec<OpenText>, AllocError>
    ensures documents { IfOk result (λ ds. map open_of ds.items
        ≡ map lost (map open_of documents.now)) }
    ensures told { OnOk result (out.new.items ≡ out.old.items
        ++ written (flat_map loss (map open_of documents.now))) }
{
    let mut all = Vec::with_capacity(alloc, documents.len())?;
    for document in documents {
        all.push(lost(alloc, document, out)?)?;
    }
    Ok(all)
}

/// Tells the client that all texts are lost.
pub(crate) fn lose_all(
    alloc: Global,
    session: &mut Session,
    out: &mut Vec<u8>,
) -> Result<(), AllocError>
    ensures session { OnOk result
        (session_of session.new ≡ (losing (session_of session.old)).after) }
    ensures told { OnOk result (out.new.items ≡ out.old.items
        ++ written (losing (session_of session.old)).replies) }
{
    session.documents = all_lost(alloc, session.documents.as_slice(), out)?;
    Ok(())
}
