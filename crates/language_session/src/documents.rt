//! The documents of a session.

ghost use Rattle.std.specs.Prelude.{◌≡◌, ◌≤◌, ◌<◌, ◌++◌, IfNone, IfSome, OnOk, Some, None, length, map, option_map, slice_index_or, string_bytes};
ghost use Rattle.std.specs.List.{remove};
ghost use Rattle.message_frames.specs.Messages.{message};
ghost use Rattle.session_words.specs.Changes.{MAX_TEXT};
ghost use Rattle.session_words.specs.Replies.{reply_body};
ghost use Rattle.language_session.specs.Sessions.{found, open_of, without};
ghost use Rattle.language_session.specs.Steps.{publication};
ghost use Rattle.language_session.specs.declared.session.OpenText.{OpenText};

use crate::language::Language;
use crate::session::OpenText;
use crate::telling::tell;
use session_words::{Facts, Reply};
use std::alloc::{AllocError, Global};

/// Returns the index of the document with this name.
fn index_of(documents: &[OpenText], uri: &str) -> Option<usize>
    ensures within { IfSome result (λ i. i < length documents.now) }
    ensures found { IfSome result (λ i. (d : OpenText) → found uri.now (map open_of documents.now)
        ≡ Some (open_of (slice_index_or documents.now i d))) }
    ensures rest { IfSome result (λ i. without uri.now (map open_of documents.now)
        ≡ map open_of (remove documents.now i)) }
    ensures none { IfNone result (found uri.now (map open_of documents.now) ≡ None) }
    ensures all { IfNone result
        (without uri.now (map open_of documents.now) ≡ map open_of documents.now) }
{
    for (i, document) in documents.iter().enumerate() {
        if document.uri.as_str() == uri {
            return Some(i);
        }
    }
    None
}

/// Returns the document with this name.
pub(crate) fn document_named<'a>(documents: &'a [OpenText], uri: &str) -> Option<&'a OpenText>
    ensures { option_map (λ d. open_of d.now) result
        ≡ found uri.now (map open_of documents.now) }
{
    let i = index_of(documents, uri)?;
    Some(&documents[i])
}

/// Takes the document with this name out of a list.
pub(crate) fn take(documents: &mut Vec<OpenText>, uri: &str) -> Option<OpenText>
    ensures found { option_map open_of result ≡ found uri.now (map open_of documents.old.items) }
    ensures rest { map open_of documents.new.items
        ≡ without uri.now (map open_of documents.old.items) }
    ensures unchanged { IfNone result (documents.new.items ≡ documents.old.items) }
{
    let i = index_of(documents.as_slice(), uri)?;
    Some(documents.remove(i))
}

/// Tells the client the messages about a document, or that its text is lost.
pub(crate) fn publish<L: Language>(
    alloc: Global,
    language: &L,
    facts: &Facts,
    document: &OpenText,
    out: &mut Vec<u8>,
) -> Result<(), AllocError>
    requires { IfSome document.now.text (λ text. length (string_bytes text) ≤ MAX_TEXT) }
    ensures { OnOk result (out.new.items ≡ out.old.items
        ++ message (reply_body (publication (L.messages language.now) facts.now
        (open_of document.now)))) }
{
    let uri = document.uri.as_str();
    match &document.text {
        Some(text) => {
            let list = language.messages(alloc, facts, text.as_str())?;
            let shown = list.as_slice();
            tell(alloc, Reply::Published(uri, document.version, shown), out)
        }
        None => tell(alloc, Reply::Lost(uri, document.version), out),
    }
}
