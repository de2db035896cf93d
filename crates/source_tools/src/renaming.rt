//! Identifiers, lifetimes and labels are renamed in the bytes of a file.

ghost use Rattle.std.specs.Prelude.{◌≡◌, MatchResult, Some, chars};
ghost use Rattle.source_tools.specs.Renames.{IsRenamable, IsRenamableOnce, RefusesBytes, RefusesOnce, has_token, is_free, is_token, renamed_bytes, renamed_once};
ghost use Rattle.rust_document.specs.Tokens.{span_of};
ghost use Rattle.source_tools.specs.Texts.{dialect_of};

use crate::decode::{encode, text_of};
use crate::source::{Dialect, FileError};
use crate::tokens::part;
use renamer::{RenameError, rename_but_macro_names};
use rust_document::{Document, LexedToken, OpenError};
use std::alloc::{AllocError, Global};
use std::fmt;
use syntax_tree::TreeIds;
use token_names::is_of_kind;

/// A renaming of identifiers, or of lifetimes and labels if the old name begins with a quote.
#[derive(Clone, Copy, Debug)]
pub struct Renaming<'a> {
    pub old: &'a str,
    pub new: &'a str,
    /// The new name may be in the text already.
    pub merge: bool,
}

/// Why a file is not renamed in.
#[derive(Debug, Drop)]
pub enum RenameFault {
    /// The file cannot be read.
    File(FileError),
    /// The new name is in the text already.
    NameTaken,
    /// The renamer refuses the names, or the new text.
    Refused(RenameError),
}

impl fmt::Display for RenameFault {
    fn fmt<W: fmt::Write>(&self, f: &mut fmt::Formatter<W>) -> fmt::Result {
        match self {
            RenameFault::File(error) => write!(f, "{error}"),
            RenameFault::NameTaken => write!(f, "the new name is here already"),
            RenameFault::Refused(error) => match error {
                RenameError::NoToken(error) => write!(f, "the new name: {error}"),
                RenameError::NotRecorded(error) => write!(f, "{error}"),
                RenameError::Refused(error) => write!(f, "{error}"),
                RenameError::NoMemory => write!(f, "out of memory"),
            },
        }
    }
}

impl From<AllocError> for RenameFault {
    ghost use Rattle.source_tools.specs.declared.source.FileError.TheVariants.{NoMemory};
    ghost use Rattle.source_tools.specs.declared.renaming.RenameFault.TheVariants.{File};
    ghost use Rattle.std.specs.Prelude.{◌≡◌};

    ghost from_gives = { λ _ fault. fault ≡ File NoMemory };

    fn from(_error: AllocError) -> RenameFault {
        RenameFault::File(FileError::NoMemory)
    }
}

/// Returns `true` if a token of `text` is the identifier or the lifetime `name`.
fn is_token(text: &str, token: LexedToken, name: &str) -> bool
    ensures { result ≡ is_token name.now text.now (span_of token) }
{
    let start = usize::from(token.range.start());
    let end = usize::from(token.range.end());
    let bytes = part(text.as_bytes(), start, end);
    is_of_kind(name, token.kind) && bytes == name.as_bytes()
}

/// Returns `true` if `document` has the identifier or the lifetime `name`.
fn has_token(document: &Document, name: &str) -> bool
    ensures { result ≡ has_token name.now (dialect_of document.now) document.now.text }
{
    let text = document.text();
    for token in document.tokens() {
        if is_token(text, token, name) {
            return true;
        }
    }
    false
}

/// Returns `true` if the new name may be taken, or is not in `document`.
fn is_free(renaming: &Renaming<'_>, document: &Document) -> bool
    ensures { result ≡ is_free renaming.now (dialect_of document.now) document.now.text }
{
    renaming.merge || !has_token(document, renaming.new)
}

/// Returns the bytes of a file after one renaming.
fn rename_once(
    alloc: Global,
    renaming: &Renaming<'_>,
    dialect: Dialect,
    bytes: &[u8],
) -> Result<Vec<u8>, RenameFault>
    ensures { MatchResult result
        (λ new. IsRenamableOnce renaming.now dialect bytes.now
        × (renamed_once renaming.now dialect bytes.now ≡ Some new.items))
        (RefusesOnce renaming.now dialect bytes.now) }
{
    let Some(text) = text_of(bytes) else {
        return Err(RenameFault::File(FileError::NotUtf8));
    };
    let mut ids = TreeIds::new();
    let Dialect { edition, grammar } = dialect;
    let mut document = match Document::open_by(alloc, edition, grammar, text, &mut ids) {
        Ok(document) => document,
        Err(OpenError::TooLong) => return Err(RenameFault::File(FileError::TooLong)),
        Err(OpenError::NoTreeNumber) => unreachable!(),
        Err(OpenError::NoMemory) => return Err(RenameFault::File(FileError::NoMemory)),
    };
    if !is_free(renaming, &document) {
        return Err(RenameFault::NameTaken);
    }
    if let Err(error) = rename_but_macro_names(
        alloc,
        &mut document,
        renaming.old,
        renaming.new,
        &mut ids,
    ) {
        return Err(RenameFault::Refused(error));
    }
    let new = encode(alloc, bytes, document.text())?;
    Ok(new)
}

/// Returns the bytes of a file after the renamings, each on what the one before it left. Macro names
/// stay: metavariables, as `x` in `$x`, and fragment specifiers, as `expr` in `$x:expr`.
///
/// # Errors
///
/// Of the first renaming that is refused:
///
/// - [`RenameFault::File`] if the bytes are not UTF-8, the text is too long, or out of memory.
/// - [`RenameFault::NameTaken`] if the new name is in the text, unless it may be.
/// - [`RenameFault::Refused`] if the new name is no token, or the new text would not read as the
///   renamed tree.
pub fn rename_bytes(
    alloc: Global,
    renamings: &[Renaming<'_>],
    dialect: Dialect,
    bytes: &[u8],
) -> Result<Vec<u8>, RenameFault>
    ensures { MatchResult result
        (λ new. IsRenamable renamings.now dialect bytes.now
        × (renamed_bytes renamings.now dialect bytes.now ≡ Some new.items))
        (RefusesBytes renamings.now dialect bytes.now) }
{
    match renamings {
        [] => {
            let mut new = Vec::new(alloc);
            new.extend_from_slice(bytes)?;
            Ok(new)
        }
        [renaming, rest @ ..] => {
            let next = rename_once(alloc, renaming, dialect, bytes)?;
            rename_bytes(alloc, rest, dialect, next.as_slice())
        }
    }
}
