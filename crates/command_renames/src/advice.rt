//! What leads on after a fault.

use line_index::{Encoding, LineCol, LineIndex};
use parser_input::keywords::keyword;
use parser_input::{Edition, LexedStr};
use rename_pairs::NamePair;
use renamer::RenameError;
use rust_document::{CommitError, is_plain_name};
use source_tools::{RenameFault, Source, text_of};
use std::alloc::{AllocError, Global};
use token_names::{has_name, is_lifetime, word_of};

/// Returns the line and column of the first identifier or lifetime of a text that is `name`, however it is spelled;
/// with `is_other` the first that is spelled otherwise.
fn place_in(
    alloc: Global,
    source: &Source,
    text: &str,
    name: &str,
    is_other: bool,
) -> Result<Option<LineCol>, AllocError> {
    let tokens = LexedStr::new(alloc, source.dialect.edition, text)?;
    for i in 0..tokens.len() {
        let token = tokens.text(i);
        if has_name(alloc, name, tokens.kind(i), token)? && (!is_other || token != name) {
            let lines = LineIndex::try_new(alloc, text)?;
            return Ok(Some(lines.line_col(Encoding::Utf32, tokens.text_start(i))));
        }
    }
    Ok(None)
}

/// Returns such a place of the bytes of a file, if they are text.
fn place_of(
    alloc: Global,
    source: &Source,
    bytes: &[u8],
    name: &str,
    is_other: bool,
) -> Result<Option<LineCol>, AllocError> {
    match text_of(bytes) {
        Some(text) => place_in(alloc, source, text, name, is_other),
        None => Ok(None),
    }
}

/// Says where a new name is.
fn report_place(rt: &HostRuntime, source: &Source, place: LineCol, new: &str) {
    let line = place.line.saturating_add(1);
    let column = place.col.saturating_add(1);
    let path = source.path.as_str();
    let _ = eprintln!(rt; "{path}:{line}:{column}: `{new}` is here; --merge makes both names one");
}

/// Returns `true` if a new name is in the bytes of a file in another spelling, and says where.
pub(crate) fn is_spelled_otherwise(
    rt: &HostRuntime,
    source: &Source,
    bytes: &[u8],
    new: &str,
) -> Result<bool, AllocError> {
    let Some(place) = place_of(rt.alloc(), source, bytes, new, true)? else {
        return Ok(false);
    };
    let path = source.path.as_str();
    let _ = eprintln!(rt;
        "tevondimby: {path}: the new name is here already, in another spelling; no file is written"
    );
    report_place(rt, source, place, new);
    Ok(true)
}

/// Returns `true` if `name` is a lifetime whose word is a keyword of the edition and that is not raw.
fn is_keyword_lifetime(edition: Edition, name: &str) -> bool {
    is_lifetime(name) && !name.starts_with("'r#") && keyword(edition, word_of(name)).is_some()
}

/// Returns `true` if a new name is a lifetime that the edition of a file does not allow, and says so.
pub(crate) fn is_keyword_name(rt: &HostRuntime, pairs: &[NamePair<'_>], source: &Source) -> bool {
    for pair in pairs {
        let (path, new) = (source.path.as_str(), pair.new);
        if is_keyword_lifetime(source.dialect.edition, new) {
            let _ = eprintln!(rt;
                "tevondimby: {path}: `{new}`: no lifetime and no label has the name of a keyword; no file is written"
            );
            return true;
        }
    }
    false
}

/// Says what leads on after a file with these bytes was refused by a renaming.
pub(crate) fn advise(
    rt: &HostRuntime,
    pairs: &[NamePair<'_>],
    source: &Source,
    bytes: &[u8],
    fault: &RenameFault,
) -> Result<(), AllocError> {
    for pair in pairs {
        let new = pair.new;
        match fault {
            RenameFault::NameTaken => {
                if let Some(place) = place_of(rt.alloc(), source, bytes, new, false)? {
                    report_place(rt, source, place, new);
                }
            }
            RenameFault::Refused(RenameError::Refused(CommitError::Unfaithful)) => {
                if !is_plain_name(source.dialect.edition, new) {
                    let _ = eprintln!(rt;
                        "`{new}` is a keyword, or another word with a meaning of its own, in the file's edition"
                    );
                }
            }
            RenameFault::File(_) | RenameFault::Refused(_) => {}
        }
    }
    Ok(())
}
