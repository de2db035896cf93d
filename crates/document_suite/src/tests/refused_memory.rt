//! Calls that are repeated after an allocation failed: on error, the document is unchanged, and the
//! repeated call then has the result that it has with ample memory. `bench/refused.py` runs these
//! with each allocation failing in turn.
use super::opening::{CALL, FLOAT, NO_ATTRIBUTE, Row, is_row};
use super::{ONE, Place, TWO, range};
use parser_input::edition::Edition;
use ra_parser::TopEntryPoint;
use rowan_green::TextRange;
use rust_document::{CommitError, Document, EditError, PayloadEntry, SyntaxEditor, payload};
use std::alloc::Global;
use std::test::Fail;
use syntax_tree::TreeIds;

fn opened(alloc: Global, text: &str, ids: &mut TreeIds) -> Result<Document, Fail> {
    match Document::open(alloc, Edition::Edition2021, text, ids) {
        Ok(document) => Ok(document),
        Err(_) => Ok(Document::open(alloc, Edition::Edition2021, text, ids)?),
    }
}

/// Returns `true` if an edit, repeated after an allocation failed, results in `becomes`.
fn is_edited(
    alloc: Global,
    row: &Row,
    at: TextRange,
    put: &str,
    becomes: &str,
) -> Result<bool, Fail> {
    let mut ids = TreeIds::new();
    let mut document = opened(alloc, row.text, &mut ids)?;
    for _ in 0..2 {
        if !document.can_edit(at) {
            return Ok(false);
        }
        let answer = document.edit(alloc, at, put, &mut ids);
        match answer {
            Err(EditError::NoMemory) => {
                if !is_row(alloc, &document, row)? {
                    return Ok(false);
                }
            }
            _ => return Ok(answer.is_ok() & (document.text() == becomes)),
        }
    }
    Ok(false)
}

/// Returns an editor that replaces elements of a document with a parsed text. None if an allocation
/// failed.
fn recorded(
    alloc: Global,
    document: &Document,
    places: [Place; 2],
    text: &str,
    ids: &mut TreeIds,
) -> Option<SyntaxEditor> {
    let entry = PayloadEntry::Top(TopEntryPoint::Expr);
    let new = payload(alloc, entry, Edition::Edition2021, text, ids).ok()?;
    let mut editor = document.editor(alloc).ok()?;
    for (kind, start, end) in places {
        let target = document.find(alloc, kind, range(start, end)).ok()??;
        editor.replace(alloc, &target, &new).ok()?;
    }
    Some(editor)
}

/// Whether the text of `fn f() { g(1, 2); }` is this once both literals became an expression, recorded and committed again where memory
/// was refused.
fn is_committed(alloc: Global, put: &str, becomes: &str) -> Result<bool, Fail> {
    let mut ids = TreeIds::new();
    let mut document = opened(alloc, CALL.text, &mut ids)?;
    for _ in 0..2 {
        if let Some(editor) = recorded(alloc, &document, [ONE, TWO], put, &mut ids) {
            let refused = document.commit(alloc, editor, &mut ids).err();
            if refused != Some(CommitError::NoMemory) {
                return Ok(refused.is_none() & (document.text() == becomes));
            }
        }
        if !is_row(alloc, &document, &CALL)? {
            return Ok(false);
        }
    }
    Ok(false)
}

#[test]
fn refused_edits_change_nothing(rt: HostRuntime) -> Result<(), Fail> {
    let alloc = rt.alloc();
    assert!(rt; is_edited(alloc, &FLOAT, range(13, 14), "", "fn f() { x.0.; }")?);
    assert!(rt; is_edited(alloc, &NO_ATTRIBUTE, range(5, 6), "c", "#\"a\" c")?);
    Ok(())
}

#[test]
fn refused_commits_change_nothing(rt: HostRuntime) -> Result<(), Fail> {
    let alloc = rt.alloc();
    assert!(rt; is_committed(alloc, "3", "fn f() { g(3, 3); }")?);
    assert!(rt; is_committed(alloc, "a = b", "fn f() { g(a = b, a = b); }")?);
    Ok(())
}
