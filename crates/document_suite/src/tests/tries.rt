//! Commits that are only tried.
use super::{expression, has_text, replacing};
use parser_input::edition::Edition;
use parser_input::syntax_kind::SyntaxKind;
use rust_document::{CommitError, Document, SyntaxEditor};
use std::alloc::Global;
use std::test::Fail;
use syntax_tree::TreeIds;

const TEXT: &str = "fn f() { g(a * b); }";

/// Returns an editor of the document in which the expression `new` stands for `a`.
fn recorded(
    alloc: Global,
    document: &Document,
    new: &str,
    ids: &mut TreeIds,
) -> Result<SyntaxEditor, Fail> {
    let new = expression(alloc, new, ids)?;
    replacing(alloc, document, (SyntaxKind::PATH_EXPR, 11, 12), &new)
}

#[test]
fn try_gives_the_new_text(rt: HostRuntime) -> Result<(), Fail> {
    let alloc = rt.alloc();
    let mut ids = TreeIds::new();
    let document = Document::open(alloc, Edition::Edition2021, TEXT, &mut ids)?;
    let editor = recorded(alloc, &document, "3", &mut ids)?;
    let text = document.try_commit(alloc, &editor)?;
    assert!(rt; text.as_str() == "fn f() { g(3 * b); }");
    assert!(rt; has_text(&document, TEXT));
    Ok(())
}

#[test]
fn try_refuses_as_a_commit_does(rt: HostRuntime) -> Result<(), Fail> {
    let alloc = rt.alloc();
    let mut ids = TreeIds::new();
    let document = Document::open(alloc, Edition::Edition2021, TEXT, &mut ids)?;
    let editor = recorded(alloc, &document, "1 + 2", &mut ids)?;
    match document.try_commit(alloc, &editor) {
        Ok(_text) => assert!(rt; false),
        Err(error) => assert!(rt; error == CommitError::Unfaithful),
    }
    Ok(())
}
