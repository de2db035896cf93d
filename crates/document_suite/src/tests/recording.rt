//! What an editor records, and what it refuses.
use super::{IDENT, Place, ROOT, SEMICOLON, found, open};
use parser_input::edition::Edition;
use parser_input::syntax_kind::SyntaxKind;
use rust_document::{Document, PayloadEntry, RecordError, SyntaxEditor, payload};
use std::alloc::Global;
use std::test::Fail;
use syntax_tree::{SyntaxElement, TreeIds};

/// What an editor answers to a token for an element.
fn answer(
    alloc: Global,
    mut editor: SyntaxEditor,
    target: &SyntaxElement,
) -> Result<Option<RecordError>, Fail> {
    let ids = &mut TreeIds::new();
    let new = payload(alloc, PayloadEntry::Token, Edition::Edition2021, "T", ids)?;
    Ok(editor.replace(alloc, target, &new).err())
}

/// What a new editor of `struct S;`, whose tree has the number 1, answers to a token for an element of another tree.
fn answer_to(alloc: Global, target: &SyntaxElement) -> Result<Option<RecordError>, Fail> {
    let document = open(alloc, "struct S;")?;
    let editor = document.editor(alloc)?;
    answer(alloc, editor, target)
}

/// Returns the error of recording a change whose target is in another text; `number` is the number
/// of that text's tree.
fn of_another(
    alloc: Global,
    text: &str,
    number: u32,
    place: Place,
) -> Result<Option<RecordError>, Fail> {
    let mut ids = TreeIds::starting_at(number);
    let other = Document::open(alloc, Edition::Edition2021, text, &mut ids)?;
    let target = found(alloc, &other, place)?;
    answer_to(alloc, &target)
}

/// A text, the number of its tree, an element of it, and what is answered to that.
type Target = (&'static str, u32, Place, Option<RecordError>);

const TARGETS: &[Target] = &[
    ("struct S;", 2, IDENT, Some(RecordError::Foreign)),
    (
        "S; S ;",
        1,
        (SyntaxKind::SEMICOLON, 5, 6),
        Some(RecordError::Foreign),
    ),
    ("struct S;", 1, ROOT, Some(RecordError::BadTarget)),
    ("struct T;", 1, IDENT, None),
];

fn is_answered(alloc: Global, (text, number, place, expected): &Target) -> Result<bool, Fail> {
    Ok(of_another(alloc, text, *number, *place)? == *expected)
}

#[test]
fn targets(rt: HostRuntime) -> Result<(), Fail> {
    for target in TARGETS {
        assert!(rt; is_answered(rt.alloc(), target)?, "{}", target.0);
    }
    Ok(())
}

/// Records twice that the name of `struct S;` is put for itself.
fn put_name(alloc: Global, document: &Document, editor: &mut SyntaxEditor) -> Result<(), Fail> {
    let name = found(alloc, document, IDENT)?;
    editor.replace(alloc, &name, &name)?;
    editor.replace(alloc, &name, &name)?;
    Ok(())
}

/// What an editor answers to a token for the semicolon of `struct S;`, where something is put for its name already, twice: every
/// element may be recorded.
fn answer_to_second(alloc: Global, document: &Document) -> Result<Option<RecordError>, Fail> {
    let mut editor = document.editor(alloc)?;
    put_name(alloc, document, &mut editor)?;
    let semicolon = found(alloc, document, SEMICOLON)?;
    answer(alloc, editor, &semicolon)
}

/// Returns the answer to a second element in a new document.
fn second_answer(alloc: Global) -> Result<Option<RecordError>, Fail> {
    let document = open(alloc, "struct S;")?;
    answer_to_second(alloc, &document)
}

#[test]
fn a_second_element(rt: HostRuntime) -> Result<(), Fail> {
    assert!(rt; second_answer(rt.alloc())? == None);
    Ok(())
}
