//! Documents of the whole language, and the same texts by the profile.
use super::commits::commit;
use super::{Place, edit, has_text, open, range, replacing};
use parser_input::edition::Edition;
use parser_input::syntax_kind::SyntaxKind;
use ra_parser::{Grammar, TopEntryPoint};
use rust_document::{Document, OpenError, PayloadEntry, PayloadError, payload};
use std::alloc::Global;
use std::test::Fail;
use syntax_tree::TreeIds;

/// A text with an element of it that the whole language has.
type Row = (&'static str, Place);

const UNION: Row = ("union U { a: u8 }", (SyntaxKind::UNION, 0, 17));

const ROWS: &[Row] = &[
    (
        "macro_rules! m { () => {} }",
        (SyntaxKind::MACRO_RULES, 0, 27),
    ),
    (
        "extern \"C\" { fn f(); }",
        (SyntaxKind::EXTERN_BLOCK, 0, 22),
    ),
    UNION,
    (
        "fn f() -> impl Fn(u8) -> u8 { g }",
        (SyntaxKind::IMPL_TRAIT_TYPE, 10, 27),
    ),
];

/// A text of edition 2021 by the whole language, whose tree has the number 1.
fn whole(alloc: Global, text: &str) -> Result<Document, OpenError> {
    Document::open_by(
        alloc,
        Edition::Edition2021,
        Grammar::Whole,
        text,
        &mut TreeIds::new(),
    )
}

/// Whether a document is one of the whole language, has no messages, and has an element at a place.
fn is_read(alloc: Global, document: &Document, place: Place) -> Result<bool, Fail> {
    let (kind, start, end) = place;
    let there = document.find(alloc, kind, range(start, end))?.is_some();
    Ok(there & document.errors().is_empty() & (document.grammar() == Grammar::Whole))
}

fn is_whole(alloc: Global, (text, place): &Row) -> Result<bool, Fail> {
    let document = whole(alloc, text)?;
    is_read(alloc, &document, *place)
}

fn has_messages(alloc: Global, text: &str) -> Result<bool, Fail> {
    let document = open(alloc, text)?;
    Ok(!document.errors().is_empty() & (document.grammar() == Grammar::Profile))
}

#[test]
fn texts_of_the_whole_language(rt: HostRuntime) -> Result<(), Fail> {
    for row in ROWS {
        assert!(rt; is_whole(rt.alloc(), row)?, "{}", row.0);
        assert!(rt; has_messages(rt.alloc(), row.0)?, "{}", row.0);
    }
    Ok(())
}

/// One more field is put into the union, then its name is changed: no lookahead is made there.
fn edits(alloc: Global) -> Result<bool, Fail> {
    let mut ids = TreeIds::starting_at(2);
    let mut document = whole(alloc, UNION.0)?;
    let more = edit(alloc, &mut document, range(15, 15), ", b: u8", &mut ids)??;
    let name = edit(alloc, &mut document, range(6, 7), "V", &mut ids)??;
    let read = is_read(alloc, &document, (SyntaxKind::UNION, 0, 24))?;
    let text = has_text(&document, "union V { a: u8, b: u8 }");
    Ok(read & text & (more.steps > 0) & (name.steps == 0))
}

#[test]
fn edits_keep_the_grammar(rt: HostRuntime) -> Result<(), Fail> {
    assert!(rt; edits(rt.alloc())?);
    Ok(())
}

const ITEMS: PayloadEntry = PayloadEntry::Top(TopEntryPoint::MacroItems);

/// The kind of a payload of the document, and what it is by the profile.
fn payloads(alloc: Global) -> Result<(SyntaxKind, bool), Fail> {
    let mut ids = TreeIds::starting_at(2);
    let document = whole(alloc, "")?;
    let items = document.payload(alloc, ITEMS, UNION.0, &mut ids)?;
    let refused = payload(alloc, ITEMS, Edition::Edition2021, UNION.0, &mut ids);
    Ok((items.kind(), refused.err() == Some(PayloadError::Message)))
}

#[test]
fn payloads_are_read_by_the_grammar(rt: HostRuntime) -> Result<(), Fail> {
    assert!(rt; payloads(rt.alloc())? == (SyntaxKind::MACRO_ITEMS, true));
    Ok(())
}

/// The name of the union is replaced.
fn commits(alloc: Global) -> Result<bool, Fail> {
    let mut ids = TreeIds::starting_at(2);
    let mut document = whole(alloc, UNION.0)?;
    let new = document.payload(alloc, PayloadEntry::Token, "Vw", &mut ids)?;
    let editor = replacing(alloc, &document, (SyntaxKind::IDENT, 6, 7), &new)?;
    let answer = commit(alloc, &mut document, editor, &mut ids)?;
    let read = is_read(alloc, &document, (SyntaxKind::UNION, 0, 18))?;
    Ok(read & has_text(&document, "union Vw { a: u8 }") & (answer == Some(range(6, 8))))
}

#[test]
fn commits_keep_the_grammar(rt: HostRuntime) -> Result<(), Fail> {
    assert!(rt; commits(rt.alloc())?);
    Ok(())
}
