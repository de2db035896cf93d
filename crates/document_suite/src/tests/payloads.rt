//! Texts that replace an element.
use super::{range, spaces};
use parser_input::edition::Edition;
use parser_input::syntax_kind::SyntaxKind;
use ra_parser::TopEntryPoint;
use rowan_green::TextRange;
use rust_document::{MAX_TEXT, PayloadEntry, PayloadError, payload};
use std::alloc::{AllocError, Global};
use std::test::Fail;
use syntax_tree::{SyntaxElement, TreeIds};

/// A token as a payload: its kind, the number of its tree, and its range, where its path and its text are as expected.
fn seen(
    alloc: Global,
    text: &str,
    ids: &mut TreeIds,
) -> Result<Option<(SyntaxKind, u32, TextRange)>, PayloadError> {
    let element = payload(alloc, PayloadEntry::Token, Edition::Edition2018, text, ids)?;
    let same_text = match &element {
        SyntaxElement::Token(token) => token.text() == text,
        SyntaxElement::Node(_) => false,
    };
    let first = element.path(alloc)?.as_slice() == [0].as_slice();
    let seen = (element.kind(), element.tree(), element.text_range());
    Ok((same_text & first).then_some(seen))
}

#[test]
fn a_word(rt: HostRuntime) {
    let word = seen(rt.alloc(), "struct", &mut TreeIds::new());
    assert!(rt; word == Ok(Some((SyntaxKind::STRUCT_KW, 1, range(0, 6)))));
}

/// What an entry reads, as a payload: its kind, the number of its tree, and its range, where it is the root of that.
fn read_as(
    alloc: Global,
    top: TopEntryPoint,
    text: &str,
    ids: &mut TreeIds,
) -> Result<Option<(SyntaxKind, u32, TextRange)>, PayloadError> {
    let entry = PayloadEntry::Top(top);
    let element = payload(alloc, entry, Edition::Edition2021, text, ids)?;
    let first = element.path(alloc)?.is_empty();
    let seen = (element.kind(), element.tree(), element.text_range());
    Ok(first.then_some(seen))
}

/// An entry, a text that it reads, and the kind of what that is.
type Tree = (TopEntryPoint, &'static str, SyntaxKind);

const TREES: &[Tree] = &[
    (TopEntryPoint::Expr, "2 + 2 == 5", SyntaxKind::BIN_EXPR),
    (TopEntryPoint::Ty, "&mut [u8]", SyntaxKind::REF_TYPE),
    (TopEntryPoint::Pattern, "Some(_) | None", SyntaxKind::OR_PAT),
    (
        TopEntryPoint::SourceFile,
        "fn f() {}",
        SyntaxKind::SOURCE_FILE,
    ),
    (
        TopEntryPoint::MacroItems,
        "fn f() {}",
        SyntaxKind::MACRO_ITEMS,
    ),
    (
        TopEntryPoint::MacroStmts,
        "let x = 1;",
        SyntaxKind::MACRO_STMTS,
    ),
    (TopEntryPoint::MetaItem, "derive(Debug)", SyntaxKind::META),
];

fn is_tree(alloc: Global, (top, text, kind): &Tree, ids: &mut TreeIds) -> bool {
    match read_as(alloc, *top, text, ids) {
        Ok(Some(element)) => element.0 == *kind,
        _ => false,
    }
}

#[test]
fn trees(rt: HostRuntime) {
    let mut ids = TreeIds::new();
    for tree in TREES {
        assert!(rt; is_tree(rt.alloc(), tree, &mut ids), "{}", tree.1);
    }
    assert!(rt; ids.next() == Ok(8));
}

const WITH_MESSAGES: &[(TopEntryPoint, &str)] = &[
    (TopEntryPoint::Ty, ";"),
    (TopEntryPoint::Expr, "1 2"),
    (TopEntryPoint::Expr, ".. + 1"),
    (TopEntryPoint::Pattern, ""),
    (TopEntryPoint::Expr, "\"a"),
];

fn has_message(alloc: Global, top: TopEntryPoint, text: &str, ids: &mut TreeIds) -> bool {
    read_as(alloc, top, text, ids) == Err(PayloadError::Message)
}

#[test]
fn texts_with_messages(rt: HostRuntime) {
    let mut ids = TreeIds::new();
    for (top, text) in WITH_MESSAGES {
        assert!(rt; has_message(rt.alloc(), *top, text, &mut ids), "{text}");
    }
    assert!(rt; ids.next() == Ok(1));
}

#[test]
fn other_tokens(rt: HostRuntime) {
    let literal = seen(rt.alloc(), "1.5e3", &mut TreeIds::new());
    assert!(rt; literal == Ok(Some((SyntaxKind::FLOAT_NUMBER, 1, range(0, 5)))));
    let mark = seen(rt.alloc(), "_", &mut TreeIds::new());
    assert!(rt; mark == Ok(Some((SyntaxKind::UNDERSCORE, 1, range(0, 1)))));
}

const OTHER_TEXTS: &[(&str, PayloadError)] = &[
    ("a b", PayloadError::NotOneToken),
    ("", PayloadError::NotOneToken),
    ("a {", PayloadError::NotOneToken),
    ("#!/bin/sh", PayloadError::NotOneToken),
    ("\"a", PayloadError::Message),
    ("a 'b \"c", PayloadError::Message),
    ("#!/bin/sh \"", PayloadError::Message),
];

fn is_refused(alloc: Global, text: &str, expected: PayloadError, ids: &mut TreeIds) -> bool {
    seen(alloc, text, ids) == Err(expected)
}

#[test]
fn other_texts(rt: HostRuntime) {
    let mut ids = TreeIds::new();
    for (text, expected) in OTHER_TEXTS {
        assert!(rt; is_refused(rt.alloc(), text, *expected, &mut ids), "{text}");
    }
    assert!(rt; ids.next() == Ok(1));
}

/// Returns `true` if `count` spaces are too long.
fn is_too_long(alloc: Global, count: usize) -> Result<bool, AllocError> {
    let text = spaces(alloc, count)?;
    Ok(seen(alloc, text.as_str(), &mut TreeIds::new()) == Err(PayloadError::TooLong))
}

#[test]
fn the_limit(rt: HostRuntime) -> Result<(), Fail> {
    assert!(rt; is_too_long(rt.alloc(), MAX_TEXT + 1)?);
    assert!(rt; !is_too_long(rt.alloc(), MAX_TEXT)?);
    Ok(())
}

#[test]
fn no_number_is_left(rt: HostRuntime) {
    let mut ids = TreeIds::starting_at(u32::MAX);
    assert!(rt; seen(rt.alloc(), "a", &mut ids).is_ok());
    assert!(rt; seen(rt.alloc(), "a", &mut ids) == Err(PayloadError::NoTreeNumber));
}
