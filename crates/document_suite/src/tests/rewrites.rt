//! Commits of several changes: all are applied atomically, or the first error that fits is
//! returned.
use super::{FIRST, ONE, Place, SECOND, TWO, expression, found, has_text, open, range};
use parser_input::edition::Edition;
use parser_input::syntax_kind::SyntaxKind;
use ra_parser::TopEntryPoint;
use rowan_green::TextRange;
use rust_document::{CommitError, Committed, Document, PayloadEntry, SyntaxEditor, payload};
use std::alloc::Global;
use std::test::Fail;
use syntax_tree::{Position, SyntaxElement, TreeIds};

/// A new element.
#[derive(Clone, Copy)]
enum New {
    Token(&'static str),
    Expr(&'static str),
    /// A struct, as an item.
    Struct(&'static str),
    /// A use, as an item.
    Use(&'static str),
}

/// A change of an element.
#[derive(Clone, Copy)]
enum Change {
    /// A new element replaces it.
    Put(New),
    /// Another one comes before it.
    Before(New),
    /// Another one comes after it.
    After(New),
    /// A new element comes after it, with the whitespace that has to be between them.
    Spaced(New),
    Delete,
    /// It goes, with all siblings up to this one.
    DeleteTo(Place),
}

/// The item of a kind that a text is.
fn only_item(
    alloc: Global,
    kind: SyntaxKind,
    text: &str,
    ids: &mut TreeIds,
) -> Result<Option<SyntaxElement>, Fail> {
    let entry = PayloadEntry::Top(TopEntryPoint::SourceFile);
    let file = payload(alloc, entry, Edition::Edition2021, text, ids)?;
    let whole = file.text_range();
    match &file {
        SyntaxElement::Node(root) => Ok(root.find(alloc, kind, whole)?),
        SyntaxElement::Token(_token) => Ok(None),
    }
}

/// An item of a kind, as an element.
fn item(
    alloc: Global,
    kind: SyntaxKind,
    text: &str,
    ids: &mut TreeIds,
) -> Result<SyntaxElement, Fail> {
    match only_item(alloc, kind, text, ids)? {
        Some(element) => Ok(element),
        None => Err(Fail::new("no such item")),
    }
}

/// Returns the new element.
fn made(alloc: Global, new: New, ids: &mut TreeIds) -> Result<SyntaxElement, Fail> {
    let edition = Edition::Edition2021;
    match new {
        New::Token(text) => Ok(payload(alloc, PayloadEntry::Token, edition, text, ids)?),
        New::Expr(text) => expression(alloc, text, ids),
        New::Struct(text) => item(alloc, SyntaxKind::STRUCT, text, ids),
        New::Use(text) => item(alloc, SyntaxKind::USE, text, ids),
    }
}

/// Records what a change does with its new element, `new`, at an element.
fn record_new(
    alloc: Global,
    editor: &mut SyntaxEditor,
    (target, change): (&SyntaxElement, Change),
    new: &SyntaxElement,
    ids: &mut TreeIds,
) -> Result<(), Fail> {
    match change {
        Change::Before(_) => editor.insert(alloc, Position::before(target)?, new)?,
        Change::After(_) => editor.insert(alloc, Position::after(target)?, new)?,
        Change::Spaced(_) => {
            editor.insert_with_whitespace(alloc, Position::after(target)?, new, ids)?;
        }
        _ => editor.replace(alloc, target, new)?,
    }
    Ok(())
}

/// Records that an element is deleted, with all siblings up to the one at a place of a document.
fn delete_to(
    alloc: Global,
    document: &Document,
    editor: &mut SyntaxEditor,
    first: &SyntaxElement,
    last: Place,
) -> Result<(), Fail> {
    let last = found(alloc, document, last)?;
    editor.delete_all(alloc, first, &last)?;
    Ok(())
}

/// Records a change of an element of a document.
fn record_of(
    alloc: Global,
    document: &Document,
    editor: &mut SyntaxEditor,
    (target, change): (&SyntaxElement, Change),
    ids: &mut TreeIds,
) -> Result<(), Fail> {
    match change {
        Change::Put(new) | Change::Before(new) | Change::After(new) | Change::Spaced(new) => {
            let new = made(alloc, new, ids)?;
            record_new(alloc, editor, (target, change), &new, ids)
        }
        Change::Delete => Ok(editor.delete(alloc, target)?),
        Change::DeleteTo(last) => delete_to(alloc, document, editor, target, last),
    }
}

/// Records a change of the element at a place of a document.
fn record(
    alloc: Global,
    document: &Document,
    editor: &mut SyntaxEditor,
    (place, change): (Place, Change),
    ids: &mut TreeIds,
) -> Result<(), Fail> {
    let target = found(alloc, document, place)?;
    record_of(alloc, document, editor, (&target, change), ids)
}

/// An editor with these changes recorded.
fn recorded(
    alloc: Global,
    document: &Document,
    changes: &[(Place, Change)],
    ids: &mut TreeIds,
) -> Result<SyntaxEditor, Fail> {
    let mut editor = document.editor(alloc)?;
    for change in changes {
        record(alloc, document, &mut editor, *change, ids)?;
    }
    Ok(editor)
}

/// A text, the changes of its elements, and the result of the commit: the changed ranges, or an
/// error; and the text afterwards.
#[derive(Clone, Copy)]
struct Row {
    text: &'static str,
    changes: &'static [(Place, Change)],
    answer: Result<&'static [(u32, u32)], CommitError>,
    becomes: &'static str,
}

/// Whether these are the ranges.
fn are_ranges(changed: &[TextRange], expected: &[(u32, u32)]) -> bool {
    let mut equal = changed.len() == expected.len();
    for (found, (start, end)) in changed.iter().zip(expected.iter()) {
        equal &= *found == range(*start, *end);
    }
    equal
}

/// Whether a document answers this.
fn is_answer(
    committed: &Result<Committed, CommitError>,
    expected: Result<&[(u32, u32)], CommitError>,
) -> bool {
    match (committed, expected) {
        (Ok(committed), Ok(ranges)) => are_ranges(&committed.changed, ranges),
        (Err(refused), Err(error)) => *refused == error,
        _ => false,
    }
}

/// Whether a document answers to the changes of a row what that says.
fn is_answered(alloc: Global, document: &mut Document, row: &Row) -> Result<bool, Fail> {
    let mut ids = TreeIds::starting_at(2);
    let editor = recorded(alloc, document, row.changes, &mut ids)?;
    let answer = document.commit(alloc, editor, &mut ids);
    Ok(is_answer(&answer, row.answer))
}

/// Whether a document does what a row says.
fn holds(alloc: Global, row: &Row) -> Result<bool, Fail> {
    let mut document = open(alloc, row.text)?;
    let answered = is_answered(alloc, &mut document, row)?;
    Ok(answered & has_text(&document, row.becomes))
}

/// The call in `fn f() { g(1); }`, its statement, and what ends that.
const CALL: Place = (SyntaxKind::CALL_EXPR, 9, 13);

const STATEMENT: Place = (SyntaxKind::EXPR_STMT, 9, 14);

const END: Place = (SyntaxKind::SEMICOLON, 13, 14);

const TWO_NAMES: Row = Row {
    text: "fn f() { let x = a * 2; }",
    changes: &[
        ((SyntaxKind::IDENT, 13, 14), Change::Put(New::Token("y"))),
        ((SyntaxKind::PATH_EXPR, 17, 18), Change::Put(New::Expr("b"))),
    ],
    answer: Ok(&[(13, 14), (17, 18)]),
    becomes: "fn f() { let y = b * 2; }",
};

const TWO_LITERALS: Row = Row {
    text: "fn f() { g(1, 2); }",
    changes: &[
        (TWO, Change::Put(New::Expr("3"))),
        (ONE, Change::Put(New::Expr("3"))),
    ],
    answer: Ok(&[(11, 12), (14, 15)]),
    becomes: "fn f() { g(3, 3); }",
};

/// Later changes stand where the earlier ones moved them.
const UNITS_BEFORE: Row = Row {
    text: "fn f() { g(1, 2); }",
    changes: &[
        (ONE, Change::Before(New::Expr("()"))),
        (TWO, Change::Before(New::Expr("()"))),
    ],
    answer: Ok(&[(11, 13), (16, 18)]),
    becomes: "fn f() { g(()1, ()2); }",
};

/// A deletion inserts nothing.
const NO_RESULT: Row = Row {
    text: "fn it() -> () {\n    ()\n}",
    changes: &[
        ((SyntaxKind::RET_TYPE, 8, 13), Change::Delete),
        ((SyntaxKind::WHITESPACE, 13, 14), Change::Delete),
        ((SyntaxKind::TUPLE_EXPR, 20, 22), Change::Delete),
    ],
    answer: Ok(&[]),
    becomes: "fn it() {\n    \n}",
};

/// The gap after a deleted element is not deleted.
const DELETED_AND_AFTER: Row = Row {
    text: "struct S; struct T;",
    changes: &[
        (FIRST, Change::Delete),
        (FIRST, Change::After(New::Struct("struct U;"))),
    ],
    answer: Ok(&[(0, 9)]),
    becomes: "struct U; struct T;",
};

/// At one gap what was recorded last stands first.
const TWO_AFTER: Row = Row {
    text: "struct S;",
    changes: &[
        (FIRST, Change::After(New::Struct("struct A;"))),
        (FIRST, Change::After(New::Struct("struct B;"))),
    ],
    answer: Ok(&[(9, 18), (18, 27)]),
    becomes: "struct S;struct B;struct A;",
};

/// A use has a line of its own.
const USE_AFTER: Row = Row {
    text: "struct S;",
    changes: &[(FIRST, Change::Spaced(New::Use("use a;")))],
    answer: Ok(&[(9, 10), (10, 16)]),
    becomes: "struct S;\nuse a;",
};

const LINE_FEED: Row = Row {
    text: "struct S;",
    changes: &[(
        (SyntaxKind::SEMICOLON, 8, 9),
        Change::After(New::Token("\n")),
    )],
    answer: Ok(&[(9, 10)]),
    becomes: "struct S;\n",
};

/// What a deleted statement held is gone with it.
const IN_DELETED: Row = Row {
    text: "fn f() { g(1); }",
    changes: &[
        (ONE, Change::Put(New::Expr("2"))),
        (STATEMENT, Change::Delete),
    ],
    answer: Ok(&[]),
    becomes: "fn f() {  }",
};

/// Of one element that is recorded twice the later change counts.
const TWICE: Row = Row {
    text: "fn f() { g(1); }",
    changes: &[
        (ONE, Change::Put(New::Expr("2"))),
        (ONE, Change::Put(New::Expr("3"))),
    ],
    answer: Ok(&[(11, 12)]),
    becomes: "fn f() { g(3); }",
};

const SEVERAL: &[Row] = &[
    TWO_NAMES,
    TWO_LITERALS,
    UNITS_BEFORE,
    NO_RESULT,
    TWICE,
    DELETED_AND_AFTER,
    TWO_AFTER,
    USE_AFTER,
    LINE_FEED,
    IN_DELETED,
];

#[test]
fn several_changes(rt: HostRuntime) -> Result<(), Fail> {
    for row in SEVERAL {
        assert!(rt; holds(rt.alloc(), row)?, "{}", row.becomes);
    }
    Ok(())
}

const NO_PLACE: Row = Row {
    text: "fn f() { g(1); }",
    changes: &[
        (ONE, Change::Put(New::Expr("2"))),
        (CALL, Change::Put(New::Expr("h()"))),
    ],
    answer: Err(CommitError::MissingMapping),
    becomes: "fn f() { g(1); }",
};

const COLLIDING: Row = Row {
    text: "struct S; struct T;",
    changes: &[
        (FIRST, Change::Put(New::Struct("struct U;"))),
        (FIRST, Change::DeleteTo(SECOND)),
    ],
    answer: Err(CommitError::Intersecting),
    becomes: "struct S; struct T;",
};

/// A change has no place, and two replace one element: the second of these errors is returned.
const COLLIDING_WITHOUT_PLACE: Row = Row {
    text: "fn f() { g(1); }",
    changes: &[
        (ONE, Change::Put(New::Expr("2"))),
        (CALL, Change::Put(New::Expr("h()"))),
        (CALL, Change::DeleteTo(END)),
    ],
    answer: Err(CommitError::Intersecting),
    becomes: "fn f() { g(1); }",
};

/// The comment would swallow the item.
const COMMENT_BEFORE: Row = Row {
    text: "struct S;",
    changes: &[(FIRST, Change::Before(New::Token("// c")))],
    answer: Err(CommitError::Unfaithful),
    becomes: "struct S;",
};

/// Two words would be one.
const WORD_BEHIND: Row = Row {
    text: "fn f() {}",
    changes: &[((SyntaxKind::FN_KW, 0, 2), Change::After(New::Token("x")))],
    answer: Err(CommitError::Unfaithful),
    becomes: "fn f() {}",
};

const REFUSED: &[Row] = &[
    NO_PLACE,
    COLLIDING,
    COLLIDING_WITHOUT_PLACE,
    COMMENT_BEFORE,
    WORD_BEHIND,
];

#[test]
fn refused_changes(rt: HostRuntime) -> Result<(), Fail> {
    for row in REFUSED {
        assert!(rt; holds(rt.alloc(), row)?, "{}", row.text);
    }
    Ok(())
}
