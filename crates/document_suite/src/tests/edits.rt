//! Edits by hand.
use super::opening::{Row, is_row};
use super::{IDENT, SEMICOLON, SPACE, edit, open, range, spaces};
use parser_input::edition::Edition;
use parser_input::syntax_kind::SyntaxKind;
use rowan_green::TextRange;
use rust_document::{CommitError, Document, EditError, MAX_TEXT};
use std::alloc::Global;
use std::test::Fail;
use syntax_tree::TreeIds;

/// Returns why an edit is refused, if it is.
fn put(
    alloc: Global,
    document: &mut Document,
    at: TextRange,
    text: &str,
    ids: &mut TreeIds,
) -> Result<Option<EditError>, Fail> {
    Ok(edit(alloc, document, at, text, ids)?.err())
}

/// A text, a range of it, and what an edit puts there; then the text with all that is read of it.
struct Edit {
    text: &'static str,
    at: (u32, u32),
    new: &'static str,
    becomes: Row,
}

/// Whether an edit of a text of edition 2021 makes what it says.
fn is_edited(alloc: Global, row: &Edit) -> Result<bool, Fail> {
    let mut ids = TreeIds::new();
    let mut document = Document::open(alloc, Edition::Edition2021, row.text, &mut ids)?;
    let at = range(row.at.0, row.at.1);
    let refused = put(alloc, &mut document, at, row.new, &mut ids)?;
    Ok(refused.is_none() & is_row(alloc, &document, &row.becomes)?)
}

/// A comment swallows an item.
const SWALLOWED: Edit = Edit {
    text: "struct S; struct T;",
    at: (9, 9),
    new: "//",
    becomes: Row {
        text: "struct S;// struct T;",
        tree: &[
            ((SyntaxKind::SOURCE_FILE, 0, 21), &[]),
            ((SyntaxKind::STRUCT, 0, 9), &[0]),
            ((SyntaxKind::COMMENT, 9, 21), &[1]),
        ],
        tokens: &[
            (SyntaxKind::STRUCT_KW, 0, 6),
            SPACE,
            IDENT,
            SEMICOLON,
            (SyntaxKind::COMMENT, 9, 21),
        ],
        errors: &[],
    },
};

/// A field is taken away: the kinds of the tokens stay, but the float no longer touches what follows it.
const NO_FIELD: Edit = Edit {
    text: "fn f() { x.0.1; }",
    at: (13, 14),
    new: "",
    becomes: Row {
        text: "fn f() { x.0.; }",
        tree: &[
            ((SyntaxKind::EXPR_STMT, 9, 14), &[0, 5, 0, 2]),
            ((SyntaxKind::FIELD_EXPR, 9, 13), &[0, 5, 0, 2, 0]),
            ((SyntaxKind::FIELD_EXPR, 9, 12), &[0, 5, 0, 2, 0, 0]),
            ((SyntaxKind::NAME_REF, 11, 12), &[0, 5, 0, 2, 0, 0, 2]),
            ((SyntaxKind::DOT, 12, 13), &[0, 5, 0, 2, 0, 1]),
            ((SyntaxKind::SEMICOLON, 13, 14), &[0, 5, 0, 2, 1]),
        ],
        tokens: &[
            (SyntaxKind::FN_KW, 0, 2),
            (SyntaxKind::WHITESPACE, 2, 3),
            (SyntaxKind::IDENT, 3, 4),
            (SyntaxKind::L_PAREN, 4, 5),
            (SyntaxKind::R_PAREN, 5, 6),
            (SyntaxKind::WHITESPACE, 6, 7),
            (SyntaxKind::L_CURLY, 7, 8),
            (SyntaxKind::WHITESPACE, 8, 9),
            (SyntaxKind::IDENT, 9, 10),
            (SyntaxKind::DOT, 10, 11),
            (SyntaxKind::FLOAT_NUMBER, 11, 13),
            (SyntaxKind::SEMICOLON, 13, 14),
            (SyntaxKind::WHITESPACE, 14, 15),
            (SyntaxKind::R_CURLY, 15, 16),
        ],
        errors: &[(13, "expected field name or number")],
    },
};

/// A dash in front of the opening line, and there is no frontmatter any more.
const UNCLOSED: Edit = Edit {
    text: "---\n---\nstruct S;",
    at: (0, 0),
    new: "-",
    becomes: Row {
        text: "----\n---\nstruct S;",
        tree: &[
            ((SyntaxKind::ERROR, 0, 1), &[0]),
            ((SyntaxKind::MINUS, 0, 1), &[0, 0]),
            ((SyntaxKind::ERROR, 3, 4), &[3]),
            ((SyntaxKind::WHITESPACE, 4, 5), &[4]),
            ((SyntaxKind::ERROR, 5, 6), &[5]),
            ((SyntaxKind::ERROR, 7, 8), &[7]),
            ((SyntaxKind::WHITESPACE, 8, 9), &[8]),
            ((SyntaxKind::STRUCT, 9, 18), &[9]),
        ],
        tokens: &[
            (SyntaxKind::MINUS, 0, 1),
            (SyntaxKind::MINUS, 1, 2),
            (SyntaxKind::MINUS, 2, 3),
            (SyntaxKind::MINUS, 3, 4),
            (SyntaxKind::WHITESPACE, 4, 5),
            (SyntaxKind::MINUS, 5, 6),
            (SyntaxKind::MINUS, 6, 7),
            (SyntaxKind::MINUS, 7, 8),
            (SyntaxKind::WHITESPACE, 8, 9),
            (SyntaxKind::STRUCT_KW, 9, 15),
            (SyntaxKind::WHITESPACE, 15, 16),
            (SyntaxKind::IDENT, 16, 17),
            (SyntaxKind::SEMICOLON, 17, 18),
        ],
        errors: &[
            (0, "expected an item"),
            (1, "expected an item"),
            (2, "expected an item"),
            (3, "expected an item"),
            (5, "expected an item"),
            (6, "expected an item"),
            (7, "expected an item"),
        ],
    },
};

/// A name gets another end: what is behind it moves, its message too.
const LONGER_NAME: Edit = Edit {
    text: "fn f() { x.0.; }",
    at: (4, 4),
    new: "ew",
    becomes: Row {
        text: "fn few() { x.0.; }",
        tree: &[
            ((SyntaxKind::NAME, 3, 6), &[0, 2]),
            ((SyntaxKind::IDENT, 3, 6), &[0, 2, 0]),
            ((SyntaxKind::EXPR_STMT, 11, 16), &[0, 5, 0, 2]),
            ((SyntaxKind::FIELD_EXPR, 11, 15), &[0, 5, 0, 2, 0]),
            ((SyntaxKind::NAME_REF, 13, 14), &[0, 5, 0, 2, 0, 0, 2]),
            ((SyntaxKind::SEMICOLON, 15, 16), &[0, 5, 0, 2, 1]),
        ],
        tokens: &[
            (SyntaxKind::FN_KW, 0, 2),
            (SyntaxKind::WHITESPACE, 2, 3),
            (SyntaxKind::IDENT, 3, 6),
            (SyntaxKind::L_PAREN, 6, 7),
            (SyntaxKind::R_PAREN, 7, 8),
            (SyntaxKind::WHITESPACE, 8, 9),
            (SyntaxKind::L_CURLY, 9, 10),
            (SyntaxKind::WHITESPACE, 10, 11),
            (SyntaxKind::IDENT, 11, 12),
            (SyntaxKind::DOT, 12, 13),
            (SyntaxKind::FLOAT_NUMBER, 13, 15),
            (SyntaxKind::SEMICOLON, 15, 16),
            (SyntaxKind::WHITESPACE, 16, 17),
            (SyntaxKind::R_CURLY, 17, 18),
        ],
        errors: &[(15, "expected field name or number")],
    },
};

const EDITS: &[Edit] = &[SWALLOWED, NO_FIELD, UNCLOSED, LONGER_NAME];

#[test]
fn texts_are_read_again(rt: HostRuntime) -> Result<(), Fail> {
    for row in EDITS {
        assert!(rt; is_edited(rt.alloc(), row)?, "at {}", row.text);
    }
    Ok(())
}

fn is_there(alloc: Global, document: &mut Document, ids: &mut TreeIds) -> Result<bool, Fail> {
    let refused = put(alloc, document, range(5, 5), ")", ids)?;
    Ok(refused.is_none() & document.errors().is_empty() & (document.root().tree() == 2))
}

fn is_back(alloc: Global, document: &mut Document, ids: &mut TreeIds) -> Result<bool, Fail> {
    let refused = put(alloc, document, range(5, 6), "", ids)?;
    let text = document.text() == "fn f( {}";
    Ok(refused.is_none() & text & (document.errors().len() == 1))
}

fn is_there_and_back(alloc: Global) -> Result<bool, Fail> {
    let mut ids = TreeIds::new();
    let mut document = Document::open(alloc, Edition::Edition2021, "fn f( {}", &mut ids)?;
    let there = is_there(alloc, &mut document, &mut ids)?;
    Ok(is_back(alloc, &mut document, &mut ids)? & there)
}

/// An edit, and the one that puts the old bytes back.
#[test]
fn there_and_back(rt: HostRuntime) -> Result<(), Fail> {
    assert!(rt; is_there_and_back(rt.alloc())?);
    Ok(())
}

/// Ranges of `aéb` that an edit may have.
const INSIDE: &[(u32, u32)] = &[(0, 0), (1, 3), (4, 4), (0, 4)];

/// Ranges that none may have: in the midst of a character, or past the end.
const OUTSIDE: &[(u32, u32)] = &[(0, 2), (2, 3), (4, 5), (7, 7)];

fn are_told_apart(alloc: Global) -> Result<bool, Fail> {
    let document = open(alloc, "aéb")?;
    let can_edit = |at: &(u32, u32)| document.can_edit(range(at.0, at.1));
    Ok(INSIDE.iter().all(&can_edit) & !OUTSIDE.iter().any(&can_edit))
}

#[test]
fn ranges(rt: HostRuntime) -> Result<(), Fail> {
    assert!(rt; are_told_apart(rt.alloc())?);
    Ok(())
}

/// Returns the errors of inserting too many spaces, and then one, after `struct S;`.
fn refusals(
    alloc: Global,
    document: &mut Document,
    ids: &mut TreeIds,
) -> Result<(Option<EditError>, Option<EditError>), Fail> {
    let long = spaces(alloc, MAX_TEXT - 8)?;
    let too_long = put(alloc, document, range(9, 9), long.as_str(), ids)?;
    let spent = put(alloc, document, range(9, 9), " ", ids)?;
    Ok((too_long, spent))
}

fn are_refused(alloc: Global) -> Result<bool, Fail> {
    let mut ids = TreeIds::starting_at(u32::MAX);
    let mut document = Document::open(alloc, Edition::Edition2021, "struct S;", &mut ids)?;
    let (too_long, spent) = refusals(alloc, &mut document, &mut ids)?;
    let refused = (too_long == Some(EditError::TooLong)) & (spent == Some(EditError::NoTreeNumber));
    let stays = (document.text() == "struct S;") & (document.root().tree() == u32::MAX);
    Ok(refused & stays)
}

/// A text that would be too long, and a tree that would have no number: the document stays.
#[test]
fn refused_edits(rt: HostRuntime) -> Result<(), Fail> {
    assert!(rt; are_refused(rt.alloc())?);
    Ok(())
}

/// A path alone is no item.
const NO_ITEM: Row = Row {
    text: "a",
    tree: &[
        ((SyntaxKind::SOURCE_FILE, 0, 1), &[]),
        ((SyntaxKind::ERROR, 0, 1), &[0]),
        ((SyntaxKind::PATH, 0, 1), &[0, 0]),
        ((SyntaxKind::IDENT, 0, 1), &[0, 0, 0, 0, 0]),
    ],
    tokens: &[(SyntaxKind::IDENT, 0, 1)],
    errors: &[(1, "expected an item")],
};

/// Why an editor with nothing recorded is not committed.
fn commit_refusal(
    alloc: Global,
    document: &mut Document,
    ids: &mut TreeIds,
) -> Result<Option<CommitError>, Fail> {
    let editor = document.editor(alloc)?;
    Ok(document.commit(alloc, editor, ids).err())
}

/// Whether a text opened with the last number can be neither edited nor committed, and stays.
fn is_the_last(alloc: Global) -> Result<bool, Fail> {
    let mut ids = TreeIds::starting_at(u32::MAX);
    let mut document = Document::open(alloc, Edition::Edition2021, NO_ITEM.text, &mut ids)?;
    let edit = put(alloc, &mut document, range(0, 1), "b", &mut ids)?;
    let commit = commit_refusal(alloc, &mut document, &mut ids)?;
    let refused = (edit == Some(EditError::NoTreeNumber))
        & (commit == Some(CommitError::NoTreeNumber));
    let number = document.root().tree() == u32::MAX;
    Ok(is_row(alloc, &document, &NO_ITEM)? & refused & number)
}

#[test]
fn no_number_is_left(rt: HostRuntime) -> Result<(), Fail> {
    assert!(rt; is_the_last(rt.alloc())?);
    Ok(())
}

/// Whether an editor of `struct S;` from before an edit is refused, and the document is as the edit left it.
fn is_foreign(alloc: Global, at: TextRange, new: &str, becomes: &str) -> Result<bool, Fail> {
    let mut ids = TreeIds::starting_at(2);
    let mut document = open(alloc, "struct S;")?;
    let older = document.editor(alloc)?;
    let edit = put(alloc, &mut document, at, new, &mut ids)?;
    let commit = document.commit(alloc, older, &mut ids).err();
    let stays = (document.text() == becomes) & (document.root().tree() == 2);
    Ok(edit.is_none() & (commit == Some(CommitError::Foreign)) & stays)
}

/// An edit makes all older editors foreign, also one that puts nothing in.
#[test]
fn editors_from_before_an_edit(rt: HostRuntime) -> Result<(), Fail> {
    assert!(rt; is_foreign(rt.alloc(), range(9, 9), " ", "struct S; ")?);
    assert!(rt; is_foreign(rt.alloc(), range(0, 0), "", "struct S;")?);
    Ok(())
}
