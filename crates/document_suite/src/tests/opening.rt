//! Texts that are opened: their trees, tokens and messages.
use super::{IDENT, Place, ROOT, SEMICOLON, SPACE, open, range, spaces};
use parser_input::edition::Edition;
use parser_input::syntax_kind::SyntaxKind;
use rust_document::{Document, MAX_TEXT, OpenError, SyntaxMessage};
use std::alloc::{AllocError, Global};
use std::test::Fail;
use syntax_tree::TreeIds;

/// The path to the element at a place, if there is one, is this.
fn stands_at(
    alloc: Global,
    document: &Document,
    place: Place,
    path: &[usize],
) -> Result<bool, AllocError> {
    let (kind, start, end) = place;
    match document.find(alloc, kind, range(start, end))? {
        Some(element) => Ok(element.path(alloc)?.as_slice() == path),
        None => Ok(false),
    }
}

/// Whether each of these elements is found at its path. Where all leaves are among them, they are the tree.
fn has_tree(
    alloc: Global,
    document: &Document,
    expected: &[(Place, &[usize])],
) -> Result<bool, AllocError> {
    for (place, path) in expected {
        if !stands_at(alloc, document, *place, path)? {
            return Ok(false);
        }
    }
    Ok(true)
}

/// Whether these are the tokens.
fn has_tokens(document: &Document, expected: &[Place]) -> bool {
    let mut tokens = document.tokens();
    for (kind, start, end) in expected {
        match tokens.next() {
            Some(token) if token.kind == *kind && token.range == range(*start, *end) => {}
            _ => return false,
        }
    }
    tokens.next().is_none()
}

/// Whether these are the messages, each with its place.
pub(super) fn has_errors(
    alloc: Global,
    document: &Document,
    expected: &[(usize, &str)],
) -> Result<bool, AllocError> {
    let errors = document.errors();
    let mut equal = errors.len() == expected.len();
    for (error, (offset, message)) in errors.iter().zip(expected.iter()) {
        let shown = error.to_string(alloc)?;
        equal &= (error.offset == *offset) & (shown.as_str() == *message);
    }
    Ok(equal)
}

/// Whether these are the messages of the lexer, each with its place.
fn has_faults(document: &Document, expected: &[(usize, &str)]) -> bool {
    let mut left = expected.iter();
    for error in document.errors() {
        let SyntaxMessage::Lexer(words) = error.message else {
            continue;
        };
        match left.next() {
            Some((offset, message)) if error.offset == *offset && words == *message => {}
            _ => return false,
        }
    }
    left.next().is_none()
}

/// A text with what is read of it: its elements with the paths that lead to them, its tokens, and its messages with their places.
#[derive(Clone, Copy)]
pub(super) struct Row {
    pub(super) text: &'static str,
    pub(super) tree: &'static [(Place, &'static [usize])],
    pub(super) tokens: &'static [Place],
    pub(super) errors: &'static [(usize, &'static str)],
}

const EMPTY: Row = Row {
    text: "",
    tree: &[((SyntaxKind::SOURCE_FILE, 0, 0), &[])],
    tokens: &[],
    errors: &[],
};

const STRUCT: Row = Row {
    text: "struct S;",
    tree: &[
        (ROOT, &[]),
        ((SyntaxKind::STRUCT, 0, 9), &[0]),
        ((SyntaxKind::STRUCT_KW, 0, 6), &[0, 0]),
        (SPACE, &[0, 1]),
        ((SyntaxKind::NAME, 7, 8), &[0, 2]),
        (IDENT, &[0, 2, 0]),
        (SEMICOLON, &[0, 3]),
    ],
    tokens: &[(SyntaxKind::STRUCT_KW, 0, 6), SPACE, IDENT, SEMICOLON],
    errors: &[],
};

const NO_ITEM: Row = Row {
    text: "S;",
    tree: &[
        ((SyntaxKind::SOURCE_FILE, 0, 2), &[]),
        ((SyntaxKind::ERROR, 0, 1), &[0]),
        ((SyntaxKind::PATH, 0, 1), &[0, 0]),
        ((SyntaxKind::PATH_SEGMENT, 0, 1), &[0, 0, 0]),
        ((SyntaxKind::NAME_REF, 0, 1), &[0, 0, 0, 0]),
        ((SyntaxKind::IDENT, 0, 1), &[0, 0, 0, 0, 0]),
        ((SyntaxKind::ERROR, 1, 2), &[1]),
        ((SyntaxKind::SEMICOLON, 1, 2), &[1, 0]),
    ],
    tokens: &[(SyntaxKind::IDENT, 0, 1), (SyntaxKind::SEMICOLON, 1, 2)],
    errors: &[(1, "expected an item"), (1, "expected an item")],
};

const MISSING: Row = Row {
    text: "struct struct;",
    tree: &[
        ((SyntaxKind::SOURCE_FILE, 0, 14), &[]),
        ((SyntaxKind::STRUCT, 0, 6), &[0]),
        ((SyntaxKind::STRUCT_KW, 0, 6), &[0, 0]),
        ((SyntaxKind::WHITESPACE, 6, 7), &[1]),
        ((SyntaxKind::STRUCT, 7, 14), &[2]),
        ((SyntaxKind::STRUCT_KW, 7, 13), &[2, 0]),
        ((SyntaxKind::SEMICOLON, 13, 14), &[2, 1]),
    ],
    tokens: &[
        (SyntaxKind::STRUCT_KW, 0, 6),
        (SyntaxKind::WHITESPACE, 6, 7),
        (SyntaxKind::STRUCT_KW, 7, 13),
        (SyntaxKind::SEMICOLON, 13, 14),
    ],
    errors: &[
        (6, "expected NAME"),
        (6, "expected SEMICOLON"),
        (13, "expected NAME"),
    ],
};

const NO_ITEMS: Row = Row {
    text: "@error@",
    tree: &[
        ((SyntaxKind::SOURCE_FILE, 0, 7), &[]),
        ((SyntaxKind::ERROR, 0, 1), &[0]),
        ((SyntaxKind::AT, 0, 1), &[0, 0]),
        ((SyntaxKind::ERROR, 1, 6), &[1]),
        ((SyntaxKind::PATH, 1, 6), &[1, 0]),
        ((SyntaxKind::PATH_SEGMENT, 1, 6), &[1, 0, 0]),
        ((SyntaxKind::NAME_REF, 1, 6), &[1, 0, 0, 0]),
        ((SyntaxKind::IDENT, 1, 6), &[1, 0, 0, 0, 0]),
        ((SyntaxKind::ERROR, 6, 7), &[2]),
        ((SyntaxKind::AT, 6, 7), &[2, 0]),
    ],
    tokens: &[
        (SyntaxKind::AT, 0, 1),
        (SyntaxKind::IDENT, 1, 6),
        (SyntaxKind::AT, 6, 7),
    ],
    errors: &[
        (0, "expected an item"),
        (6, "expected an item"),
        (6, "expected an item"),
    ],
};

const OPEN_PARAMS: Row = Row {
    text: "fn f( {}",
    tree: &[
        ((SyntaxKind::FN, 0, 8), &[0]),
        ((SyntaxKind::PARAM_LIST, 4, 5), &[0, 3]),
        ((SyntaxKind::L_PAREN, 4, 5), &[0, 3, 0]),
        ((SyntaxKind::BLOCK_EXPR, 6, 8), &[0, 5]),
        ((SyntaxKind::STMT_LIST, 6, 8), &[0, 5, 0]),
    ],
    tokens: &[
        (SyntaxKind::FN_KW, 0, 2),
        (SyntaxKind::WHITESPACE, 2, 3),
        (SyntaxKind::IDENT, 3, 4),
        (SyntaxKind::L_PAREN, 4, 5),
        (SyntaxKind::WHITESPACE, 5, 6),
        (SyntaxKind::L_CURLY, 6, 7),
        (SyntaxKind::R_CURLY, 7, 8),
    ],
    errors: &[(5, "expected R_PAREN")],
};

const FIELDS: Row = Row {
    text: "struct S { a b: c }",
    tree: &[
        ((SyntaxKind::STRUCT, 0, 19), &[0]),
        ((SyntaxKind::RECORD_FIELD_LIST, 9, 19), &[0, 4]),
    ],
    tokens: &[
        (SyntaxKind::STRUCT_KW, 0, 6),
        (SyntaxKind::WHITESPACE, 6, 7),
        (SyntaxKind::IDENT, 7, 8),
        (SyntaxKind::WHITESPACE, 8, 9),
        (SyntaxKind::L_CURLY, 9, 10),
        (SyntaxKind::WHITESPACE, 10, 11),
        (SyntaxKind::IDENT, 11, 12),
        (SyntaxKind::WHITESPACE, 12, 13),
        (SyntaxKind::IDENT, 13, 14),
        (SyntaxKind::COLON, 14, 15),
        (SyntaxKind::WHITESPACE, 15, 16),
        (SyntaxKind::IDENT, 16, 17),
        (SyntaxKind::WHITESPACE, 17, 18),
        (SyntaxKind::R_CURLY, 18, 19),
    ],
    errors: &[
        (12, "expected COLON"),
        (14, "expected COMMA"),
        (14, "unexpected token in RECORD_FIELD_LIST"),
        (17, "expected COLON"),
        (17, "expected a type"),
    ],
};

/// A float behind a dot is the names of two fields.
pub(super) const FLOAT: Row = Row {
    text: "fn f() { x.0.1; }",
    tree: &[
        ((SyntaxKind::EXPR_STMT, 9, 15), &[0, 5, 0, 2]),
        ((SyntaxKind::FIELD_EXPR, 9, 14), &[0, 5, 0, 2, 0]),
        ((SyntaxKind::FIELD_EXPR, 9, 12), &[0, 5, 0, 2, 0, 0]),
        ((SyntaxKind::DOT, 12, 13), &[0, 5, 0, 2, 0, 1]),
        ((SyntaxKind::NAME_REF, 13, 14), &[0, 5, 0, 2, 0, 2]),
    ],
    tokens: &[
        (SyntaxKind::FN_KW, 0, 2),
        (SyntaxKind::WHITESPACE, 2, 3),
        (SyntaxKind::IDENT, 3, 4),
        (SyntaxKind::L_PAREN, 4, 5),
        (SyntaxKind::R_PAREN, 5, 6),
        (SyntaxKind::WHITESPACE, 6, 7),
        (SyntaxKind::L_CURLY, 7, 8),
        (SyntaxKind::WHITESPACE, 8, 9),
        (SyntaxKind::IDENT, 9, 10),
        (SyntaxKind::DOT, 10, 11),
        (SyntaxKind::FLOAT_NUMBER, 11, 14),
        (SyntaxKind::SEMICOLON, 14, 15),
        (SyntaxKind::WHITESPACE, 15, 16),
        (SyntaxKind::R_CURLY, 16, 17),
    ],
    errors: &[],
};

const FRONTMATTER: Row = Row {
    text: "---\n---\nstruct S;",
    tree: &[
        ((SyntaxKind::SOURCE_FILE, 0, 17), &[]),
        ((SyntaxKind::FRONTMATTER, 0, 8), &[0]),
        ((SyntaxKind::STRUCT, 8, 17), &[1]),
    ],
    tokens: &[
        (SyntaxKind::FRONTMATTER, 0, 8),
        (SyntaxKind::STRUCT_KW, 8, 14),
        (SyntaxKind::WHITESPACE, 14, 15),
        (SyntaxKind::IDENT, 15, 16),
        (SyntaxKind::SEMICOLON, 16, 17),
    ],
    errors: &[],
};

/// A call of two arguments.
pub(super) const CALL: Row = Row {
    text: "fn f() { g(1, 2); }",
    tree: &[
        ((SyntaxKind::FN, 0, 19), &[0]),
        ((SyntaxKind::EXPR_STMT, 9, 17), &[0, 5, 0, 2]),
        ((SyntaxKind::CALL_EXPR, 9, 16), &[0, 5, 0, 2, 0]),
        ((SyntaxKind::ARG_LIST, 10, 16), &[0, 5, 0, 2, 0, 1]),
        ((SyntaxKind::LITERAL, 11, 12), &[0, 5, 0, 2, 0, 1, 1]),
        ((SyntaxKind::LITERAL, 14, 15), &[0, 5, 0, 2, 0, 1, 4]),
    ],
    tokens: &[
        (SyntaxKind::FN_KW, 0, 2),
        (SyntaxKind::WHITESPACE, 2, 3),
        (SyntaxKind::IDENT, 3, 4),
        (SyntaxKind::L_PAREN, 4, 5),
        (SyntaxKind::R_PAREN, 5, 6),
        (SyntaxKind::WHITESPACE, 6, 7),
        (SyntaxKind::L_CURLY, 7, 8),
        (SyntaxKind::WHITESPACE, 8, 9),
        (SyntaxKind::IDENT, 9, 10),
        (SyntaxKind::L_PAREN, 10, 11),
        (SyntaxKind::INT_NUMBER, 11, 12),
        (SyntaxKind::COMMA, 12, 13),
        (SyntaxKind::WHITESPACE, 13, 14),
        (SyntaxKind::INT_NUMBER, 14, 15),
        (SyntaxKind::R_PAREN, 15, 16),
        (SyntaxKind::SEMICOLON, 16, 17),
        (SyntaxKind::WHITESPACE, 17, 18),
        (SyntaxKind::R_CURLY, 18, 19),
    ],
    errors: &[],
};

/// Before 2024 a `#` before a string is a token of its own: an attribute that lacks all else.
pub(super) const NO_ATTRIBUTE: Row = Row {
    text: "#\"a\" b",
    tree: &[
        ((SyntaxKind::SOURCE_FILE, 0, 6), &[]),
        ((SyntaxKind::ERROR, 0, 1), &[0]),
        ((SyntaxKind::ATTR, 0, 1), &[0, 0]),
        ((SyntaxKind::ERROR, 1, 4), &[1]),
        ((SyntaxKind::WHITESPACE, 4, 5), &[2]),
        ((SyntaxKind::ERROR, 5, 6), &[3]),
        ((SyntaxKind::PATH, 5, 6), &[3, 0]),
    ],
    tokens: &[
        (SyntaxKind::POUND, 0, 1),
        (SyntaxKind::STRING, 1, 4),
        (SyntaxKind::WHITESPACE, 4, 5),
        (SyntaxKind::IDENT, 5, 6),
    ],
    errors: &[
        (1, "expected L_BRACK"),
        (1, "expected META"),
        (1, "expected R_BRACK"),
        (1, "expected an item"),
        (1, "expected an item"),
        (6, "expected an item"),
    ],
};

/// Whether a document is what a row says.
pub(super) fn is_row(alloc: Global, document: &Document, row: &Row) -> Result<bool, AllocError> {
    let tree = has_tree(alloc, document, row.tree)?;
    let errors = has_errors(alloc, document, row.errors)?;
    let text = document.text() == row.text;
    Ok(tree & has_tokens(document, row.tokens) & errors & text)
}

/// Whether a text is read as its row says, in a tree of the number 1.
pub(super) fn is_read(alloc: Global, row: &Row) -> Result<bool, Fail> {
    let document = open(alloc, row.text)?;
    let number = document.root().tree() == 1;
    Ok(is_row(alloc, &document, row)? & number)
}

const READ: &[Row] = &[
    EMPTY,
    STRUCT,
    NO_ITEM,
    MISSING,
    NO_ITEMS,
    OPEN_PARAMS,
    FIELDS,
    FLOAT,
    FRONTMATTER,
    CALL,
    NO_ATTRIBUTE,
];

#[test]
fn texts_are_read(rt: HostRuntime) -> Result<(), Fail> {
    for row in READ {
        assert!(rt; is_read(rt.alloc(), row)?, "{}", row.text);
    }
    Ok(())
}

/// An edition, and the tokens of `#"a"` in it with the messages of the lexer.
type Guarded = (Edition, &'static [Place], &'static [(usize, &'static str)]);

/// From 2024 on a `#` before a string is a prefix kept for later.
const GUARDED: &[Guarded] = &[
    (
        Edition::Edition2021,
        &[(SyntaxKind::POUND, 0, 1), (SyntaxKind::STRING, 1, 4)],
        &[],
    ),
    (
        Edition::Edition2024,
        &[
            (SyntaxKind::ERROR, 0, 2),
            (SyntaxKind::IDENT, 2, 3),
            (SyntaxKind::STRING, 3, 4),
        ],
        &[
            (0, "guarded prefix"),
            (2, "unknown prefix"),
            (3, "unterminated literal"),
        ],
    ),
];

/// Whether `#"a"` has the tokens and the messages of its row.
fn is_guarded(alloc: Global, (edition, tokens, messages): &Guarded) -> Result<bool, Fail> {
    let document = Document::open(alloc, *edition, "#\"a\"", &mut TreeIds::new())?;
    Ok(has_tokens(&document, tokens) & has_faults(&document, messages))
}

#[test]
fn prefixes_are_those_of_the_edition(rt: HostRuntime) -> Result<(), Fail> {
    for row in GUARDED {
        assert!(rt; is_guarded(rt.alloc(), row)?);
    }
    Ok(())
}

/// Whether the root of an empty text has no child.
fn is_bare(alloc: Global) -> Result<bool, OpenError> {
    let document = open(alloc, "")?;
    Ok(document.root().cursor().green().children().len() == 0)
}

#[test]
fn an_empty_text(rt: HostRuntime) -> Result<(), Fail> {
    assert!(rt; is_bare(rt.alloc())?);
    Ok(())
}

/// Why a text is not opened in edition 2015.
fn refusal(alloc: Global, text: &str, ids: &mut TreeIds) -> Option<OpenError> {
    Document::open(alloc, Edition::Edition2015, text, ids).err()
}

const OPENED: &[&str] = &[
    "fn f() {}",
    "struct _;",
    "}",
    "struct S; /* s",
    "'",
    "#![a] \u{0}",
];

#[test]
fn every_text_opens(rt: HostRuntime) {
    let mut ids = TreeIds::new();
    for text in OPENED {
        assert!(rt; refusal(rt.alloc(), text, &mut ids).is_none());
    }
    assert!(rt; ids.next() == Ok(7));
}

#[test]
fn no_number_is_left(rt: HostRuntime) {
    let mut ids = TreeIds::starting_at(u32::MAX);
    assert!(rt; refusal(rt.alloc(), "struct S;", &mut ids).is_none());
    assert!(rt; refusal(rt.alloc(), "struct S;", &mut ids) == Some(OpenError::NoTreeNumber));
}

/// Returns the error of opening a text of `count` spaces.
fn refusal_of_spaces(alloc: Global, count: usize) -> Result<Option<OpenError>, AllocError> {
    let text = spaces(alloc, count)?;
    Ok(refusal(alloc, text.as_str(), &mut TreeIds::new()))
}

#[test]
fn the_limit(rt: HostRuntime) -> Result<(), Fail> {
    assert!(rt; refusal_of_spaces(rt.alloc(), MAX_TEXT)?.is_none());
    assert!(rt; refusal_of_spaces(rt.alloc(), MAX_TEXT + 1)? == Some(OpenError::TooLong));
    Ok(())
}

/// Whether nothing is found at a place.
fn is_free(alloc: Global, document: &Document, place: Place) -> Result<bool, AllocError> {
    let (kind, start, end) = place;
    Ok(document.find(alloc, kind, range(start, end))?.is_none())
}

/// Whether nothing is found where `struct S;` has an element of another kind, or of another length.
fn is_found_exactly(alloc: Global) -> Result<bool, Fail> {
    let document = open(alloc, "struct S;")?;
    let longer = is_free(alloc, &document, (SyntaxKind::IDENT, 7, 9))?;
    let other = is_free(alloc, &document, (SyntaxKind::ERROR, 7, 8))?;
    Ok(longer & other)
}

#[test]
fn what_is_not_there(rt: HostRuntime) -> Result<(), Fail> {
    assert!(rt; is_found_exactly(rt.alloc())?);
    Ok(())
}
