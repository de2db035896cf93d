//! Texts with comments: where these stand, and what a commit makes of them.
use super::opening::{Row, is_read};
use parser_input::syntax_kind::SyntaxKind;
use std::test::Fail;

/// A comment right before an item stands in it.
const ATTACHED: Row = Row {
    text: "// a\nstruct S;",
    tree: &[
        ((SyntaxKind::SOURCE_FILE, 0, 14), &[]),
        ((SyntaxKind::STRUCT, 0, 14), &[0]),
        ((SyntaxKind::COMMENT, 0, 4), &[0, 0]),
        ((SyntaxKind::WHITESPACE, 4, 5), &[0, 1]),
        ((SyntaxKind::STRUCT_KW, 5, 11), &[0, 2]),
        ((SyntaxKind::WHITESPACE, 11, 12), &[0, 3]),
        ((SyntaxKind::NAME, 12, 13), &[0, 4]),
        ((SyntaxKind::SEMICOLON, 13, 14), &[0, 5]),
    ],
    tokens: &[
        (SyntaxKind::COMMENT, 0, 4),
        (SyntaxKind::WHITESPACE, 4, 5),
        (SyntaxKind::STRUCT_KW, 5, 11),
        (SyntaxKind::WHITESPACE, 11, 12),
        (SyntaxKind::IDENT, 12, 13),
        (SyntaxKind::SEMICOLON, 13, 14),
    ],
    errors: &[],
};

/// An empty line between keeps it out.
pub(super) const APART: Row = Row {
    text: "// a\n\nstruct S;",
    tree: &[
        ((SyntaxKind::COMMENT, 0, 4), &[0]),
        ((SyntaxKind::WHITESPACE, 4, 6), &[1]),
        ((SyntaxKind::STRUCT, 6, 15), &[2]),
        ((SyntaxKind::STRUCT_KW, 6, 12), &[2, 0]),
    ],
    tokens: &[
        (SyntaxKind::COMMENT, 0, 4),
        (SyntaxKind::WHITESPACE, 4, 6),
        (SyntaxKind::STRUCT_KW, 6, 12),
        (SyntaxKind::WHITESPACE, 12, 13),
        (SyntaxKind::IDENT, 13, 14),
        (SyntaxKind::SEMICOLON, 14, 15),
    ],
    errors: &[],
};

/// An outer doc comment stands inside all the same.
const OUTER: Row = Row {
    text: "/// a\n\nstruct S;",
    tree: &[
        ((SyntaxKind::STRUCT, 0, 16), &[0]),
        ((SyntaxKind::COMMENT, 0, 5), &[0, 0]),
        ((SyntaxKind::WHITESPACE, 5, 7), &[0, 1]),
        ((SyntaxKind::STRUCT_KW, 7, 13), &[0, 2]),
    ],
    tokens: &[
        (SyntaxKind::COMMENT, 0, 5),
        (SyntaxKind::WHITESPACE, 5, 7),
        (SyntaxKind::STRUCT_KW, 7, 13),
        (SyntaxKind::WHITESPACE, 13, 14),
        (SyntaxKind::IDENT, 14, 15),
        (SyntaxKind::SEMICOLON, 15, 16),
    ],
    errors: &[],
};

/// An inner one never does.
const INNER: Row = Row {
    text: "//! a\nstruct S;",
    tree: &[
        ((SyntaxKind::COMMENT, 0, 5), &[0]),
        ((SyntaxKind::WHITESPACE, 5, 6), &[1]),
        ((SyntaxKind::STRUCT, 6, 15), &[2]),
    ],
    tokens: &[
        (SyntaxKind::COMMENT, 0, 5),
        (SyntaxKind::WHITESPACE, 5, 6),
        (SyntaxKind::STRUCT_KW, 6, 12),
        (SyntaxKind::WHITESPACE, 12, 13),
        (SyntaxKind::IDENT, 13, 14),
        (SyntaxKind::SEMICOLON, 14, 15),
    ],
    errors: &[],
};

/// The error of the missing name is at the end of the last token before it; the comment follows.
const INSIDE: Row = Row {
    text: "struct /* n */ ;",
    tree: &[
        ((SyntaxKind::STRUCT, 0, 16), &[0]),
        ((SyntaxKind::COMMENT, 7, 14), &[0, 2]),
        ((SyntaxKind::SEMICOLON, 15, 16), &[0, 4]),
    ],
    tokens: &[
        (SyntaxKind::STRUCT_KW, 0, 6),
        (SyntaxKind::WHITESPACE, 6, 7),
        (SyntaxKind::COMMENT, 7, 14),
        (SyntaxKind::WHITESPACE, 14, 15),
        (SyntaxKind::SEMICOLON, 15, 16),
    ],
    errors: &[(6, "expected NAME")],
};

const PLACED: &[Row] = &[ATTACHED, APART, OUTER, INNER, INSIDE];

#[test]
fn comments_are_placed(rt: HostRuntime) -> Result<(), Fail> {
    for row in PLACED {
        assert!(rt; is_read(rt.alloc(), row)?, "{}", row.text);
    }
    Ok(())
}
