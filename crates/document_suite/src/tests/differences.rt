//! Where the new text reads as another tree than the rewritten one.
use super::{Place, expression, replacing};
use parser_input::edition::Edition;
use parser_input::syntax_kind::SyntaxKind;
use rust_document::{Difference, Document};
use std::alloc::Global;
use std::test::Fail;
use syntax_tree::TreeIds;

/// An element that becomes an expression, and the first difference: its bytes, and the kinds that are
/// wanted and read.
#[derive(Clone, Copy)]
struct Row {
    text: &'static str,
    place: Place,
    new: &'static str,
    wanted: Option<(u32, u32, Option<SyntaxKind>, Option<SyntaxKind>)>,
}

/// Returns the first difference of a row's rewrite.
fn difference(
    alloc: Global,
    document: &Document,
    row: &Row,
    ids: &mut TreeIds,
) -> Result<Option<Difference>, Fail> {
    let new = expression(alloc, row.new, ids)?;
    let editor = replacing(alloc, document, row.place, &new)?;
    Ok(document.difference(alloc, &editor)?)
}

/// Returns `true` if a row has the wanted difference.
fn is_answered(alloc: Global, row: &Row) -> Result<bool, Fail> {
    let mut ids = TreeIds::new();
    let document = Document::open(alloc, Edition::Edition2021, row.text, &mut ids)?;
    let told = match difference(alloc, &document, row, &mut ids)? {
        Some(told) => Some((
            told.range.start().0,
            told.range.end().0,
            told.wanted,
            told.read,
        )),
        None => None,
    };
    Ok(told == row.wanted)
}

const ROWS: &[Row] = &[
    // `fn f() { 1 + 2 * a }` reads as a sum whose second operand is a product.
    Row {
        text: "fn f() { a * a }",
        place: (SyntaxKind::PATH_EXPR, 9, 10),
        new: "1 + 2",
        wanted: Some((9, 14, Some(SyntaxKind::BIN_EXPR), Some(SyntaxKind::LITERAL))),
    },
    // In parentheses it reads as it is.
    Row {
        text: "fn f() { a * a }",
        place: (SyntaxKind::PATH_EXPR, 9, 10),
        new: "(1 + 2)",
        wanted: None,
    },
    // `fn f() { |a| c.b }` reads as a closure whose body is the field.
    Row {
        text: "fn f() { a.b }",
        place: (SyntaxKind::PATH_EXPR, 9, 10),
        new: "|a| c",
        wanted: Some((
            9,
            16,
            Some(SyntaxKind::FIELD_EXPR),
            Some(SyntaxKind::CLOSURE_EXPR),
        )),
    },
];

#[test]
fn first_difference_is_told(rt: HostRuntime) -> Result<(), Fail> {
    for row in ROWS {
        assert!(rt; is_answered(rt.alloc(), row)?, "{}", row.new);
    }
    Ok(())
}
