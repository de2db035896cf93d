//! Rows of matches.

use match_rows::push_matches;
use parser_input::Edition;
use pattern_parser::{Dialect, PatternError, parse_pattern};
use ra_parser::Grammar;
use rust_document::Document;
use std::alloc::Global;
use std::test::Fail;
use syntax_tree::TreeIds;

const DIALECT: Dialect = Dialect {
    edition: Edition::Edition2021,
    grammar: Grammar::Whole,
};

/// Returns the rows of the matches of a pattern in a text, and their number.
fn rows_of(alloc: Global, pattern: &str, text: &str) -> Result<(Vec<u8>, usize), Fail> {
    let pattern = parse_pattern(alloc, DIALECT, pattern, None)?;
    let mut ids = TreeIds::new();
    let document = Document::open_by(alloc, DIALECT.edition, DIALECT.grammar, text, &mut ids)?;
    let mut rows = Vec::new(alloc);
    rows.extend_from_slice(b"found\n")?;
    let count = push_matches(alloc, "x.rs", &document, &pattern, &mut rows)?;
    Ok((rows, count))
}

#[test]
fn a_match_is_shown_by_its_place_and_first_line(rt: HostRuntime) -> Result<(), Fail> {
    let text = "fn f() { a.unwrap(); g(b\n.unwrap(), c.unwrap()) }";
    let (rows, count) = rows_of(rt.alloc(), "$a.unwrap()", text)?;
    let wanted = "found\nx.rs:1:10: a.unwrap()\nx.rs:1:24: b\nx.rs:2:12: c.unwrap()\n";
    assert!(rt; count == 3 && rows.as_slice() == wanted.as_bytes());
    Ok(())
}

#[test]
fn columns_count_characters(rt: HostRuntime) -> Result<(), Fail> {
    let (rows, count) = rows_of(rt.alloc(), "g($a)", "fn f() { \"é𝕏\"; g(\"é\") }")?;
    assert!(rt; count == 1 && rows.as_slice() == "found\nx.rs:1:16: g(\"é\")\n".as_bytes());
    Ok(())
}

#[test]
fn no_match_has_no_row(rt: HostRuntime) -> Result<(), Fail> {
    let (rows, count) = rows_of(rt.alloc(), "h($a)", "fn f() { g(1) }")?;
    assert!(rt; count == 0 && rows.as_slice() == b"found\n".as_slice());
    let read = parse_pattern(rt.alloc(), DIALECT, "$a", None);
    assert!(rt; matches!(read, Err(PatternError::OnlyMetavariable)));
    Ok(())
}
