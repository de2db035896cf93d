//! Edits and commits that keep tokens and the parser's output.
use super::comments::APART;
use super::commits::put;
use super::opening::is_row;
use super::{IDENT, edit, range};
use parser_input::edition::Edition;
use parser_input::syntax_kind::SyntaxKind;
use rust_document::{Document, PayloadEntry, payload};
use std::alloc::Global;
use std::test::Fail;
use syntax_tree::TreeIds;

/// An edition, a text, the range of an edit and what is put there; the tokens kept in front, lexed and kept after; and `true` if the
/// parser's output is kept.
type Kept = (
    Edition,
    &'static str,
    (u32, u32),
    &'static str,
    (usize, usize, usize),
    bool,
);

fn is_kept(alloc: Global, (edition, text, at, new, counts, is_same): &Kept) -> Result<bool, Fail> {
    let mut ids = TreeIds::new();
    let mut document = Document::open(alloc, *edition, text, &mut ids)?;
    let edited = edit(alloc, &mut document, range(at.0, at.1), new, &mut ids)??;
    let found = (edited.front, edited.lexed, edited.back);
    Ok((found == *counts) & ((edited.steps == 0) == *is_same))
}

const OLD: Edition = Edition::Edition2021;

const LAST: Edition = Edition::Edition2024;

const NEXT: Edition = Edition::EditionNext;

const KEPT: &[Kept] = &[
    (OLD, "", (0, 0), "", (0, 0, 0), true),
    (OLD, "a b", (0, 0), "", (0, 0, 3), true),
    (OLD, "a b c d", (2, 3), "bb", (0, 3, 4), true),
    (NEXT, "a b c d", (2, 3), "bb", (0, 3, 4), true),
    (OLD, "struct S; struct T;", (9, 9), "//", (2, 3, 0), false),
    (OLD, "struct S; // a", (13, 14), "b", (5, 1, 0), true),
    (OLD, "fn f() { x.0.1; }", (13, 14), "", (10, 1, 3), false),
    (OLD, "1.x", (2, 3), "5", (0, 1, 0), false),
    (OLD, "a\u{2028}x", (4, 5), "y", (0, 3, 0), true),
    // Only a joint bit, or a contextual kind, is another one.
    (OLD, "a < < b", (3, 4), "", (1, 2, 3), false),
    (OLD, "a;", (0, 1), "union", (0, 1, 1), false),
    // The preface is no part of what is kept, and a new one keeps nothing.
    (OLD, "---\n---\nstruct S;", (15, 16), "T", (0, 3, 1), true),
    (
        OLD,
        "#!x\n---\n---\nstruct S;",
        (19, 20),
        "T",
        (0, 3, 1),
        true,
    ),
    (OLD, "---\n---\nstruct S;", (0, 0), "-", (0, 13, 0), false),
    (OLD, "---\n---\nstruct S;", (3, 3), "a", (0, 4, 0), true),
    (OLD, "#!x\nstruct S;", (2, 2), "y", (0, 5, 0), true),
    // Before 2024 a guarded prefix is no token.
    (OLD, "#\"a\" b", (5, 6), "c", (0, 4, 0), true),
    (LAST, "#\"a\" b", (5, 6), "c", (2, 1, 0), true),
    (NEXT, "#\"a\" b", (5, 6), "c", (2, 1, 0), true),
    (OLD, "# b", (1, 2), "#", (0, 3, 0), false),
    // A `|` before a `>`.
    (LAST, "fn f() { a |> b; }", (12, 12), " ", (9, 3, 6), false),
    (NEXT, "fn f() { a |> b; }", (12, 12), " ", (9, 3, 6), false),
    (NEXT, "fn f() { a | > b; }", (12, 13), "", (9, 2, 6), false),
    (NEXT, "fn f() { a |> b; }", (14, 15), "c", (11, 3, 3), true),
];

#[test]
fn edits_keep_tokens_and_output(rt: HostRuntime) -> Result<(), Fail> {
    for row in KEPT {
        assert!(rt; is_kept(rt.alloc(), row)?, "at {}, {}", row.1, row.3);
    }
    Ok(())
}

fn comment_moves(alloc: Global) -> Result<bool, Fail> {
    let mut ids = TreeIds::new();
    let mut document = Document::open(alloc, OLD, "// a\nstruct S;", &mut ids)?;
    let edited = edit(alloc, &mut document, range(4, 4), "\n", &mut ids)??;
    Ok((edited.steps == 0) & is_row(alloc, &document, &APART)?)
}

/// Where the parser's output is kept, whitespace and comments are still placed by the new text.
#[test]
fn comments_move_though_the_output_is_kept(rt: HostRuntime) -> Result<(), Fail> {
    assert!(rt; comment_moves(rt.alloc())?);
    Ok(())
}

/// Returns the steps of a commit that puts a token for the name in `struct S;`, and of an edit after it that takes the semicolon away.
fn steps(alloc: Global, token: &str) -> Result<(u64, u64), Fail> {
    let mut ids = TreeIds::new();
    let mut document = Document::open(alloc, OLD, "struct S;", &mut ids)?;
    let editor = put(alloc, &document, IDENT, (OLD, token), &mut ids)?;
    let committed = document.commit(alloc, editor, &mut ids)?;
    let edited = edit(alloc, &mut document, range(10, 11), "", &mut ids)??;
    Ok((committed.steps, edited.steps))
}

#[test]
fn commits_keep_output(rt: HostRuntime) -> Result<(), Fail> {
    let renamed = steps(rt.alloc(), "Tee")?;
    assert!(rt; (renamed.0 == 0) & (renamed.1 > 0), "a rename");
    let contextual = steps(rt.alloc(), "raw")?;
    assert!(rt;
        (contextual.0 > 0) & (contextual.1 > 0),
        "a contextual keyword"
    );
    Ok(())
}

/// Returns the steps of a commit that renames both names of a statement at once.
fn steps_of_two(alloc: Global) -> Result<u64, Fail> {
    let mut ids = TreeIds::new();
    let mut document = Document::open(alloc, OLD, "fn f() { let x = a * 2; }", &mut ids)?;
    let mut editor = document.editor(alloc)?;
    for (at, name) in [((13, 14), "y"), ((17, 18), "b")] {
        let Some(old) = document.find(alloc, SyntaxKind::IDENT, range(at.0, at.1))? else {
            return Err(Fail::new("no identifier"));
        };
        let new = payload(alloc, PayloadEntry::Token, OLD, name, &mut ids)?;
        editor.replace(alloc, &old, &new)?;
    }
    let committed = document.commit(alloc, editor, &mut ids)?;
    if document.text() != "fn f() { let y = b * 2; }" {
        return Err(Fail::new("another text"));
    }
    Ok(committed.steps)
}

#[test]
fn two_renames_at_once_keep_output(rt: HostRuntime) -> Result<(), Fail> {
    assert!(rt; steps_of_two(rt.alloc())? == 0);
    Ok(())
}
