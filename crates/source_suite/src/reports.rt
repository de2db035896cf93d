//! What a command says and shows, worked by hand.

use command_report::{
    Outcome, RenameCounts, place_row, push_row, rest_row, tally_row, unchanged_row,
};
use kind_words::words_of;
use parser_input::SyntaxKind;
use shown_lines::push_excerpt;
use std::test::Fail;

#[test]
fn outcomes_have_statuses(rt: HostRuntime) -> Result<(), Fail> {
    let found = Outcome::Done.and(Outcome::Found);
    let fault = found.and(Outcome::Fault).and(Outcome::Done);
    assert!(rt; (Outcome::Done.status() == 0) & (found.status() == 1) & (fault.status() == 2));
    Ok(())
}

#[test]
fn renaming_has_an_outcome(rt: HostRuntime) -> Result<(), Fail> {
    // The files that change, the places that are left, with `--check`, and without it.
    let rows = [
        (0, 0, Outcome::Done, Outcome::Found),
        (0, 1, Outcome::Found, Outcome::Found),
        (1, 0, Outcome::Found, Outcome::Done),
        (2, 3, Outcome::Found, Outcome::Done),
    ];
    for (files, left, checked, done) in rows {
        let counts = RenameCounts {
            names: files,
            files,
            left,
        };
        assert!(rt; (counts.outcome(true) == checked) & (counts.outcome(false) == done));
    }
    Ok(())
}

#[test]
fn rows_say_what_is_left(rt: HostRuntime) -> Result<(), Fail> {
    let alloc = rt.alloc();
    let row = place_row(alloc, "src/a.rs", 4, 17, "width in a string")?;
    assert!(rt; row.as_str() == "src/a.rs:4:17: width in a string\n");
    let mut rows = String::new(alloc);
    push_row("a\n", 19, &mut rows)?;
    push_row("b\n", 20, &mut rows)?;
    assert!(rt; rows.as_str() == "a\n");
    assert!(rt; rest_row(alloc, 20)?.is_empty());
    let rest = rest_row(alloc, 21)?;
    assert!(rt; rest.as_str() == "and 1 more place\n");
    let rest = rest_row(alloc, 32)?;
    assert!(rt; rest.as_str() == "and 12 more places\n");
    Ok(())
}

#[test]
fn rows_count_names_and_files(rt: HostRuntime) -> Result<(), Fail> {
    let alloc = rt.alloc();
    let row = tally_row(alloc, 12, 1, 0)?;
    assert!(rt; row.as_str() == "12 names in 1 file, 0 places left\n");
    let row = unchanged_row(alloc, "nosuch", 12)?;
    assert!(rt; row.as_str() == "no identifier `nosuch` in 12 files\n");
    Ok(())
}

#[test]
fn kinds_have_words(rt: HostRuntime) -> Result<(), Fail> {
    let rows = [
        (SyntaxKind::R_CURLY, "}"),
        (SyntaxKind::SEMICOLON, ";"),
        (SyntaxKind::PARAM_LIST, "a parameter list"),
        (SyntaxKind::MATCH_ARM_LIST, "a list of match arms"),
        (SyntaxKind::WHITESPACE, "WHITESPACE"),
    ];
    for (kind, words) in rows {
        assert!(rt; words_of(kind) == words);
    }
    Ok(())
}

#[test]
fn carets_are_below_their_characters(rt: HostRuntime) -> Result<(), Fail> {
    let alloc = rt.alloc();
    // A line, the byte of the place, and what is shown. `世` is three bytes and two columns.
    let rows = [
        ("let x = ;", 8, "let x = ;\n        ^\n"),
        ("\tlet é = ;", 10, "\tlet é = ;\n\t        ^\n"),
        ("世 = ;", 6, "世 = ;\n     ^\n"),
        (
            "a\u{1b}[0m\u{202e};\r",
            8,
            "a\u{241b}[0m\u{fffd};\n      ^\n",
        ),
    ];
    for (line, col, shown) in rows {
        let mut found = Vec::new(alloc);
        push_excerpt(alloc, line, col, &mut found)?;
        let is_right = found.as_slice() == shown.as_bytes();
        drop(found);
        assert!(rt; is_right);
    }
    Ok(())
}
