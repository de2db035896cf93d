//! The tool that renames, unless the name is taken.
use rename_tool::{Renaming, rename};
use rust_source::{CommitError, Edition, RenameError, Source};
use std::test::Fail;

/// A text, the old and the new name, what is answered, and the text then.
type Row = (
    &'static str,
    &'static str,
    &'static str,
    Result<Renaming, RenameError>,
    &'static str,
);

const TEXT: &str = "fn f(a: u8) -> u8 { m!(a, r#a, \"a\") + b } // a\n";

const ROWS: &[Row] = &[
    (
        TEXT,
        "a",
        "c",
        Ok(Renaming::Done),
        "fn f(c: u8) -> u8 { m!(c, r#a, \"a\") + b } // a\n",
    ),
    (TEXT, "a", "b", Ok(Renaming::NameIsTaken), TEXT),
    (
        TEXT,
        "a",
        "fn",
        Err(RenameError::Refused(CommitError::Unfaithful)),
        TEXT,
    ),
    ("fn f( {", "f", "g", Ok(Renaming::Done), "fn g( {"),
];

#[test]
fn identifiers_are_renamed(rt: HostRuntime) -> Result<(), Fail> {
    for (text, old, new, answer, wanted) in ROWS {
        let mut source = Source::open(rt.alloc(), Edition::Edition2021, *text)?;
        let done = rename(&mut source, *old, *new);
        let is_right = (done == *answer) & (source.text() == *wanted);
        drop(source);
        assert!(rt; is_right);
    }
    Ok(())
}
