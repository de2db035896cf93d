//! Files in memory.

use file_target::Memory;
use parser_input::Edition;
use rust_document::Grammar;
use source_tools::{
    Dialect, FileError, Format, RenameFault, Renaming, Source, Stop, Summary, View, plan_renames,
    show, write_diffs,
};
use std::alloc::{AllocError, Global};
use std::test::Fail;

/// Returns sources of edition 2021.
fn sources(alloc: Global, paths: &[&str]) -> Result<Vec<Source>, AllocError> {
    let mut sources = Vec::new(alloc);
    for path in paths {
        sources.push(Source {
            path: String::from_str(alloc, path)?,
            dialect: Dialect {
                edition: Edition::Edition2021,
                grammar: Grammar::Whole,
            },
        })?;
    }
    Ok(sources)
}

/// Shows a good file, one with a message, one that is no text and one that does not exist.
fn show_four(alloc: Global, view: View, output: &mut Vec<u8>) -> Result<Summary, Stop> {
    let mut memory = Memory::new(alloc);
    memory.add(alloc, "a.rs", b"\xef\xbb\xbfstruct S;\n")?;
    memory.add(alloc, "b.rs", "fn f() {\n\tlet \u{e9} = ;\n}\n".as_bytes())?;
    memory.add(alloc, "c.rs", b"\xff")?;
    let sources = sources(alloc, &["a.rs", "b.rs", "c.rs", "d.rs"])?;
    show(alloc, view, &memory, sources.as_slice(), output)
}

#[test]
fn messages_have_places(rt: HostRuntime) -> Result<(), Fail> {
    let alloc = rt.alloc();
    let mut output = Vec::new(alloc);
    let summary = match show_four(alloc, View::Messages(Format::Text), &mut output) {
        Err(Stop::NoMemory) => {
            output.clear();
            show_four(alloc, View::Messages(Format::Text), &mut output)?
        }
        answer => answer?,
    };
    let expected = "b.rs:2:9: expected an expression\n\tlet \u{e9} = ;\n\t       ^\n";
    assert!(rt; output.as_slice() == expected.as_bytes());
    assert!(rt; (summary.status() == 2) & (summary.faults.len() == 2));
    let first = &summary.faults[0];
    assert!(rt; (first.index == 2) & matches!(first.error, FileError::NotUtf8));
    let second = &summary.faults[1];
    assert!(rt; (second.index == 3) & matches!(second.error, FileError::NotFound));
    Ok(())
}

/// Returns what is shown of one file.
fn shown(alloc: Global, view: View, text: &str) -> Result<Vec<u8>, Stop> {
    let mut memory = Memory::new(alloc);
    memory.add(alloc, "a.rs", text.as_bytes())?;
    let sources = sources(alloc, &["a.rs"])?;
    let mut output = Vec::new(alloc);
    show(alloc, view, &memory, sources.as_slice(), &mut output)?;
    Ok(output)
}

#[test]
fn tokens_and_trees_have_rows(rt: HostRuntime) -> Result<(), Fail> {
    let alloc = rt.alloc();
    let tokens = shown(alloc, View::Tokens(Format::Text), "struct\tS;")?;
    let expected =
        "STRUCT_KW@0..6 \"struct\"\nWHITESPACE@6..7 \"\\t\"\nIDENT@7..8 \"S\"\nSEMICOLON@8..9 \";\"\n";
    assert!(rt; tokens.as_slice() == expected.as_bytes());
    let tree = shown(alloc, View::Tree(Format::Text), "mod a;")?;
    let expected = "SOURCE_FILE@0..6\n  MODULE@0..6\n    MOD_KW@0..3 \"mod\"\n    \
        WHITESPACE@3..4 \" \"\n    NAME@4..5\n      IDENT@4..5 \"a\"\n    SEMICOLON@5..6 \";\"\n";
    assert!(rt; tree.as_slice() == expected.as_bytes());
    Ok(())
}

/// Each view as JSON.
const OBJECTS: [(View, &str, &str); 5] = [
    (
        View::Messages(Format::Json),
        "fn f() {\n let \u{e9} = ;}",
        "{\"path\":\"a.rs\",\"messages\":[{\"line\":2,\"column\":9,\"offset\":18,\"end\":18,\
        \"message\":\"expected an expression\"}]}\n",
    ),
    (
        View::Messages(Format::Json),
        "mod a;\n\"bc",
        "{\"path\":\"a.rs\",\"messages\":[{\"line\":2,\"column\":1,\"offset\":7,\"end\":10,\
        \"message\":\"unterminated literal\"},{\"line\":2,\"column\":1,\"offset\":7,\"end\":7,\
        \"message\":\"expected an item\"}]}\n",
    ),
    (
        View::Messages(Format::Json),
        "mod a;",
        "{\"path\":\"a.rs\",\"messages\":[]}\n",
    ),
    (
        View::Tokens(Format::Json),
        "S\t",
        "{\"path\":\"a.rs\",\"tokens\":[{\"kind\":\"IDENT\",\"start\":0,\"end\":1},\
        {\"kind\":\"WHITESPACE\",\"start\":1,\"end\":2}]}\n",
    ),
    (
        View::Tree(Format::Json),
        " ",
        "{\"path\":\"a.rs\",\"tree\":[{\"depth\":0,\"kind\":\"SOURCE_FILE\",\"start\":0,\"end\":1},\
        {\"depth\":1,\"kind\":\"WHITESPACE\",\"start\":0,\"end\":1}]}\n",
    ),
];

#[test]
fn views_have_objects(rt: HostRuntime) -> Result<(), Fail> {
    for (view, text, expected) in OBJECTS.iter() {
        let shown = shown(rt.alloc(), *view, text)?;
        assert!(rt; shown.as_slice() == expected.as_bytes());
    }
    Ok(())
}

#[test]
fn messages_are_in_order(rt: HostRuntime) -> Result<(), Fail> {
    let text = "fn f() { \"abc\n";
    let expected = "a.rs:1:10: unterminated literal\nfn f() { \"abc\n         ^\n\
        a.rs:2:1: expected }\n\n^\n";
    let shown = shown(rt.alloc(), View::Messages(Format::Text), text)?;
    assert!(rt; shown.as_slice() == expected.as_bytes());
    Ok(())
}

/// The files that are renamed in; the second one stays as it is.
const PATHS: [&str; 2] = ["b.rs", "c.rs"];

/// Returns the files.
fn files(alloc: Global) -> Result<Memory, AllocError> {
    let mut memory = Memory::new(alloc);
    for path in PATHS {
        let text = if path == "c.rs" {
            "fn other() {}"
        } else {
            "fn old() {}"
        };
        memory.add(alloc, path, text.as_bytes())?;
    }
    Ok(memory)
}

#[test]
fn a_diff_is_of_the_files_that_change(rt: HostRuntime) -> Result<(), Fail> {
    let alloc = rt.alloc();
    let target = files(alloc)?;
    let paths = sources(alloc, &["b.rs", "c.rs"])?;
    let mut renaming = Renaming {
        old: "old",
        new: "new",
        merge: false,
    };
    let changes = match plan_renames(alloc, [renaming].as_slice(), &target, paths.as_slice()) {
        Ok(changes) => changes,
        Err(_) => return Ok(assert!(rt; false)),
    };
    let mut output = Vec::new(alloc);
    write_diffs(alloc, changes.as_slice(), &mut output)?;
    let expected = "--- a/b.rs\t\n+++ b/b.rs\t\n@@ -1,1 +1,1 @@\n-fn old() {}\n\
        \\ No newline at end of file\n+fn new() {}\n\\ No newline at end of file\n";
    assert!(rt; output.as_slice() == expected.as_bytes());
    renaming.new = "other";
    let refused = match plan_renames(alloc, [renaming].as_slice(), &target, paths.as_slice()) {
        Ok(_) => false,
        Err(failure) => (failure.index == 1) & matches!(failure.fault, RenameFault::NameTaken),
    };
    assert!(rt; refused);
    Ok(())
}
