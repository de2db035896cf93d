//! What is shown of files.
use crate::failing::Failing;
use crate::files::source;
use anyhow::bail;
use file_target::{Memory, Target};
use memory_table::row::{Ask, Row};
use source_tools::{Format, View, show};
use std::alloc::Global;
use std::io::{self, ErrorKind};

/// The views.
#[derive(Clone, Copy)]
pub(crate) enum ViewCall {
    Shown(View),
    Failing,
    Denied,
}

/// The paths of the files that are shown.
const PATHS: [&str; 2] = ["a.rs", "b.rs"];

/// Returns two files, the second with a message, of which the call with this number fails.
fn files(alloc: Global, number: u32) -> anyhow::Result<Failing> {
    let mut memory = Memory::new(alloc);
    memory.add(alloc, "a.rs", b"mod a;")?;
    memory.add(alloc, "b.rs", b"x")?;
    Ok(Failing::new(memory, number))
}

/// Shows the files of which the call with this number fails.
fn shown(alloc: Global, view: View, number: u32) -> anyhow::Result<String> {
    let files = files(alloc, number)?;
    shown_of(alloc, view, &files)
}

/// Shows the files, and appends the status. The output has its room before.
fn shown_of<T: Target>(alloc: Global, view: View, files: &T) -> anyhow::Result<String> {
    let mut sources = Vec::new(alloc);
    for path in PATHS {
        sources.push(source(alloc, path)?)?;
    }
    let mut output = Vec::with_capacity(alloc, 1024)?;
    let summary = show(alloc, view, files, sources.as_slice(), &mut output)?;
    match str::from_utf8(output.as_slice()) {
        Ok(text) => Ok(format!(in alloc; "{text}{}\n", summary.status())?),
        Err(_) => bail!("no text"),
    }
}

/// Shows the messages of the files, of which one read fails, each in turn.
fn failing(alloc: Global) -> anyhow::Result<String> {
    let mut out = String::new(alloc);
    for number in 1..4u32 {
        let text = shown(alloc, View::Messages(Format::Text), number)?;
        out.push_str(text.as_str())?;
    }
    Ok(out)
}

/// Shows the messages of the files, of which the system does not read one, each in turn.
fn denied(alloc: Global) -> anyhow::Result<String> {
    let mut out = String::new(alloc);
    for path in PATHS {
        let mut files = files(alloc, 0)?;
        let error = Some(io::Error::from(ErrorKind::PermissionDenied));
        files.memory.permit(path, error, None);
        let text = shown_of(alloc, View::Messages(Format::Text), &files.memory)?;
        out.push_str(text.as_str())?;
    }
    Ok(out)
}

impl Ask for ViewCall {
    fn answer(self, alloc: Global, _refused: &mut u32) -> anyhow::Result<String> {
        match self {
            ViewCall::Shown(view) => shown(alloc, view, 0),
            ViewCall::Failing => failing(alloc),
            ViewCall::Denied => denied(alloc),
        }
    }
}

pub(crate) const ROWS: &[Row<ViewCall>] = &[
    (
        "source_tools::show of messages",
        ViewCall::Shown(View::Messages(Format::Text)),
        "b.rs:1:2: expected an item\nx\n ^\n1\n",
    ),
    (
        "source_tools::show of messages as JSON",
        ViewCall::Shown(View::Messages(Format::Json)),
        "{\"path\":\"a.rs\",\"messages\":[]}\n{\"path\":\"b.rs\",\"messages\":[{\"line\":1,\"column\":2,\
        \"offset\":1,\"end\":1,\"message\":\"expected an item\"}]}\n1\n",
    ),
    (
        "source_tools::show of tokens",
        ViewCall::Shown(View::Tokens(Format::Text)),
        "MOD_KW@0..3 \"mod\"\nWHITESPACE@3..4 \" \"\nIDENT@4..5 \"a\"\nSEMICOLON@5..6 \";\"\n\
        IDENT@0..1 \"x\"\n0\n",
    ),
    (
        "source_tools::show of tokens as JSON",
        ViewCall::Shown(View::Tokens(Format::Json)),
        "{\"path\":\"a.rs\",\"tokens\":[{\"kind\":\"MOD_KW\",\"start\":0,\"end\":3},\
        {\"kind\":\"WHITESPACE\",\"start\":3,\"end\":4},{\"kind\":\"IDENT\",\"start\":4,\"end\":5},\
        {\"kind\":\"SEMICOLON\",\"start\":5,\"end\":6}]}\n\
        {\"path\":\"b.rs\",\"tokens\":[{\"kind\":\"IDENT\",\"start\":0,\"end\":1}]}\n0\n",
    ),
    (
        "source_tools::show of trees",
        ViewCall::Shown(View::Tree(Format::Text)),
        "SOURCE_FILE@0..6\n  MODULE@0..6\n    MOD_KW@0..3 \"mod\"\n    WHITESPACE@3..4 \" \"\n    \
        NAME@4..5\n      IDENT@4..5 \"a\"\n    SEMICOLON@5..6 \";\"\n\
        SOURCE_FILE@0..1\n  ERROR@0..1\n    PATH@0..1\n      PATH_SEGMENT@0..1\n        \
        NAME_REF@0..1\n          IDENT@0..1 \"x\"\n0\n",
    ),
    (
        "source_tools::show over failing files",
        ViewCall::Failing,
        "b.rs:1:2: expected an item\nx\n ^\n2\n2\nb.rs:1:2: expected an item\nx\n ^\n1\n",
    ),
    (
        "source_tools::show over files that the system does not read",
        ViewCall::Denied,
        "b.rs:1:2: expected an item\nx\n ^\n2\n2\n",
    ),
];
