//! Calls of a source that are no call of its document, and the renaming of a document.
use crate::differences::range;
use anyhow::bail;
use memory_table::row::{Ask, Row};
use renamer::{RenameError, rename, rename_but_macro_names};
use rust_document::Document;
use rust_source::{Edition, Source, SyntaxElement, SyntaxKind};
use std::alloc::Global;
use syntax_tree::TreeIds;

/// The calls on a source.
#[derive(Clone, Copy)]
pub(crate) enum SourceCall {
    /// Returns the indent of a function's line.
    LineIndent,
    /// Tells what a commit of a new name would change.
    Preview,
    /// Lists the places and ends of the messages about a text.
    RangedErrors(&'static str),
    /// Renames a struct in a document.
    Rename,
    /// Renames a name of a macro call, and leaves a metavariable.
    RenameButMacroNames,
}

fn line_indent(alloc: Global) -> anyhow::Result<String> {
    let text = "mod m {\n \tfn f() {}\n}";
    let source = Source::open(alloc, Edition::Edition2021, text)?;
    match source.find(SyntaxKind::FN, range(10, 19))? {
        Some(function) => Ok(source.line_indent(&function)?),
        None => bail!("not found"),
    }
}

/// Returns the new text, and the changed ranges of both texts.
fn preview(alloc: Global) -> anyhow::Result<String> {
    let mut source = Source::open(alloc, Edition::Edition2021, "struct S;")?;
    let name = source.make_token(SyntaxKind::IDENT, "Tee")?;
    let mut editor = source.editor()?;
    if let Some(old) = source.find(SyntaxKind::IDENT, range(7, 8))? {
        editor.replace(alloc, &old, &SyntaxElement::Token(name))?;
    }
    let preview = source.preview(&editor)?;
    let mut told = format!(in alloc; "{}", preview.text)?;
    for changed in &preview.changed {
        let (before, after) = (changed.before, changed.after);
        let (start, end) = (before.start().0, before.end().0);
        let (at, to) = (after.start().0, after.end().0);
        let pair = format!(in alloc; " {start}..{end} {at}..{to}")?;
        told.push_str(pair.as_str())?;
    }
    Ok(told)
}

fn ranged_errors(alloc: Global, text: &str) -> anyhow::Result<String> {
    let source = Source::open(alloc, Edition::Edition2021, text)?;
    let mut told = String::new(alloc);
    for ranged in source.ranged_errors()? {
        let message = format!(in alloc; "{}..{};", ranged.error.offset, ranged.end)?;
        told.push_str(message.as_str())?;
    }
    Ok(told)
}

/// Renames a struct, or a name that a metavariable has, too.
fn rename_in(
    alloc: Global,
    document: &mut Document,
    call: SourceCall,
    ids: &mut TreeIds,
) -> Result<(), RenameError> {
    match call {
        SourceCall::RenameButMacroNames => {
            rename_but_macro_names(alloc, document, "x", "yy", ids)
        }
        _ => rename(alloc, document, "S", "Tee", ids),
    }
}

/// Returns a text after a renaming. A call that fails is made again on the document that it left.
fn renamed(
    alloc: Global,
    text: &str,
    call: SourceCall,
    refused: &mut u32,
) -> anyhow::Result<String> {
    let mut ids = TreeIds::new();
    let mut document = Document::open(alloc, Edition::Edition2021, text, &mut ids)?;
    if rename_in(alloc, &mut document, call, &mut ids).is_err() {
        *refused = refused.saturating_add(1);
        if document.text() != text {
            bail!("the text has changed");
        }
        rename_in(alloc, &mut document, call, &mut ids)?;
    }
    Ok(String::from_str(alloc, document.text())?)
}

impl Ask for SourceCall {
    fn answer(self, alloc: Global, refused: &mut u32) -> anyhow::Result<String> {
        match self {
            SourceCall::LineIndent => line_indent(alloc),
            SourceCall::Preview => preview(alloc),
            SourceCall::RangedErrors(text) => ranged_errors(alloc, text),
            SourceCall::Rename => renamed(alloc, "struct S; fn f(x: S) {}", self, refused),
            SourceCall::RenameButMacroNames => {
                renamed(alloc, "m! { x $ /**/ x }", self, refused)
            }
        }
    }
}

pub(crate) const ROWS: &[Row<SourceCall>] = &[
    (
        "rust_source::Source::line_indent",
        SourceCall::LineIndent,
        " \t",
    ),
    (
        "rust_source::Source::preview",
        SourceCall::Preview,
        "struct Tee; 7..8 7..10",
    ),
    (
        "rust_source::Source::ranged_errors",
        SourceCall::RangedErrors("const A: u8 = 0x;"),
        "14..16;",
    ),
    (
        "renamer::rename",
        SourceCall::Rename,
        "struct Tee; fn f(x: Tee) {}",
    ),
    (
        "renamer::rename_but_macro_names",
        SourceCall::RenameButMacroNames,
        "m! { yy $ /**/ x }",
    ),
];
