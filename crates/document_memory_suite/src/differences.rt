//! Differences of rewritten trees from their readings; inputs of the whole language; ranges and payloads.
use crate::documents::read;
use parser_input::{Edition, LexedStr, SyntaxKind};
use ra_parser::{Grammar, TopEntryPoint};
use rowan_green::{TextRange, TextSize};
use rust_document::{Document, SyntaxEditor};
use std::alloc::Global;
use syntax_tree::TreeIds;

/// Returns the name of a kind, or `-`.
fn kind_name(kind: Option<SyntaxKind>) -> &'static str {
    match kind {
        Some(kind) => kind.name(),
        None => "-",
    }
}

/// Returns the first difference that recorded changes make: its range and both kinds.
pub(crate) fn difference(
    alloc: Global,
    document: &Document,
    editor: &SyntaxEditor,
) -> anyhow::Result<String> {
    let Some(told) = document.difference(alloc, editor)? else {
        return Ok(String::from_str(alloc, "none")?);
    };
    let (start, end) = (told.range.start().0, told.range.end().0);
    let (wanted, read) = (kind_name(told.wanted), kind_name(told.read));
    Ok(format!(in alloc; "{start}..{end} {wanted} {read}")?)
}

/// Returns the number of tokens of a text that is read as the whole language.
pub(crate) fn whole_input(alloc: Global) -> anyhow::Result<String> {
    let lexed = LexedStr::new(alloc, Edition::Edition2021, "struct S;")?;
    let input = Grammar::Whole.input(alloc, &lexed)?;
    let count = input.len();
    Ok(format!(in alloc; "{count}")?)
}

/// Returns a range of bytes.
pub(crate) fn range(start: u32, end: u32) -> TextRange {
    if end < start {
        return TextRange::empty(TextSize(start));
    }
    TextRange::new(TextSize(start), TextSize(end))
}

/// Returns a payload and its tree number.
pub(crate) fn payload_read(alloc: Global) -> anyhow::Result<String> {
    let mut ids = TreeIds::new();
    let element = read(alloc, TopEntryPoint::Expr, "1 + 2", &mut ids)?;
    Ok(format!(in alloc; "{} {}", element.tree(), element.green()?)?)
}
