//! Documents and payloads of the whole language.
use anyhow::bail;
use memory_table::row::{Ask, Row};
use parser_input::Edition;
use ra_parser::{Grammar, TopEntryPoint};
use rust_document::{Document, OpenError, PayloadEntry, PayloadError};
use std::alloc::Global;
use syntax_tree::TreeIds;

/// The calls by a choice of grammar.
#[derive(Clone, Copy)]
pub(crate) enum GrammarCall {
    /// Opens a text.
    Open(&'static str),
    /// Reads an item to insert.
    Payload(&'static str),
}

/// A macro's definition, which the profile leaves out.
const MACRO: &str = "macro_rules! m { () => {} }";

/// Opens a text, a second time if it runs out of memory: no tree number is used up then.
fn opened(
    alloc: Global,
    text: &str,
    ids: &mut TreeIds,
    refused: &mut u32,
) -> anyhow::Result<Document> {
    let edition = Edition::Edition2021;
    match Document::open_by(alloc, edition, Grammar::Whole, text, ids) {
        Err(OpenError::NoMemory) => {
            *refused = refused.saturating_add(1);
            let again = Document::open_by(alloc, edition, Grammar::Whole, text, ids);
            Ok(again?)
        }
        opened => Ok(opened?),
    }
}

/// Returns the tree number, the messages and the text of a payload, which is read a second time if that runs
/// out of memory: no tree number is used up then.
fn payload_read(alloc: Global, text: &str, refused: &mut u32) -> anyhow::Result<String> {
    let mut ids = TreeIds::new();
    let document = opened(alloc, "struct S;", &mut ids, refused)?;
    let entry = PayloadEntry::Top(TopEntryPoint::MacroItems);
    for _ in 0..2 {
        match document.payload(alloc, entry, text, &mut ids) {
            Err(PayloadError::NoMemory) => *refused = refused.saturating_add(1),
            element => {
                let element = element?;
                return Ok(format!(in alloc; "{} {}", element.tree(), element.green()?)?);
            }
        }
    }
    bail!("refused twice")
}

impl Ask for GrammarCall {
    fn answer(self, alloc: Global, refused: &mut u32) -> anyhow::Result<String> {
        match self {
            GrammarCall::Open(text) => {
                let mut ids = TreeIds::new();
                let document = opened(alloc, text, &mut ids, refused)?;
                let (number, messages) = (document.root().tree(), document.errors().len());
                Ok(format!(in alloc; "{number} {messages} {}", document.text())?)
            }
            GrammarCall::Payload(text) => payload_read(alloc, text, refused),
        }
    }
}

pub(crate) const ROWS: &[Row<GrammarCall>] = &[
    (
        "rust_document::Document::open_by",
        GrammarCall::Open(MACRO),
        "1 0 macro_rules! m { () => {} }",
    ),
    (
        "rust_document::Document::payload",
        GrammarCall::Payload(MACRO),
        "2 macro_rules! m { () => {} }",
    ),
];
