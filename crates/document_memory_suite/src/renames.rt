//! Editors that are asked whether they only rename.
use crate::documents::{Changes, recorded};
use memory_table::row::{Ask, Row};
use parser_input::Edition;
use rust_document::Document;
use std::alloc::Global;
use syntax_tree::TreeIds;

/// Asks whether changes of `struct S;` are a plain renaming.
#[derive(Clone, Copy)]
pub(crate) struct RenameCall {
    changes: Changes,
}

impl Ask for RenameCall {
    fn answer(self, alloc: Global, _refused: &mut u32) -> anyhow::Result<String> {
        let mut ids = TreeIds::new();
        let document = Document::open(alloc, Edition::Edition2021, "struct S;", &mut ids)?;
        let editor = recorded(alloc, self.changes, &document, &mut ids)?;
        let is_plain = document.is_plain_rename(alloc, &editor)?;
        Ok(format!(in alloc; "{is_plain}")?)
    }
}

pub(crate) const ROWS: &[Row<RenameCall>] = &[
    (
        "rust_document::Document::is_plain_rename",
        RenameCall {
            changes: Changes::Name,
        },
        "true",
    ),
    (
        "rust_document::Document::is_plain_rename",
        RenameCall {
            changes: Changes::Keyword,
        },
        "false",
    ),
];
