//! The tree of a document as rows.

ghost use Rattle.std.specs.Prelude.{◌≡◌, [], ◌++◌, OnOk, codes};
ghost use Rattle.source_tools.specs.Json.{file_object};
ghost use Rattle.source_tools.specs.Texts.{dialect_of, events_of, item_of_element, outer, row_of_element, tree_items, tree_rows};

use crate::json::{ElementPlace, push_element_item, push_object};
use crate::rows::{push_range, push_text};
use rowan::{ElementExt, SyntaxElement, WalkEvent};
use rowan_green::NodeOrToken;
use rust_document::Document;
use std::alloc::{AllocError, Global};
use syntax_tree::RustLanguage;

/// Appends the row of an element.
fn push_element(
    alloc: Global,
    element: &SyntaxElement<RustLanguage>,
    rows: &mut Vec<u8>,
) -> Result<(), AllocError>
    ensures { OnOk result (rows.new.items ≡ rows.old.items ++ row_of_element element.now) }
{
    let range = element.text_range();
    let start = usize::from(range.start());
    let end = usize::from(range.end());
    push_range(alloc, element.kind().name(), start, end, rows)?;
    match element {
        NodeOrToken::Node(_) => rows.push(b'\n')?,
        NodeOrToken::Token(token) => push_text(token.text().as_bytes(), rows)?,
    }
    Ok(())
}

/// Appends a row for each element of the tree of `document`, a node before what is in it.
pub(crate) fn push_tree(
    alloc: Global,
    document: &Document,
    rows: &mut Vec<u8>,
) -> Result<(), AllocError>
    ensures { OnOk result (rows.new.items ≡ rows.old.items
        ++ tree_rows [] (events_of (dialect_of document.now) document.now.text)) }
{
    let mut margin = Vec::new(alloc);
    let mut events = document.root().cursor().preorder_with_tokens(alloc)?;
    'events: while let Some(event) = events.next() {
        match event? {
            WalkEvent::Enter(element) => {
                rows.extend_from_slice(margin.as_slice())?;
                push_element(alloc, &element, rows)?;
                margin.extend_from_slice(b"  ")?;
            }
            WalkEvent::Leave(_) => margin.truncate(margin.len().saturating_sub(2)),
        }
    }
    Ok(())
}

/// Appends the item of an element that has `depth` nodes around it.
fn push_item(
    alloc: Global,
    depth: usize,
    element: &SyntaxElement<RustLanguage>,
    items: &mut Vec<u8>,
) -> Result<(), AllocError>
    ensures { OnOk result (items.new.items ≡ items.old.items ++ item_of_element depth element.now) }
{
    let range = element.text_range();
    let place = ElementPlace {
        depth,
        start: usize::from(range.start()),
        end: usize::from(range.end()),
    };
    push_element_item(alloc, element.kind().name(), place, items)?;
    Ok(())
}

/// Appends an item for each element of the tree of `document`, a node before what is in it.
fn push_items(alloc: Global, document: &Document, items: &mut Vec<u8>) -> Result<(), AllocError>
    ensures { OnOk result (items.new.items ≡ items.old.items
        ++ tree_items 0 (events_of (dialect_of document.now) document.now.text)) }
{
    let mut levels: Vec<u8> = Vec::new(alloc);
    let mut events = document.root().cursor().preorder_with_tokens(alloc)?;
    'events: while let Some(event) = events.next() {
        match event? {
            WalkEvent::Enter(element) => {
                push_item(alloc, levels.as_slice().len(), &element, items)?;
                levels.push(0)?;
            }
            WalkEvent::Leave(_) => levels.truncate(levels.as_slice().len().saturating_sub(1)),
        }
    }
    Ok(())
}

/// Appends the object of the tree of `document`.
pub(crate) fn push_tree_list(
    alloc: Global,
    path: &str,
    document: &Document,
    rows: &mut Vec<u8>,
) -> Result<(), AllocError>
    ensures { OnOk result (rows.new.items ≡ rows.old.items ++ file_object path.now (codes "tree")
        (tree_items 0 (events_of (dialect_of document.now) document.now.text))) }
{
    let mut items = Vec::new(alloc);
    push_items(alloc, document, &mut items)?;
    push_object(alloc, path, "tree", items.as_slice(), rows)?;
    Ok(())
}
