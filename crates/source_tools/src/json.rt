//! Rows of JSON.

ghost use Rattle.std.specs.Prelude.{◌≡◌, ◌<◌, ◌+◌, ◌^◌, ◌++◌, OnOk, IfOk, drop, string_bytes};
ghost use Rattle.source_tools.specs.Json.{change_item, element_item, file_object, json_string, message_item, message_place, token_item};

use crate::rows::Message;
use serde_json::Value;
use std::alloc::{AllocError, Global};
use text_diff::ByteChange;

/// Returns `text` as a string in JSON.
fn json_string(alloc: Global, text: &str) -> Result<String, AllocError>
    ensures { IfOk result (λ written. string_bytes written ≡ json_string text.now) }
{
    let value = Value::String(String::from_str(alloc, text)?);
    value.to_string(alloc)
}

/// Returns what the item of a message begins with: where it is.
fn message_place(alloc: Global, message: &Message<'_>) -> Result<String, AllocError>
    requires line { message.now.place.line + 1 < 2 ^ 64 }
    requires col { message.now.place.col + 1 < 2 ^ 64 }
    ensures { IfOk result (λ text. string_bytes text
        ≡ message_place message.now.place message.now.offset) }
{
    let line = message.place.line + 1;
    let column = message.place.col + 1;
    let offset = message.offset;
    format!(in alloc; ",{{\"line\":{line},\"column\":{column},\"offset\":{offset}")
}

/// Returns the item of a message that ends at the offset `end`.
fn message_item(alloc: Global, message: &Message<'_>, end: usize) -> Result<String, AllocError>
    requires line { message.now.place.line + 1 < 2 ^ 64 }
    requires col { message.now.place.col + 1 < 2 ^ 64 }
    ensures { IfOk result (λ item. string_bytes item
        ≡ message_item message.now.place message.now.offset end message.now.words.now) }
{
    let place = message_place(alloc, message)?;
    let words = json_string(alloc, message.words)?;
    format!(in alloc; "{place},\"end\":{end},\"message\":{words}}}")
}

/// Appends the item of a message that ends at the offset `end`.
pub(crate) fn push_message_item(
    alloc: Global,
    message: &Message<'_>,
    end: usize,
    items: &mut Vec<u8>,
) -> Result<(), AllocError>
    requires line { message.now.place.line + 1 < 2 ^ 64 }
    requires col { message.now.place.col + 1 < 2 ^ 64 }
    ensures { OnOk result (items.new.items ≡ items.old.items
        ++ message_item message.now.place message.now.offset end message.now.words.now) }
{
    let item = message_item(alloc, message, end)?;
    items.extend_from_slice(item.as_str().as_bytes())
}

/// Appends the item of a token.
pub(crate) fn push_token_item(
    alloc: Global,
    name: &str,
    start: usize,
    end: usize,
    items: &mut Vec<u8>,
) -> Result<(), AllocError>
    ensures { OnOk result (items.new.items ≡ items.old.items ++ token_item name.now start end) }
{
    let item = format!(in alloc; ",{{\"kind\":\"{name}\",\"start\":{start},\"end\":{end}}}")?;
    items.extend_from_slice(item.as_str().as_bytes())
}

/// The range of an element, and the number of the nodes around it.
#[derive(Clone, Copy)]
pub(crate) struct ElementPlace {
    pub(crate) depth: usize,
    pub(crate) start: usize,
    pub(crate) end: usize,
}

/// Appends the item of an element.
pub(crate) fn push_element_item(
    alloc: Global,
    name: &str,
    place: ElementPlace,
    items: &mut Vec<u8>,
) -> Result<(), AllocError>
    ensures { OnOk result (items.new.items
        ≡ items.old.items ++ element_item place.depth name.now place.start place.end) }
{
    let depth = place.depth;
    let start = place.start;
    let end = place.end;
    let item = format!(in alloc;
        ",{{\"depth\":{depth},\"kind\":\"{name}\",\"start\":{start},\"end\":{end}}}"
    )?;
    items.extend_from_slice(item.as_str().as_bytes())
}

/// Appends the item of a change.
pub(crate) fn push_change_item(
    alloc: Global,
    change: &ByteChange,
    items: &mut Vec<u8>,
) -> Result<(), AllocError>
    ensures { OnOk result (items.new.items ≡ items.old.items ++ change_item change.now) }
{
    let start = change.old_start;
    let end = change.old_end;
    let new_start = change.new_start;
    let new_end = change.new_end;
    let item = format!(in alloc;
        ",{{\"start\":{start},\"end\":{end},\"new_start\":{new_start},\"new_end\":{new_end}}}"
    )?;
    items.extend_from_slice(item.as_str().as_bytes())
}

/// Returns the items without the comma of the first one.
fn without_comma(items: &[u8]) -> &[u8]
    ensures { result.now ≡ drop 1 items.now }
{
    match items {
        [] => items,
        [_, rest @ ..] => rest,
    }
}

/// Appends the object of a file: its path, and a list under `name`.
pub(crate) fn push_object(
    alloc: Global,
    path: &str,
    name: &str,
    items: &[u8],
    rows: &mut Vec<u8>,
) -> Result<(), AllocError>
    ensures { OnOk result (rows.new.items
        ≡ rows.old.items ++ file_object path.now name.now items.now) }
{
    let path = json_string(alloc, path)?;
    let head = format!(in alloc; "{{\"path\":{path},\"{name}\":[")?;
    rows.extend_from_slice(head.as_str().as_bytes())?;
    rows.extend_from_slice(without_comma(items))?;
    rows.extend_from_slice(b"]}\n")
}
