//! Rows of the table.

use anyhow::Result;
use message_frames::push_message;
use serde_json::Value;
use std::alloc::Global;

/// A session.
#[derive(Drop)]
pub(crate) struct Row {
    pub(crate) name: String,
    /// The bytes that the client sends.
    pub(crate) sent: Vec<u8>,
    /// What it is to be told, with the exit status last.
    pub(crate) told: Value,
}

/// Appends the bytes of a text whose characters are bytes.
fn push_bytes(text: &str, out: &mut Vec<u8>) -> Result<()> {
    for c in text.chars() {
        let code = u32::from(c);
        let byte = u8::try_from(code).unwrap_or(b'?');
        out.push(byte)?;
    }
    Ok(())
}

/// Appends what the client sends: a message in its frame, or bytes.
fn push_sent(alloc: Global, entry: &Value, out: &mut Vec<u8>) -> Result<()> {
    let mut bytes = Vec::new(alloc);
    match entry {
        Value::String(text) => {
            push_bytes(text.as_str(), &mut bytes)?;
            push_message(alloc, bytes.as_slice(), out)?;
        }
        Value::Array(parts) => {
            for part in parts.as_slice() {
                push_bytes(part.as_str().unwrap_or(""), out)?;
            }
        }
        _ => {}
    }
    Ok(())
}

/// Returns the row on a line.
pub(crate) fn row_in(alloc: Global, line: &str) -> Result<Row> {
    let value = Value::from_str(alloc, line)?;
    let name = value.get("name").and_then(Value::as_str).unwrap_or("");
    let name = String::from_str(alloc, name)?;
    let mut sent = Vec::new(alloc);
    if let Some(entries) = value.get("in").and_then(Value::as_array) {
        for entry in entries.as_slice() {
            push_sent(alloc, entry, &mut sent)?;
        }
    }
    let told = match value.get("out") {
        Some(told) => told.clone()?,
        None => Value::Null,
    };
    Ok(Row { name, sent, told })
}
