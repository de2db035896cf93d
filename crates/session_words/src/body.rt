//! Bodies of messages.

ghost use Rattle.std.specs.Prelude.{◌≡◌, IfOk, option_map};
ghost use Rattle.serde_json.specs.View.{view};
ghost use Rattle.session_words.specs.Bodies.{body_value, value_in};

use crate::escapes::mended;
use serde_json::{Category, Value};
use std::alloc::{AllocError, Global};

/// Returns the value that `bytes` are in JSON.
fn value_in(alloc: Global, bytes: &[u8]) -> Result<Option<Value>, AllocError>
    ensures { IfOk result (λ value. option_map view value ≡ value_in bytes.now) }
{
    let Ok(text) = str::from_utf8(bytes) else {
        return Ok(None);
    };
    match Value::from_str(alloc, text) {
        Ok(value) => Ok(Some(value)),
        Err(error) => match error.classify() {
            Category::Memory => Err(AllocError),
            _ => Ok(None),
        },
    }
}

/// Returns the value that the body of a message is, or `None` if it is no JSON in UTF-8, or nests more than 127 levels.
/// `\ufffd` stands for the escape of a lone surrogate.
///
/// # Errors
///
/// Out of memory.
pub fn body_value(alloc: Global, body: &[u8]) -> Result<Option<Value>, AllocError>
    ensures { IfOk result (λ value. option_map view value ≡ body_value body.now) }
{
    let bytes = mended(alloc, body)?;
    value_in(alloc, bytes.as_slice())
}
