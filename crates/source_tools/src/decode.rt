//! The text of a file.

ghost use Rattle.std.specs.Prelude.{◌≡◌, IfOk, option_map};
ghost use Rattle.source_tools.specs.Decoded.{after_mark, decoded, encoded, is_marked};

use std::alloc::{AllocError, Global};

/// U+FEFF, which may begin a file and is no part of its text.
const MARK: &str = "\u{feff}";

/// Returns `text` without a byte order mark.
fn after_mark(text: &str) -> &str
    ensures { result.now ≡ after_mark text.now }
{
    match text.strip_prefix(MARK) {
        Some(rest) => rest,
        None => text,
    }
}

/// Returns the text of a file with these bytes, without a byte order mark; `None` if they are not
/// UTF-8.
pub fn text_of(bytes: &[u8]) -> Option<&str>
    ensures { option_map (λ text. text.now) result ≡ decoded bytes.now }
{
    match str::from_utf8(bytes) {
        Ok(text) => Some(after_mark(text)),
        Err(_) => None,
    }
}

/// Returns `text` as bytes, behind the byte order mark of `old` if that has one.
///
/// # Errors
///
/// Out of memory.
pub fn encode(alloc: Global, old: &[u8], text: &str) -> Result<Vec<u8>, AllocError>
    ensures { IfOk result (λ bytes. bytes.items ≡ encoded old.now text.now) }
{
    let mut bytes = Vec::new(alloc);
    if old.starts_with(MARK.as_bytes()) {
        bytes.extend_from_slice(MARK.as_bytes())?;
    }
    bytes.extend_from_slice(text.as_bytes())?;
    Ok(bytes)
}
