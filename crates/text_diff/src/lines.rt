//! Lines of a text.

ghost use Rattle.std.specs.Prelude.{◌≡◌, IfOk, map};
ghost use Rattle.text_diff.specs.Lines.{lines};

use std::alloc::{AllocError, Global};

/// Returns the lines of `text`, each with its line feed.
pub(crate) fn lines<'a>(alloc: Global, text: &'a [u8]) -> Result<Vec<&'a [u8]>, AllocError>
    ensures { IfOk result (λ found. map (λ line. line.now) found.items ≡ lines text.now) }
{
    let mut found = Vec::new(alloc);
    let mut start = 0;
    for (i, byte) in text.iter().enumerate() {
        if *byte == b'\n' {
            found.push(&text[start..i + 1])?;
            start = i + 1;
        }
    }
    if start < text.len() {
        found.push(&text[start..])?;
    }
    Ok(found)
}
