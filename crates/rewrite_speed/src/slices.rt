//! Slices of the text of a tree.
ghost use Rattle.std.specs.Prelude.{◌≡◌};

use anyhow::bail;
use rowan::SyntaxText;
use rust_document::{Document, TextRange};
use std::alloc::{AllocError, Global};

/// Returns `true` if the bytes of `text` at `range` are a struct. The text is also `whole`.
fn is_struct(text: &SyntaxText, whole: &str, range: TextRange) -> Result<bool, AllocError>
    requires { text.now ≡ whole.now }
{
    let start = range.start().0 as usize;
    let end = range.end().0 as usize;
    if !whole.is_char_boundary(start) || !whole.is_char_boundary(end) {
        return Ok(false);
    }
    let slice = text.slice(range)?;
    Ok(slice.eq_str("struct S;"))
}

/// Compares each child of the root with a struct, as a slice of the root's text, and returns the
/// number of equal ones.
pub(crate) fn equal(alloc: Global, document: &Document) -> anyhow::Result<usize> {
    let whole = document.text();
    let text = document.root().text()?;
    if !text.eq_str(whole) {
        bail!("the tree has another text");
    }
    let mut count: usize = 0;
    for child in document.root().children_with_tokens(alloc)? {
        if is_struct(&text, whole, child?.text_range())? {
            count = count.wrapping_add(1);
        }
    }
    Ok(count)
}
