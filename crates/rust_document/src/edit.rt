//! Replaces some bytes of a text.
ghost use Rattle.std.specs.Prelude.{◌≡◌, ◌≤◌, true, length, string_bytes, IfOk, IfErr};
ghost use Rattle.rust_document.specs.Edit.{IsUnedited, can_edit, edited};
ghost use Rattle.rust_document.specs.Step.{MAX_TEXT};

use crate::document::MAX_TEXT;
use crate::error::EditError;
use rowan_green::TextRange;
use std::alloc::Global;

/// The edited text, where that is within the limit.
pub fn edited(alloc: Global, text: &str, range: TextRange, put: &str) -> Result<String, EditError>
    requires at_boundaries { can_edit text.now range.start.0 range.end.0 ≡ true }
    requires within_limit { length text.now ≤ MAX_TEXT }
    ensures edited { IfOk result (λ new. string_bytes new
        ≡ edited text.now range.start.0 range.end.0 put.now) }
    ensures fits { IfOk result (λ new. length (string_bytes new) ≤ MAX_TEXT) }
    ensures refused { IfErr result
        (IsUnedited (edited text.now range.start.0 range.end.0 put.now)) }
{
    let front = &text[..usize::from(range.start())];
    let back = &text[usize::from(range.end())..];
    let kept = front.len() + back.len();
    if put.len() > MAX_TEXT - kept {
        return Err(EditError::TooLong);
    }
    let mut new = String::with_capacity(alloc, kept + put.len())?;
    new.push_str(front)?;
    new.push_str(put)?;
    new.push_str(back)?;
    Ok(new)
}
