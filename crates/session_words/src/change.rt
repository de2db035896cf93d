//! Changes of a text, as the client tells them.

ghost use Rattle.std.specs.Prelude.{◌≡◌, IfOk, option_map, string_bytes, Some};
ghost use Rattle.serde_json.specs.View.{items_view, view};
ghost use Rattle.session_words.specs.Changes.{change_in, change_of, change_with, is_null, part_in, text_after, text_after_all, text_behind};

use crate::member::{member_of, place_of};
use line_index::Encoding;
use serde_json::Value;
use std::alloc::{AllocError, Global};
use text_changes::{Change, apply_change};

/// The most bytes of a text.
const MAX_TEXT: usize = 16_777_216;

/// A change of a text.
#[derive(Clone, Copy, Drop)]
pub enum TextChange<'a> {
    /// A new text.
    Whole(&'a str),
    /// A text in the place of what is between two places.
    Part(Change<'a>),
}

/// Returns the change of a part of a text, whose places `range` has.
fn part_in<'a>(text: &'a str, range: &'a Value) -> Option<TextChange<'a>>
    ensures { option_map change_of result ≡ part_in text.now (Some (view range.now)) }
{
    let start = place_of(member_of("start", Some(range)))?;
    let end = place_of(member_of("end", Some(range)))?;
    Some(TextChange::Part(Change { start, end, text }))
}

/// Returns the change that a value tells: of the whole text if it has no range.
pub fn change_in(value: &Value) -> Option<TextChange<'_>>
    ensures { option_map change_of result ≡ change_in (view value.now) }
{
    let text = value.get("text")?.as_str()?;
    match value.get("range") {
        Some(range) if !range.is_null() => part_in(text, range),
        _ => Some(TextChange::Whole(text)),
    }
}

/// Returns the text after a change, of which `None` cannot be read, or `None` if it is lost.
fn changed_by(
    alloc: Global,
    encoding: Encoding,
    held: Option<String>,
    change: Option<TextChange<'_>>,
) -> Result<Option<String>, AllocError>
    ensures { IfOk result (λ text. option_map string_bytes text
        ≡ text_behind encoding (option_map string_bytes held) (option_map change_of change.entry)) }
{
    match change {
        None => Ok(None),
        Some(TextChange::Whole(text)) if text.len() <= MAX_TEXT => {
            Ok(Some(String::from_str(alloc, text)?))
        }
        Some(TextChange::Whole(_)) => Ok(None),
        Some(TextChange::Part(change)) => {
            let Some(mut text) = held else {
                return Ok(None);
            };
            let is_made = apply_change(alloc, encoding, MAX_TEXT, &mut text, &change)?;
            Ok(if is_made { Some(text) } else { None })
        }
    }
}

/// Returns the text after `changes`, each of the text that those before it made, or `None` if it is lost: a change is
/// none of its text or cannot be read, or the text has more than 16,777,216 bytes. A new text ends this.
///
/// # Errors
///
/// Out of memory.
pub fn changed_text(
    alloc: Global,
    encoding: Encoding,
    held: Option<String>,
    changes: &[Value],
) -> Result<Option<String>, AllocError>
    ensures { IfOk result (λ text. option_map string_bytes text
        ≡ text_after_all encoding (option_map string_bytes held) (items_view changes.now)) }
{
    let mut text = held;
    for value in changes {
        text = changed_by(alloc, encoding, text, change_in(value))?;
    }
    Ok(text)
}
