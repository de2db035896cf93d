//! Places that an editor tells.

ghost use Rattle.std.specs.Prelude.{◌≡◌, IfSome, IsCharBoundary};
ghost use Rattle.text_changes.specs.Places.{before_return, offset_in};

use line_index::{Encoding, LineCol, LineIndex};

/// Returns where a line ends for an editor, given where it ends: in front of the carriage return of `\r\n`, else there.
fn before_return(text: &[u8], end: usize) -> usize
    ensures { result ≡ before_return end text.now }
{
    if end > 0 && end < text.len() && text[end - 1] == b'\r' {
        end - 1
    } else {
        end
    }
}

/// Returns the offset of `place`, or `None` if it is inside a character.
///
/// A line past the last one leads to the end of the text, a column past the end of its line to that end, in front of
/// the carriage return of `\r\n`. A column right behind that carriage return leads there.
pub fn offset_in(index: &LineIndex<'_>, encoding: Encoding, place: LineCol) -> Option<usize>
    ensures offset { result ≡ offset_in encoding index.now place }
    ensures boundary { IfSome result (λ n. IsCharBoundary index.now n) }
{
    let text = index.text();
    let Some(end) = index.line_end(place.line) else {
        return Some(text.len());
    };
    if index.line_col(encoding, end).col < place.col {
        return Some(before_return(text.as_bytes(), end));
    }
    let offset = index.offset(encoding, place);
    if index.line_col(encoding, offset).col == place.col {
        Some(offset)
    } else {
        None
    }
}
