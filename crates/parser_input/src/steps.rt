//! Scans of dashes and lines, from a position in a text.

ghost use Rattle.std.specs.Prelude.{◌≡◌, drop, if◌then◌else◌};
ghost use Rattle.parser_input.specs.Lines.{after_line, blank_len, solid_len, dashes};

use rustc_lexer::{Cursor, is_whitespace};

// Moves `rest` to `place` if `moves`.
fn move_if<'a>(rest: &mut Cursor<'a>, moves: bool, place: &Cursor<'a>)
    ensures { rest.new ≡ (if moves then place.now else rest.old) }
{
    if moves {
        *rest = place.here();
    }
}

/// Skips the dashes at this position and returns their number.
pub(crate) fn eat_dashes(rest: &mut Cursor) -> usize
    ensures count { result ≡ dashes rest.old }
    ensures rest { rest.new ≡ drop (dashes rest.old) rest.old }
{
    let start = rest.remaining();
    'run: while rest.first() == '-' {
        rest.bump();
    }
    start - rest.remaining()
}

/// Skips the whitespace at this position, up to and including its last line feed.
pub(crate) fn eat_blank_lines<'a>(rest: &mut Cursor<'a>)
    ensures { rest.new ≡ drop (blank_len rest.old) rest.old }
{
    let mut ahead = rest.here();
    'run: while is_whitespace(ahead.first()) {
        let ends_line = ahead.first() == '\n';
        ahead.bump();
        move_if(rest, ends_line, &ahead);
    }
}

/// Skips the rest of the line and the line feed that ends it.
pub(crate) fn eat_whole_line(rest: &mut Cursor)
    ensures { rest.new ≡ after_line rest.old }
{
    'line: while !rest.is_empty() {
        let ends_line = rest.first() == '\n';
        rest.bump();
        if ends_line {
            return;
        }
    }
}

/// Skips the text up to the whitespace at its end.
pub(crate) fn eat_solid<'a>(rest: &mut Cursor<'a>)
    ensures { rest.new ≡ drop (solid_len rest.old) rest.old }
{
    let mut ahead = rest.here();
    'run: while !ahead.is_empty() {
        let is_solid = !is_whitespace(ahead.first());
        ahead.bump();
        move_if(rest, is_solid, &ahead);
    }
}
