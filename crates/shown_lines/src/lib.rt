//! Lines of a text as they are shown, with a caret below a place.
#![tactic(auto)]

ghost use Rattle.std.specs.Prelude.{◌≡◌, ◌++◌, OnOk, IfOk, chars, encode_utf8, string_bytes};
ghost use Rattle.std.specs.List.{flat_map};
ghost use Rattle.shown_lines.specs.Shown.{below, caret_line, excerpt, visible, visible_line, without_return};

use std::alloc::{AllocError, Global};
use unicode_width::UnicodeWidthChar;

/// The most bytes of a line that is shown.
const MAX_SHOWN: usize = 240;

/// Returns the character that is shown for `c`: a picture of a control character, U+FFFD for one that
/// has none or that turns the direction of a text, and else `c` itself. A tab stays.
fn visible(c: char) -> char
    ensures { result ≡ visible c }
{
    match c {
        '\t' => c,
        '\0'..='\u{1f}' => match char::from_u32(0x2400 + c as u32) {
            Some(picture) => picture,
            None => unreachable!(),
        },
        '\u{7f}' => '\u{2421}',
        '\u{80}'..='\u{9f}' | '\u{202a}'..='\u{202e}' | '\u{2066}'..='\u{2069}' => '\u{fffd}',
        _ => c,
    }
}

/// Returns what is below `c` in front of the caret: a tab below a tab, else as many spaces as the
/// character that is shown for `c` has columns.
fn below(c: char) -> &'static str
    ensures { result.now ≡ below c }
{
    if c == '\t' {
        return "\t";
    }
    match visible(c).width() {
        None | Some(1) => " ",
        Some(0) => "",
        Some(2) => "  ",
        Some(_) => "   ",
    }
}

/// Returns `line` as it is shown.
fn visible_line(alloc: Global, line: &str) -> Result<String, AllocError>
    ensures { IfOk result (λ shown. string_bytes shown ≡ visible_line (chars line.now)) }
{
    let mut shown = String::new(alloc);
    for c in line.chars() {
        shown.push(visible(c))?;
    }
    Ok(shown)
}

/// Returns what is in front of a caret below the byte `col` of `line`.
fn caret_line(alloc: Global, line: &str, col: usize) -> Result<String, AllocError>
    ensures { IfOk result (λ front. string_bytes front ≡ caret_line col (chars line.now)) }
{
    let mut front = String::new(alloc);
    let mut left = col;
    for c in line.chars() {
        if left == 0 {
            break;
        }
        front.push_str(below(c))?;
        left = left.saturating_sub(c.len_utf8());
    }
    Ok(front)
}

/// Returns `line` without a carriage return at its end.
fn without_return(line: &str) -> &str
    ensures { result.now ≡ without_return line.now }
{
    match line.strip_suffix("\r") {
        Some(front) => front,
        None => line,
    }
}

/// Appends `line` as it is shown, and a caret below its byte `col`, if the line has at most 240 bytes.
///
/// Control characters are shown as their pictures, those that turn the direction of a text as U+FFFD; a
/// carriage return at the end is left out. The caret is as many columns from the start as a terminal
/// shows of the characters in front of it.
///
/// # Errors
///
/// Out of memory.
pub fn push_excerpt(
    alloc: Global,
    line: &str,
    col: usize,
    rows: &mut Vec<u8>,
) -> Result<(), AllocError>
    ensures { OnOk result (rows.new.items ≡ rows.old.items ++ excerpt line.now col) }
{
    let line = without_return(line);
    if line.len() <= MAX_SHOWN {
        let shown = visible_line(alloc, line)?;
        let front = caret_line(alloc, line, col)?;
        rows.extend_from_slice(shown.as_str().as_bytes())?;
        rows.push(b'\n')?;
        rows.extend_from_slice(front.as_str().as_bytes())?;
        rows.extend_from_slice(b"^\n")?;
    }
    Ok(())
}
