//! The shebang: the first line of a text if it names an interpreter.

ghost use Rattle.std.specs.Prelude.{◌≡◌, ◌==◌, ◌&&◌, chars, drop};
ghost use Rattle.rustc_lexer.specs.Characters.{hash, exclamation};
ghost use Rattle.rustc_lexer.specs.Shebang.{is_passed_over, is_open_bracket, opens_attribute, ends_line, line_len, shebang};

use crate::cursor::Cursor;
use crate::token::TokenKind;
use crate::tokens::Tokens;

/// Returns the length of the shebang at the front of a text, in bytes, without the end of its line.
///
/// A text that starts with `#!` has a shebang, unless the next token after whitespace and non-doc
/// comments is `[`: then it is an inner attribute. `None` if there is no shebang.
pub fn strip_shebang(text: &str) -> Option<usize>
    ensures { result ≡ shebang (chars text.now) }
{
    let mut line = Cursor::new(text);
    if !opens_shebang(line.first(), line.second()) {
        return None;
    }
    if opens_attribute(Tokens::from_cursor(line.after().after())) {
        return None;
    }
    let start = line.remaining();
    line.eat_first_line();
    Some(start - line.remaining())
}

fn opens_shebang(a: char, b: char) -> bool
    ensures { result ≡ (a == hash && b == exclamation) }
{
    a == '#' && b == '!'
}

fn ends_line(a: char, b: char) -> bool
    ensures { result ≡ ends_line a b }
{
    a == '\n' || (a == '\r' && b == '\n')
}

// Returns `true` if `kind` is whitespace or a comment that is not a doc comment.
fn is_passed_over(kind: TokenKind) -> bool
    ensures { result ≡ is_passed_over kind }
{
    match kind {
        TokenKind::Whitespace => true,
        TokenKind::LineComment { doc_style } => doc_style.is_none(),
        TokenKind::BlockComment { doc_style, .. } => doc_style.is_none(),
        _ => false,
    }
}

fn is_open_bracket(kind: TokenKind) -> bool
    ensures { result ≡ is_open_bracket kind }
{
    match kind {
        TokenKind::OpenBracket => true,
        _ => false,
    }
}

// Returns `true` if the first token after whitespace and non-doc comments is `[`.
fn opens_attribute(mut tokens: Tokens) -> bool
    ensures { result ≡ opens_attribute tokens.entry }
{
    'tokens: while let Some(token) = tokens.next() {
        if !is_passed_over(token.kind) {
            return is_open_bracket(token.kind);
        }
    }
    false
}

impl<'a> Cursor<'a> {
    /// Skips the characters before the end of the line: a line feed, or a carriage return and a
    /// line feed. Skips all if there is none.
    pub fn eat_first_line(&mut self)
        ensures { self.new ≡ drop (line_len self.old) self.old }
    {
        'line: while !self.is_empty() {
            if ends_line(self.first(), self.second()) {
                return;
            }
            self.bump();
        }
    }
}
