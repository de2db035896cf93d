//! The preface of a file: a shebang, and a frontmatter between two lines of dashes.

ghost use Rattle.std.specs.Prelude.{◌≡◌, ◌+◌, ◌≤◌, ◌<◌, ◌^◌, ℕ, true, IfSome, Ok, chars, drop, length, option_map};
ghost use Rattle.rustc_lexer.specs.Characters.{size, is_whitespace};
ghost use Rattle.parser_input.specs.Lines.{after_line, first_line, is_fence};
ghost use Rattle.parser_input.specs.Preface.{
  Piece,
  bare,
  after_shebang,
  closing_line,
  fenced,
  info_piece,
  opening_line,
  piece,
  place,
  remainder,
  shebang_piece,
  source,
};
ghost use Rattle.parser_input.specs.Stored.{frontmatter_end};
ghost use Rattle.parser_input.specs.Spans.{chars_of, end_of, range_of, span_of, text_of};

use crate::frontmatter_error::FrontmatterError;
use crate::steps::{eat_blank_lines, eat_dashes, eat_solid, eat_whole_line};
use rustc_lexer::{Cursor, is_horizontal_whitespace, strip_shebang};
use std::marker::Model;
use std::ops::Range;

/// Returns `true` if the character is Rust whitespace: U+0009 to U+000D, space, U+0085, U+200E,
/// U+200F, U+2028, U+2029.
pub fn is_rust_whitespace(c: char) -> bool
    ensures { result ≡ is_whitespace c }
{
    rustc_lexer::is_whitespace(c)
}

// The minimum number of dashes that open a frontmatter.
const FEWEST_DASHES: usize = 3;

/// A piece of a text, with its range in the text, in bytes.
#[derive(Drop)]
struct Piece<'s> {
    start: usize,
    end: usize,
    text: &'s str,
}

impl<'s> Model for Piece<'s> {
    ghost use Rattle.std.specs.Prelude.{◌≡◌, ◌+◌, IsUtf8, chars, length};
    ghost use Rattle.parser_input.specs.Preface.{Piece};

    ghost Value = { Piece };

    ghost view = { λ p. record { start = p.start; text = chars p.text.now } };

    ghost invariant = { λ p. (p.end ≡ p.start + length p.text.now) × IsUtf8 p.text.now };
}

impl<'s> Piece<'s> {
    // Creates a piece that starts at the offset `start`, in bytes.
    fn new(start: usize, text: &'s str) -> Piece<'s>
        requires { start + length text.now < 2 ^ 64 }
        ensures { result ≡ record { start = start; text = chars text.now } }
    {
        Piece {
            start,
            end: start + text.len(),
            text,
        }
    }

    // Returns the piece of `text` from one position up to a later one.
    fn between(text: &Cursor<'s>, from: &Cursor<'s>, until: &Cursor<'s>) -> Piece<'s>
        requires inside { size from.now ≤ size text.now }
        requires order { (n : ℕ) × (until.now ≡ drop n from.now) }
        ensures { (n : ℕ) → until.now ≡ drop n from.now → result ≡ piece text.now from.now n }
    {
        Piece::new(
            text.remaining() - from.remaining(),
            from.until(until).as_str(),
        )
    }

    // Returns the piece of `text` from a position up to the end.
    fn remainder(text: &Cursor<'s>, from: &Cursor<'s>) -> Piece<'s>
        requires { size from.now ≤ size text.now }
        ensures { result ≡ remainder text.now from.now }
    {
        Piece::new(text.remaining() - from.remaining(), from.as_str())
    }

    fn text(&self) -> &'s str
        ensures { chars result.now ≡ self.now.text }
    {
        self.text
    }

    fn span(&self) -> Range<usize>
        ensures start { result.start ≡ self.now.start }
        ensures end { result.end ≡ end_of self.now }
    {
        self.start..self.end
    }
}

// Returns the position after the shebang; the start of the text if there is none.
fn after_shebang<'s>(text: &Cursor<'s>) -> Cursor<'s>
    ensures rest { result ≡ after_shebang text.now }
    ensures inside { size result ≤ size text.now }
{
    let mut rest = text.here();
    if strip_shebang(text.as_str()).is_some() {
        rest.eat_first_line();
    }
    rest
}

fn shebang_piece<'s>(text: &Cursor<'s>) -> Option<Piece<'s>>
    ensures { result ≡ shebang_piece text.now }
{
    if strip_shebang(text.as_str()).is_some() {
        let mut end = text.here();
        end.eat_first_line();
        return Some(Piece::between(text, text, &end));
    }
    None
}

// Returns the position after the shebang and the blank lines that follow it.
fn opening_line<'s>(text: &Cursor<'s>) -> Cursor<'s>
    ensures line { result ≡ opening_line text.now }
    ensures inside { size result ≤ size text.now }
{
    let mut rest = after_shebang(text);
    eat_blank_lines(&mut rest);
    rest
}

// Returns the rest of the first line.
fn first_line<'s>(rest: &Cursor<'s>) -> Cursor<'s>
    ensures { result ≡ first_line rest.now }
{
    let mut end = rest.here();
    end.eat_first_line();
    rest.until(&end)
}

// Returns the rest of the first line, without the whitespace at both ends; `None` if that is empty.
fn info_piece<'s>(text: &Cursor<'s>, after: &Cursor<'s>) -> Option<Piece<'s>>
    requires { size after.now ≤ size text.now }
    ensures { result ≡ info_piece text.now after.now }
{
    let line = first_line(after);
    let mut solid = line.here();
    solid.eat_whitespace();
    let mut end = solid.here();
    eat_solid(&mut end);
    let info = solid.until(&end);
    if info.is_empty() {
        return None;
    }
    let start = text.remaining() - after.remaining() + (line.remaining() - solid.remaining());
    Some(Piece::new(start, info.as_str()))
}

// Returns `true` if the first line has `count` dashes, and after them only tabs and spaces.
fn is_fence(rest: &Cursor, count: usize) -> bool
    ensures { result ≡ is_fence count (first_line rest.now) }
{
    let mut line = first_line(rest);
    if eat_dashes(&mut line) != count {
        return false;
    }
    line.as_str().chars().all(|c| is_horizontal_whitespace(c))
}

// Returns the position of the first line with `count` dashes, and after them only tabs and spaces;
// `None` if there is none.
fn closing_line<'s>(mut rest: Cursor<'s>, count: usize) -> Option<Cursor<'s>>
    ensures line { result ≡ closing_line count true rest.entry }
    ensures after { IfSome result (λ line. (n : ℕ) × (line ≡ drop n rest.entry)) }
{
    'lines: while !rest.is_empty() {
        if is_fence(&rest, count) {
            return Some(rest);
        }
        eat_whole_line(&mut rest);
    }
    None
}

/// A text split into its shebang, its frontmatter and its content, which the grammar reads.
///
/// A shebang is a first line that starts with `#!`, unless it starts an inner attribute. After the
/// shebang, a line that starts with three or more dashes opens a frontmatter, and a line with the
/// same number of dashes closes it.
#[derive(Drop)]
pub struct ScriptSource<'s> {
    shebang: Option<Piece<'s>>,
    opening: Option<Piece<'s>>,
    info: Option<Piece<'s>>,
    frontmatter: Option<Piece<'s>>,
    closing: Option<Piece<'s>>,
    content: Piece<'s>,
}

impl<'s> Model for ScriptSource<'s> {
    ghost use Rattle.parser_input.specs.Preface.{Source};

    ghost Value = { Source };

    ghost view = { λ s. record { shebang = s.shebang; opening = s.opening; info = s.info; frontmatter = s.frontmatter; closing = s.closing; content = s.content } };
}

// Returns the span of an optional piece, in bytes.
fn span_of(piece: &Option<Piece>) -> Option<Range<usize>>
    ensures { option_map range_of result ≡ option_map span_of piece.now }
{
    match piece {
        Some(piece) => Some(piece.span()),
        None => None,
    }
}

// Returns the text of an optional piece.
fn text_of<'s>(piece: &Option<Piece<'s>>) -> Option<&'s str>
    ensures { option_map chars_of result ≡ option_map text_of piece.now }
{
    match piece {
        Some(piece) => Some(piece.text()),
        None => None,
    }
}

impl<'s> ScriptSource<'s> {
    // Creates the source of a text without a frontmatter.
    fn bare(text: &Cursor<'s>) -> ScriptSource<'s>
        ensures { result ≡ bare text.now }
    {
        ScriptSource {
            shebang: shebang_piece(text),
            opening: None,
            info: None,
            frontmatter: None,
            closing: None,
            content: Piece::remainder(text, &after_shebang(text)),
        }
    }

    // Creates the source of a text with a frontmatter between the lines that start at `opening` and
    // at `closing`.
    fn fenced(text: &Cursor<'s>, opening: &Cursor<'s>, closing: &Cursor<'s>) -> ScriptSource<'s>
        requires inside { size opening.now ≤ size text.now }
        requires order { (n : ℕ) × (closing.now ≡ drop n (after_line opening.now)) }
        ensures { result ≡ fenced text.now opening.now closing.now }
    {
        let mut after = opening.here();
        eat_dashes(&mut after);
        let mut inside = opening.here();
        eat_whole_line(&mut inside);
        let mut closed = closing.here();
        eat_dashes(&mut closed);
        let mut content = closing.here();
        eat_whole_line(&mut content);
        ScriptSource {
            shebang: shebang_piece(text),
            opening: Some(Piece::between(text, opening, &after)),
            info: info_piece(text, &after),
            frontmatter: Some(Piece::between(text, &inside, closing)),
            closing: Some(Piece::between(text, closing, &closed)),
            content: Piece::remainder(text, &content),
        }
    }

    /// Parses the shebang and the frontmatter of a text. The opening line is the first line after
    /// the shebang that is not blank; there is no frontmatter if it does not start with a dash.
    ///
    /// # Errors
    ///
    /// - [`FrontmatterError::TooFewDashes`] if the opening line starts with one or two dashes.
    /// - [`FrontmatterError::Unclosed`] if no later line closes the frontmatter.
    pub fn parse(raw: &'s str) -> Result<ScriptSource<'s>, FrontmatterError>
        ensures { result ≡ source (chars raw.now) }
    {
        let text = Cursor::new(raw);
        let opening = opening_line(&text);
        let count = eat_dashes(&mut opening.here());
        if count == 0 {
            return Ok(ScriptSource::bare(&text));
        }
        let start = text.remaining() - opening.remaining();
        let end = start + count;
        if count < FEWEST_DASHES {
            return Err(FrontmatterError::TooFewDashes { start, end });
        }
        let mut inside = opening.here();
        eat_whole_line(&mut inside);
        match closing_line(inside, count) {
            Some(closing) => Ok(ScriptSource::fenced(&text, &opening, &closing)),
            None => Err(FrontmatterError::Unclosed { start, end }),
        }
    }

    /// Returns the shebang without the end of its line; `None` if there is none.
    pub fn shebang(&self) -> Option<&'s str>
        ensures { option_map chars_of result ≡ option_map text_of self.now.shebang }
    {
        text_of(&self.shebang)
    }

    /// Returns the range of the shebang, in bytes; `None` if there is none.
    pub fn shebang_span(&self) -> Option<Range<usize>>
        ensures { option_map range_of result ≡ option_map span_of self.now.shebang }
    {
        span_of(&self.shebang)
    }

    /// Returns the range of the opening dashes, in bytes; `None` if there is no frontmatter.
    pub fn open_span(&self) -> Option<Range<usize>>
        ensures { option_map range_of result ≡ option_map span_of self.now.opening }
    {
        span_of(&self.opening)
    }

    /// Returns the info string: the rest of the line after the opening dashes, without whitespace
    /// at its ends; `None` if it is empty or there is no frontmatter.
    pub fn info(&self) -> Option<&'s str>
        ensures { option_map chars_of result ≡ option_map text_of self.now.info }
    {
        text_of(&self.info)
    }

    /// Returns the range of the info string, in bytes; `None` if there is none.
    pub fn info_span(&self) -> Option<Range<usize>>
        ensures { option_map range_of result ≡ option_map span_of self.now.info }
    {
        span_of(&self.info)
    }

    /// Returns the lines between the opening and the closing line, with their line ends; `None` if
    /// there is no frontmatter.
    pub fn frontmatter(&self) -> Option<&'s str>
        ensures { option_map chars_of result ≡ option_map text_of self.now.frontmatter }
    {
        text_of(&self.frontmatter)
    }

    /// Returns the range of the lines between the opening and the closing line, in bytes; `None` if
    /// there is no frontmatter.
    pub fn frontmatter_span(&self) -> Option<Range<usize>>
        ensures { option_map range_of result ≡ option_map span_of self.now.frontmatter }
    {
        span_of(&self.frontmatter)
    }

    /// Returns the range of the closing dashes, in bytes; `None` if there is no frontmatter.
    pub fn close_span(&self) -> Option<Range<usize>>
        ensures { option_map range_of result ≡ option_map span_of self.now.closing }
    {
        span_of(&self.closing)
    }

    /// Returns the content: the text after the frontmatter; without one, the text after the
    /// shebang.
    pub fn content(&self) -> &'s str
        ensures { chars result.now ≡ self.now.content.text }
    {
        self.content.text()
    }

    /// Returns the range of the content, in bytes.
    pub fn content_span(&self) -> Range<usize>
        ensures start { result.start ≡ self.now.content.start }
        ensures end { result.end ≡ end_of self.now.content }
    {
        self.content.span()
    }

    // Returns the offset of the end of the frontmatter, in bytes; `None` if there is none.
    pub(crate) fn frontmatter_end(&self) -> Option<usize>
        ensures { result ≡ frontmatter_end (Ok self.now) }
    {
        match &self.closing {
            Some(_) => Some(self.content.span().start),
            None => None,
        }
    }
}
