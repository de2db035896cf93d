//! The errors of literals.

ghost use Rattle.std.specs.Prelude.{◌≡◌, ◌&&◌, not, chars};
ghost use Rattle.parser_input.specs.Escapes.{is_one};
ghost use Rattle.parser_input.specs.Messages.{
  between_quotes,
  but_last,
  front,
  has_nul,
  is_wide,
  literal_message,
  quoted_message,
  raw_message,
  when,
};

use crate::escapes::{Rules, is_one, is_sound};
use crate::message::Message;
use rustc_lexer::{Cursor, LiteralKind};

/// The properties of a kind of quoted literal.
#[derive(Clone, Copy)]
pub(crate) struct Quoted {
    /// `true` if a letter is before the quote.
    has_letter: bool,
    rules: Rules,
    /// `true` if only ASCII characters are allowed.
    is_ascii: bool,
    /// `true` if it must be one character or one escape.
    is_single: bool,
}

const CHAR: Quoted = Quoted {
    has_letter: false,
    rules: Rules {
        line_feed: false,
        unicode: true,
        wide_hex: false,
        nul: true,
    },
    is_ascii: false,
    is_single: true,
};

const BYTE: Quoted = Quoted {
    has_letter: true,
    rules: Rules {
        line_feed: false,
        unicode: false,
        wide_hex: true,
        nul: true,
    },
    is_ascii: true,
    is_single: true,
};

const STR: Quoted = Quoted {
    has_letter: false,
    rules: Rules {
        line_feed: true,
        unicode: true,
        wide_hex: false,
        nul: true,
    },
    is_ascii: false,
    is_single: false,
};

const BYTE_STR: Quoted = Quoted {
    has_letter: true,
    rules: Rules {
        line_feed: true,
        unicode: false,
        wide_hex: true,
        nul: true,
    },
    is_ascii: true,
    is_single: false,
};

const C_STR: Quoted = Quoted {
    has_letter: true,
    rules: Rules {
        line_feed: true,
        unicode: true,
        wide_hex: true,
        nul: false,
    },
    is_ascii: false,
    is_single: false,
};

// Returns the characters of the first `end` bytes: a literal without its suffix.
fn front<'a>(text: &Cursor<'a>, end: usize) -> Cursor<'a>
    ensures { result ≡ front end text.now }
{
    let mut rest = text.here();
    let mut left = end;
    'front: while !rest.is_empty() {
        let len = rest.first().len_utf8();
        if left < len {
            return text.until(&rest);
        }
        left -= len;
        rest.bump();
    }
    text.until(&rest)
}

// Returns the text without its last character.
fn but_last<'a>(text: &Cursor<'a>) -> Cursor<'a>
    ensures { result ≡ but_last text.now }
{
    let mut end = text.here();
    let mut ahead = text.here();
    ahead.bump();
    'inside: while !ahead.is_empty() {
        ahead.bump();
        end.bump();
    }
    text.until(&end)
}

// Returns the text between the quotes of a closed literal.
#[tactic(auto, unfolding(crate::specs::Messages::between_quotes))]
fn between_quotes<'a>(quoted: &Quoted, literal: &Cursor<'a>) -> Cursor<'a>
    ensures { result ≡ between_quotes quoted.now literal.now }
{
    let mut inside = literal.here();
    inside.bump();
    if quoted.has_letter {
        inside.bump();
        return but_last(&inside);
    }
    but_last(&inside)
}

// Returns `true` if a character of the text is not ASCII.
fn is_wide(text: &Cursor) -> bool
    ensures { result ≡ is_wide text.now }
{
    text.as_str().chars().any(|c| c >= '\u{80}')
}

fn has_nul(text: &Cursor) -> bool
    ensures { result ≡ has_nul text.now }
{
    text.as_str().chars().any(|c| c == '\0')
}

// Returns `true` if only ASCII characters are allowed and a character of the text is not ASCII.
fn is_past_ascii(quoted: &Quoted, text: &Cursor) -> bool
    ensures { result ≡ (quoted.now.is_ascii && is_wide text.now) }
{
    quoted.is_ascii && is_wide(text)
}

// Returns `true` if the literal must be one character or one escape and is not.
fn is_bad_length(quoted: &Quoted, text: &Cursor) -> bool
    ensures { result ≡ (quoted.now.is_single
        && not (is_one quoted.now.rules (between_quotes quoted.now text.now))) }
{
    quoted.is_single && !is_one(quoted.rules, between_quotes(quoted, text))
}

/// Returns `message` if `fits`; otherwise `None`.
pub(crate) fn when(fits: bool, message: Message) -> Option<Message>
    ensures { result ≡ when fits message }
{
    if fits { Some(message) } else { None }
}

// Returns the error of a quoted literal without its suffix, if any.
fn quoted_message(quoted: &Quoted, terminated: bool, text: &Cursor) -> Option<Message>
    ensures { result ≡ quoted_message quoted.now terminated text.now }
{
    if !terminated {
        return Some(Message::UnterminatedLiteral);
    }
    if !is_sound(quoted.rules, between_quotes(quoted, text)) {
        return Some(Message::BadEscape);
    }
    if is_past_ascii(quoted, text) {
        return Some(Message::PastAscii);
    }
    when(is_bad_length(quoted, text), Message::BadLength)
}

// Returns the error of a raw string, if any: `message` if it is terminated and `fails`.
fn raw_message(n_hashes: Option<u8>, fails: bool, message: Message) -> Option<Message>
    ensures { result ≡ raw_message n_hashes fails message }
{
    if n_hashes.is_none() {
        return Some(Message::InvalidRawString);
    }
    when(fails, message)
}

// Returns the error of a literal without its suffix, if any.
#[tactic(auto, unfolding(crate::specs::Messages::literal_message))]
fn unsuffixed_message(kind: LiteralKind, text: &Cursor) -> Option<Message>
    ensures { result ≡ literal_message kind text.now }
{
    match kind {
        LiteralKind::Int { empty_int, .. } => when(empty_int, Message::NoDigits),
        LiteralKind::Float { empty_exponent, .. } => when(
            empty_exponent,
            Message::NoExponentDigits,
        ),
        LiteralKind::Char { terminated } => quoted_message(&CHAR, terminated, text),
        LiteralKind::Byte { terminated } => quoted_message(&BYTE, terminated, text),
        LiteralKind::Str { terminated } => quoted_message(&STR, terminated, text),
        LiteralKind::ByteStr { terminated } => quoted_message(&BYTE_STR, terminated, text),
        LiteralKind::CStr { terminated } => quoted_message(&C_STR, terminated, text),
        LiteralKind::RawStr { n_hashes } => raw_message(n_hashes, false, Message::BadEscape),
        LiteralKind::RawByteStr { n_hashes } => {
            raw_message(n_hashes, is_wide(text), Message::PastAscii)
        }
        LiteralKind::RawCStr { n_hashes } => {
            raw_message(n_hashes, has_nul(text), Message::BadEscape)
        }
    }
}

/// Returns the error of a literal whose suffix starts at the offset `suffix_start`, in bytes, if
/// any.
pub(crate) fn literal_message(kind: LiteralKind, suffix_start: usize, text: &str) -> Option<Message>
    ensures { result ≡ literal_message kind (front suffix_start (chars text.now)) }
{
    unsuffixed_message(kind, &front(&Cursor::new(text), suffix_start))
}
