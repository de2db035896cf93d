//! Keywords and contextual keywords, by their texts.

ghost use Rattle.std.specs.Option.{option_copied, option_map};
ghost use Rattle.std.specs.Prelude.{◌≡◌, IfSome, IsTrue, chars, slice_get, slice_index};
ghost use Rattle.parser_input.specs.Keywords.{
  contextual_kind,
  is_keyword,
  is_reached,
  keyword_kind,
  word_of,
  words,
};
ghost use Rattle.parser_input.specs.Kind.{raw_of};
ghost use Rattle.parser_input.specs.Leaf.{word_kind};
ghost use Rattle.parser_input.specs.WordTable.{row_of};

use crate::edition::Edition;
use crate::syntax_kind::SyntaxKind;
use crate::word_table::{PLACES, WORDS, Word};

impl Word {
    fn is_keyword_in(&self, edition: Edition) -> bool
        ensures { result ≡ is_reached self.now.since edition }
    {
        match self.since {
            Some(first) => edition.is_from(first),
            None => false,
        }
    }
}

/// Returns the kind of `text` as a keyword of the edition; `None` if it is not one.
pub fn keyword(edition: Edition, text: &str) -> Option<SyntaxKind>
    ensures kind { option_map raw_of result ≡ keyword_kind edition text.now }
    ensures keyword { IfSome result (λ kind. IsTrue (is_keyword edition (raw_of kind))) }
{
    let word = word_spelled(text)?;
    if word.is_keyword_in(edition) {
        Some(word.kind)
    } else {
        None
    }
}

/// Returns the kind of a word: `UNDERSCORE` for `_`, the kind of a keyword of the edition, or
/// `IDENT`.
pub fn word_kind(edition: Edition, text: &str) -> SyntaxKind
    ensures { raw_of result ≡ word_kind edition (chars text.now) }
{
    if text == "_" {
        return SyntaxKind::UNDERSCORE;
    }
    match keyword(edition, text) {
        Some(kind) => kind,
        None => SyntaxKind::IDENT,
    }
}

/// Returns the kind of `text` as a contextual keyword of the edition; `None` if it is not one.
pub fn contextual_keyword(edition: Edition, text: &str) -> Option<SyntaxKind>
    ensures kind { option_map raw_of result ≡ contextual_kind edition text.now }
    ensures keyword { IfSome result (λ kind. IsTrue (is_keyword edition (raw_of kind))) }
{
    let word = word_spelled(text)?;
    if word.is_contextual && !word.is_keyword_in(edition) {
        Some(word.kind)
    } else {
        None
    }
}

/// Returns the word with this text, if any: it compares the only word that has the slot of the
/// text's first, middle and last byte.
fn word_spelled(text: &str) -> Option<&'static Word>
    ensures { option_map row_of (option_copied result) ≡ word_of text.now }
{
    let bytes = text.as_bytes();
    if bytes.is_empty() {
        return None;
    }
    let first = bytes[0] as usize;
    let middle = bytes[bytes.len() / 2] as usize;
    let last = bytes[bytes.len() - 1] as usize;
    let slot = (first + 19 * middle + 25 * last) % 256;
    let word = word_in(slot as u8);
    if word.text == text { Some(word) } else { None }
}

/// Returns the only word whose text can have this slot.
fn word_in(slot: u8) -> &'static Word
    ensures { slice_get words (slice_index PLACES slot) ≡ Some (row_of result.now) }
{
    &WORDS[PLACES[slot as usize] as usize]
}
