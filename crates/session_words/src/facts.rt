//! What the client says of itself, and what it asks for.

ghost use Rattle.std.specs.Prelude.{◌≡◌, option_map};
ghost use Rattle.serde_json.specs.View.{items_view, view};
ghost use Rattle.session_words.specs.Facts.{edition_in, encoding_in, encoding_named, facts_in, first_known};

use crate::member::{member_of, word_of};
use line_index::Encoding;
use parser_input::Edition;
use serde_json::Value;

/// What the client says with `initialize`.
#[derive(Clone, Copy, Drop)]
pub struct Facts {
    /// The unit in which columns are counted.
    pub encoding: Encoding,
    /// The edition of all texts, if the client asks for one.
    pub edition: Option<Edition>,
}

/// Returns the encoding with this name.
fn encoding_named(word: &str) -> Option<Encoding>
    ensures { result ≡ encoding_named word.now }
{
    match word {
        "utf-8" => Some(Encoding::Utf8),
        "utf-16" => Some(Encoding::Utf16),
        "utf-32" => Some(Encoding::Utf32),
        _ => None,
    }
}

/// Returns the first encoding in a list that is known, else UTF-16.
fn first_known(values: &[Value]) -> Encoding
    ensures { result ≡ first_known (items_view values.now) }
{
    for value in values {
        if let Some(word) = value.as_str() {
            if let Some(encoding) = encoding_named(word) {
                return encoding;
            }
        }
    }
    Encoding::Utf16
}

/// Returns the encoding that the parameters of `initialize` ask for.
fn encoding_in(params: Option<&Value>) -> Encoding
    ensures { result ≡ encoding_in (option_map (λ v. view v.now) params.entry) }
{
    let general = member_of("general", member_of("capabilities", params));
    match member_of("positionEncodings", general) {
        Some(list) => match list.as_array() {
            Some(values) => first_known(values),
            None => Encoding::Utf16,
        },
        None => Encoding::Utf16,
    }
}

/// Returns the edition that the parameters of `initialize` ask for.
fn edition_in(params: Option<&Value>) -> Option<Edition>
    ensures { result ≡ edition_in (option_map (λ v. view v.now) params.entry) }
{
    let word = word_of("edition", member_of("initializationOptions", params))?;
    Edition::from_name(word)
}

/// Returns what the parameters of `initialize` say.
pub fn facts_in(params: Option<&Value>) -> Facts
    ensures { result ≡ facts_in (option_map (λ v. view v.now) params.entry) }
{
    Facts {
        encoding: encoding_in(params),
        edition: edition_in(params),
    }
}
