//! Members of values that may be missing.

ghost use Rattle.std.specs.Prelude.{◌≡◌, ◌≤◌, option_map, IfSome};
ghost use Rattle.serde_json.specs.View.{view};
ghost use Rattle.session_words.specs.Members.{document_of, integer_of, member_of, number_of, place_of, uri_of, version_of, word_of};

use line_index::LineCol;
use serde_json::Value;

/// The greatest number that the protocol has for lines and columns.
const MAX_NUMBER: u64 = 2_147_483_647;

/// Returns the member of `value` with this name.
pub fn member_of<'a>(name: &str, value: Option<&'a Value>) -> Option<&'a Value>
    ensures { option_map (λ v. view v.now) result
        ≡ member_of name.now (option_map (λ v. view v.now) value.entry) }
{
    match value {
        Some(value) => value.get(name),
        None => None,
    }
}

/// Returns the member of `value` with this name, if it is a string.
pub fn word_of<'a>(name: &str, value: Option<&'a Value>) -> Option<&'a str>
    ensures { option_map (λ w. w.now) result
        ≡ word_of name.now (option_map (λ v. view v.now) value.entry) }
{
    member_of(name, value)?.as_str()
}

/// Returns a number for lines and columns.
pub fn number_of(value: Option<&Value>) -> Option<usize>
    ensures { result ≡ number_of (option_map (λ v. view v.now) value.entry) }
{
    let number = value?.as_u64()?;
    if number > MAX_NUMBER {
        return None;
    }
    usize::try_from(number).ok()
}

/// Returns a place by line and column.
pub fn place_of(value: Option<&Value>) -> Option<LineCol>
    ensures { result ≡ place_of (option_map (λ v. view v.now) value.entry) }
{
    let line = number_of(member_of("line", value))?;
    let col = number_of(member_of("character", value))?;
    Some(LineCol { line, col })
}

/// Returns a whole number of 64 bits.
pub fn integer_of(value: Option<&Value>) -> Option<i64>
    ensures { result ≡ integer_of (option_map (λ v. view v.now) value.entry) }
{
    value?.as_i64()
}

/// Returns the document that parameters are about.
pub fn document_of(params: Option<&Value>) -> Option<&Value>
    ensures { option_map (λ v. view v.now) result
        ≡ document_of (option_map (λ v. view v.now) params.entry) }
{
    member_of("textDocument", params)
}

/// Returns the name of the document that parameters are about.
pub fn uri_of(params: Option<&Value>) -> Option<&str>
    ensures { option_map (λ w. w.now) result ≡ uri_of (option_map (λ v. view v.now) params.entry) }
{
    word_of("uri", document_of(params))
}

/// Returns the version of the document that parameters are about.
pub fn version_of(params: Option<&Value>) -> Option<i64>
    ensures { result ≡ version_of (option_map (λ v. view v.now) params.entry) }
{
    integer_of(member_of("version", document_of(params)))
}
