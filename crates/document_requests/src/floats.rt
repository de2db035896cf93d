//! Numbers with a point or an exponent.
ghost use Rattle.std.specs.Prelude.{◌≡◌, ◌≤◌, ◌∷◌, length};
ghost use Rattle.document_requests.specs.Floats.{outside_strings, after_string, begins_exponent, is_digit, writes_float};
ghost use Rattle.serde_json.specs.View.{view, items_view, members_view};
ghost use Rattle.serde_json.specs.Written.{has_float, items_have_float, members_have_float};

use serde_json::{Map, Value};

/// Whether a value holds a number that is read as a float: one that is written with a point or an
/// exponent, `-0`, or a whole number past 64 bits.
#[cycle(has_float)]
pub fn has_float(value: &Value) -> bool
    ensures { result ≡ has_float (view value.now) }
{
    match value {
        Value::Null | Value::Bool(_) | Value::String(_) => false,
        Value::Number(_) => value.is_f64(),
        Value::Array(items) => items_have_float(items),
        Value::Object(members) => members_have_float(members),
    }
}

#[cycle(has_float)]
fn items_have_float(items: &[Value]) -> bool
    ensures { result ≡ items_have_float (items_view items.now) }
{
    for item in items {
        if has_float(item) {
            return true;
        }
    }
    false
}

#[cycle(has_float)]
fn members_have_float(members: &Map<String, Value>) -> bool
    ensures { result ≡ members_have_float (members_view members.now.entries) }
{
    for (_name, member) in members.iter() {
        if has_float(member) {
            return true;
        }
    }
    false
}

/// Returns the text after a string. `text` starts inside the string.
fn after_string(text: &[u8]) -> &[u8]
    ensures left { outside_strings result.now ≡ after_string text.now }
    ensures shorter { length result.now ≤ length text.now }
{
    let mut rest = text;
    'bytes: while let Some((first, after)) = rest.split_first() {
        match first {
            b'"' => return after,
            b'\\' => rest = after.get(1..).unwrap_or(&[]),
            _ => rest = after,
        }
    }
    rest
}

/// Returns the text after `byte`, which is outside of strings; after a quote, the text after the
/// string that the quote opens.
fn after_byte(byte: u8, after: &[u8]) -> &[u8]
    ensures next { outside_strings (byte ∷ after.now) ≡ byte ∷ outside_strings result.now }
    ensures shorter { length result.now ≤ length after.now }
{
    if byte == b'"' {
        return after_string(after);
    }
    after
}

/// Returns `true` if an exponent starts at `text`, which follows a digit.
fn begins_exponent(text: &[u8]) -> bool
    ensures { result ≡ begins_exponent (outside_strings text.now) }
{
    matches!(text, [b'e' | b'E', ..])
}

fn is_digit(byte: u8) -> bool
    ensures { result ≡ is_digit byte }
{
    byte.is_ascii_digit()
}

/// Whether a JSON text writes a number with a point or an exponent.
pub fn writes_float(text: &str) -> bool
    ensures { result ≡ writes_float text.now }
{
    let mut rest = text.as_bytes();
    'bytes: while let Some((first, after)) = rest.split_first() {
        rest = after_byte(*first, after);
        if *first == b'.' || (is_digit(*first) && begins_exponent(rest)) {
            return true;
        }
    }
    false
}
