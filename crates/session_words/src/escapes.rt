//! Lone surrogates in JSON.

ghost use Rattle.std.specs.Prelude.{◌≡◌, ◌≤◌, IfOk, length};
ghost use Rattle.session_words.specs.Escapes.{behind, escape, is_escape, is_high_digit, is_low_digit, is_second, mended, surrogate_digit};

use std::alloc::{AllocError, Global};

/// Returns `true` for the second digit of a surrogate that comes first in a pair.
fn is_high_digit(byte: u8) -> bool
    ensures { result ≡ is_high_digit byte }
{
    matches!(byte, b'8'..=b'9' | b'A'..=b'B' | b'a'..=b'b')
}

/// Returns `true` for the second digit of a surrogate that comes last in a pair.
fn is_low_digit(byte: u8) -> bool
    ensures { result ≡ is_low_digit byte }
{
    matches!(byte, b'C'..=b'F' | b'c'..=b'f')
}

/// Returns the second digit of the surrogate whose escape is in front of `bytes`, its backslash left out.
fn surrogate_digit(bytes: &[u8]) -> Option<u8>
    ensures { result ≡ surrogate_digit bytes.now }
{
    let [b'u', b'd' | b'D', second, third, fourth, ..] = bytes else {
        return None;
    };
    if third.is_ascii_hexdigit() && fourth.is_ascii_hexdigit() {
        return Some(*second);
    }
    None
}

/// Returns `true` if the escape of a surrogate that comes first is in front of `bytes`, its backslash left out.
fn is_high(bytes: &[u8]) -> bool
    ensures { result ≡ is_escape is_high_digit bytes.now }
{
    match surrogate_digit(bytes) {
        Some(digit) => is_high_digit(digit),
        None => false,
    }
}

/// Returns `true` if the escape of a surrogate that comes last is in front of `bytes`, its backslash left out.
fn is_low(bytes: &[u8]) -> bool
    ensures { result ≡ is_escape is_low_digit bytes.now }
{
    match surrogate_digit(bytes) {
        Some(digit) => is_low_digit(digit),
        None => false,
    }
}

/// Returns `true` if behind five bytes there is the escape of a surrogate that comes last.
fn is_second(bytes: &[u8]) -> bool
    ensures { result ≡ is_second bytes.now }
{
    bytes.len() > 5 && bytes[5] == b'\\' && is_low(&bytes[6..])
}

/// Returns what stands for the bytes right behind a backslash.
fn escape(bytes: &[u8]) -> &[u8]
    ensures bytes { result.now ≡ escape bytes.now }
    ensures fits { length result.now ≤ length bytes.now }
{
    let is_high = is_high(bytes);
    if is_high && is_second(bytes) {
        &bytes[..11]
    } else if is_high || is_low(bytes) {
        b"ufffd"
    } else if bytes.is_empty() {
        bytes
    } else {
        &bytes[..1]
    }
}

/// Returns what stands for bytes behind `first`, if that is a backslash.
fn behind(first: u8, bytes: &[u8]) -> &[u8]
    ensures bytes { result.now ≡ behind first bytes.now }
    ensures fits { length result.now ≤ length bytes.now }
{
    if first == b'\\' {
        escape(bytes)
    } else {
        bytes.split_at(0).0
    }
}

/// Returns `body` with `\ufffd` for the escape of each surrogate that is not one of a pair.
///
/// # Errors
///
/// Out of memory.
pub(crate) fn mended(alloc: Global, body: &[u8]) -> Result<Vec<u8>, AllocError>
    ensures { IfOk result (λ bytes. bytes.items ≡ mended body.now) }
{
    let mut bytes = Vec::with_capacity(alloc, body.len())?;
    let mut rest = body;
    while !rest.is_empty() {
        let first = rest[0];
        let (_, tail) = rest.split_at(1);
        let known = behind(first, tail);
        bytes.push(first)?;
        bytes.extend_from_slice(known)?;
        let (_, left) = tail.split_at(known.len());
        rest = left;
    }
    Ok(bytes)
}
