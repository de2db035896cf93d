//! Names of identifiers and lifetimes.

ghost use Rattle.std.specs.Prelude.{◌≡◌, ◌==◌, IfOk, codes};
ghost use Rattle.parser_input.specs.Kind.{raw_of};
ghost use Rattle.token_names.specs.Names.{has_name, is_given, is_lifetime, is_never_raw, is_same_word, kind_of_name, without, word_of};

use parser_input::SyntaxKind;
use std::alloc::{AllocError, Global};
use unicode_normalization::to_nfc;

/// Returns `text` without a quote at its start.
fn without_quote(text: &str) -> &str
    ensures { result.now ≡ without (codes "'") text.now }
{
    match text.strip_prefix("'") {
        Some(rest) => rest,
        None => text,
    }
}

/// Returns `text` without the mark of a raw identifier at its start.
fn without_raw_mark(text: &str) -> &str
    ensures { result.now ≡ without (codes "r#") text.now }
{
    match text.strip_prefix("r#") {
        Some(rest) => rest,
        None => text,
    }
}

/// Returns the word of an identifier or a lifetime: what follows the quote of a lifetime and the mark of
/// a raw one.
pub fn word_of(text: &str) -> &str
    ensures { result.now ≡ word_of text.now }
{
    without_raw_mark(without_quote(text))
}

/// Returns `true` if `name` is that of a lifetime: it begins with a quote.
pub fn is_lifetime(name: &str) -> bool
    ensures { result ≡ is_lifetime name.now }
{
    name.starts_with("'")
}

/// Returns `true` if tokens of this kind may have the name: lifetimes if it begins with a quote, else
/// identifiers.
pub fn is_of_kind(name: &str, kind: SyntaxKind) -> bool
    ensures { result ≡ (raw_of kind == kind_of_name name.now) }
{
    if is_lifetime(name) {
        matches!(kind, SyntaxKind::LIFETIME_IDENT)
    } else {
        matches!(kind, SyntaxKind::IDENT)
    }
}

/// Returns `true` if no raw identifier and no raw lifetime has the word.
fn is_never_raw(word: &str) -> bool
    ensures { result ≡ is_never_raw word.now }
{
    matches!(word, "_" | "crate" | "self" | "super" | "Self")
}

/// Returns `true` if `name` may be the name that a program gives, as far as its own words tell: `_`,
/// `'_`, `'static` and raw forms of `_`, `crate`, `self`, `super` and `Self` are none.
pub fn is_given(name: &str) -> bool
    ensures { result ≡ is_given name.now }
{
    let text = without_quote(name);
    match text.strip_prefix("r#") {
        Some(word) => !is_never_raw(word),
        None => text != "_" && name != "'static",
    }
}

/// Returns `true` if both texts have one word, in whatever Unicode spelling.
fn is_same_word(alloc: Global, a: &str, b: &str) -> Result<bool, AllocError>
    ensures { IfOk result (λ is. is ≡ is_same_word a.now b.now) }
{
    let a = word_of(a);
    let b = word_of(b);
    if a.is_ascii() && b.is_ascii() {
        // Such texts are composed already.
        return Ok(a == b);
    }
    let a = to_nfc(alloc, a)?;
    let b = to_nfc(alloc, b)?;
    Ok(a.as_str() == b.as_str())
}

/// Returns `true` if a token with this kind and text has the name: it is an identifier, or a lifetime if
/// `name` begins with a quote, with the same word, raw or not, in whatever Unicode spelling.
///
/// # Errors
///
/// Out of memory.
pub fn has_name(alloc: Global, name: &str, kind: SyntaxKind, text: &str) -> Result<bool, AllocError>
    ensures { IfOk result (λ has. has ≡ has_name name.now (raw_of kind) text.now) }
{
    if !is_of_kind(name, kind) {
        return Ok(false);
    }
    is_same_word(alloc, name, text)
}
