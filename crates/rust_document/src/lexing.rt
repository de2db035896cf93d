//! The leaves of a text whose content's tokens are known.
ghost use Rattle.std.specs.Prelude.{◌≡◌, ◌↔◌, false, chars, IfOk};
ghost use Rattle.std.specs.List.{All};
ghost use Rattle.parser_input.specs.Lexed.{content, is_split};
ghost use Rattle.parser_input.specs.Stored.{whole_of};

use crate::preface::parts_of;
use lexed_text::LexedText;
use parser_input::edition::Edition;
use parser_input::lexed_str::LexedStr;
use rustc_lexer::{Token, TokenKind};
use std::alloc::{AllocError, Global};

/// Returns `true` if a token is no leaf: a guarded prefix before edition 2024.
#[tactic(auto, unfolding(parser_input::specs::Lexed::is_split))]
fn is_split(edition: Edition, kind: TokenKind) -> bool
    ensures { result ≡ is_split edition kind }
{
    match kind {
        TokenKind::GuardedStrPrefix => edition < Edition::Edition2024,
        _ => false,
    }
}

/// Returns `true` if one of the tokens is no leaf.
pub(crate) fn has_split(edition: Edition, tokens: &[Token]) -> bool
    ensures { result ≡ false ↔ All (λ t. is_split edition t.kind ≡ false) tokens.now }
{
    for token in tokens {
        if is_split(edition, token.kind) {
            return true;
        }
    }
    false
}

/// Lexes the content of a text.
///
/// # Errors
///
/// [`AllocError`] if an allocation fails.
pub(crate) fn lexed_content(alloc: Global, text: &str) -> Result<LexedText, AllocError>
    ensures { IfOk result (λ kept. chars kept ≡ content (chars text.now)) }
{
    LexedText::new(alloc, parts_of(text).content)
}

/// Returns the leaves of a text. `kept` is the text's content with its tokens; they are lexed again
/// only if one of them is no leaf.
///
/// # Errors
///
/// [`AllocError`] if an allocation fails.
pub(crate) fn leaves_of<'a>(
    alloc: Global,
    edition: Edition,
    text: &'a str,
    kept: &LexedText,
) -> Result<LexedStr<'a>, AllocError>
    requires { chars kept.now ≡ content (chars text.now) }
    ensures { IfOk result (λ lexed. lexed ≡ whole_of edition (chars text.now)) }
{
    if has_split(edition, kept.tokens()) {
        return LexedStr::new(alloc, edition, text);
    }
    LexedStr::from_tokens(alloc, edition, text, kept.tokens())
}
