//! Identifiers of a text.
ghost use Rattle.std.specs.Prelude.{◌≡◌, slice_range};
ghost use Rattle.rust_document.specs.Tokens.{span_of};
ghost use Rattle.rust_source.specs.Identifiers.{has_identifier, is_identifier};

use crate::source::Source;
use parser_input::SyntaxKind;
use rust_document::LexedToken;

/// Returns the bytes from `start` to just before `end`, as far as there are any.
fn part(bytes: &[u8], start: usize, end: usize) -> &[u8]
    ensures { result.now ≡ slice_range bytes.now start end }
{
    let end = end.min(bytes.len());
    let start = start.min(end);
    &bytes[start..end]
}

/// Returns `true` if a token of `text` is the identifier `name`.
fn is_identifier(text: &str, token: LexedToken, name: &str) -> bool
    ensures { result ≡ is_identifier name.now text.now (span_of token) }
{
    let start = usize::from(token.range.start());
    let end = usize::from(token.range.end());
    let bytes = part(text.as_bytes(), start, end);
    token.kind.to_raw() == SyntaxKind::IDENT.to_raw() && bytes == name.as_bytes()
}

impl Source {
    /// Returns `true` if a token of the text is the identifier `name`.
    pub fn has_identifier(&self, name: &str) -> bool
        ensures { result ≡ has_identifier name.now self.now.document }
    {
        let text = self.text();
        for token in self.tokens() {
            if is_identifier(text, token, name) {
                return true;
            }
        }
        false
    }
}
