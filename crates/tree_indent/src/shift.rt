//! Indents and dedents whitespace.
ghost use Rattle.std.specs.Prelude.{◌≡◌, ◌==◌, IfOk, IfErr, OnOk, string_bytes};
ghost use Rattle.std.specs.List.{list_any};
ghost use Rattle.rowan_green.specs.Refusal.{RefusesUnless};
ghost use Rattle.rowan_green.specs.Term.{FitsToken};
ghost use Rattle.syntax_editor.specs.Indent.{line_feed};
ghost use Rattle.tree_indent.specs.Shifted.{set_in, set_out, shifted_text, shifted_leaf};

use parser_input::SyntaxKind;
use rowan_green::{GreenError, GreenToken, GreenTokenRef};
use std::alloc::{AllocError, Global};
use syntax_editor::IndentLevel;

/// Indents or dedents by a level.
#[derive(Clone, Copy)]
pub enum Shift {
    In(IndentLevel),
    Out(IndentLevel),
}

/// Returns `true` if `text` contains a line feed.
fn has_line_feed(text: &str) -> bool
    ensures { result ≡ list_any (λ c. c == line_feed) text.now }
{
    for byte in text.as_bytes() {
        if *byte == b'\n' {
            return true;
        }
    }
    false
}

/// Returns `text` with the spaces of `level` appended, if it contains a line feed.
fn set_in(alloc: Global, text: &str, level: IndentLevel) -> Result<String, AllocError>
    ensures { IfOk result (λ t. string_bytes t ≡ set_in level.0 text.now) }
{
    if has_line_feed(text) {
        return format!(in alloc; "{text}{level}");
    }
    String::from_str(alloc, text)
}

/// Returns `text` without the spaces of `level` after each line feed that they follow.
fn set_out(alloc: Global, text: &str, level: IndentLevel) -> Result<String, AllocError>
    ensures { IfOk result (λ t. string_bytes t ≡ set_out level.0 text.now) }
{
    let margin = format!(in alloc; "\n{level}")?;
    text.replace(alloc, &margin, "\n")
}

/// Returns `text`, indented or dedented by `shift`.
fn shifted_text(alloc: Global, text: &str, shift: Shift) -> Result<String, AllocError>
    ensures { IfOk result (λ t. string_bytes t ≡ shifted_text shift text.now) }
{
    match shift {
        Shift::In(level) => set_in(alloc, text, level),
        Shift::Out(level) => set_out(alloc, text, level),
    }
}

/// Returns `token`, indented or dedented by `shift` if it is whitespace, else unchanged.
pub(crate) fn shifted_token(
    alloc: Global,
    token: &GreenTokenRef<'_>,
    shift: Shift,
) -> Result<GreenToken, GreenError>
    ensures ok { IfOk result (λ t. t ≡ shifted_leaf shift token.now) }
    ensures fits { OnOk result (FitsToken (shifted_leaf shift token.now).text) }
    ensures refused { IfErr result (RefusesUnless (FitsToken (shifted_leaf shift token.now).text)) }
{
    if token.kind().0 != SyntaxKind::WHITESPACE.to_raw() {
        // Called only for its contract: the length of a token's text fits 32 bits.
        let _len = token.text_len();
        return Ok(token.to_owned()?);
    }
    let text = shifted_text(alloc, token.text(), shift)?;
    GreenToken::new(alloc, token.kind(), text.as_str())
}
