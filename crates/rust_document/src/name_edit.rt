//! Edits that turn one plain identifier into another. The tree of the new text is the old one with
//! that token replaced, so none is built.
ghost use Rattle.std.specs.Prelude.{◌≡◌, ◌≤◌, ◌++◌, [], chars, Decides, List, ℕ, IfOk, IfSome};
ghost use Rattle.rustc_lexer.specs.Tokens.{first_lexeme};
ghost use Rattle.plain_names.specs.TokenNames.{name_lexeme};
ghost use Rattle.rust_document.specs.ContentEdit.{IsTextEdit};
ghost use Rattle.rust_document.specs.NameEdits.{ArePlainNames, IsAround, IsPart, IsPut, IsRead, IsRenamedTree, IsTokenReplaced};

use crate::content_edit::TextEdit;
use crate::plain_name::is_plain_name;
use crate::tokens::LexedToken;
use parser_input::edition::Edition;
use parser_input::syntax_kind::SyntaxKind;
use ra_parser::Grammar;
use rowan_green::{GreenError, GreenNode, GreenToken, TextRange};
use rustc_lexer::{Cursor, TokenKind};
use std::alloc::{AllocError, Global};
use syntax_tree::{SyntaxElement, SyntaxNode, SyntaxToken};

/// The tokens and the tree of a text, with what it is read by.
#[derive(Clone, Copy)]
pub(crate) struct ReadText<'a, 'b> {
    pub edition: Edition,
    pub grammar: Grammar,
    pub tokens: &'a [LexedToken],
    pub root: &'b SyntaxNode,
}

/// A token by its index among the text's tokens.
#[derive(Clone, Copy)]
struct TokenPlace {
    index: usize,
    range: TextRange,
}

/// A plain identifier before and after an edit.
#[derive(Clone, Copy)]
struct Names<'a, 'b> {
    old: &'a str,
    new: &'b str,
}

/// Returns the token with an index if it is an identifier that contains `range`.
fn identifier_at(tokens: &[LexedToken], index: usize, range: TextRange) -> Option<TokenPlace>
    ensures { IfSome result (IsAround tokens.now range.start.0 range.end.0) }
{
    if index >= tokens.len() {
        return None;
    }
    let token = tokens[index];
    if token.kind != SyntaxKind::IDENT {
        return None;
    }
    if range.start() < token.range.start() || token.range.end() < range.end() {
        return None;
    }
    Some(TokenPlace {
        index,
        range: token.range,
    })
}

/// Returns an identifier that contains `range`: of the two tokens that an empty range touches, the
/// first one that is an identifier.
fn identifier_around(tokens: &[LexedToken], range: TextRange) -> Option<TokenPlace>
    ensures { IfSome result (IsAround tokens.now range.start.0 range.end.0) }
{
    let first = tokens.partition_point(|token| token.range.end() < range.start());
    match identifier_at(tokens, first, range) {
        Some(place) => Some(place),
        None => identifier_at(tokens, first.saturating_add(1), range),
    }
}

/// Returns the bytes of a text from `start` to just before `end`, if these are boundaries of
/// characters in order.
fn part(text: &str, start: usize, end: usize) -> Option<&str>
    ensures { IfSome result (λ found. IsPart text.now start end found.now) }
{
    if start > end || !text.is_char_boundary(start) || !text.is_char_boundary(end) {
        return None;
    }
    Some(&text[start..end])
}

/// Returns `true` if the first token of `text`, which starts with `name`, is the identifier `name`.
/// It is none if a literal's prefix or a raw identifier starts there.
pub(crate) fn is_identifier(text: &str, name: &str) -> bool
    requires { (rest : List ℕ) × (name.now ++ rest ≡ text.now) }
    ensures { Decides result (first_lexeme (chars text.now) ≡ name_lexeme (chars name.now)) }
{
    let token = Cursor::new(text).advance_token();
    match token.kind {
        TokenKind::Ident => token.len == name.len(),
        _ => false,
    }
}

/// Returns the text at `range` before and after an edit within it, if both are plain names and the
/// first one is an identifier token.
fn plain_names<'a, 'b>(
    edition: Edition,
    edit: &TextEdit<'a, 'b, '_>,
    range: TextRange,
) -> Option<Names<'a, 'b>>
    ensures { IfSome result
        (ArePlainNames edition edit.now.before.now edit.now.after.now range.start.0 range.end.0) }
{
    let start = usize::from(range.start());
    let end = usize::from(range.end());
    if end > edit.before.len() || edit.before.len() - end > edit.after.len() {
        return None;
    }
    let old = part(edit.before, start, end)?;
    let new = part(
        edit.after,
        start,
        edit.after.len() - (edit.before.len() - end),
    )?;
    let rest = part(edit.before, start, edit.before.len())?;
    if !is_plain_name(edition, old) || !is_plain_name(edition, new) {
        return None;
    }
    if !is_identifier(rest, old) {
        return None;
    }
    Some(Names { old, new })
}

/// Returns the root of the tree with `token` replaced by an identifier; `None` if a node would be
/// too long.
fn with_identifier(
    alloc: Global,
    token: &SyntaxToken,
    name: &str,
) -> Result<Option<GreenNode>, AllocError>
    ensures { IfOk result (λ o. IfSome o (IsPut token.now.place name.now)) }
{
    let kind = rowan_green::SyntaxKind(SyntaxKind::IDENT.to_raw());
    if token.cursor().green().kind() != kind {
        return Ok(None);
    }
    let replaced = match GreenToken::new(alloc, kind, name) {
        Ok(green) => token.cursor().replace_with(alloc, green),
        Err(error) => Err(error),
    };
    match replaced {
        Ok(root) => Ok(Some(root)),
        Err(GreenError::NoMemory) => Err(AllocError),
        Err(_) => Ok(None),
    }
}

/// Returns the tree with the identifier at `range` replaced, if it is `names.old`.
fn with_name(
    alloc: Global,
    root: &SyntaxNode,
    range: TextRange,
    names: &Names<'_, '_>,
) -> Result<Option<GreenNode>, AllocError>
    requires { root.now.place.up ≡ [] }
    ensures { IfOk result (λ o. IfSome o
        (IsTokenReplaced root.now.place.root range.start.0 names.now)) }
{
    let Some(SyntaxElement::Token(token)) = root.find(alloc, SyntaxKind::IDENT, range)? else {
        return Ok(None);
    };
    if token.text() != names.old || token.text_range().start() != range.start() {
        return Ok(None);
    }
    with_identifier(alloc, &token, names.new)
}

/// Returns the tree of the edited text if the edit turns one plain identifier of the text before
/// into another. Both texts have the same parser's input then.
///
/// # Errors
///
/// [`AllocError`] if an allocation fails.
pub(crate) fn renamed_tree(
    alloc: Global,
    before: &ReadText<'_, '_>,
    edit: &TextEdit<'_, '_, '_>,
) -> Result<Option<GreenNode>, AllocError>
    requires read { IsRead edit.now.before.now before.now }
    requires edit { IsTextEdit edit.now }
    ensures { IfOk result (λ o. IfSome o
        (IsRenamedTree before.now.grammar before.now.edition edit.now.before.now edit.now.after.now)) }
{
    let Some(place) = identifier_around(before.tokens, edit.range) else {
        return Ok(None);
    };
    let Some(names) = plain_names(before.edition, edit, place.range) else {
        return Ok(None);
    };
    with_name(alloc, before.root, place.range, &names)
}
