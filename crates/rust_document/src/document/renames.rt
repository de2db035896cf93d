//! Tells plain renamings, whose commit is accepted.
ghost use Rattle.std.specs.Prelude.{◌≡◌, nat_lt, map, Decides, IfOk, IfSome, MatchOption};
ghost use Rattle.std.specs.List.{All};
ghost use Rattle.std.specs.List.Sorted.{IsNonDecreasingBy};
ghost use Rattle.syntax_tree.specs.Element.{Element};
ghost use Rattle.syntax_tree.specs.Handle.{element_of};
ghost use Rattle.tree_rewrite.specs.Recorded.{recorded, IsOrdered};
ghost use Rattle.syntax_editor.specs.Inside.{IsOf, IsOwn, IsSound};
ghost use Rattle.rust_document.specs.RenameTests.{IsNameToken, IsNotOneByOne, IsOneByOne, IsPlainIdentifier, StartsToken};
ghost use Rattle.rust_document.specs.Renames.{AreRenames, IsPlainRenaming, IsRename};
ghost use Rattle.rust_document.specs.Step.{root_element};

use super::Document;
use crate::name_edit::is_identifier;
use crate::plain_name::is_plain_name;
use crate::tokens::LexedToken;
use parser_input::edition::Edition;
use parser_input::syntax_kind::SyntaxKind;
use std::alloc::{AllocError, Global};
use syntax_editor::SyntaxEditor;
use syntax_tree::{SyntaxElement, SyntaxToken};
use tree_rewrite::change::Change;

/// An element with the one that replaces it.
#[derive(Clone, Copy)]
struct Replacement<'a> {
    old: &'a SyntaxElement,
    new: &'a SyntaxElement,
}

/// Returns the elements of a change that replaces one element by one.
fn one_by_one(change: &Change) -> Option<Replacement<'_>>
    requires { IsOrdered change.now }
    ensures elements { MatchOption result (IsNotOneByOne (recorded change.now))
        (λ r. IsOneByOne (recorded change.now) (element_of r.old.now) (element_of r.new.now)) }
    ensures own { (top : Element) → IfSome result
        (λ r. IsOwn top change.now → IsOf top (element_of r.old.now)) }
{
    let Change::Replace {
        first,
        last,
        new,
        ..
    } = change
    else {
        return None;
    };
    if first.index() != last.index() || new.len() != 1 {
        return None;
    }
    Some(Replacement {
        old: first,
        new: &new[0],
    })
}

/// Returns the token if `element` is an identifier token whose text is a plain name.
fn plain_identifier(edition: Edition, element: &SyntaxElement) -> Option<&SyntaxToken>
    ensures { MatchOption result (IsPlainIdentifier edition (element_of element.now) → ⊥)
        (λ token. (token.now ≡ element_of element.now)
        × IsPlainIdentifier edition (element_of element.now)) }
{
    match element {
        SyntaxElement::Node(node) => {
            let _stands = node.cursor().green();
            None
        }
        SyntaxElement::Token(token) => {
            let leaf = token.cursor().green();
            if leaf.kind().0 == SyntaxKind::IDENT.to_raw() && is_plain_name(edition, leaf.text()) {
                return Some(token);
            }
            None
        }
    }
}

/// Returns `true` if one of `tokens`, which are in order, starts at the byte `start`.
fn starts_token(tokens: &[LexedToken], start: usize) -> bool
    requires { IsNonDecreasingBy (λ token. token.range.start.0) tokens.now }
    ensures { Decides result (StartsToken tokens.now start) }
{
    let index = tokens.partition_point(
        |token: &LexedToken| -> bool
            ensures { result ≡ nat_lt token.now.range.start.0 start }
        { usize::from(token.range.start()) < start },
    );
    if index >= tokens.len() {
        return false;
    }
    usize::from(tokens[index].range.start()) == start
}

impl Document {
    /// Returns `true` if the changes of `editor` are a plain renaming of the present tree.
    /// [`Document::commit`] then accepts it, whatever messages the text has: only length, memory and tree
    /// numbers can refuse it.
    ///
    /// A renaming is plain exactly if each change replaces an identifier token of the present tree with
    /// an identifier, each another one; old and new names are plain ([`is_plain_name`]); and no replaced
    /// one is the prefix of a literal, as `foo` in `foo"x"`.
    ///
    /// # Errors
    ///
    /// [`AllocError`] if an allocation fails.
    pub fn is_plain_rename(&self, alloc: Global, editor: &SyntaxEditor) -> Result<bool, AllocError>
        ensures { IfOk result (λ answer. Decides answer (IsPlainRenaming self.now editor.now)) }
    {
        if !self.is_of(editor) || !self.are_renames(editor.changes()) {
            return Ok(false);
        }
        Ok(!editor.has_collision(alloc)?)
    }

    /// Returns `true` if each change replaces an identifier of the text by a plain name.
    fn are_renames(&self, changes: &[Change]) -> bool
        requires { All (IsSound (root_element self.now)) changes.now }
        ensures { Decides result (AreRenames self.now (map recorded changes.now)) }
    {
        for change in changes {
            if !self.is_rename(change) {
                return false;
            }
        }
        true
    }

    /// Returns `true` if `change` replaces a plain identifier of the text by a plain name.
    fn is_rename(&self, change: &Change) -> bool
        requires own { IsOwn (root_element self.now) change.now }
        requires ordered { IsOrdered change.now }
        ensures { Decides result (IsRename self.now (recorded change.now)) }
    {
        let _text = self.text();
        let Some(Replacement { old, new }) = one_by_one(change) else {
            return false;
        };
        let Some(token) = plain_identifier(self.edition, old) else {
            return false;
        };
        plain_identifier(self.edition, new).is_some() && self.has_name_token(token)
    }

    /// Returns `true` if the text has an identifier token with the text of `token` where that starts.
    /// It has none if a literal's prefix or a raw identifier starts there.
    fn has_name_token(&self, token: &SyntaxToken) -> bool
        requires { IsOf (root_element self.now) token.now }
        ensures { Decides result (IsNameToken self.now token.now) }
    {
        let start = usize::from(token.text_range().start());
        if !starts_token(self.tokens.as_slice(), start) {
            return false;
        }
        let name = token.cursor().green().text();
        is_identifier(&self.text.as_str()[start..], name)
    }
}
