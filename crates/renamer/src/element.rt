//! Which elements a renaming takes.

ghost use Rattle.std.specs.Prelude.{◌≡◌, ◌==◌, IfOk, List, ℕ, map};
ghost use Rattle.parser_input.specs.Kind.{raw_of};
ghost use Rattle.renamer.specs.Taken.{kinds_before, named_kind, named_leaf, naming_of, takes};
ghost use Rattle.rowan.specs.Place.{kind_at, text_at};
ghost use Rattle.rowan_green.specs.Leaf.{same_leaf};
ghost use Rattle.syntax_tree.specs.Handle.{element_of};
ghost use Rattle.token_names.specs.MacroNames.{is_macro_name};

use parser_input::syntax_kind::SyntaxKind;
use std::alloc::{AllocError, Global};
use syntax_tree::{SyntaxElement, SyntaxToken};
use token_names::{is_macro_name, is_of_kind};

/// The number of siblings that tell whether a token is a macro name.
const SIBLINGS: usize = 3;

/// The names of a renaming.
#[derive(Clone, Copy)]
pub(crate) struct Names<'a> {
    pub(crate) old: &'a str,
    pub(crate) new: &'a str,
    /// Identifiers are renamed, or lifetimes if `old` begins with a quote, and macro names are left; else
    /// all identifiers are renamed.
    pub(crate) leaves_macro_names: bool,
}

/// Returns `true` if tokens of this kind may be renamed.
fn is_of_kind_in(names: &Names<'_>, kind: SyntaxKind) -> bool
    ensures { result ≡ (raw_of kind == named_kind (naming_of names.now)) }
{
    if names.leaves_macro_names {
        is_of_kind(names.old, kind)
    } else {
        matches!(kind, SyntaxKind::IDENT)
    }
}

/// Returns `true` if `token` has the old name.
fn is_named(token: &SyntaxToken, names: &Names<'_>) -> bool
    ensures { result ≡ same_leaf (record { kind = kind_at token.now.place; text = text_at token.now.place })
        (named_leaf (naming_of names.now)) }
{
    is_of_kind_in(names, token.kind()) && token.text() == names.old
}

/// Returns the kinds of up to three siblings before `element` that are no trivia, the nearest first.
fn kinds_before(alloc: Global, element: &SyntaxElement) -> Result<Vec<SyntaxKind>, AllocError>
    ensures { IfOk result (λ kinds. (text : List ℕ) → is_macro_name text (map raw_of kinds.items)
        ≡ is_macro_name text (kinds_before (element_of element.now).place)) }
{
    let mut kinds = Vec::new(alloc);
    let mut sibling = element.prev_sibling_or_token(alloc)?;
    while let Some(nearest) = sibling {
        if kinds.len() == SIBLINGS {
            break;
        }
        let kind = nearest.kind();
        if !kind.is_trivia() {
            kinds.push(kind)?;
        }
        sibling = nearest.prev_sibling_or_token(alloc)?;
    }
    Ok(kinds)
}

/// Returns `true` if `element` is renamed.
pub(crate) fn takes(
    alloc: Global,
    element: &SyntaxElement,
    names: &Names<'_>,
) -> Result<bool, AllocError>
    ensures { IfOk result (λ taken. taken ≡ takes (naming_of names.now) element.now) }
{
    let SyntaxElement::Token(token) = element else {
        return Ok(false);
    };
    if !is_named(token, names) {
        return Ok(false);
    }
    if !names.leaves_macro_names {
        return Ok(true);
    }
    let kinds = kinds_before(alloc, element)?;
    let kinds = kinds.as_slice();
    Ok(!(is_macro_name(names.old, kinds) || is_macro_name(names.new, kinds)))
}
