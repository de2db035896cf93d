//! Functions by which typed nodes read their parts.
ghost use Rattle.std.specs.Prelude.{◌≡◌, option_map, IfOk};
ghost use Rattle.std.specs.List.{filter};
ghost use Rattle.rowan.specs.Place.{kind_at};
ghost use Rattle.rowan.specs.Around.{children, nodes, tokens, first};
ghost use Rattle.rowan.specs.Cast.{can};

use crate::api::{SyntaxNode, SyntaxToken};
use crate::ast::{AstChildren, AstNode};
use crate::language::Language;
use rowan_green::NodeOrToken;
use std::alloc::{AllocError, Global};

/// Returns the first child of `parent` that can be cast to `N`.
///
/// # Errors
///
/// [`AllocError`] if an allocation fails or a reference count overflows.
pub fn child<N: AstNode + Drop>(
    alloc: Global,
    parent: &SyntaxNode<N::Language>,
) -> Result<Option<N>, AllocError>
    ensures { IfOk result (λ r. option_map N.place r ≡ first
        (filter (can N.Language.from_raw N.casts) (nodes (children parent.now)))) }
{
    let mut found = children::<N>(alloc, parent)?;
    match found.next() {
        Some(Ok(child)) => Ok(Some(child)),
        Some(Err(e)) => Err(e),
        None => Ok(None),
    }
}

/// Returns an iterator over the children of `parent` that can be cast to `N`.
///
/// # Errors
///
/// [`AllocError`] if a reference count overflows.
pub fn children<N: AstNode>(
    alloc: Global,
    parent: &SyntaxNode<N::Language>,
) -> Result<AstChildren<N>, AllocError>
    ensures { IfOk result (λ c. c ≡ nodes (children parent.now)) }
{
    Ok(AstChildren::new(parent.children(alloc)?))
}

/// Returns the first child of `parent` that is a token of kind `kind`.
///
/// # Errors
///
/// [`AllocError`] if an allocation fails or a reference count overflows.
pub fn token<L: Language>(
    alloc: Global,
    parent: &SyntaxNode<L>,
    kind: L::Kind,
) -> Result<Option<SyntaxToken<L>>, AllocError>
    ensures { IfOk result (λ r. r ≡ first
        (filter (λ p. L.Kind.eq (L.from_raw (kind_at p)) kind) (tokens (children parent.now)))) }
{
    for element in parent.children_with_tokens(alloc)? {
        if let NodeOrToken::Token(token) = element? {
            if token.kind() == kind {
                return Ok(Some(token));
            }
        }
    }
    Ok(None)
}
