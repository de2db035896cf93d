//! Whether runs of elements have equal tokens.
ghost use Rattle.std.specs.Prelude.{◌≡◌, IfOk};
ghost use Rattle.rowan_green.specs.Term.{Term};
ghost use Rattle.tree_patterns.specs.Bones.{is_trivia};
ghost use Rattle.tree_patterns.specs.Leaves.{leaves};
ghost use Rattle.std.specs.List.{filter};
ghost use Rattle.std.specs.Prelude.{not};
ghost use Rattle.tree_search.specs.Elements.{has_tokens_of, same_tokens, tokens_of};

use rowan_green::{GreenNodeRef, GreenTokenRef};
use std::alloc::{AllocError, Global};
use syntax_tree::SyntaxElement;
use tree_patterns::bones::is_trivia;
use tree_patterns::leaves::leaves_of;

/// Returns the tokens of a node, without whitespace and comments.
fn tokens_below<'a>(
    alloc: Global,
    node: &GreenNodeRef<'a>,
) -> Result<Vec<GreenTokenRef<'a>>, AllocError>
    ensures { IfOk result (λ v. v.items
        ≡ filter (λ l. not (is_trivia l.kind)) (leaves node.now.forest)) }
{
    let mut tokens = Vec::new(alloc);
    for leaf in leaves_of(alloc, node)? {
        if !is_trivia(leaf.kind().0) {
            tokens.push(leaf)?;
        }
    }
    Ok(tokens)
}

/// Returns the tokens of an element, without whitespace and comments.
fn tokens_of<'a>(
    alloc: Global,
    element: &'a SyntaxElement,
) -> Result<Vec<GreenTokenRef<'a>>, AllocError>
    ensures { IfOk result (λ v. v.items ≡ tokens_of element.now) }
{
    match element {
        SyntaxElement::Node(node) => tokens_below(alloc, &node.cursor().green().as_ref()),
        SyntaxElement::Token(token) => {
            let mut tokens = Vec::new(alloc);
            tokens.push(token.cursor().green().as_ref())?;
            Ok(tokens)
        }
    }
}

/// Returns `true` if two elements have the same tokens, whitespace and comments aside.
fn has_tokens_of(
    alloc: Global,
    one: &SyntaxElement,
    other: &SyntaxElement,
) -> Result<bool, AllocError>
    ensures { IfOk result (λ b. b ≡ has_tokens_of one.now other.now) }
{
    let left = tokens_of(alloc, one)?;
    let right = tokens_of(alloc, other)?;
    Ok(left.as_slice() == right.as_slice())
}

/// Returns `true` if two runs have as many elements, each with the tokens of the other's, whitespace and
/// comments aside.
#[tactic(auto, using(crate::proofs::Heads::same_steps))]
pub(crate) fn same_tokens(
    alloc: Global,
    one: &[SyntaxElement],
    other: &[SyntaxElement],
) -> Result<bool, AllocError>
    ensures { IfOk result (λ b. b ≡ same_tokens one.now other.now) }
{
    let mut left = one;
    let mut right = other;
    'elements: while !left.is_empty() {
        if right.is_empty() {
            return Ok(false);
        }
        if !has_tokens_of(alloc, &left[0], &right[0])? {
            return Ok(false);
        }
        left = &left[1..];
        right = &right[1..];
    }
    Ok(right.is_empty())
}
