//! Origins of the elements of a rewritten tree.
ghost use Rattle.std.specs.Prelude.{◌≡◌, ◌++◌, map, IfOk, OnOk};
ghost use Rattle.syntax_tree.specs.Handle.{element_of};
ghost use Rattle.tree_rewrite.specs.Marked.{Marked, origins, put_marks, blank, reading_of};
ghost use Rattle.tree_rewrite.specs.Pieces.{Say};
ghost use Rattle.tree_rewrite.specs.Came.{origins_by, all_origins};

use crate::piece::Piece;
use crate::put::Puts;
use std::alloc::{AllocError, Global};
use syntax_tree::{SyntaxElement, SyntaxNode, SyntaxToken};

/// The origin of each element, and whether an outermost change inserted it, in preorder.
#[derive(Drop)]
pub struct Origins {
    pub elements: Vec<SyntaxElement>,
    pub put: Vec<bool>,
}

/// Appends a node and all elements below it, in preorder.
fn push_walk(
    alloc: Global,
    node: &SyntaxNode,
    to: &mut Vec<SyntaxElement>,
) -> Result<(), AllocError>
    ensures { OnOk result (map element_of to.new.items
        ≡ map element_of to.old.items ++ origins (reading_of blank node.now)) }
{
    // (the contract of `green`: the element is in its tree)
    let _stands = node.cursor().green();
    let mut left = node.descendants_with_tokens(alloc)?;
    while let Some(element) = left.next() {
        let element = element?;
        to.push(element)?;
    }
    Ok(())
}

/// Appends a token.
fn push_token(token: &SyntaxToken, to: &mut Vec<SyntaxElement>) -> Result<(), AllocError>
    ensures { OnOk result (map element_of to.new.items
        ≡ map element_of to.old.items ++ origins (reading_of blank token.now)) }
{
    // (the contract of `green`: the element is in its tree)
    let _stands = token.cursor().green();
    to.push(SyntaxElement::Token(token.clone()?))?;
    Ok(())
}

/// Appends the elements of `piece`, in preorder.
fn push_piece(alloc: Global, piece: &Piece, to: &mut Vec<SyntaxElement>) -> Result<(), AllocError>
    ensures { OnOk result (map element_of to.new.items
        ≡ map element_of to.old.items ++ origins_by piece.now) }
{
    match piece {
        Piece::Whole(SyntaxElement::Node(node)) => push_walk(alloc, node, to)?,
        Piece::Whole(SyntaxElement::Token(token)) => push_token(token, to)?,
        Piece::Open(node) => to.push(SyntaxElement::Node(node.clone()?))?,
        Piece::Group(_) | Piece::Close => (),
    }
    Ok(())
}

/// Returns the origin of each element of `pieces`, and whether an outermost change inserted it, in
/// preorder.
pub fn origins_of(alloc: Global, pieces: &[Piece]) -> Result<Origins, AllocError>
    ensures elements { (m : Marked) → Say pieces.now m
        → IfOk result (λ o. map element_of o.elements.items ≡ origins m) }
    ensures put { (m : Marked) → Say pieces.now m → IfOk result (λ o. o.put.items ≡ put_marks m) }
{
    let mut elements = Vec::new(alloc);
    let mut puts = Puts::new(alloc);
    for piece in pieces {
        let before = elements.len();
        push_piece(alloc, piece, &mut elements)?;
        puts.step(piece, &elements[before..])?;
    }
    let Puts { marks, .. } = puts;
    Ok(Origins {
        elements,
        put: marks,
    })
}
