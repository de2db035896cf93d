//! The output of changes as a list of pieces. No green node is created at this stage, so only nodes
//! of the complete tree can be too long.
ghost use Rattle.std.specs.Prelude.{◌≡◌, ◌++◌, IfOk, OnOk};
ghost use Rattle.tree_rewrite.specs.Pieces.{is_outermost};

use std::alloc::AllocError;
use syntax_tree::{SyntaxElement, SyntaxNode};

/// Whether a planned change is one of the tree itself, or one of a payload.
#[derive(Clone, Copy)]
pub enum Nesting {
    /// Its target tree is the tree itself.
    Outermost,
    /// Its target tree is a payload.
    Nested,
}

impl Nesting {
    /// Returns `true` for a change of the tree itself.
    pub fn is_outermost(self) -> bool
        ensures { result ≡ is_outermost self }
    {
        match self {
            Nesting::Outermost => true,
            Nesting::Nested => false,
        }
    }
}

/// A piece of a list of elements.
#[derive(Drop)]
pub enum Piece {
    /// An unchanged element with all elements below it.
    Whole(SyntaxElement),
    /// The start of a node. Its children follow, up to the matching `Close`.
    Open(SyntaxNode),
    /// The start of the elements that a planned change inserts, up to the matching `Close`.
    Group(Nesting),
    /// The end of the last node or group that is still open.
    Close,
}

/// An executed change: the index of the planned change, and the pieces that it inserts.
#[derive(Drop)]
pub struct Put {
    pub number: usize,
    pub pieces: Vec<Piece>,
}

impl Piece {
    /// Returns a copy of the piece.
    fn copied(&self) -> Result<Piece, AllocError>
        ensures { IfOk result (λ p. p ≡ self.now) }
    {
        match self {
            Piece::Whole(element) => Ok(Piece::Whole(element.clone()?)),
            Piece::Open(node) => Ok(Piece::Open(node.clone()?)),
            Piece::Group(nesting) => Ok(Piece::Group(*nesting)),
            Piece::Close => Ok(Piece::Close),
        }
    }
}

/// Appends copies of `from`.
pub fn push_pieces(from: &[Piece], to: &mut Vec<Piece>) -> Result<(), AllocError>
    ensures { OnOk result (to.new.items ≡ to.old.items ++ from.now) }
{
    for piece in from {
        to.push(piece.copied()?)?;
    }
    Ok(())
}
