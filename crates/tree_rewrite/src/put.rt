//! Marks of the elements of a rewritten tree that outermost changes inserted.
ghost use Rattle.std.specs.Prelude.{◌≡◌, ◌++◌, ◌∷◌, [], map, OnOk};
ghost use Rattle.syntax_tree.specs.Handle.{element_of};
ghost use Rattle.tree_rewrite.specs.Came.{origins_by};
ghost use Rattle.tree_rewrite.specs.declared.piece.Piece.TheVariants.{Whole};
ghost use Rattle.tree_rewrite.specs.Pieces.{Stand, start, closed, after_piece};
ghost use Rattle.tree_rewrite.specs.Puts.{MarksPuts, first_put, none_put};
ghost use Rattle.tree_rewrite.specs.Tracking.{is_put};

use crate::changed::is_put;
use crate::piece::Piece;
use std::alloc::{AllocError, Global};
use syntax_tree::SyntaxElement;

/// The marks of the elements up to a piece, and the open nodes and groups around it. Inside a
/// group, `told` is `Some`: whether the elements of the group are recorded as changed.
#[derive(Drop)]
pub(crate) struct Puts {
    pub(crate) marks: Vec<bool>,
    told: Option<bool>,
    around: Vec<Option<bool>>,
}

/// Appends `false` for each element of `below`.
fn push_none(below: &[SyntaxElement], to: &mut Vec<bool>) -> Result<(), AllocError>
    ensures { OnOk result (to.new.items ≡ to.old.items ++ none_put below.now) }
{
    for _element in below {
        to.push(false)?;
    }
    Ok(())
}

/// Appends `is_put` for the first element of `brought`, and `false` for the others, which are below
/// it.
fn push_marks(is_put: bool, brought: &[SyntaxElement], to: &mut Vec<bool>) -> Result<(), AllocError>
    ensures { OnOk result (to.new.items ≡ to.old.items ++ first_put is_put brought.now) }
{
    let Some((_first, below)) = brought.split_first() else {
        return Ok(());
    };
    to.push(is_put)?;
    push_none(below, to)
}

impl Puts {
    /// Creates a list without marks.
    pub(crate) fn new(alloc: Global) -> Puts
        ensures { MarksPuts result start }
    {
        Puts {
            marks: Vec::new(alloc),
            told: None,
            around: Vec::new(alloc),
        }
    }

    /// Marks `element` and all elements below it, which are `brought`.
    fn pass(&mut self, element: &SyntaxElement, brought: &[SyntaxElement]) -> Result<(), AllocError>
        requires { map element_of brought.now ≡ origins_by (Whole element.now) }
        ensures { (s : Stand) → MarksPuts self.old s
            → OnOk result (MarksPuts self.new (after_piece (Whole element.now) s)) }
    {
        // (the contract of `green`: the element is in its tree)
        let _stands = element.green()?;
        push_marks(is_put(self.told), brought, &mut self.marks)
    }

    /// Enters a node or a group of inserted elements.
    fn enter(&mut self, told: Option<bool>) -> Result<(), AllocError>
        ensures marks { OnOk result (self.new.marks.items ≡ self.old.marks.items) }
        ensures told { OnOk result (self.new.told ≡ told) }
        ensures around { OnOk result
            (self.new.around.items ≡ self.old.around.items ++ self.old.told ∷ []) }
    {
        self.around.push(self.told)?;
        self.told = told;
        Ok(())
    }

    /// Leaves the node or group that was entered last.
    fn leave(&mut self)
        ensures { (s : Stand) → MarksPuts self.old s → MarksPuts self.new (closed s.done s.around) }
    {
        if let Some(told) = self.around.pop() {
            self.told = told;
        }
    }

    /// Processes `piece`, whose elements are `brought`.
    pub(crate) fn step(
        &mut self,
        piece: &Piece,
        brought: &[SyntaxElement],
    ) -> Result<(), AllocError>
        requires { map element_of brought.now ≡ origins_by piece.now }
        ensures { (s : Stand) → MarksPuts self.old s
            → OnOk result (MarksPuts self.new (after_piece piece.now s)) }
    {
        match piece {
            Piece::Whole(element) => self.pass(element, brought)?,
            Piece::Open(_) => {
                push_marks(is_put(self.told), brought, &mut self.marks)?;
                self.enter(None)?;
            }
            Piece::Group(nesting) => {
                let told = Some(self.told.unwrap_or(nesting.is_outermost()));
                self.enter(told)?;
            }
            Piece::Close => self.leave(),
        }
        Ok(())
    }
}
