//! Annotations, by which elements are found in a rewritten tree.
ghost use Rattle.std.specs.Prelude.{◌≡◌, ◌+◌, ◌^◌, map, IfOk, IfErr};
ghost use Rattle.syntax_tree.specs.Handle.{element_of};
ghost use Rattle.syntax_editor.specs.Editing.{with_annotation};
ghost use Rattle.syntax_editor.specs.Inside.{annotated};

use std::alloc::{AllocError, Global};
use std::marker::Model;
use syntax_tree::{Spent, SyntaxElement};

/// An annotation, identified by its number. It is less than those that its source returns later.
#[derive(Clone, Copy, Debug, PartialEq, Eq, PartialOrd, Ord, Hash)]
pub struct SyntaxAnnotation {
    pub(crate) number: u32,
}

/// A source of annotations, which returns each number from 1 to 4,294,967,295 once.
///
/// Model: the next number, 2^32 if none is left.
#[derive(Debug, Drop)]
pub struct Annotations {
    next: u64,
}

impl Model for Annotations {
    ghost use Rattle.std.specs.Prelude.{ℕ, ◌≤◌, ◌^◌};

    ghost Value = { ℕ };

    ghost view = { λ a. a.next };

    ghost invariant = { λ a. a.next ≤ 2 ^ 32 };
}

impl Annotations {
    /// Returns a source whose next number is 1.
    pub fn new() -> Annotations
        ensures { result ≡ 1 }
    {
        Annotations { next: 1 }
    }

    /// Returns the next annotation, which this source never returns again.
    ///
    /// # Errors
    ///
    /// - [`Spent`] if no number is left.
    ///
    /// On error, the source is unchanged.
    pub fn next(&mut self) -> Result<SyntaxAnnotation, Spent>
        ensures given { IfOk result (λ a. (a.number ≡ self.old) × (self.new ≡ self.old + 1)) }
        ensures spent { IfErr result (λ _. (self.old ≡ 2 ^ 32) × (self.new ≡ self.old)) }
    {
        if self.next > u64::from(u32::MAX) {
            return Err(Spent);
        }
        let number = self.next as u32;
        self.next += 1;
        Ok(SyntaxAnnotation { number })
    }
}

/// Returns copies of `elements`, each with `annotation`.
pub(crate) fn marked(
    alloc: Global,
    elements: &[SyntaxElement],
    annotation: SyntaxAnnotation,
) -> Result<Vec<(SyntaxElement, SyntaxAnnotation)>, AllocError>
    ensures { IfOk result (λ v. map annotated v.items
        ≡ map (with_annotation annotation.number) (map element_of elements.now)) }
{
    let mut marked = Vec::new(alloc);
    for element in elements {
        marked.push((element.clone()?, annotation))?;
    }
    Ok(marked)
}
