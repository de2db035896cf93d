//! Typed nodes: wrappers of nodes, by the kinds of nodes.
ghost use Rattle.std.specs.Prelude.{◌≡◌, ◌↔◌, ◌<◌, ℕ, [], Bool, true, length, Some, IfOk, IfSome, IsSome, List};
ghost use Rattle.std.specs.Coded.{codes};
ghost use Rattle.std.specs.Iterator.{at_most};
ghost use Rattle.rowan_green.specs.Forest.{Tree, tree_code};
ghost use Rattle.rowan_green.specs.declared.utility_types.NodeOrToken.TheVariants.{Node};
ghost use Rattle.rowan.specs.Place.{Place, term_at, kind_at};
ghost use Rattle.rowan.specs.Cast.{can, CastsOrFails};

pub mod ptr;
pub mod support;

use crate::api::SyntaxNode;
use crate::language::Language;
use crate::syntax_children::SyntaxNodeChildren;
pub use ptr::AstPtr;
use std::alloc::{AllocError, Global};
use std::marker::{Model, PhantomData};

/// A typed node: a wrapper of a node whose kind can be cast to the type.
pub trait AstNode: Sized {
    type Language: Language;

    /// The kinds that can be cast.
    ghost casts: { Self.Language.Kind → Bool };

    /// The place of the node.
    ghost place: { Self → Place };

    fn can_cast(kind: <Self::Language as Language>::Kind) -> bool
        ensures { result ≡ casts kind };

    /// Returns the node as this type, or `None` if its kind cannot be cast.
    fn cast(node: SyntaxNode<Self::Language>) -> Option<Self>
        ensures cast_when { IsSome result ↔ (casts (Self.Language.from_raw (kind_at node)) ≡ true) }
        ensures gives { IfSome result (λ x. place x ≡ node) };

    /// Returns the node.
    fn syntax(&self) -> &SyntaxNode<Self::Language>
        ensures back { result.now ≡ place self.now }
        ensures own_kind { casts (Self.Language.from_raw (kind_at (place self.now))) ≡ true };

    /// Returns the root of a new tree with the node's green node, as this type.
    ///
    /// # Errors
    ///
    /// [`AllocError`] if an allocation fails or a reference count overflows.
    fn clone_subtree(&self, alloc: Global) -> Result<Self, AllocError>
        ensures { IfOk result (λ x. (g : Tree) × (term_at (place self.now) ≡ Some (Node g)) ×
            (place x ≡ record { root = g; up = [] })) }
    {
        let copy = self.syntax().clone_subtree(alloc)?;
        Ok(Self::cast(copy).unwrap())
    }
}

/// An iterator over the children of a node that can be cast, in order. Model: the remaining child
/// nodes.
#[derive(Drop)]
pub struct AstChildren<N: AstNode> {
    inner: SyntaxNodeChildren<N::Language>,
    node: PhantomData<N>,
}

impl<N: AstNode> Model for AstChildren<N> {
    ghost Value = { List Place };

    ghost coded = { Prim.hlevel (codes, tree_code) };

    ghost view = { λ c. c.inner };
}

impl<N: AstNode> Iterator for AstChildren<N> {
    type Item = Result<N, AllocError>;

    ghost next_gives = { CastsOrFails (can N.Language.from_raw N.casts) N.place };

    ghost remaining = { λ s. at_most (length s) };

    fn next(&mut self) -> Option<Result<N, AllocError>> {
        next_cast(&mut self.inner)
    }
}

/// Returns the next node that can be cast.
fn next_cast<N: AstNode>(
    nodes: &mut SyntaxNodeChildren<N::Language>,
) -> Option<Result<N, AllocError>>
    ensures gives { CastsOrFails
        (can N.Language.from_raw N.casts) N.place nodes.old result nodes.new }
    ensures goes { IsSome result → length nodes.new < length nodes.old }
{
    while let Some(node) = nodes.next() {
        match node {
            Ok(node) => {
                if let Some(found) = N::cast(node) {
                    return Some(Ok(found));
                }
            }
            Err(e) => return Some(Err(e)),
        }
    }
    None
}

impl<N: AstNode> AstChildren<N> {
    pub(crate) fn new(inner: SyntaxNodeChildren<N::Language>) -> AstChildren<N>
        ensures { result ≡ inner }
    {
        AstChildren {
            inner,
            node: PhantomData,
        }
    }
}
