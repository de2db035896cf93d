//! Pointers to typed nodes.
ghost use Rattle.std.specs.Prelude.{◌≡◌, ◌↔◌, true, option_map, IsSome, IfOk, IfSome};
ghost use Rattle.rowan.specs.Place.{kind_at, start_of, end_of};
ghost use Rattle.rowan.specs.Cast.{can};
ghost use Rattle.rowan.specs.Pointer.{pointed_at, taken};
ghost use Rattle.rowan.specs.Refusal.{FindsOrRefuses};

use crate::api::SyntaxNode;
use crate::ast::AstNode;
use crate::error::CursorError;
use crate::language::Language;
use crate::ptr::SyntaxNodePtr;
use rowan_green::TextRange;
use std::alloc::{AllocError, Global};
use std::marker::PhantomData;

/// A pointer to a typed node `N`. Cloning does not allocate.
#[derive(Drop)]
#[derive_where(Clone, PartialEq, Eq, Hash)]
pub struct AstPtr<N: AstNode> {
    pub raw: SyntaxNodePtr<N::Language>,
    pub node: PhantomData<N>,
}

impl<N: AstNode> AstPtr<N> {
    /// Returns a pointer to a typed node: its kind and range.
    pub fn new(node: &N) -> AstPtr<N>
        ensures kind { result.raw.kind ≡ N.Language.from_raw (kind_at (N.place node.now)) }
        ensures start { result.raw.range.start.0 ≡ start_of (N.place node.now) }
        ensures end { result.raw.range.end.0 ≡ end_of (N.place node.now) }
    {
        AstPtr {
            raw: SyntaxNodePtr::new(node.syntax()),
            node: PhantomData,
        }
    }

    /// Returns the kind of the node from which the pointer was created.
    pub fn kind(&self) -> <N::Language as Language>::Kind
        ensures { result ≡ self.now.raw.kind }
    {
        self.raw.kind
    }

    /// Returns the range of the node from which the pointer was created, in the text of its tree.
    pub fn text_range(&self) -> TextRange
        ensures { result ≡ self.now.raw.range }
    {
        self.raw.range
    }

    /// Returns the first node in preorder with the kind and range of the pointer in the tree of
    /// `root`, as an `N`.
    ///
    /// # Errors
    ///
    /// - [`CursorError::NotFound`] if there is no such node, if it cannot be cast, or if `root` is
    ///   not a root.
    /// - [`CursorError::NoMemory`] if an allocation fails or a reference count overflows.
    pub fn to_node(&self, alloc: Global, root: &SyntaxNode<N::Language>) -> Result<N, CursorError>
    where
        N: Drop,
        ensures { FindsOrRefuses N.place
            (taken (can N.Language.from_raw N.casts)
            (pointed_at N.Language.Kind.eq N.Language.from_raw self.now.raw.kind
            self.now.raw.range.start.0 self.now.raw.range.end.0 root.now))
            result }
    {
        self.try_to_node(alloc, root)?.ok_or(CursorError::NotFound)
    }

    /// Returns the node as [`AstPtr::to_node`] does, but `None` instead of `NotFound`.
    ///
    /// # Errors
    ///
    /// [`AllocError`] if an allocation fails or a reference count overflows.
    pub fn try_to_node(
        &self,
        alloc: Global,
        root: &SyntaxNode<N::Language>,
    ) -> Result<Option<N>, AllocError>
        ensures { IfOk result (λ r. option_map N.place r
            ≡ taken (can N.Language.from_raw N.casts)
            (pointed_at N.Language.Kind.eq N.Language.from_raw self.now.raw.kind
            self.now.raw.range.start.0 self.now.raw.range.end.0 root.now)) }
    {
        match self.raw.try_to_node(alloc, root)? {
            Some(node) => Ok(N::cast(node)),
            None => Ok(None),
        }
    }

    /// Returns the untyped pointer: the kind and the range.
    pub fn syntax_node_ptr(&self) -> SyntaxNodePtr<N::Language>
        ensures { result ≡ self.now.raw }
    {
        SyntaxNodePtr {
            kind: self.raw.kind,
            range: self.raw.range,
        }
    }

    /// Returns the pointer as a pointer to a `U`; `None` if its kind cannot be cast to `U`.
    pub fn cast<U: AstNode<Language = N::Language>>(self) -> Option<AstPtr<U>>
        ensures casts { IsSome result ↔ (U.casts self.raw.kind ≡ true) }
        ensures same { IfSome result (λ p. p.raw ≡ self.raw) }
    {
        let SyntaxNodePtr { kind, range } = self.raw;
        if U::can_cast(kind) {
            return Some(AstPtr {
                raw: SyntaxNodePtr { kind, range },
                node: PhantomData,
            });
        }
        None
    }
}

impl<L: Language> SyntaxNodePtr<L> {
    /// Returns the pointer as a pointer to an `N`; `None` if its kind cannot be cast to `N`.
    pub fn cast<N: AstNode<Language = L>>(self) -> Option<AstPtr<N>>
        ensures casts { IsSome result ↔ (N.casts self.kind ≡ true) }
        ensures same { IfSome result (λ p. p.raw ≡ self) }
    {
        let SyntaxNodePtr { kind, range } = self;
        if N::can_cast(kind) {
            return Some(AstPtr {
                raw: SyntaxNodePtr { kind, range },
                node: PhantomData,
            });
        }
        None
    }
}
