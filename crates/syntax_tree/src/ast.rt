//! Typed nodes: the trait of the wrappers of single node kinds.
ghost use Rattle.std.specs.Prelude.{◌≡◌, ◌↔◌, Bool, true, IsSome, IfSome};
ghost use Rattle.rowan.specs.Place.{kind_at};
ghost use Rattle.parser_input.specs.declared.syntax_kind.SyntaxKind.{SyntaxKind};
ghost use Rattle.syntax_tree.specs.Element.{Element};
ghost use Rattle.syntax_tree.specs.Language.{kind_of_raw};

use crate::handle::SyntaxNode;
use parser_input::SyntaxKind;

/// A typed node: a node of a numbered tree whose kind can be cast to this type.
pub trait AstNode: Sized {
    /// Model: whether a node of this kind can be cast.
    ghost casts: { SyntaxKind → Bool };

    /// Model: the node.
    ghost stands: { Self → Element };

    /// Returns `true` if a node of kind `kind` can be cast to this type.
    fn can_cast(kind: SyntaxKind) -> bool
        ensures { result ≡ casts kind };

    /// Casts `node` to this type, or returns `None` if its kind cannot be cast.
    fn cast(node: SyntaxNode) -> Option<Self>
        ensures cast_when { IsSome result ↔ (casts (kind_of_raw (kind_at node.place)) ≡ true) }
        ensures gives { IfSome result (λ x. stands x ≡ node) };

    /// Returns the untyped node.
    fn syntax(&self) -> &SyntaxNode
        ensures back { result.now ≡ stands self.now }
        ensures own_kind { casts (kind_of_raw (kind_at (stands self.now).place)) ≡ true };
}
