//! Nodes of six kinds, each of a type of its own. Two are equal if they are one node of one tree. A
//! clone does not allocate.
ghost use Rattle.std.specs.Prelude.{◌≡◌, ◌↔◌, ◌==◌, true, IsSome, IfSome};
ghost use Rattle.parser_input.specs.Kind.{raw_of};
ghost use Rattle.parser_input.specs.declared.syntax_kind.SyntaxKind.TheVariants.{ENUM, IMPL, LET_STMT, CALL_EXPR, METHOD_CALL_EXPR, ATTR};
ghost use Rattle.rowan.specs.Place.{kind_at};
ghost use Rattle.syntax_tree.specs.Language.{kind_of_raw};

use parser_input::SyntaxKind;
use std::alloc::AllocError;
use syntax_editor::HasAttrs;
use syntax_tree::{AstNode, SyntaxNode};

/// Returns `true` if both kinds are the same.
fn is(kind: SyntaxKind, wanted: SyntaxKind) -> bool
    ensures { result ≡ (raw_of kind == raw_of wanted) }
{
    kind.to_raw() == wanted.to_raw()
}

/// An `enum`.
#[derive(PartialEq, Eq, Hash, Drop)]
pub struct Enum {
    syntax: SyntaxNode,
    ghost own: { (raw_of (kind_of_raw (kind_at syntax.place)) == raw_of ENUM) ≡ true },
}

impl Clone for Enum {
    ghost is_clone = { λ node copy. copy.syntax ≡ node.syntax };

    fn clone(&self) -> Result<Enum, AllocError> {
        let syntax = self.syntax.clone()?;
        Ok(Enum { syntax })
    }
}

impl AstNode for Enum {
    ghost use Rattle.std.specs.Prelude.{◌≡◌, ◌↔◌, ◌==◌, true, IsSome, IfSome};
    ghost use Rattle.parser_input.specs.Kind.{raw_of};
    ghost use Rattle.parser_input.specs.declared.syntax_kind.SyntaxKind.TheVariants.{ENUM};
    ghost use Rattle.rowan.specs.Place.{kind_at};
    ghost use Rattle.syntax_tree.specs.Language.{kind_of_raw};

    ghost casts = { λ k. raw_of k == raw_of ENUM };

    ghost stands = { λ n. n.syntax };

    fn can_cast(kind: SyntaxKind) -> bool {
        is(kind, SyntaxKind::ENUM)
    }

    fn cast(node: SyntaxNode) -> Option<Enum>
        ensures cast_when { IsSome result
            ↔ ((raw_of (kind_of_raw (kind_at node.place)) == raw_of ENUM) ≡ true) }
        ensures gives { IfSome result (λ x. x.syntax ≡ node) }
    {
        if Enum::can_cast(node.kind()) {
            return Some(Enum { syntax: node });
        }
        None
    }

    fn syntax(&self) -> &SyntaxNode {
        &self.syntax
    }
}

/// An `impl`.
#[derive(PartialEq, Eq, Hash, Drop)]
pub struct Impl {
    syntax: SyntaxNode,
    ghost own: { (raw_of (kind_of_raw (kind_at syntax.place)) == raw_of IMPL) ≡ true },
}

impl Clone for Impl {
    ghost is_clone = { λ node copy. copy.syntax ≡ node.syntax };

    fn clone(&self) -> Result<Impl, AllocError> {
        let syntax = self.syntax.clone()?;
        Ok(Impl { syntax })
    }
}

impl AstNode for Impl {
    ghost use Rattle.std.specs.Prelude.{◌≡◌, ◌↔◌, ◌==◌, true, IsSome, IfSome};
    ghost use Rattle.parser_input.specs.Kind.{raw_of};
    ghost use Rattle.parser_input.specs.declared.syntax_kind.SyntaxKind.TheVariants.{IMPL};
    ghost use Rattle.rowan.specs.Place.{kind_at};
    ghost use Rattle.syntax_tree.specs.Language.{kind_of_raw};

    ghost casts = { λ k. raw_of k == raw_of IMPL };

    ghost stands = { λ n. n.syntax };

    fn can_cast(kind: SyntaxKind) -> bool {
        is(kind, SyntaxKind::IMPL)
    }

    fn cast(node: SyntaxNode) -> Option<Impl>
        ensures cast_when { IsSome result
            ↔ ((raw_of (kind_of_raw (kind_at node.place)) == raw_of IMPL) ≡ true) }
        ensures gives { IfSome result (λ x. x.syntax ≡ node) }
    {
        if Impl::can_cast(node.kind()) {
            return Some(Impl { syntax: node });
        }
        None
    }

    fn syntax(&self) -> &SyntaxNode {
        &self.syntax
    }
}

/// A `let` statement.
#[derive(PartialEq, Eq, Hash, Drop)]
pub struct Let {
    syntax: SyntaxNode,
    ghost own: { (raw_of (kind_of_raw (kind_at syntax.place)) == raw_of LET_STMT) ≡ true },
}

impl Clone for Let {
    ghost is_clone = { λ node copy. copy.syntax ≡ node.syntax };

    fn clone(&self) -> Result<Let, AllocError> {
        let syntax = self.syntax.clone()?;
        Ok(Let { syntax })
    }
}

impl AstNode for Let {
    ghost use Rattle.std.specs.Prelude.{◌≡◌, ◌↔◌, ◌==◌, true, IsSome, IfSome};
    ghost use Rattle.parser_input.specs.Kind.{raw_of};
    ghost use Rattle.parser_input.specs.declared.syntax_kind.SyntaxKind.TheVariants.{LET_STMT};
    ghost use Rattle.rowan.specs.Place.{kind_at};
    ghost use Rattle.syntax_tree.specs.Language.{kind_of_raw};

    ghost casts = { λ k. raw_of k == raw_of LET_STMT };

    ghost stands = { λ n. n.syntax };

    fn can_cast(kind: SyntaxKind) -> bool {
        is(kind, SyntaxKind::LET_STMT)
    }

    fn cast(node: SyntaxNode) -> Option<Let>
        ensures cast_when { IsSome result
            ↔ ((raw_of (kind_of_raw (kind_at node.place)) == raw_of LET_STMT) ≡ true) }
        ensures gives { IfSome result (λ x. x.syntax ≡ node) }
    {
        if Let::can_cast(node.kind()) {
            return Some(Let { syntax: node });
        }
        None
    }

    fn syntax(&self) -> &SyntaxNode {
        &self.syntax
    }
}

/// A call of a function.
#[derive(PartialEq, Eq, Hash, Drop)]
pub struct Call {
    syntax: SyntaxNode,
    ghost own: { (raw_of (kind_of_raw (kind_at syntax.place)) == raw_of CALL_EXPR) ≡ true },
}

impl Clone for Call {
    ghost is_clone = { λ node copy. copy.syntax ≡ node.syntax };

    fn clone(&self) -> Result<Call, AllocError> {
        let syntax = self.syntax.clone()?;
        Ok(Call { syntax })
    }
}

impl AstNode for Call {
    ghost use Rattle.std.specs.Prelude.{◌≡◌, ◌↔◌, ◌==◌, true, IsSome, IfSome};
    ghost use Rattle.parser_input.specs.Kind.{raw_of};
    ghost use Rattle.parser_input.specs.declared.syntax_kind.SyntaxKind.TheVariants.{CALL_EXPR};
    ghost use Rattle.rowan.specs.Place.{kind_at};
    ghost use Rattle.syntax_tree.specs.Language.{kind_of_raw};

    ghost casts = { λ k. raw_of k == raw_of CALL_EXPR };

    ghost stands = { λ n. n.syntax };

    fn can_cast(kind: SyntaxKind) -> bool {
        is(kind, SyntaxKind::CALL_EXPR)
    }

    fn cast(node: SyntaxNode) -> Option<Call>
        ensures cast_when { IsSome result
            ↔ ((raw_of (kind_of_raw (kind_at node.place)) == raw_of CALL_EXPR) ≡ true) }
        ensures gives { IfSome result (λ x. x.syntax ≡ node) }
    {
        if Call::can_cast(node.kind()) {
            return Some(Call { syntax: node });
        }
        None
    }

    fn syntax(&self) -> &SyntaxNode {
        &self.syntax
    }
}

/// A call of a method.
#[derive(PartialEq, Eq, Hash, Drop)]
pub struct MethodCall {
    syntax: SyntaxNode,
    ghost own: { (raw_of (kind_of_raw (kind_at syntax.place)) == raw_of METHOD_CALL_EXPR) ≡ true },
}

impl Clone for MethodCall {
    ghost is_clone = { λ node copy. copy.syntax ≡ node.syntax };

    fn clone(&self) -> Result<MethodCall, AllocError> {
        let syntax = self.syntax.clone()?;
        Ok(MethodCall { syntax })
    }
}

impl AstNode for MethodCall {
    ghost use Rattle.std.specs.Prelude.{◌≡◌, ◌↔◌, ◌==◌, true, IsSome, IfSome};
    ghost use Rattle.parser_input.specs.Kind.{raw_of};
    ghost use Rattle.parser_input.specs.declared.syntax_kind.SyntaxKind.TheVariants.{METHOD_CALL_EXPR};
    ghost use Rattle.rowan.specs.Place.{kind_at};
    ghost use Rattle.syntax_tree.specs.Language.{kind_of_raw};

    ghost casts = { λ k. raw_of k == raw_of METHOD_CALL_EXPR };

    ghost stands = { λ n. n.syntax };

    fn can_cast(kind: SyntaxKind) -> bool {
        is(kind, SyntaxKind::METHOD_CALL_EXPR)
    }

    fn cast(node: SyntaxNode) -> Option<MethodCall>
        ensures cast_when { IsSome result
            ↔ ((raw_of (kind_of_raw (kind_at node.place)) == raw_of METHOD_CALL_EXPR) ≡ true) }
        ensures gives { IfSome result (λ x. x.syntax ≡ node) }
    {
        if MethodCall::can_cast(node.kind()) {
            return Some(MethodCall { syntax: node });
        }
        None
    }

    fn syntax(&self) -> &SyntaxNode {
        &self.syntax
    }
}

/// An attribute.
#[derive(PartialEq, Eq, Hash, Drop)]
pub struct Attr {
    syntax: SyntaxNode,
    ghost own: { (raw_of (kind_of_raw (kind_at syntax.place)) == raw_of ATTR) ≡ true },
}

impl Clone for Attr {
    ghost is_clone = { λ node copy. copy.syntax ≡ node.syntax };

    fn clone(&self) -> Result<Attr, AllocError> {
        let syntax = self.syntax.clone()?;
        Ok(Attr { syntax })
    }
}

impl AstNode for Attr {
    ghost use Rattle.std.specs.Prelude.{◌≡◌, ◌↔◌, ◌==◌, true, IsSome, IfSome};
    ghost use Rattle.parser_input.specs.Kind.{raw_of};
    ghost use Rattle.parser_input.specs.declared.syntax_kind.SyntaxKind.TheVariants.{ATTR};
    ghost use Rattle.rowan.specs.Place.{kind_at};
    ghost use Rattle.syntax_tree.specs.Language.{kind_of_raw};

    ghost casts = { λ k. raw_of k == raw_of ATTR };

    ghost stands = { λ n. n.syntax };

    fn can_cast(kind: SyntaxKind) -> bool {
        is(kind, SyntaxKind::ATTR)
    }

    fn cast(node: SyntaxNode) -> Option<Attr>
        ensures cast_when { IsSome result
            ↔ ((raw_of (kind_of_raw (kind_at node.place)) == raw_of ATTR) ≡ true) }
        ensures gives { IfSome result (λ x. x.syntax ≡ node) }
    {
        if Attr::can_cast(node.kind()) {
            return Some(Attr { syntax: node });
        }
        None
    }

    fn syntax(&self) -> &SyntaxNode {
        &self.syntax
    }
}

impl HasAttrs for Enum {}

impl HasAttrs for Impl {}
