//! Typed nodes of six kinds. Two are equal if they are one node of one tree. Cloning does not
//! allocate.
ghost use Rattle.std.specs.Prelude.{◌≡◌, ◌↔◌, ◌==◌, true, IsSome, IfSome};
ghost use Rattle.parser_input.specs.Kind.{raw_of};
ghost use Rattle.parser_input.specs.declared.syntax_kind.SyntaxKind.TheVariants.{SOURCE_FILE, STRUCT, FN, USE, ITEM_LIST, STMT_LIST};
ghost use Rattle.rowan.specs.Place.{kind_at};
ghost use Rattle.syntax_tree.specs.Language.{kind_of_raw};

use crate::whitespace::is;
use parser_input::SyntaxKind;
use std::alloc::AllocError;
use syntax_tree::{AstNode, SyntaxNode};

/// A typed node that may have attributes and documentation.
pub trait HasAttrs: AstNode {}

/// A whole file.
#[derive(PartialEq, Eq, Hash, Drop)]
pub struct SourceFile {
    syntax: SyntaxNode,
    ghost own: { (raw_of (kind_of_raw (kind_at syntax.place)) == raw_of SOURCE_FILE) ≡ true },
}

impl Clone for SourceFile {
    ghost is_clone = { λ node copy. copy.syntax ≡ node.syntax };

    /// # Errors
    ///
    /// Returns an error only if the reference count overflows.
    fn clone(&self) -> Result<SourceFile, AllocError> {
        let syntax = self.syntax.clone()?;
        Ok(SourceFile { syntax })
    }
}

impl AstNode for SourceFile {
    ghost use Rattle.std.specs.Prelude.{◌≡◌, ◌↔◌, ◌==◌, true, IsSome, IfSome};
    ghost use Rattle.parser_input.specs.Kind.{raw_of};
    ghost use Rattle.parser_input.specs.declared.syntax_kind.SyntaxKind.TheVariants.{SOURCE_FILE};
    ghost use Rattle.rowan.specs.Place.{kind_at};
    ghost use Rattle.syntax_tree.specs.Language.{kind_of_raw};

    ghost casts = { λ k. raw_of k == raw_of SOURCE_FILE };

    ghost stands = { λ n. n.syntax };

    fn can_cast(kind: SyntaxKind) -> bool {
        is(kind.to_raw(), SyntaxKind::SOURCE_FILE)
    }

    fn cast(node: SyntaxNode) -> Option<SourceFile>
        ensures cast_when { IsSome result
            ↔ ((raw_of (kind_of_raw (kind_at node.place)) == raw_of SOURCE_FILE) ≡ true) }
        ensures gives { IfSome result (λ x. x.syntax ≡ node) }
    {
        if is(node.kind().to_raw(), SyntaxKind::SOURCE_FILE) {
            return Some(SourceFile { syntax: node });
        }
        None
    }

    fn syntax(&self) -> &SyntaxNode {
        &self.syntax
    }
}

/// A `struct`.
#[derive(PartialEq, Eq, Hash, Drop)]
pub struct Struct {
    syntax: SyntaxNode,
    ghost own: { (raw_of (kind_of_raw (kind_at syntax.place)) == raw_of STRUCT) ≡ true },
}

impl Clone for Struct {
    ghost is_clone = { λ node copy. copy.syntax ≡ node.syntax };

    /// # Errors
    ///
    /// Returns an error only if the reference count overflows.
    fn clone(&self) -> Result<Struct, AllocError> {
        let syntax = self.syntax.clone()?;
        Ok(Struct { syntax })
    }
}

impl AstNode for Struct {
    ghost use Rattle.std.specs.Prelude.{◌≡◌, ◌↔◌, ◌==◌, true, IsSome, IfSome};
    ghost use Rattle.parser_input.specs.Kind.{raw_of};
    ghost use Rattle.parser_input.specs.declared.syntax_kind.SyntaxKind.TheVariants.{STRUCT};
    ghost use Rattle.rowan.specs.Place.{kind_at};
    ghost use Rattle.syntax_tree.specs.Language.{kind_of_raw};

    ghost casts = { λ k. raw_of k == raw_of STRUCT };

    ghost stands = { λ n. n.syntax };

    fn can_cast(kind: SyntaxKind) -> bool {
        is(kind.to_raw(), SyntaxKind::STRUCT)
    }

    fn cast(node: SyntaxNode) -> Option<Struct>
        ensures cast_when { IsSome result
            ↔ ((raw_of (kind_of_raw (kind_at node.place)) == raw_of STRUCT) ≡ true) }
        ensures gives { IfSome result (λ x. x.syntax ≡ node) }
    {
        if is(node.kind().to_raw(), SyntaxKind::STRUCT) {
            return Some(Struct { syntax: node });
        }
        None
    }

    fn syntax(&self) -> &SyntaxNode {
        &self.syntax
    }
}

/// A function.
#[derive(PartialEq, Eq, Hash, Drop)]
pub struct Fn {
    syntax: SyntaxNode,
    ghost own: { (raw_of (kind_of_raw (kind_at syntax.place)) == raw_of FN) ≡ true },
}

impl Clone for Fn {
    ghost is_clone = { λ node copy. copy.syntax ≡ node.syntax };

    /// # Errors
    ///
    /// Returns an error only if the reference count overflows.
    fn clone(&self) -> Result<Fn, AllocError> {
        let syntax = self.syntax.clone()?;
        Ok(Fn { syntax })
    }
}

impl AstNode for Fn {
    ghost use Rattle.std.specs.Prelude.{◌≡◌, ◌↔◌, ◌==◌, true, IsSome, IfSome};
    ghost use Rattle.parser_input.specs.Kind.{raw_of};
    ghost use Rattle.parser_input.specs.declared.syntax_kind.SyntaxKind.TheVariants.{FN};
    ghost use Rattle.rowan.specs.Place.{kind_at};
    ghost use Rattle.syntax_tree.specs.Language.{kind_of_raw};

    ghost casts = { λ k. raw_of k == raw_of FN };

    ghost stands = { λ n. n.syntax };

    fn can_cast(kind: SyntaxKind) -> bool {
        is(kind.to_raw(), SyntaxKind::FN)
    }

    fn cast(node: SyntaxNode) -> Option<Fn>
        ensures cast_when { IsSome result
            ↔ ((raw_of (kind_of_raw (kind_at node.place)) == raw_of FN) ≡ true) }
        ensures gives { IfSome result (λ x. x.syntax ≡ node) }
    {
        if is(node.kind().to_raw(), SyntaxKind::FN) {
            return Some(Fn { syntax: node });
        }
        None
    }

    fn syntax(&self) -> &SyntaxNode {
        &self.syntax
    }
}

/// A `use`.
#[derive(PartialEq, Eq, Hash, Drop)]
pub struct Use {
    syntax: SyntaxNode,
    ghost own: { (raw_of (kind_of_raw (kind_at syntax.place)) == raw_of USE) ≡ true },
}

impl Clone for Use {
    ghost is_clone = { λ node copy. copy.syntax ≡ node.syntax };

    /// # Errors
    ///
    /// Returns an error only if the reference count overflows.
    fn clone(&self) -> Result<Use, AllocError> {
        let syntax = self.syntax.clone()?;
        Ok(Use { syntax })
    }
}

impl AstNode for Use {
    ghost use Rattle.std.specs.Prelude.{◌≡◌, ◌↔◌, ◌==◌, true, IsSome, IfSome};
    ghost use Rattle.parser_input.specs.Kind.{raw_of};
    ghost use Rattle.parser_input.specs.declared.syntax_kind.SyntaxKind.TheVariants.{USE};
    ghost use Rattle.rowan.specs.Place.{kind_at};
    ghost use Rattle.syntax_tree.specs.Language.{kind_of_raw};

    ghost casts = { λ k. raw_of k == raw_of USE };

    ghost stands = { λ n. n.syntax };

    fn can_cast(kind: SyntaxKind) -> bool {
        is(kind.to_raw(), SyntaxKind::USE)
    }

    fn cast(node: SyntaxNode) -> Option<Use>
        ensures cast_when { IsSome result
            ↔ ((raw_of (kind_of_raw (kind_at node.place)) == raw_of USE) ≡ true) }
        ensures gives { IfSome result (λ x. x.syntax ≡ node) }
    {
        if is(node.kind().to_raw(), SyntaxKind::USE) {
            return Some(Use { syntax: node });
        }
        None
    }

    fn syntax(&self) -> &SyntaxNode {
        &self.syntax
    }
}

/// The items of a module, in their braces.
#[derive(PartialEq, Eq, Hash, Drop)]
pub struct ItemList {
    syntax: SyntaxNode,
    ghost own: { (raw_of (kind_of_raw (kind_at syntax.place)) == raw_of ITEM_LIST) ≡ true },
}

impl Clone for ItemList {
    ghost is_clone = { λ node copy. copy.syntax ≡ node.syntax };

    /// # Errors
    ///
    /// Returns an error only if the reference count overflows.
    fn clone(&self) -> Result<ItemList, AllocError> {
        let syntax = self.syntax.clone()?;
        Ok(ItemList { syntax })
    }
}

impl AstNode for ItemList {
    ghost use Rattle.std.specs.Prelude.{◌≡◌, ◌↔◌, ◌==◌, true, IsSome, IfSome};
    ghost use Rattle.parser_input.specs.Kind.{raw_of};
    ghost use Rattle.parser_input.specs.declared.syntax_kind.SyntaxKind.TheVariants.{ITEM_LIST};
    ghost use Rattle.rowan.specs.Place.{kind_at};
    ghost use Rattle.syntax_tree.specs.Language.{kind_of_raw};

    ghost casts = { λ k. raw_of k == raw_of ITEM_LIST };

    ghost stands = { λ n. n.syntax };

    fn can_cast(kind: SyntaxKind) -> bool {
        is(kind.to_raw(), SyntaxKind::ITEM_LIST)
    }

    fn cast(node: SyntaxNode) -> Option<ItemList>
        ensures cast_when { IsSome result
            ↔ ((raw_of (kind_of_raw (kind_at node.place)) == raw_of ITEM_LIST) ≡ true) }
        ensures gives { IfSome result (λ x. x.syntax ≡ node) }
    {
        if is(node.kind().to_raw(), SyntaxKind::ITEM_LIST) {
            return Some(ItemList { syntax: node });
        }
        None
    }

    fn syntax(&self) -> &SyntaxNode {
        &self.syntax
    }
}

/// The statements of a block, in their braces.
#[derive(PartialEq, Eq, Hash, Drop)]
pub struct StmtList {
    syntax: SyntaxNode,
    ghost own: { (raw_of (kind_of_raw (kind_at syntax.place)) == raw_of STMT_LIST) ≡ true },
}

impl Clone for StmtList {
    ghost is_clone = { λ node copy. copy.syntax ≡ node.syntax };

    /// # Errors
    ///
    /// Returns an error only if the reference count overflows.
    fn clone(&self) -> Result<StmtList, AllocError> {
        let syntax = self.syntax.clone()?;
        Ok(StmtList { syntax })
    }
}

impl AstNode for StmtList {
    ghost use Rattle.std.specs.Prelude.{◌≡◌, ◌↔◌, ◌==◌, true, IsSome, IfSome};
    ghost use Rattle.parser_input.specs.Kind.{raw_of};
    ghost use Rattle.parser_input.specs.declared.syntax_kind.SyntaxKind.TheVariants.{STMT_LIST};
    ghost use Rattle.rowan.specs.Place.{kind_at};
    ghost use Rattle.syntax_tree.specs.Language.{kind_of_raw};

    ghost casts = { λ k. raw_of k == raw_of STMT_LIST };

    ghost stands = { λ n. n.syntax };

    fn can_cast(kind: SyntaxKind) -> bool {
        is(kind.to_raw(), SyntaxKind::STMT_LIST)
    }

    fn cast(node: SyntaxNode) -> Option<StmtList>
        ensures cast_when { IsSome result
            ↔ ((raw_of (kind_of_raw (kind_at node.place)) == raw_of STMT_LIST) ≡ true) }
        ensures gives { IfSome result (λ x. x.syntax ≡ node) }
    {
        if is(node.kind().to_raw(), SyntaxKind::STMT_LIST) {
            return Some(StmtList { syntax: node });
        }
        None
    }

    fn syntax(&self) -> &SyntaxNode {
        &self.syntax
    }
}

impl HasAttrs for Struct {}

impl HasAttrs for Fn {}

impl HasAttrs for Use {}
