//! Parts that nodes of one kind have.
ghost use Rattle.std.specs.Prelude.{◌≡◌, IfOk};
ghost use Rattle.parser_input.specs.Kinds.{ASSOC_ITEM_LIST, BLOCK_EXPR, EQ, GENERIC_ARG_LIST, LET_ELSE, META, NAME_REF, PARAM_LIST, RECORD_FIELD_LIST, RET_TYPE, TUPLE_FIELD_LIST, USE_TREE, VARIANT_LIST};
ghost use Rattle.typed_nodes.specs.Parts.{first_child, first_child_of, node_after};

use crate::after::node_after;
use crate::nodes::{Attr, Call, Enum, Impl, Let, MethodCall};
use parser_input::SyntaxKind;
use std::alloc::{AllocError, Global};
use syntax_editor::{Fn, Struct, Use};
use syntax_tree::{AstNode, SyntaxNode};

/// The parts of a function.
pub trait FnParts: AstNode {
    /// Returns the parameters: the first child node of kind `PARAM_LIST`.
    fn param_list(&self, alloc: Global) -> Result<Option<SyntaxNode>, AllocError>
        ensures { IfOk result (λ n. n ≡ first_child_of PARAM_LIST (Self.stands self.now)) }
    {
        self.syntax().child(alloc, SyntaxKind::PARAM_LIST)
    }

    /// Returns the return type: the first child node of kind `RET_TYPE`.
    fn ret_type(&self, alloc: Global) -> Result<Option<SyntaxNode>, AllocError>
        ensures { IfOk result (λ n. n ≡ first_child_of RET_TYPE (Self.stands self.now)) }
    {
        self.syntax().child(alloc, SyntaxKind::RET_TYPE)
    }

    /// Returns the body: the first child node of kind `BLOCK_EXPR`.
    fn body(&self, alloc: Global) -> Result<Option<SyntaxNode>, AllocError>
        ensures { IfOk result (λ n. n ≡ first_child_of BLOCK_EXPR (Self.stands self.now)) }
    {
        self.syntax().child(alloc, SyntaxKind::BLOCK_EXPR)
    }
}

impl FnParts for Fn {}

/// The parts of a `struct`.
pub trait StructParts: AstNode {
    /// Returns the named fields: the first child node of kind `RECORD_FIELD_LIST`.
    fn record_field_list(&self, alloc: Global) -> Result<Option<SyntaxNode>, AllocError>
        ensures { IfOk result (λ n. n ≡ first_child_of RECORD_FIELD_LIST (Self.stands self.now)) }
    {
        self.syntax().child(alloc, SyntaxKind::RECORD_FIELD_LIST)
    }

    /// Returns the unnamed fields: the first child node of kind `TUPLE_FIELD_LIST`.
    fn tuple_field_list(&self, alloc: Global) -> Result<Option<SyntaxNode>, AllocError>
        ensures { IfOk result (λ n. n ≡ first_child_of TUPLE_FIELD_LIST (Self.stands self.now)) }
    {
        self.syntax().child(alloc, SyntaxKind::TUPLE_FIELD_LIST)
    }
}

impl StructParts for Struct {}

/// The part of a `use`.
pub trait UseParts: AstNode {
    /// Returns the use tree: the first child node of kind `USE_TREE`.
    fn use_tree(&self, alloc: Global) -> Result<Option<SyntaxNode>, AllocError>
        ensures { IfOk result (λ n. n ≡ first_child_of USE_TREE (Self.stands self.now)) }
    {
        self.syntax().child(alloc, SyntaxKind::USE_TREE)
    }
}

impl UseParts for Use {}

/// The part of an `enum`.
pub trait EnumParts: AstNode {
    /// Returns the variants: the first child node of kind `VARIANT_LIST`.
    fn variant_list(&self, alloc: Global) -> Result<Option<SyntaxNode>, AllocError>
        ensures { IfOk result (λ n. n ≡ first_child_of VARIANT_LIST (Self.stands self.now)) }
    {
        self.syntax().child(alloc, SyntaxKind::VARIANT_LIST)
    }
}

impl EnumParts for Enum {}

/// The part of an `impl`.
pub trait ImplParts: AstNode {
    /// Returns the associated items: the first child node of kind `ASSOC_ITEM_LIST`.
    fn assoc_item_list(&self, alloc: Global) -> Result<Option<SyntaxNode>, AllocError>
        ensures { IfOk result (λ n. n ≡ first_child_of ASSOC_ITEM_LIST (Self.stands self.now)) }
    {
        self.syntax().child(alloc, SyntaxKind::ASSOC_ITEM_LIST)
    }
}

impl ImplParts for Impl {}

/// The parts of a `let` statement.
pub trait LetParts: AstNode {
    /// Returns the pattern: the first child node.
    fn pattern(&self, alloc: Global) -> Result<Option<SyntaxNode>, AllocError>
        ensures { IfOk result (λ n. n ≡ first_child (Self.stands self.now)) }
    {
        self.syntax().first_child(alloc)
    }

    /// Returns the initializer: the first child node after the `=`.
    fn initializer(&self, alloc: Global) -> Result<Option<SyntaxNode>, AllocError>
        ensures { IfOk result (λ n. n ≡ node_after EQ (Self.stands self.now)) }
    {
        node_after(alloc, self.syntax(), SyntaxKind::EQ)
    }

    /// Returns the else branch: the first child node of kind `LET_ELSE`.
    fn let_else(&self, alloc: Global) -> Result<Option<SyntaxNode>, AllocError>
        ensures { IfOk result (λ n. n ≡ first_child_of LET_ELSE (Self.stands self.now)) }
    {
        self.syntax().child(alloc, SyntaxKind::LET_ELSE)
    }
}

impl LetParts for Let {}

/// The part of a call.
pub trait CallParts: AstNode {
    /// Returns the expression that is called: the first child node.
    fn callee(&self, alloc: Global) -> Result<Option<SyntaxNode>, AllocError>
        ensures { IfOk result (λ n. n ≡ first_child (Self.stands self.now)) }
    {
        self.syntax().first_child(alloc)
    }
}

impl CallParts for Call {}

/// The parts of a call of a method.
pub trait MethodCallParts: AstNode {
    /// Returns the receiver: the first child node.
    fn receiver(&self, alloc: Global) -> Result<Option<SyntaxNode>, AllocError>
        ensures { IfOk result (λ n. n ≡ first_child (Self.stands self.now)) }
    {
        self.syntax().first_child(alloc)
    }

    /// Returns the name of the method: the first child node of kind `NAME_REF`.
    fn name_ref(&self, alloc: Global) -> Result<Option<SyntaxNode>, AllocError>
        ensures { IfOk result (λ n. n ≡ first_child_of NAME_REF (Self.stands self.now)) }
    {
        self.syntax().child(alloc, SyntaxKind::NAME_REF)
    }

    /// Returns the generic arguments: the first child node of kind `GENERIC_ARG_LIST`.
    fn generic_arg_list(&self, alloc: Global) -> Result<Option<SyntaxNode>, AllocError>
        ensures { IfOk result (λ n. n ≡ first_child_of GENERIC_ARG_LIST (Self.stands self.now)) }
    {
        self.syntax().child(alloc, SyntaxKind::GENERIC_ARG_LIST)
    }
}

impl MethodCallParts for MethodCall {}

/// The part of an attribute.
pub trait AttrParts: AstNode {
    /// Returns the path of the attribute, with its input: the first child node of kind `META`.
    fn meta(&self, alloc: Global) -> Result<Option<SyntaxNode>, AllocError>
        ensures { IfOk result (λ n. n ≡ first_child_of META (Self.stands self.now)) }
    {
        self.syntax().child(alloc, SyntaxKind::META)
    }
}

impl AttrParts for Attr {}
