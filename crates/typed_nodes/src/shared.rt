//! Parts that nodes of several kinds have.
ghost use Rattle.std.specs.Prelude.{◌≡◌, IfOk};
ghost use Rattle.parser_input.specs.Kinds.{ARG_LIST, GENERIC_PARAM_LIST, NAME, VISIBILITY, WHERE_CLAUSE, ATTR};
ghost use Rattle.typed_nodes.specs.Parts.{first_child_of};
ghost use Rattle.syntax_tree.specs.Nodes.{child_nodes};

use crate::nodes::{Call, Enum, Impl, MethodCall};
use parser_input::SyntaxKind;
use std::alloc::{AllocError, Global};
use syntax_editor::{Fn, HasAttrs, ItemList, SourceFile, StmtList, Struct, Use};
use syntax_tree::{AstNode, ChildrenOfKind, SyntaxNode, SyntaxNodeChildren};

/// Nodes that may have a visibility.
pub trait HasVisibility: AstNode {
    /// Returns the visibility: the first child node of kind `VISIBILITY`.
    fn visibility(&self, alloc: Global) -> Result<Option<SyntaxNode>, AllocError>
        ensures { IfOk result (λ n. n ≡ first_child_of VISIBILITY (Self.stands self.now)) }
    {
        self.syntax().child(alloc, SyntaxKind::VISIBILITY)
    }
}

impl HasVisibility for Fn {}

impl HasVisibility for Struct {}

impl HasVisibility for Use {}

impl HasVisibility for Enum {}

/// Nodes that have a name.
pub trait HasName: AstNode {
    /// Returns the name: the first child node of kind `NAME`.
    fn name(&self, alloc: Global) -> Result<Option<SyntaxNode>, AllocError>
        ensures { IfOk result (λ n. n ≡ first_child_of NAME (Self.stands self.now)) }
    {
        self.syntax().child(alloc, SyntaxKind::NAME)
    }
}

impl HasName for Fn {}

impl HasName for Struct {}

impl HasName for Enum {}

/// Nodes that may have generic parameters.
pub trait HasGenericParams: AstNode {
    /// Returns the generic parameters: the first child node of kind `GENERIC_PARAM_LIST`.
    fn generic_param_list(&self, alloc: Global) -> Result<Option<SyntaxNode>, AllocError>
        ensures { IfOk result (λ n. n ≡ first_child_of GENERIC_PARAM_LIST (Self.stands self.now)) }
    {
        self.syntax().child(alloc, SyntaxKind::GENERIC_PARAM_LIST)
    }

    /// Returns the where clause: the first child node of kind `WHERE_CLAUSE`.
    fn where_clause(&self, alloc: Global) -> Result<Option<SyntaxNode>, AllocError>
        ensures { IfOk result (λ n. n ≡ first_child_of WHERE_CLAUSE (Self.stands self.now)) }
    {
        self.syntax().child(alloc, SyntaxKind::WHERE_CLAUSE)
    }
}

impl HasGenericParams for Fn {}

impl HasGenericParams for Struct {}

impl HasGenericParams for Enum {}

impl HasGenericParams for Impl {}

/// Nodes that have arguments.
pub trait HasArgList: AstNode {
    /// Returns the arguments: the first child node of kind `ARG_LIST`.
    fn arg_list(&self, alloc: Global) -> Result<Option<SyntaxNode>, AllocError>
        ensures { IfOk result (λ n. n ≡ first_child_of ARG_LIST (Self.stands self.now)) }
    {
        self.syntax().child(alloc, SyntaxKind::ARG_LIST)
    }
}

impl HasArgList for Call {}

impl HasArgList for MethodCall {}

/// Nodes that may have attributes.
pub trait HasAttributes: HasAttrs {
    /// Returns the attributes in order: each child node of kind `ATTR`.
    fn attributes(&self, alloc: Global) -> Result<ChildrenOfKind, AllocError>
        ensures { IfOk result (λ c. c
            ≡ record { kind = ATTR; nodes = child_nodes (Self.stands self.now) }) }
    {
        self.syntax().children_of(alloc, SyntaxKind::ATTR)
    }
}

impl<N: HasAttrs> HasAttributes for N {}

/// Lists of items or statements.
pub trait HasElements: AstNode {
    /// Returns the elements in order: each child node.
    fn elements(&self, alloc: Global) -> Result<SyntaxNodeChildren, AllocError>
        ensures { IfOk result (λ c. c ≡ child_nodes (Self.stands self.now)) }
    {
        self.syntax().children(alloc)
    }
}

impl HasElements for SourceFile {}

impl HasElements for ItemList {}

impl HasElements for StmtList {}
