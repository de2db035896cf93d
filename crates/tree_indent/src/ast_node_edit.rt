//! Indents and dedents typed nodes.
ghost use Rattle.std.specs.Prelude.{◌≡◌, ◌+◌, ◌++◌, IfOk, IfErr, OnOk};
ghost use Rattle.tree_indent.specs.Indented.{IsShifted, FitsShifted, RefusesShifted, own_level};
ghost use Rattle.tree_indent.specs.Mapped.{pairs_below, IsAfter, RefusesMapped};
ghost use Rattle.tree_indent.specs.declared.shift.Shift.TheVariants.{In, Out};

use crate::error::IndentError;
use crate::{edit, mapped};
use std::alloc::{AllocError, Global};
use syntax_editor::{IndentLevel, MakeError};
use syntax_tree::{AstNode, SyntaxMapping, TreeIds};

/// Typed-node variants of the functions of [`edit`] and [`mapped`]. Each call returns the root of a
/// new tree, as a node of the same type.
pub trait AstNodeEdit: AstNode {
    /// Returns the indent level of the node: that of its first token.
    fn indent_level(&self, alloc: Global) -> Result<IndentLevel, AllocError>
        ensures { IfOk result (λ level. level ≡ own_level (Self.stands self.now)) }
    {
        IndentLevel::from_node(alloc, self.syntax())
    }

    /// Typed-node variant of [`edit::indent`].
    fn indent(
        &self,
        alloc: Global,
        level: IndentLevel,
        ids: &mut TreeIds,
    ) -> Result<Self, MakeError>
        ensures ok { IfOk result
            (λ x. IsShifted (In level) (Self.stands self.now) ids.old (Self.stands x)) }
        ensures fits { OnOk result (FitsShifted (In level) (Self.stands self.now)) }
        ensures number { OnOk result (ids.new ≡ ids.old + 1) }
        ensures refused { IfErr result (RefusesShifted (In level) (Self.stands self.now) ids.old) }
        ensures kept { IfErr result (λ _. ids.new ≡ ids.old) }
    {
        let root = edit::indent(alloc, self.syntax(), level, ids)?;
        Ok(Self::cast(root).unwrap())
    }

    /// Typed-node variant of [`mapped::indent_with_mapping`].
    fn indent_with_mapping(
        &self,
        alloc: Global,
        level: IndentLevel,
        mapping: &mut SyntaxMapping,
        ids: &mut TreeIds,
    ) -> Result<Self, IndentError>
        ensures ok { IfOk result
            (λ x. IsShifted (In level) (Self.stands self.now) ids.old (Self.stands x)) }
        ensures mapped { IfOk result (λ x. mapping.new
            ≡ mapping.old ++ pairs_below (Self.stands self.now) (Self.stands x)) }
        ensures after { OnOk result (IsAfter ids.old (Self.stands self.now)) }
        ensures fits { OnOk result (FitsShifted (In level) (Self.stands self.now)) }
        ensures number { OnOk result (ids.new ≡ ids.old + 1) }
        ensures refused { IfErr result (RefusesMapped (In level) (Self.stands self.now) ids.old) }
        ensures kept { IfErr result (λ _. ids.new ≡ ids.old) }
        ensures unmapped { IfErr result (λ _. mapping.new ≡ mapping.old) }
    {
        let root = mapped::indent_with_mapping(alloc, self.syntax(), level, mapping, ids)?;
        Ok(Self::cast(root).unwrap())
    }

    /// Typed-node variant of [`edit::dedent`].
    fn dedent(
        &self,
        alloc: Global,
        level: IndentLevel,
        ids: &mut TreeIds,
    ) -> Result<Self, MakeError>
        ensures ok { IfOk result
            (λ x. IsShifted (Out level) (Self.stands self.now) ids.old (Self.stands x)) }
        ensures fits { OnOk result (FitsShifted (Out level) (Self.stands self.now)) }
        ensures number { OnOk result (ids.new ≡ ids.old + 1) }
        ensures refused { IfErr result (RefusesShifted (Out level) (Self.stands self.now) ids.old) }
        ensures kept { IfErr result (λ _. ids.new ≡ ids.old) }
    {
        let root = edit::dedent(alloc, self.syntax(), level, ids)?;
        Ok(Self::cast(root).unwrap())
    }

    /// Typed-node variant of [`edit::reset_indent`].
    fn reset_indent(&self, alloc: Global, ids: &mut TreeIds) -> Result<Self, MakeError>
        ensures ok { IfOk result (λ x. IsShifted (Out (own_level (Self.stands self.now)))
            (Self.stands self.now) ids.old (Self.stands x)) }
        ensures fits { OnOk result
            (FitsShifted (Out (own_level (Self.stands self.now))) (Self.stands self.now)) }
        ensures number { OnOk result (ids.new ≡ ids.old + 1) }
        ensures refused { IfErr result (RefusesShifted (Out (own_level (Self.stands self.now)))
            (Self.stands self.now) ids.old) }
        ensures kept { IfErr result (λ _. ids.new ≡ ids.old) }
    {
        let root = edit::reset_indent(alloc, self.syntax(), ids)?;
        Ok(Self::cast(root).unwrap())
    }
}

impl<N: AstNode> AstNodeEdit for N {}
