//! Indents and dedents nodes, as new trees.
ghost use Rattle.std.specs.Prelude.{◌≡◌, ◌+◌, [], IfOk, IfErr, OnOk, Some};
ghost use Rattle.rowan_green.specs.Forest.{Tree};
ghost use Rattle.rowan_green.specs.declared.utility_types.NodeOrToken.TheVariants.{Node};
ghost use Rattle.syntax_tree.specs.Element.{term_of, element_at};
ghost use Rattle.tree_indent.specs.Indented.{IsShifted, FitsShifted, RefusesShifted, own_level};
ghost use Rattle.tree_indent.specs.declared.shift.Shift.TheVariants.{In, Out};

use crate::shift::Shift;
use crate::trees::shifted_tree;
use rowan_green::GreenError;
use std::alloc::Global;
use syntax_editor::{IndentLevel, MakeError};
use syntax_tree::{SyntaxNode, TreeIds};

/// Indents `node` by `level`: returns a copy of it in a new tree, whose number is the next of
/// `ids`. The spaces of `level` are appended to each whitespace token that contains a line feed.
///
/// # Errors
///
/// - [`MakeError::TooLong`] if a token or a node would have 2^32 or more bytes of text, or a node
///   2^32 or more children.
/// - [`MakeError::NoTreeNumber`] if no tree number is left.
/// - [`MakeError::NoMemory`] if an allocation fails.
///
/// On error, `ids` is unchanged.
pub fn indent(
    alloc: Global,
    node: &SyntaxNode,
    level: IndentLevel,
    ids: &mut TreeIds,
) -> Result<SyntaxNode, MakeError>
    ensures ok { IfOk result (IsShifted (In level) node.now ids.old) }
    ensures fits { OnOk result (FitsShifted (In level) node.now) }
    ensures number { OnOk result (ids.new ≡ ids.old + 1) }
    ensures refused { IfErr result (RefusesShifted (In level) node.now ids.old) }
    ensures kept { IfErr result (λ _. ids.new ≡ ids.old) }
{
    shifted(alloc, node, Shift::In(level), ids)
}

/// Dedents `node` by `level`: returns a copy of it in a new tree, whose number is the next of
/// `ids`. In its whitespace tokens, the spaces of `level` are removed after each line feed that
/// they follow. The errors are those of [`indent`].
pub fn dedent(
    alloc: Global,
    node: &SyntaxNode,
    level: IndentLevel,
    ids: &mut TreeIds,
) -> Result<SyntaxNode, MakeError>
    ensures ok { IfOk result (IsShifted (Out level) node.now ids.old) }
    ensures fits { OnOk result (FitsShifted (Out level) node.now) }
    ensures number { OnOk result (ids.new ≡ ids.old + 1) }
    ensures refused { IfErr result (RefusesShifted (Out level) node.now ids.old) }
    ensures kept { IfErr result (λ _. ids.new ≡ ids.old) }
{
    shifted(alloc, node, Shift::Out(level), ids)
}

/// Dedents `node` by its own indent level. The errors are those of [`indent`].
pub fn reset_indent(
    alloc: Global,
    node: &SyntaxNode,
    ids: &mut TreeIds,
) -> Result<SyntaxNode, MakeError>
    ensures ok { IfOk result (IsShifted (Out (own_level node.now)) node.now ids.old) }
    ensures fits { OnOk result (FitsShifted (Out (own_level node.now)) node.now) }
    ensures number { OnOk result (ids.new ≡ ids.old + 1) }
    ensures refused { IfErr result (RefusesShifted (Out (own_level node.now)) node.now ids.old) }
    ensures kept { IfErr result (λ _. ids.new ≡ ids.old) }
{
    let level = match IndentLevel::from_node(alloc, node) {
        Ok(level) => level,
        Err(_) => return Err(MakeError::NoMemory),
    };
    dedent(alloc, node, level, ids)
}

/// Returns a copy of `node`, indented or dedented by `shift`, in a new tree.
fn shifted(
    alloc: Global,
    node: &SyntaxNode,
    shift: Shift,
    ids: &mut TreeIds,
) -> Result<SyntaxNode, MakeError>
    ensures ok { IfOk result (IsShifted shift node.now ids.old) }
    ensures fits { OnOk result (FitsShifted shift node.now) }
    ensures number { OnOk result (ids.new ≡ ids.old + 1) }
    ensures refused { IfErr result (RefusesShifted shift node.now ids.old) }
    ensures kept { IfErr result (λ _. ids.new ≡ ids.old) }
{
    let green = match shifted_tree(alloc, &node.cursor().green().as_ref(), shift) {
        Ok(green) => green,
        Err(GreenError::NoMemory) => return Err(MakeError::NoMemory),
        Err(GreenError::TooLong) => return Err(MakeError::TooLong),
        Err(GreenError::Unbalanced) => unreachable!(),
    };
    Ok(SyntaxNode::new_root(alloc, green, ids)?)
}
