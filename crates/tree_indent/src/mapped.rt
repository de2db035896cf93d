//! Indents nodes and maps the old child nodes to the new ones.
ghost use Rattle.std.specs.Prelude.{◌≡◌, ◌+◌, ◌++◌, IfOk, IfErr, OnOk, OnErr};
ghost use Rattle.syntax_tree.specs.Mapping.{AcceptsNodes, RefusesNodes};
ghost use Rattle.tree_indent.specs.Indented.{IsShifted, FitsShifted};
ghost use Rattle.tree_indent.specs.Mapped.{child_nodes, pairs_below, IsAfter, RefusesMapped, of_mapping};
ghost use Rattle.tree_indent.specs.declared.shift.Shift.TheVariants.{In};

use crate::edit::indent;
use crate::error::IndentError;
use std::alloc::{AllocError, Global};
use syntax_editor::IndentLevel;
use syntax_tree::{MappingError, SyntaxMapping, SyntaxMappingBuilder, SyntaxNode, TreeIds};

/// Returns the child nodes of `node`, in source order.
fn child_nodes(alloc: Global, node: &SyntaxNode) -> Result<Vec<SyntaxNode>, AllocError>
    ensures { IfOk result (λ v. v.items ≡ child_nodes node.now) }
{
    let mut nodes = Vec::new(alloc);
    for child in node.children(alloc)? {
        let child = child?;
        nodes.push(child)?;
    }
    Ok(nodes)
}

/// Maps the child nodes of `node` to those of `root`, in source order. On error, `mapping` is
/// unchanged.
fn map_below(
    alloc: Global,
    node: &SyntaxNode,
    root: &SyntaxNode,
    mapping: &mut SyntaxMapping,
) -> Result<(), MappingError>
    ensures ok { OnOk result (mapping.new ≡ mapping.old ++ pairs_below node.now root.now) }
    ensures fits { OnOk result
        (AcceptsNodes root.now (child_nodes node.now) (child_nodes root.now)) }
    ensures refused { IfErr result
        (RefusesNodes root.now (child_nodes node.now) (child_nodes root.now)) }
    ensures err { OnErr result (mapping.new ≡ mapping.old) }
{
    let inputs = child_nodes(alloc, node)?;
    let outputs = child_nodes(alloc, root)?;
    let mut builder = SyntaxMappingBuilder::new(alloc, root.clone()?)?;
    builder.map_children(alloc, &inputs, &outputs)?;
    builder.finish(mapping)?;
    Ok(())
}

/// Indents `node` as [`indent`] does, and maps each of its child nodes to the child node of the new
/// root at the same position.
///
/// # Errors
///
/// - [`IndentError::TooLong`] if a token or a node would have 2^32 or more bytes of text, or a node
///   2^32 or more children.
/// - [`IndentError::NoTreeNumber`] if no tree number is left.
/// - [`IndentError::Order`] if `node` has child nodes and the number of the new tree is not greater
///   than that of its tree.
/// - [`IndentError::NoMemory`] if an allocation fails.
///
/// On error, `mapping` and `ids` are unchanged.
pub fn indent_with_mapping(
    alloc: Global,
    node: &SyntaxNode,
    level: IndentLevel,
    mapping: &mut SyntaxMapping,
    ids: &mut TreeIds,
) -> Result<SyntaxNode, IndentError>
    ensures ok { IfOk result (IsShifted (In level) node.now ids.old) }
    ensures fits { OnOk result (FitsShifted (In level) node.now) }
    ensures mapped { IfOk result (λ root. mapping.new ≡ mapping.old ++ pairs_below node.now root) }
    ensures after { OnOk result (IsAfter ids.old node.now) }
    ensures number { OnOk result (ids.new ≡ ids.old + 1) }
    ensures refused { IfErr result (RefusesMapped (In level) node.now ids.old) }
    ensures kept { IfErr result (λ _. ids.new ≡ ids.old) }
    ensures unmapped { IfErr result (λ _. mapping.new ≡ mapping.old) }
{
    let root = indent(alloc, node, level, ids)?;
    match map_below(alloc, node, &root, mapping) {
        Ok(()) => Ok(root),
        Err(e) => {
            // (the number is returned to `ids`: no tree has it)
            *ids = TreeIds::starting_at(root.tree());
            Err(of_mapping(e))
        }
    }
}

/// Converts the error of a mapping of equally many child nodes, in which only the order can be
/// wrong.
fn of_mapping(error: MappingError) -> IndentError
    ensures { result ≡ of_mapping error }
{
    match error {
        MappingError::NoMemory => IndentError::NoMemory,
        MappingError::NotChild | MappingError::MoreInputs | MappingError::Order => {
            IndentError::Order
        }
    }
}
