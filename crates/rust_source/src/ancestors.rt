//! Nodes above a node.
ghost use Rattle.std.specs.Prelude.{◌≡◌, IfOk};
ghost use Rattle.parser_input.specs.Kind.{raw_of};
ghost use Rattle.rust_source.specs.Elements.{ancestor_below};

use crate::making::is_of_kind;
use parser_input::SyntaxKind;
use std::alloc::AllocError;
use syntax_tree::SyntaxNode;

/// Returns the first of `node` and its ancestors whose parent is of `kind`. So, for a list of
/// statements, the statement that an expression is in.
pub fn ancestor_below(node: &SyntaxNode, kind: SyntaxKind) -> Result<Option<SyntaxNode>, AllocError>
    ensures { IfOk result (λ n. n ≡ ancestor_below (raw_of kind) node.now) }
{
    let mut below = node.clone()?;
    while let Some(parent) = below.parent()? {
        if is_of_kind(&parent, kind) {
            return Ok(Some(below));
        }
        below = parent;
    }
    Ok(None)
}
