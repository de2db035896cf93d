//! Children after a token.
ghost use Rattle.std.specs.Prelude.{◌≡◌, IfOk};
ghost use Rattle.parser_input.specs.Kind.{raw_of};
ghost use Rattle.syntax_tree.specs.Nodes.{is_of_kind};
ghost use Rattle.typed_nodes.specs.Parts.{node_after};

use parser_input::SyntaxKind;
use std::alloc::{AllocError, Global};
use syntax_tree::{SyntaxElement, SyntaxNode, SyntaxToken};

/// Returns `true` if `token` is of a raw kind.
fn is_of_kind(token: &SyntaxToken, kind: u16) -> bool
    ensures { result ≡ is_of_kind kind token.now }
{
    token.cursor().green().kind().0 == kind
}

/// Returns the first child node after the first child token of a kind.
pub fn node_after(
    alloc: Global,
    node: &SyntaxNode,
    kind: SyntaxKind,
) -> Result<Option<SyntaxNode>, AllocError>
    ensures { IfOk result (λ n. n ≡ node_after (raw_of kind) node.now) }
{
    let kind = kind.to_raw();
    let mut is_after = false;
    for element in node.children_with_tokens(alloc)? {
        match element? {
            SyntaxElement::Node(child) => {
                if is_after {
                    return Ok(Some(child));
                }
            }
            SyntaxElement::Token(token) => {
                is_after = is_after || is_of_kind(&token, kind);
            }
        }
    }
    Ok(None)
}
