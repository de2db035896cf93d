//! Constructors of green elements whose size is known to fit, so that only an allocation can fail.
ghost use Rattle.std.specs.Prelude.{◌≡◌, ◌<◌, ◌^◌, length, IfOk};
ghost use Rattle.rowan_green.specs.Term.{tree_of, FitsNode};
ghost use Rattle.parser_input.specs.Kind.{raw_of};

use parser_input::syntax_kind::SyntaxKind;
use rowan_green::{GreenElement, GreenError, GreenNode, GreenToken, NodeOrToken};
use std::alloc::{AllocError, Global};

/// Creates a token of kind `kind` with text `text`.
pub fn token(alloc: Global, kind: SyntaxKind, text: &str) -> Result<GreenToken, AllocError>
    requires { length text.now < 2 ^ 32 }
    ensures { IfOk result (λ t. t ≡ record { kind = raw_of kind; text = text.now }) }
{
    let kind = rowan_green::SyntaxKind(kind.to_raw());
    match GreenToken::new(alloc, kind, text) {
        Ok(token) => Ok(token),
        Err(GreenError::NoMemory) => Err(AllocError),
        Err(_) => unreachable!(),
    }
}

/// Creates a node of kind `kind` with children `children`.
pub fn node(
    alloc: Global,
    kind: SyntaxKind,
    children: Vec<GreenElement>,
) -> Result<GreenNode, AllocError>
    requires { FitsNode children.items }
    ensures { IfOk result (λ n. n ≡ tree_of (raw_of kind) children.items) }
{
    let kind = rowan_green::SyntaxKind(kind.to_raw());
    match GreenNode::new(alloc, kind, children.into_iter()) {
        Ok(node) => Ok(node),
        Err(GreenError::NoMemory) => Err(AllocError),
        Err(GreenError::TooLong) => unreachable!(),
        Err(GreenError::Unbalanced) => unreachable!(),
    }
}
