//! Bones: the children of a node that a match compares.

ghost use Rattle.std.specs.Prelude.{◌≡◌};
ghost use Rattle.tree_patterns.specs.Bones.{is_bone, is_trivia};

use crate::kinds::{COMMA_LISTS, is_among};
use parser_input::SyntaxKind;

/// Returns `true` if a raw kind is that of whitespace or comments.
pub fn is_trivia(kind: u16) -> bool
    ensures { result ≡ is_trivia kind }
{
    kind == SyntaxKind::WHITESPACE.to_raw() || kind == SyntaxKind::COMMENT.to_raw()
}

/// Returns `true` if a child of kind `kind`, in a node of kind `parent`, is compared: it is no
/// whitespace, no comment, and no comma of a list.
pub fn is_bone(parent: u16, kind: u16) -> bool
    ensures { result ≡ is_bone parent kind }
{
    !is_trivia(kind) && (kind != SyntaxKind::COMMA.to_raw() || !is_among(&COMMA_LISTS, parent))
}
