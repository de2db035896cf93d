//! The leaves of a text, as they are read.
use parser_input::syntax_kind::SyntaxKind;

/// A leaf: its kind, and its piece of the text.
#[derive(Clone, Copy)]
pub struct Leaf<'a> {
    pub kind: SyntaxKind,
    pub text: &'a str,
}
