//! Kinds of nodes and tokens.

/// The kind of a node or a token: a number to which a language gives a meaning.
#[derive(Clone, Copy, Debug, PartialEq, Eq, PartialOrd, Ord, Hash)]
pub struct SyntaxKind(pub u16);
