//! A node or a token.
ghost use Rattle.std.specs.Prelude.{◌≡◌};
ghost use Rattle.std.specs.Option.{option_copied};
ghost use Rattle.rowan_green.specs.Either.{node_part, token_part};

/// A node or a token.
#[derive(Clone, Copy, PartialEq, Eq, Hash, Debug, Drop)]
pub enum NodeOrToken<N, T> {
    Node(N),
    Token(T),
}

impl<N, T> NodeOrToken<N, T> {
    /// Returns the node, or `None` for a token.
    pub fn into_node(self) -> Option<N>
    where
        T: Drop,
        ensures { result ≡ node_part self }
    {
        match self {
            NodeOrToken::Node(node) => Some(node),
            NodeOrToken::Token(_) => None,
        }
    }

    /// Returns the token, or `None` for a node.
    pub fn into_token(self) -> Option<T>
    where
        N: Drop,
        ensures { result ≡ token_part self }
    {
        match self {
            NodeOrToken::Node(_) => None,
            NodeOrToken::Token(token) => Some(token),
        }
    }

    /// Returns a reference to the node, or `None` for a token.
    pub fn as_node(&self) -> Option<&N>
        ensures { option_copied result ≡ node_part self.now }
    {
        match self {
            Self::Node(node) => Some(node),
            Self::Token(_) => None,
        }
    }

    /// Returns a reference to the token, or `None` for a node.
    pub fn as_token(&self) -> Option<&T>
        ensures { option_copied result ≡ token_part self.now }
    {
        match self {
            Self::Node(_) => None,
            Self::Token(token) => Some(token),
        }
    }
}
