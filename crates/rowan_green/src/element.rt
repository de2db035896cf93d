//! Elements: the children of nodes.
ghost use Rattle.std.specs.Prelude.{◌≡◌};
ghost use Rattle.rowan_green.specs.Term.{kind_of, term_len};

use crate::node::GreenNode;
use crate::syntax_kind::SyntaxKind;
use crate::text_size::TextSize;
use crate::token::GreenToken;
use crate::utility_types::NodeOrToken;

/// A green node or a green token.
pub type GreenElement = NodeOrToken<GreenNode, GreenToken>;

impl NodeOrToken<GreenNode, GreenToken> {
    /// Returns the kind.
    pub fn kind(&self) -> SyntaxKind
        ensures { result.0 ≡ kind_of self.now }
    {
        match self {
            NodeOrToken::Node(node) => node.kind(),
            NodeOrToken::Token(token) => token.kind(),
        }
    }

    /// Returns the length of the text, in bytes.
    pub fn text_len(&self) -> TextSize
        ensures { result.0 ≡ term_len self.now }
    {
        match self {
            NodeOrToken::Node(node) => node.text_len(),
            NodeOrToken::Token(token) => token.text_len(),
        }
    }
}

impl From<GreenNode> for NodeOrToken<GreenNode, GreenToken> {
    ghost use Rattle.std.specs.Prelude.{◌≡◌};
    ghost use Rattle.rowan_green.specs.declared.utility_types.NodeOrToken.TheVariants.{Node};

    ghost from_gives = { λ node element. element ≡ Node node };

    fn from(node: GreenNode) -> GreenElement {
        NodeOrToken::Node(node)
    }
}

impl From<GreenToken> for NodeOrToken<GreenNode, GreenToken> {
    ghost use Rattle.std.specs.Prelude.{◌≡◌};
    ghost use Rattle.rowan_green.specs.declared.utility_types.NodeOrToken.TheVariants.{Token};

    ghost from_gives = { λ token element. element ≡ Token token };

    fn from(token: GreenToken) -> GreenElement {
        NodeOrToken::Token(token)
    }
}
