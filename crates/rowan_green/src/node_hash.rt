//! Hashes of children, which do not read their descendants.
ghost use Rattle.std.specs.Prelude.{◌≡◌, fold};
ghost use Rattle.rowan_green.specs.Hashing.{hashed_token, hashed_child};

use crate::element_ref::{GreenElementRef, GreenTokenRef};
use crate::utility_types::NodeOrToken;
use std::hash::{Hash, Hasher};

/// The maximum number of bytes of a token's text that a hash reads.
const MOST_TEXT: usize = 64;

/// Hashes a child: the kind and the length of a node, and a token as [`hash_token`] does.
pub(crate) fn hash_child<H: Hasher>(child: Option<GreenElementRef<'_>>, state: &mut H)
    ensures { state.new ≡ fold H.write state.old (hashed_child child.entry) }
{
    match child {
        None => {}
        Some(NodeOrToken::Node(node)) => {
            node.kind().0.hash(state);
            node.text_len().0.hash(state);
        }
        Some(NodeOrToken::Token(token)) => hash_token(&token, state),
    }
}

/// Hashes a token: the kind, and the text if it has at most [`MOST_TEXT`] bytes, else the length.
fn hash_token<H: Hasher>(token: &GreenTokenRef<'_>, state: &mut H)
    ensures { state.new ≡ fold H.write state.old (hashed_token token.now) }
{
    token.kind().0.hash(state);
    let text = token.text();
    if text.len() <= MOST_TEXT {
        text.hash(state);
    } else {
        token.text_len().0.hash(state);
    }
}
