//! Elements: a node or a token.
ghost use Rattle.std.specs.Prelude.{◌≡◌, ◌+◌, ◌<◌, ◌^◌, length, reverse, IfOk, Some};
ghost use Rattle.std.specs.Option.{option_copied};
ghost use Rattle.rowan_green.specs.Forest.{Tree};
ghost use Rattle.rowan.specs.Place.{kind_at, start_of, end_of, index_of, terms_below};
ghost use Rattle.syntax_tree.specs.Language.{kind_of_raw};
ghost use Rattle.syntax_tree.specs.Element.{term_of, element_at, is_node, same_element};
ghost use Rattle.syntax_tree.specs.declared.element.SyntaxElement.{SyntaxElement};
ghost use Rattle.syntax_tree.specs.Handle.{element_of, node_of, token_of, parent_of};
ghost use Rattle.syntax_tree.specs.declared.element.SyntaxElement.TheVariants.{Node, Token};

use crate::handle::{SyntaxNode, SyntaxToken};
use parser_input::SyntaxKind;
use rowan_green::{GreenElement, NodeOrToken, TextRange};
use std::alloc::{AllocError, Global};

/// A node or a token of a numbered tree.
///
/// Two elements are equal if both are nodes or both are tokens, and they have the same tree number
/// and the same up-path.
#[derive(PartialEq, Eq, Hash, Drop)]
pub enum SyntaxElement {
    Node(SyntaxNode),
    Token(SyntaxToken),
}

impl SyntaxElement {
    /// Returns the node, or `None` if the element is a token.
    pub fn into_node(self) -> Option<SyntaxNode>
        ensures { result ≡ node_of self }
    {
        match self {
            SyntaxElement::Node(node) => Some(node),
            SyntaxElement::Token(_) => None,
        }
    }

    /// Returns the token, or `None` if the element is a node.
    pub fn into_token(self) -> Option<SyntaxToken>
        ensures { result ≡ token_of self }
    {
        match self {
            SyntaxElement::Node(_) => None,
            SyntaxElement::Token(token) => Some(token),
        }
    }

    /// Returns a reference to the node, or `None` if the element is a token.
    pub fn as_node(&self) -> Option<&SyntaxNode>
        ensures { option_copied result ≡ node_of self.now }
    {
        match self {
            SyntaxElement::Node(node) => Some(node),
            SyntaxElement::Token(_) => None,
        }
    }

    /// Returns a reference to the token, or `None` if the element is a node.
    pub fn as_token(&self) -> Option<&SyntaxToken>
        ensures { option_copied result ≡ token_of self.now }
    {
        match self {
            SyntaxElement::Node(_) => None,
            SyntaxElement::Token(token) => Some(token),
        }
    }

    /// Returns the number of its tree.
    pub fn tree(&self) -> u32
        ensures { result ≡ (element_of self.now).number }
    {
        match self {
            SyntaxElement::Node(node) => node.tree(),
            SyntaxElement::Token(token) => token.tree(),
        }
    }

    /// Returns its path: the child indices from the root down to the element.
    pub fn path(&self, alloc: Global) -> Result<Vec<usize>, AllocError>
        ensures { IfOk result (λ v. v.items ≡ reverse (element_of self.now).place.up) }
    {
        match self {
            SyntaxElement::Node(node) => node.path(alloc),
            SyntaxElement::Token(token) => token.path(alloc),
        }
    }

    /// Returns its up-path: the child indices from the element up to the root, innermost first.
    pub fn way(&self, alloc: Global) -> Result<Vec<usize>, AllocError>
        ensures { IfOk result (λ v. v.items ≡ (element_of self.now).place.up) }
    {
        match self {
            SyntaxElement::Node(node) => node.way(alloc),
            SyntaxElement::Token(token) => token.way(alloc),
        }
    }

    /// Returns its kind; `ERROR` if the raw number is not that of a kind.
    pub fn kind(&self) -> SyntaxKind
        ensures { result ≡ kind_of_raw (kind_at (element_of self.now).place) }
    {
        match self {
            SyntaxElement::Node(node) => node.kind(),
            SyntaxElement::Token(token) => token.kind(),
        }
    }

    /// Returns its text range, in bytes of the text of the tree.
    pub fn text_range(&self) -> TextRange
        ensures start { result.start.0 ≡ start_of (element_of self.now).place }
        ensures end { result.end.0 ≡ end_of (element_of self.now).place }
    {
        match self {
            SyntaxElement::Node(node) => node.text_range(),
            SyntaxElement::Token(token) => token.text_range(),
        }
    }

    /// Returns its index among all children of its parent, nodes and tokens; 0 for a root.
    pub fn index(&self) -> usize
        ensures { result ≡ index_of (element_of self.now).place }
    {
        match self {
            SyntaxElement::Node(node) => node.cursor().index(),
            SyntaxElement::Token(token) => token.cursor().index(),
        }
    }

    /// Returns its index among the children of `parent`, which is its parent.
    pub(crate) fn index_below(&self, parent: &SyntaxNode) -> usize
        requires { parent_of (element_of self.now) ≡ Some parent.now }
        ensures index { result ≡ index_of (element_of self.now).place }
        ensures within { result < length (terms_below parent.now.place) }
        ensures few { length (terms_below parent.now.place) < 2 ^ 32 }
    {
        let _siblings = parent.cursor().green().children();
        match self {
            SyntaxElement::Node(node) => {
                let _stands = node.cursor().green();
                node.cursor().index()
            }
            SyntaxElement::Token(token) => {
                let _stands = token.cursor().green();
                token.cursor().index()
            }
        }
    }

    /// Returns the index after its own among the children of `parent`, which is its parent.
    pub(crate) fn next_index(&self, parent: &SyntaxNode) -> usize
        requires { parent_of (element_of self.now) ≡ Some parent.now }
        ensures { result ≡ index_of (element_of self.now).place + 1 }
    {
        let siblings = parent.cursor().green().children().len();
        let index = self.index_below(parent);
        prove!(index < siblings);
        index + 1
    }

    /// Returns `true` if it is in the tree with number `tree`, at up-path `way` (innermost index
    /// first).
    pub fn stands_at(&self, tree: u32, way: &[usize]) -> Result<bool, AllocError>
        ensures { (t : Tree) → IfOk result (λ b. b
            ≡ same_element (element_of self.now) (element_at tree t way.now)) }
    {
        if self.tree() != tree {
            return Ok(false);
        }
        match self {
            SyntaxElement::Node(node) => node.stands_at(way),
            SyntaxElement::Token(token) => token.stands_at(way),
        }
    }

    /// Returns the parent, or `None` for a root.
    pub fn parent(&self) -> Result<Option<SyntaxNode>, AllocError>
        ensures { IfOk result (λ r. r ≡ parent_of (element_of self.now)) }
    {
        match self {
            SyntaxElement::Node(node) => node.parent(),
            SyntaxElement::Token(token) => token.parent(),
        }
    }

    /// Returns `true` if it is a node.
    pub fn is_node(&self) -> bool
        ensures { result ≡ is_node (term_of (element_of self.now)) }
    {
        match self {
            SyntaxElement::Node(node) => {
                let _stands = node.cursor().green();
                true
            }
            SyntaxElement::Token(token) => {
                let _stands = token.cursor().green();
                false
            }
        }
    }

    /// Returns the green node or token.
    pub fn green(&self) -> Result<GreenElement, AllocError>
        ensures { IfOk result (λ e. term_of (element_of self.now) ≡ Some e) }
    {
        match self {
            SyntaxElement::Node(node) => Ok(NodeOrToken::Node(node.cursor().green().clone()?)),
            SyntaxElement::Token(token) => Ok(NodeOrToken::Token(token.cursor().green().clone()?)),
        }
    }
}

impl Clone for SyntaxElement {
    ghost is_clone = { λ e copy. copy ≡ e };

    /// Returns another handle to the element. Does not allocate.
    ///
    /// # Errors
    ///
    /// Returns an error only if the reference count overflows.
    fn clone(&self) -> Result<SyntaxElement, AllocError> {
        match self {
            SyntaxElement::Node(node) => Ok(SyntaxElement::Node(node.clone()?)),
            SyntaxElement::Token(token) => Ok(SyntaxElement::Token(token.clone()?)),
        }
    }
}

impl From<SyntaxNode> for SyntaxElement {
    ghost from_gives = { λ node element. element ≡ Node node };

    fn from(node: SyntaxNode) -> SyntaxElement {
        SyntaxElement::Node(node)
    }
}

impl From<SyntaxToken> for SyntaxElement {
    ghost from_gives = { λ token element. element ≡ Token token };

    fn from(token: SyntaxToken) -> SyntaxElement {
        SyntaxElement::Token(token)
    }
}

/// A type that can be turned into an element: a node, a token, an element, or a reference to one.
pub trait Element: Sized {
    /// Model: the element.
    ghost element: { Self → SyntaxElement };

    /// Converts into a [`SyntaxElement`]. A reference is cloned.
    ///
    /// # Errors
    ///
    /// Returns an error only if the reference count overflows.
    fn syntax_element(self) -> Result<SyntaxElement, AllocError>
        ensures { IfOk result (λ e. e ≡ element self) };
}

impl Element for SyntaxNode {
    ghost element = { Node };

    fn syntax_element(self) -> Result<SyntaxElement, AllocError> {
        Ok(SyntaxElement::Node(self))
    }
}

impl Element for &SyntaxNode {
    ghost element = { λ e. Node e.now };

    fn syntax_element(self) -> Result<SyntaxElement, AllocError> {
        Ok(SyntaxElement::Node(self.clone()?))
    }
}

impl Element for SyntaxToken {
    ghost element = { Token };

    fn syntax_element(self) -> Result<SyntaxElement, AllocError> {
        Ok(SyntaxElement::Token(self))
    }
}

impl Element for &SyntaxToken {
    ghost element = { λ e. Token e.now };

    fn syntax_element(self) -> Result<SyntaxElement, AllocError> {
        Ok(SyntaxElement::Token(self.clone()?))
    }
}

impl Element for SyntaxElement {
    ghost element = { λ e. e };

    fn syntax_element(self) -> Result<SyntaxElement, AllocError> {
        Ok(self)
    }
}

impl Element for &SyntaxElement {
    ghost element = { λ e. e.now };

    fn syntax_element(self) -> Result<SyntaxElement, AllocError> {
        self.clone()
    }
}
