//! Cursors over nodes and tokens, without a language: a green value and its position in a tree.
ghost use Rattle.std.specs.Prelude.{◌≡◌, ◌+◌, ◌<◌, ◌≤◌, ◌^◌, [], fold, length, IfOk, OnErr, IsSome, Some};
ghost use Rattle.std.specs.Prelude.{nat_eq};
ghost use Rattle.std.specs.Cmp.Lexicographic.{pointwise};
ghost use Rattle.std.specs.Option.{option_copied};
ghost use Rattle.rowan_green.specs.Leaf.{Leaf};
ghost use Rattle.rowan_green.specs.declared.utility_types.NodeOrToken.TheVariants.{Node, Token};
ghost use Rattle.rowan.specs.Place.{Place, above, below, term_at, kind_at, text_at, start_of, end_of, index_of, depth_of};
ghost use Rattle.rowan.specs.Around.{Cursor, cursor_at};
ghost use Rattle.rowan.specs.Same.{numbers_fed};

use rowan_green::{GreenNode, GreenToken, NodeOrToken, SyntaxKind};
use std::alloc::{AllocError, Global};
use std::hash::{Hash, Hasher};
use std::marker::Model;
use std::rc::Rc;

#[cycle(cursor)]
#[derive(Drop)]
struct NodeData {
    green: GreenNode,
    offset: u32,
    depth: u32,
    spot: Spot,
}

// With the two counts of an `Rc` these are 64 bytes. The depth is beside the offset, in former
// padding.
const _: () = prove!(size_of::<NodeData>() == 48);

/// The parent of a node and the node's index among its children; `Root` if it has none.
#[cycle(cursor)]
#[derive(Drop)]
enum Spot {
    Root,
    Child(SyntaxNode, u32),
}

/// A node at its position in a tree. A clone shares the ancestors and does not allocate.
#[cycle(cursor)]
pub struct SyntaxNode {
    shared: Rc<NodeData>,
}

// A loop, since a derived drop would nest one call for each ancestor.
impl Drop for SyntaxNode {
    fn drop(mut self) {
        'up: loop {
            let SyntaxNode { shared } = self;
            let Some(data) = Rc::into_inner(shared) else {
                return;
            };
            let NodeData {
                green: _,
                offset: _,
                depth: _,
                spot,
            } = data;
            match spot {
                Spot::Root => return,
                Spot::Child(parent, _) => self = parent,
            }
        }
    }
}

impl Model for SyntaxNode {
    ghost use Rattle.std.specs.Prelude.{length};
    ghost use Rattle.rowan.specs.Place.{Place};
    ghost use Rattle.rowan_green.specs.Forest.{tree_code};
    ghost use Rattle.std.specs.Coded.{codes};

    ghost Value = { Place };

    ghost coded = { Prim.hlevel (codes, tree_code) };

    ghost use Rattle.rowan.specs.Sound.{place_of, IsSound};

    ghost view = { λ a. place_of a.shared.value };

    ghost invariant = { λ a. IsSound a.shared.value };

    ghost size = { λ p. length p.up };

    ghost use Rattle.rowan.specs.Falls.{falls};

    ghost size_decreases = { λ a h. falls a.shared.value.green a.shared.value.spot };
}

/// A token at its position in a tree.
pub struct SyntaxToken {
    parent: SyntaxNode,
    index: u32,
    offset: u32,
    green: GreenToken,
}

// Not derived: a derived drop is opened field by field in each function that drops one.
impl Drop for SyntaxToken {
    fn drop(self) {
        let SyntaxToken {
            parent: _parent,
            index: _,
            offset: _,
            green: _green,
        } = self;
    }
}

impl Model for SyntaxToken {
    ghost use Rattle.rowan.specs.Place.{Place, below};
    ghost use Rattle.rowan_green.specs.Forest.{tree_code};
    ghost use Rattle.rowan_green.specs.declared.utility_types.NodeOrToken.TheVariants.{Token};
    ghost use Rattle.std.specs.Coded.{codes};

    ghost Value = { Place };

    ghost coded = { Prim.hlevel (codes, tree_code) };

    ghost use Rattle.rowan.specs.Sound.{Stands};

    ghost view = { λ a. below a.parent a.index };

    ghost invariant = { λ a. Stands (below a.parent a.index) (Token a.green) a.offset };
}

/// A node or a token at its position in a tree.
pub type SyntaxElement = NodeOrToken<SyntaxNode, SyntaxToken>;

impl SyntaxNode {
    /// Returns the root of a tree with the green node `green`.
    ///
    /// # Errors
    ///
    /// [`AllocError`] if an allocation fails.
    pub fn new_root(alloc: Global, green: GreenNode) -> Result<SyntaxNode, AllocError>
        ensures { IfOk result (λ p. p ≡ record { root = green; up = [] }) }
    {
        prove!(green.text_len().0 <= u32::MAX);
        let shared = Rc::new(
            alloc,
            NodeData {
                green,
                offset: 0,
                depth: 0,
                spot: Spot::Root,
            },
        )?;
        Ok(SyntaxNode { shared })
    }

    /// Returns a reference to the green node.
    pub fn green(&self) -> &GreenNode
        ensures { term_at self.now ≡ Some (Node result.now) }
    {
        &self.shared.green
    }

    /// Returns the raw kind.
    pub fn kind(&self) -> SyntaxKind
        ensures { result.0 ≡ kind_at self.now }
    {
        self.green().kind()
    }

    /// Returns the offset at which the text starts, in bytes.
    pub fn start(&self) -> u32
        ensures start { result ≡ start_of self.now }
        ensures fits { end_of self.now < 2 ^ 32 }
    {
        self.shared.offset
    }

    /// Returns the offset at which the text ends, in bytes.
    pub fn end(&self) -> u32
        ensures end { result ≡ end_of self.now }
        ensures ordered { start_of self.now ≤ end_of self.now }
    {
        self.shared.offset + self.shared.green.text_len().0
    }

    /// Returns the index among the parent's children, 0 for a root.
    pub fn index(&self) -> u32
        ensures { result ≡ index_of self.now }
    {
        match &self.shared.spot {
            Spot::Root => 0,
            Spot::Child(_, index) => *index,
        }
    }

    /// Returns the number of ancestors, at most `u32::MAX`.
    fn depth(&self) -> u32
        ensures { result ≡ depth_of self.now }
    {
        self.shared.depth
    }

    /// Returns the parent, or `None` for a root.
    pub fn parent(&self) -> Option<&SyntaxNode>
        ensures { option_copied result ≡ above self.now }
    {
        match &self.shared.spot {
            Spot::Root => None,
            Spot::Child(parent, _) => Some(parent),
        }
    }

    /// Returns child `index`, whose text starts at `offset`; `None` if there is no such child.
    ///
    /// # Errors
    ///
    /// [`AllocError`] if an allocation fails or a reference count overflows. Only a child that
    /// exists can cause an error.
    pub fn child(
        &self,
        alloc: Global,
        index: usize,
        offset: u32,
    ) -> Result<Option<SyntaxElement>, AllocError>
        requires { offset ≡ start_of (below self.now index) }
        ensures ok { IfOk result (λ r. r ≡ cursor_at (below self.now index)) }
        ensures refused { OnErr result (IsSome (cursor_at (below self.now index))) }
    {
        let green = self.green();
        prove!(green.children().len() <= u32::MAX as usize);
        match green.child(index) {
            None => Ok(None),
            Some(NodeOrToken::Node(node)) => {
                let child = self.child_node(alloc, index as u32, offset, node.to_owned()?)?;
                Ok(Some(NodeOrToken::Node(child)))
            }
            Some(NodeOrToken::Token(token)) => {
                let child = self.child_token(index as u32, offset, token.to_owned()?)?;
                Ok(Some(NodeOrToken::Token(child)))
            }
        }
    }

    pub(crate) fn child_node(
        &self,
        alloc: Global,
        index: u32,
        offset: u32,
        green: GreenNode,
    ) -> Result<SyntaxNode, AllocError>
        requires is_child { term_at (below self.now index) ≡ Some (Node green) }
        requires at_offset { offset ≡ start_of (below self.now index) }
        ensures { IfOk result (λ c. c ≡ below self.now index) }
    {
        prove!(self.start() <= u32::MAX);
        let depth = self.depth().saturating_add(1);
        let shared = Rc::new(
            alloc,
            NodeData {
                green,
                offset,
                depth,
                spot: Spot::Child(self.clone()?, index),
            },
        )?;
        Ok(SyntaxNode { shared })
    }

    fn child_token(
        &self,
        index: u32,
        offset: u32,
        green: GreenToken,
    ) -> Result<SyntaxToken, AllocError>
        requires is_child { term_at (below self.now index) ≡ Some (Token green) }
        requires at_offset { offset ≡ start_of (below self.now index) }
        ensures { IfOk result (λ c. c ≡ below self.now index) }
    {
        prove!(self.start() <= u32::MAX);
        Ok(SyntaxToken {
            parent: self.clone()?,
            index,
            offset,
            green,
        })
    }
}

impl SyntaxToken {
    /// Returns a reference to the green token.
    pub fn green(&self) -> &GreenToken
        ensures { term_at self.now ≡ Some (Token result.now) }
    {
        &self.green
    }

    /// Returns the raw kind.
    pub fn kind(&self) -> SyntaxKind
        ensures { result.0 ≡ kind_at self.now }
    {
        self.green().kind()
    }

    /// Returns the text.
    pub fn text(&self) -> &str
        ensures { result.now ≡ text_at self.now }
    {
        self.green.text()
    }

    /// Returns the offset at which the text starts, in bytes.
    pub fn start(&self) -> u32
        ensures start { result ≡ start_of self.now }
        ensures fits { end_of self.now < 2 ^ 32 }
    {
        self.offset
    }

    /// Returns the offset at which the text ends, in bytes.
    pub fn end(&self) -> u32
        ensures end { result ≡ end_of self.now }
        ensures ordered { start_of self.now ≤ end_of self.now }
    {
        self.offset + self.green.text_len().0
    }

    /// Returns the index among the parent's children.
    pub fn index(&self) -> u32
        ensures { result ≡ index_of self.now }
    {
        self.index
    }

    /// Returns the parent.
    pub fn parent(&self) -> &SyntaxNode
        ensures { Some result.now ≡ above self.now }
    {
        &self.parent
    }
}

impl Clone for SyntaxNode {
    ghost is_clone = { λ n copy. copy ≡ n };

    /// Returns another cursor to the node.
    ///
    /// # Errors
    ///
    /// [`AllocError`] if the reference count overflows.
    fn clone(&self) -> Result<SyntaxNode, AllocError> {
        let shared = self.shared.clone()?;
        Ok(SyntaxNode { shared })
    }
}

impl Clone for SyntaxToken {
    ghost is_clone = { λ n copy. copy ≡ n };

    /// Returns another cursor to the token.
    ///
    /// # Errors
    ///
    /// [`AllocError`] if a reference count overflows.
    fn clone(&self) -> Result<SyntaxToken, AllocError> {
        Ok(SyntaxToken {
            parent: self.parent.clone()?,
            index: self.index,
            offset: self.offset,
            green: self.green.clone()?,
        })
    }
}

/// Returns `true` if two nodes have equal up-paths.
pub(crate) fn same_way(a: &SyntaxNode, b: &SyntaxNode) -> bool
    ensures { result ≡ pointwise nat_eq a.now.up b.now.up }
{
    let mut one = a;
    let mut two = b;
    'up: loop {
        match (&one.shared.spot, &two.shared.spot) {
            (Spot::Root, Spot::Root) => return true,
            (Spot::Child(above, i), Spot::Child(other, j)) if *i == *j => {
                one = above;
                two = other;
            }
            _ => return false,
        }
    }
}

/// Returns `true` if a node and a token have equal up-paths, as elements of two trees may.
pub(crate) fn same_way_as_token(node: &SyntaxNode, token: &SyntaxToken) -> bool
    ensures { result ≡ pointwise nat_eq node.now.up token.now.up }
{
    match &node.shared.spot {
        Spot::Root => false,
        Spot::Child(above, index) => *index == token.index && same_way(above, &token.parent),
    }
}

/// Feeds the up-path to a hasher: the indices among siblings, the innermost first.
pub(crate) fn hash_way<H: Hasher>(node: &SyntaxNode, state: &mut H)
    ensures { state.new ≡ fold H.write state.old (numbers_fed node.now.up) }
{
    let mut here = node;
    'up: while let Spot::Child(above, index) = &here.shared.spot {
        index.hash(state);
        here = above;
    }
}

impl PartialEq for SyntaxNode {
    ghost use Rattle.rowan.specs.Same.{same_place, same_place-equiv};
    ghost use Rattle.std.specs.Cmp.{partial_equiv_from_equiv};

    ghost eq = { same_place };

    ghost laws = { partial_equiv_from_equiv same_place-equiv };

    fn eq(&self, other: &SyntaxNode) -> bool {
        same_way(self, other) && self.tree_top().green() == other.tree_top().green()
    }
}

impl Eq for SyntaxNode {
    ghost use Rattle.rowan.specs.Same.{same_place-equiv};

    ghost laws = { same_place-equiv };
}

/// Hashes the range, the index and the depth, which the node stores. A node and its first child
/// have different depths, even if they have one range.
impl Hash for SyntaxNode {
    ghost use Rattle.rowan.specs.Same.{hashed_node, same_place-Decides};
    ghost use Rattle.std.proofs.Common.{ap};

    ghost hash_input = { hashed_node };

    ghost respects_eq = { λ x y p. ap hashed_node ((same_place-Decides x y).0 p) };

    fn hash<H: Hasher>(&self, state: &mut H) {
        self.start().hash(state);
        self.end().hash(state);
        self.index().hash(state);
        self.depth().hash(state);
    }
}

impl PartialEq for SyntaxToken {
    ghost use Rattle.rowan.specs.Same.{same_place, same_place-equiv};
    ghost use Rattle.std.specs.Cmp.{partial_equiv_from_equiv};

    ghost eq = { same_place };

    ghost laws = { partial_equiv_from_equiv same_place-equiv };

    fn eq(&self, other: &SyntaxToken) -> bool {
        self.index == other.index
            && same_way(&self.parent, &other.parent)
            && self.parent.tree_top().green() == other.parent.tree_top().green()
    }
}

impl Eq for SyntaxToken {
    ghost use Rattle.rowan.specs.Same.{same_place-equiv};

    ghost laws = { same_place-equiv };
}

/// Hashes only the offset and the index: equal tokens have equal hashes.
impl Hash for SyntaxToken {
    ghost use Rattle.rowan.specs.Place.{Place, start_of, index_of};
    ghost use Rattle.rowan.specs.Same.{same_place-Decides};
    ghost use Rattle.std.specs.Prelude.{◌++◌};
    ghost use Rattle.std.specs.Hash as fed;
    ghost use Rattle.std.proofs.Common.{ap};

    ghost hash_input = { λ p. fed.u32 (start_of p) ++ fed.u32 (index_of p) };

    ghost respects_eq = { λ x y p. ap (λ (q : Place). fed.u32 (start_of q) ++ fed.u32 (index_of q)) ((same_place-Decides x y).0 p) };

    fn hash<H: Hasher>(&self, state: &mut H) {
        self.offset.hash(state);
        self.index.hash(state);
    }
}
