//! Nodes and tokens of numbered trees.
ghost use Rattle.std.specs.Prelude.{◌≡◌, ◌+◌, [], ◌∷◌, reverse, IfOk, IfErr, OnOk, Some, option_map};
ghost use Rattle.parser_input.specs.Kinds.{TOMBSTONE};
ghost use Rattle.rowan_green.specs.Forest.{Tree};
ghost use Rattle.rowan_green.specs.Term.{tree_of};
ghost use Rattle.rowan_green.specs.declared.utility_types.NodeOrToken.TheVariants as terms;
ghost use Rattle.rowan.specs.Place.{kind_at, text_at, start_of, end_of};
ghost use Rattle.syntax_tree.specs.Refusal.{RefusesTree};
ghost use Rattle.syntax_tree.specs.Language.{kind_of_raw};
ghost use Rattle.syntax_tree.specs.Element.{same_way, element_at, term_of};
ghost use Rattle.syntax_tree.specs.Handle.{parent_of, with_number};

use crate::elements;
use crate::error::TreeError;
use crate::language::RustLanguage;
use crate::tree_ids::TreeIds;
use parser_input::SyntaxKind;
use rowan_green::{GreenNode, GreenToken, NodeOrToken, TextRange};
use std::alloc::{AllocError, Global};
use std::marker::Model;

/// A node of a numbered tree. Cloning does not allocate.
pub struct SyntaxNode {
    tree: u32,
    cursor: rowan::SyntaxNode<RustLanguage>,
}

// Not derived: a derived drop is opened field by field in each function that drops one.
impl Drop for SyntaxNode {
    fn drop(self) {
        let SyntaxNode {
            tree: _,
            cursor: _cursor,
        } = self;
    }
}

impl Model for SyntaxNode {
    ghost use Rattle.std.specs.Coded.{codes};
    ghost use Rattle.rowan_green.specs.Forest.{tree_code};
    ghost use Rattle.syntax_tree.specs.Element.{Element};

    ghost Value = { Element };

    ghost coded = { Prim.hlevel (codes, tree_code) };

    ghost view = { λ n. record { number = n.tree; place = n.cursor } };
}

/// A token of a numbered tree. Cloning does not allocate.
pub struct SyntaxToken {
    tree: u32,
    cursor: rowan::SyntaxToken<RustLanguage>,
}

// Not derived: a derived drop is opened field by field in each function that drops one.
impl Drop for SyntaxToken {
    fn drop(self) {
        let SyntaxToken {
            tree: _,
            cursor: _cursor,
        } = self;
    }
}

impl Model for SyntaxToken {
    ghost use Rattle.std.specs.Coded.{codes};
    ghost use Rattle.rowan_green.specs.Forest.{tree_code};
    ghost use Rattle.syntax_tree.specs.Element.{Element};

    ghost Value = { Element };

    ghost coded = { Prim.hlevel (codes, tree_code) };

    ghost view = { λ t. record { number = t.tree; place = t.cursor } };
}

impl SyntaxNode {
    /// Returns the node at `cursor` in the tree with number `tree`.
    pub(crate) fn of(tree: u32, cursor: rowan::SyntaxNode<RustLanguage>) -> SyntaxNode
        ensures { result ≡ with_number tree cursor }
    {
        SyntaxNode { tree, cursor }
    }

    /// Returns the root of a new tree of `green`, with the next number of `ids`.
    ///
    /// # Errors
    ///
    /// - [`TreeError::NoMemory`] if an allocation fails.
    /// - [`TreeError::Spent`] if no tree number is left.
    ///
    /// On error, `ids` is unchanged.
    pub fn new_root(
        alloc: Global,
        green: GreenNode,
        ids: &mut TreeIds,
    ) -> Result<SyntaxNode, TreeError>
        ensures ok { IfOk result (λ n. n ≡ element_at ids.old green []) }
        ensures number { OnOk result (ids.new ≡ ids.old + 1) }
        ensures refused { IfErr result (RefusesTree ids.old) }
        ensures kept { IfErr result (λ _. ids.new ≡ ids.old) }
    {
        let cursor = rowan::SyntaxNode::new_root(alloc, green)?;
        Ok(SyntaxNode::of(ids.next()?, cursor))
    }

    /// Returns a copy of this node as the root of a new tree, with the next number of `ids`.
    ///
    /// # Errors
    ///
    /// - [`TreeError::NoMemory`] if an allocation fails.
    /// - [`TreeError::Spent`] if no tree number is left.
    ///
    /// On error, `ids` is unchanged.
    pub fn clone_subtree(&self, alloc: Global, ids: &mut TreeIds) -> Result<SyntaxNode, TreeError>
        ensures ok { IfOk result (λ n. (g : Tree) × (term_of self.now ≡ Some (terms.Node g))
            × (n ≡ element_at ids.old g [])) }
        ensures number { OnOk result (ids.new ≡ ids.old + 1) }
        ensures refused { IfErr result (RefusesTree ids.old) }
        ensures kept { IfErr result (λ _. ids.new ≡ ids.old) }
    {
        let green = self.cursor.green().clone()?;
        SyntaxNode::new_root(alloc, green, ids)
    }

    /// Returns the number of its tree.
    pub fn tree(&self) -> u32
        ensures { result ≡ self.now.number }
    {
        self.tree
    }

    /// Returns its cursor, through which everything else is read.
    pub fn cursor(&self) -> &rowan::SyntaxNode<RustLanguage>
        ensures { result.now ≡ self.now.place }
    {
        &self.cursor
    }

    /// Returns its up-path: the child indices from the node up to the root, innermost first.
    pub fn way(&self, alloc: Global) -> Result<Vec<usize>, AllocError>
        ensures { IfOk result (λ v. v.items ≡ self.now.place.up) }
    {
        way_of(alloc, &self.cursor)
    }

    /// Returns its path: the child indices from the root down to the node.
    pub fn path(&self, alloc: Global) -> Result<Vec<usize>, AllocError>
        ensures { IfOk result (λ v. v.items ≡ reverse self.now.place.up) }
    {
        let mut path = self.way(alloc)?;
        path.reverse();
        Ok(path)
    }

    /// Returns its kind; `ERROR` if the raw number is not that of a kind.
    pub fn kind(&self) -> SyntaxKind
        ensures { result ≡ kind_of_raw (kind_at self.now.place) }
    {
        self.cursor.kind()
    }

    /// Returns its text range, in bytes of the text of the tree.
    pub fn text_range(&self) -> TextRange
        ensures start { result.start.0 ≡ start_of self.now.place }
        ensures end { result.end.0 ≡ end_of self.now.place }
    {
        self.cursor.text_range()
    }

    /// Returns `true` if its up-path is `way` (innermost index first).
    pub fn stands_at(&self, way: &[usize]) -> Result<bool, AllocError>
        ensures { IfOk result (λ b. b ≡ same_way self.now.place.up way.now) }
    {
        let mut place = self.cursor.clone()?;
        let mut rest = way;
        while let Some(parent) = place.parent()? {
            let Some((number, up)) = rest.split_first() else {
                return Ok(false);
            };
            if place.index() != *number {
                return Ok(false);
            }
            place = parent;
            rest = up;
        }
        Ok(rest.is_empty())
    }

    /// Returns the parent, or `None` for a root.
    pub fn parent(&self) -> Result<Option<SyntaxNode>, AllocError>
        ensures { IfOk result (λ r. r ≡ parent_of self.now) }
    {
        Ok(node_if(self.tree, self.cursor.parent()?))
    }
}

impl Clone for SyntaxNode {
    ghost is_clone = { λ n copy. copy ≡ n };

    /// Returns another handle to the node. Does not allocate.
    ///
    /// # Errors
    ///
    /// Returns an error only if the reference count overflows.
    fn clone(&self) -> Result<SyntaxNode, AllocError> {
        Ok(SyntaxNode::of(self.tree, self.cursor.clone()?))
    }
}

impl SyntaxToken {
    /// Returns the token at `cursor` in the tree with number `tree`.
    pub(crate) fn of(tree: u32, cursor: rowan::SyntaxToken<RustLanguage>) -> SyntaxToken
        ensures { result ≡ with_number tree cursor }
    {
        SyntaxToken { tree, cursor }
    }

    /// Returns a token in a new tree, whose number is the next of `ids`. The token is the only
    /// child of a root of kind `TOMBSTONE`.
    ///
    /// # Errors
    ///
    /// - [`TreeError::NoMemory`] if an allocation fails.
    /// - [`TreeError::Spent`] if no tree number is left.
    ///
    /// On error, `ids` is unchanged.
    pub fn detached(
        alloc: Global,
        green: GreenToken,
        ids: &mut TreeIds,
    ) -> Result<SyntaxToken, TreeError>
        ensures ok { IfOk result
            (λ t. t ≡ element_at ids.old (tree_of TOMBSTONE (terms.Token green ∷ [])) (0 ∷ [])) }
        ensures number { OnOk result (ids.new ≡ ids.old + 1) }
        ensures refused { IfErr result (RefusesTree ids.old) }
        ensures kept { IfErr result (λ _. ids.new ≡ ids.old) }
    {
        let root = rowan::SyntaxNode::new_root(alloc, around(alloc, green)?)?;
        let Some(NodeOrToken::Token(cursor)) = root.first_child_or_token(alloc)? else {
            unreachable!()
        };
        Ok(SyntaxToken::of(ids.next()?, cursor))
    }

    /// Returns the number of its tree.
    pub fn tree(&self) -> u32
        ensures { result ≡ self.now.number }
    {
        self.tree
    }

    /// Returns its cursor, through which everything else is read.
    pub fn cursor(&self) -> &rowan::SyntaxToken<RustLanguage>
        ensures { result.now ≡ self.now.place }
    {
        &self.cursor
    }

    /// Returns its up-path: the child indices from the token up to the root, innermost first.
    pub fn way(&self, alloc: Global) -> Result<Vec<usize>, AllocError>
        ensures { IfOk result (λ v. v.items ≡ self.now.place.up) }
    {
        let Some(parent) = self.cursor.parent()? else {
            unreachable!()
        };
        let mut way = vec![in alloc; self.cursor.index()]?;
        let mut above = way_of(alloc, &parent)?;
        way.append(&mut above)?;
        Ok(way)
    }

    /// Returns its path: the child indices from the root down to the token.
    pub fn path(&self, alloc: Global) -> Result<Vec<usize>, AllocError>
        ensures { IfOk result (λ v. v.items ≡ reverse self.now.place.up) }
    {
        let mut path = self.way(alloc)?;
        path.reverse();
        Ok(path)
    }

    /// Returns its kind; `ERROR` if the raw number is not that of a kind.
    pub fn kind(&self) -> SyntaxKind
        ensures { result ≡ kind_of_raw (kind_at self.now.place) }
    {
        self.cursor.kind()
    }

    /// Returns its text.
    pub fn text(&self) -> &str
        ensures { result.now ≡ text_at self.now.place }
    {
        self.cursor.text()
    }

    /// Returns its text range, in bytes of the text of the tree.
    pub fn text_range(&self) -> TextRange
        ensures start { result.start.0 ≡ start_of self.now.place }
        ensures end { result.end.0 ≡ end_of self.now.place }
    {
        self.cursor.text_range()
    }

    /// Returns `true` if its up-path is `way` (innermost index first).
    pub fn stands_at(&self, way: &[usize]) -> Result<bool, AllocError>
        ensures { IfOk result (λ b. b ≡ same_way self.now.place.up way.now) }
    {
        let Some(parent) = self.parent()? else {
            return Ok(way.is_empty());
        };
        let Some((number, up)) = way.split_first() else {
            return Ok(false);
        };
        if self.cursor.index() != *number {
            return Ok(false);
        }
        parent.stands_at(up)
    }

    /// Returns the parent. A token always has one.
    pub fn parent(&self) -> Result<Option<SyntaxNode>, AllocError>
        ensures { IfOk result (λ r. r ≡ parent_of self.now) }
    {
        Ok(node_if(self.tree, self.cursor.parent()?))
    }
}

/// Returns the root of the tree of a detached token: a `TOMBSTONE` node with `token` as its only
/// child.
fn around(alloc: Global, token: GreenToken) -> Result<GreenNode, AllocError>
    ensures { IfOk result (λ n. n ≡ tree_of TOMBSTONE (terms.Token token ∷ [])) }
{
    prove!(token.text_len().0 <= u32::MAX);
    let children = vec![in alloc; NodeOrToken::Token(token)]?;
    elements::node(alloc, SyntaxKind::TOMBSTONE, children)
}

impl Clone for SyntaxToken {
    ghost is_clone = { λ t copy. copy ≡ t };

    /// Returns another handle to the token. Does not allocate.
    ///
    /// # Errors
    ///
    /// Returns an error only if the reference count overflows.
    fn clone(&self) -> Result<SyntaxToken, AllocError> {
        Ok(SyntaxToken::of(self.tree, self.cursor.clone()?))
    }
}

/// Returns the node at `cursor`, if any, in the tree with number `tree`.
pub(crate) fn node_if(
    tree: u32,
    cursor: Option<rowan::SyntaxNode<RustLanguage>>,
) -> Option<SyntaxNode>
    ensures { result ≡ option_map (with_number tree) cursor }
{
    cursor.map(|cursor| SyntaxNode::of(tree, cursor))
}

/// Returns the up-path of `node`: the child indices from it up to the root, innermost first.
fn way_of(alloc: Global, node: &rowan::SyntaxNode<RustLanguage>) -> Result<Vec<usize>, AllocError>
    ensures { IfOk result (λ v. v.items ≡ node.now.up) }
{
    let mut way = Vec::new(alloc);
    let mut place = node.clone()?;
    while let Some(parent) = place.parent()? {
        way.push(place.index())?;
        place = parent;
    }
    Ok(way)
}
