//! A builder of green trees, with one arena for each tree. A node is opened, gets its tokens and
//! child nodes in order, and is closed.
ghost use Rattle.std.specs.Prelude.{◌≡◌, ◌+◌, ◌-◌, ◌<◌, ◌≤◌, ◌^◌, ◌↔◌, length, IsTrue, IsOk, IfOk, IfErr, OnOk, OnErr, MatchOption, true, string_bytes, List, [], ◌∷◌, ◌++◌, take, drop};
ghost use Rattle.std.specs.Bool.{OnTrue};
ghost use Rattle.rowan_green.specs.Forest.{Tree};
ghost use Rattle.rowan_green.specs.Term.{tree_of, FitsToken, FitsNode};
ghost use Rattle.rowan_green.specs.Word.{opens, token, words};
ghost use Rattle.rowan_green.specs.Refusal.{RefusesUnless};
ghost use Rattle.rowan_green.specs.Building.{nothing_built, with_sign, with_opened, with_closed, current_children, first_or_zero, IsCurrent, OpensAround};
ghost use Rattle.rowan_green.specs.declared.utility_types.NodeOrToken.TheVariants.{Node, Token};
ghost use Rattle.rowan_green.specs.Arena.{IsGrowing, items_in, terms_at, terms_over};
ghost use Rattle.rowan_green.specs.Kept.{is_node, terms_done, IsFilled, IsRooted, IsRootedBy, IsSame};

use crate::arena::{Arena, Entry};
use crate::error::GreenError;
use crate::flat_node::FlatNode;
use crate::node::GreenNode;
use crate::node_cache::NodeCache;
use crate::syntax_kind::SyntaxKind;
use crate::utility_types::NodeOrToken;
use std::alloc::{AllocError, Global};
use std::fmt;
use std::marker::Model;
use std::rc::Rc;

/// The maximum length of a token, in bytes, and the maximum number of children.
const MOST: usize = u32::MAX as usize;

/// An open node. Its children are the complete entries from index `first` on, up to the first child
/// of the next open node.
#[derive(Clone, Copy)]
pub(crate) struct OpenNode {
    pub(crate) kind: u16,
    pub(crate) first: usize,
    pub(crate) number: u64,
}

/// A builder of one tree. Model: the word of the accepted calls.
pub struct GreenNodeBuilder<'c> {
    alloc: Global,
    cache: Option<&'c mut NodeCache>,
    arena: Option<Rc<Arena>>,
    open_nodes: Vec<OpenNode>,
    done: Vec<Entry>,
    started: u64,
}

impl Drop for GreenNodeBuilder<'_> {
    fn drop(self) {
        let GreenNodeBuilder {
            alloc: _,
            cache: _,
            arena,
            open_nodes: _,
            done: _,
            started: _,
        } = self;
        drop(arena);
    }
}

impl<'c> Model for GreenNodeBuilder<'c> {
    ghost use Rattle.rowan_green.specs.Building.{Building};

    ghost Value = { Building };

    ghost use Rattle.rowan_green.specs.Kept.{IsBuilder, terms_done};
    ghost use Rattle.rowan_green.specs.OpenNodes.{building_of};

    ghost view = { λ b.
        building_of b.open_nodes.items (terms_done b.arena b.done.items) b.started };

    ghost invariant = { λ b. IsBuilder b.open_nodes.items b.arena b.done.items };
}

/// A position in the innermost open node of a builder, after `count` of the node's children.
#[derive(Clone, Copy)]
pub struct Checkpoint {
    /// The number of the node, in the order in which the nodes were started, from 1 on; 0 if no
    /// node is open.
    pub number: u64,
    pub count: usize,
}

/// The error of a failed `finish`, with the unchanged builder.
#[derive(Drop)]
pub struct Unfinished<'c> {
    pub error: GreenError,
    pub builder: GreenNodeBuilder<'c>,
}

impl fmt::Debug for Unfinished<'_> {
    fn fmt<W: fmt::Write>(&self, f: &mut fmt::Formatter<W>) -> fmt::Result {
        self.error.fmt(f)
    }
}

impl<'c> From<Unfinished<'c>> for GreenError {
    ghost use Rattle.std.specs.Prelude.{◌≡◌};

    ghost from_gives = { λ unfinished e. e ≡ unfinished.error };

    fn from(unfinished: Unfinished<'c>) -> GreenError {
        unfinished.error
    }
}

impl<'c> GreenNodeBuilder<'c> {
    /// Creates an empty builder without a cache. Does not allocate.
    pub fn new(alloc: Global) -> GreenNodeBuilder<'c>
        ensures { result ≡ nothing_built }
    {
        GreenNodeBuilder::over(alloc, None)
    }

    /// Creates an empty builder with a cache. If `cache` has a tree that is equal to the built one,
    /// the builder returns that tree; otherwise the cache keeps the built tree for later builders.
    /// Does not allocate.
    pub fn with_cache(alloc: Global, cache: &'c mut NodeCache) -> GreenNodeBuilder<'c>
        ensures { result ≡ nothing_built }
    {
        GreenNodeBuilder::over(alloc, Some(cache))
    }

    fn over(alloc: Global, cache: Option<&'c mut NodeCache>) -> GreenNodeBuilder<'c>
        ensures { result ≡ nothing_built }
    {
        GreenNodeBuilder {
            alloc,
            cache,
            arena: None,
            open_nodes: Vec::new(alloc),
            done: Vec::new(alloc),
            started: 0,
        }
    }

    /// Appends a token.
    ///
    /// # Errors
    ///
    /// - [`GreenError::TooLong`] if `text` has 2^32 bytes or more.
    /// - [`GreenError::NoMemory`] if an allocation fails, or if the arena would hold 2^32 bytes.
    ///
    /// On error, `self` is unchanged.
    pub fn token(&mut self, kind: SyntaxKind, text: &str) -> Result<(), GreenError>
        ensures ok { OnOk result
            (self.new ≡ with_sign self.old (token (record { kind = kind.0; text = text.now }))) }
        ensures fits { OnOk result (FitsToken text.now) }
        ensures refused { IfErr result (RefusesUnless (FitsToken text.now)) }
        ensures err { OnErr result (self.new ≡ self.old) }
    {
        if text.len() > MOST {
            return Err(GreenError::TooLong);
        }
        push_token(self.alloc, &mut self.arena, &mut self.done, kind.0, text)?;
        Ok(())
    }

    /// Opens a node.
    ///
    /// # Errors
    ///
    /// - [`GreenError::TooLong`] if 2^64 - 1 nodes were started.
    /// - [`GreenError::NoMemory`] if an allocation fails.
    ///
    /// On error, `self` is unchanged.
    pub fn start_node(&mut self, kind: SyntaxKind) -> Result<(), GreenError>
        ensures ok { OnOk result
            (self.new ≡ with_opened self.old (self.old.word ++ opens kind.0 ∷ [])) }
        ensures fits { OnOk result (self.old.started + 1 < 2 ^ 64) }
        ensures refused { IfErr result (RefusesUnless (self.old.started + 1 < 2 ^ 64)) }
        ensures err { OnErr result (self.new ≡ self.old) }
    {
        let first = self.done.len();
        push_open(&mut self.open_nodes, &mut self.started, kind, first)
    }

    /// Closes the innermost open node.
    ///
    /// # Errors
    ///
    /// - [`GreenError::Unbalanced`] if no node is open.
    /// - [`GreenError::TooLong`] if the node has 2^32 children or more.
    /// - [`GreenError::NoMemory`] if an allocation fails, or if the arena would hold 2^32 entries.
    ///
    /// On error, `self` is unchanged.
    pub fn finish_node(&mut self) -> Result<(), GreenError>
        ensures ok { OnOk result (self.new ≡ with_closed self.old) }
        ensures fits { OnOk result (FitsNode (current_children self.old)) }
        ensures too_long { result ≡ Err GreenError.TooLong
            → FitsNode (current_children self.old) → ⊥ }
        ensures unbalanced { (result ≡ Err GreenError.Unbalanced) ↔ (self.old.open_numbers ≡ []) }
        ensures err { OnErr result (self.new ≡ self.old) }
    {
        let Some(open) = innermost(&self.open_nodes) else {
            return Err(GreenError::Unbalanced);
        };
        let root = is_root(&self.open_nodes, open);
        close(self.alloc, &mut self.arena, &mut self.done, open, root)?;
        self.open_nodes.pop();
        Ok(())
    }

    /// Returns the position after the current children of the innermost open node.
    pub fn checkpoint(&self) -> Checkpoint
        ensures number { result.number ≡ first_or_zero self.now.open_numbers }
        ensures count { result.count ≡ length (current_children self.now) }
    {
        let complete = self.done.len();
        match innermost(&self.open_nodes) {
            Some(open) => Checkpoint {
                number: open.number,
                count: complete - open.first,
            },
            None => Checkpoint {
                number: 0,
                count: complete,
            },
        }
    }

    /// Returns `true` if the node of `checkpoint` is the innermost open node, and has at least as
    /// many children as at the checkpoint.
    pub fn is_checkpoint(&self, checkpoint: Checkpoint) -> bool
        ensures { IsTrue result ↔ IsCurrent self.now checkpoint.number checkpoint.count }
    {
        let now = self.checkpoint();
        checkpoint.number == now.number && checkpoint.count <= now.count
    }

    /// Opens a node around the children after `checkpoint`.
    ///
    /// # Errors
    ///
    /// - [`GreenError::Unbalanced`] if [`is_checkpoint`](Self::is_checkpoint) is `false`.
    /// - [`GreenError::TooLong`] if 2^64 - 1 nodes were started.
    /// - [`GreenError::NoMemory`] if an allocation fails.
    ///
    /// On error, `self` is unchanged.
    pub fn start_node_at(
        &mut self,
        checkpoint: Checkpoint,
        kind: SyntaxKind,
    ) -> Result<(), GreenError>
        ensures ok { OnOk result (OpensAround self.old self.new kind.0 checkpoint.count) }
        ensures fits { OnOk result (self.old.started + 1 < 2 ^ 64) }
        ensures too_long { result ≡ Err GreenError.TooLong → 2 ^ 64 ≤ self.old.started + 1 }
        ensures unbalanced { (result ≡ Err GreenError.Unbalanced) ↔
            (IsCurrent self.old checkpoint.number checkpoint.count → ⊥) }
        ensures err { OnErr result (self.new ≡ self.old) }
    {
        let now = self.checkpoint();
        if checkpoint.number != now.number || checkpoint.count > now.count {
            return Err(GreenError::Unbalanced);
        }
        let first = self.done.len() - (now.count - checkpoint.count);
        push_open(&mut self.open_nodes, &mut self.started, kind, first)
    }

    /// Returns the tree if it is one complete node. Only a cache allocates, to keep the tree; if
    /// that fails, the cache does not keep it.
    ///
    /// # Errors
    ///
    /// [`GreenError::Unbalanced`], with the unchanged builder, if the tree is not one complete
    /// node.
    pub fn finish(self) -> Result<GreenNode, Unfinished<'c>>
        ensures ok { IfOk result (λ t. self.entry.word ≡ words (NodeOrToken.Node t ∷ [])) }
        ensures succeeds { (t : Tree) → self.entry.word ≡ words (NodeOrToken.Node t ∷ [])
            → IsOk result }
        ensures err { IfErr result
            (λ e. (e.error ≡ GreenError.Unbalanced) × (e.builder ≡ self.entry)) }
    {
        if !is_complete(&self.open_nodes, &self.done) {
            return Err(Unfinished {
                error: GreenError::Unbalanced,
                builder: self,
            });
        }
        let GreenNodeBuilder {
            alloc: _,
            cache,
            arena,
            open_nodes: _,
            done: _,
            started: _,
        } = self;
        match arena {
            Some(arena) => Ok(share(cache, GreenNode::of_flat(FlatNode::of_last(arena)))),
            None => unreachable!(),
        }
    }
}

/// Returns the equal tree of the cache if there is one; otherwise returns `tree`, which the cache
/// keeps.
fn share(cache: Option<&mut NodeCache>, tree: GreenNode) -> GreenNode
    ensures { result ≡ tree }
{
    match cache {
        Some(cache) => cache.share(tree),
        None => tree,
    }
}

/// Returns the innermost open node, or `None` if no node is open.
pub(crate) fn innermost(open_nodes: &[OpenNode]) -> Option<OpenNode>
    ensures { let os = open_nodes.now in
        MatchOption result (os ≡ []) (λ o. os ≡ take (length os - 1) os ++ o ∷ []) }
{
    open_nodes.last().copied()
}

/// Returns `true` if `open` is the only open node, and all complete entries are its children.
pub(crate) fn is_root(open_nodes: &[OpenNode], open: OpenNode) -> bool
    ensures whole { OnTrue result (open.first ≡ 0) }
    ensures alone { length open_nodes.now ≡ 1 → open.first ≡ 0 → result ≡ true }
{
    open_nodes.len() == 1 && open.first == 0
}

/// Returns `true` if no node is open, and one node is the only complete entry.
pub(crate) fn is_complete(open_nodes: &[OpenNode], done: &[Entry]) -> bool
    ensures nothing_open { OnTrue result (open_nodes.now ≡ []) }
    ensures one_node { OnTrue result ((e : Entry) × (done.now ≡ e ∷ []) × (is_node e ≡ true)) }
    ensures complete { (e : Entry) → open_nodes.now ≡ [] → done.now ≡ e ∷ [] → is_node e ≡ true
        → result ≡ true }
{
    open_nodes.is_empty() && matches!(done, [Entry::Few(_, _, _)] | [Entry::Many(_, _)])
}

/// Opens a node whose children start at index `first`.
#[inline(always)]
pub(crate) fn push_open(
    open_nodes: &mut Vec<OpenNode>,
    started: &mut u64,
    kind: SyntaxKind,
    first: usize,
) -> Result<(), GreenError>
    ensures opened { OnOk result (open_nodes.new.items ≡ open_nodes.old.items ++
        record { kind = kind.0; first = first; number = started.old + 1 } ∷ []) }
    ensures counted { OnOk result (started.new ≡ started.old + 1) }
    ensures fits { OnOk result (started.old + 1 < 2 ^ 64) }
    ensures refused { IfErr result (RefusesUnless (started.old + 1 < 2 ^ 64)) }
    ensures same_nodes { OnErr result (open_nodes.new.items ≡ open_nodes.old.items) }
    ensures same_count { OnErr result (started.new ≡ started.old) }
{
    let Some(number) = started.checked_add(1) else {
        return Err(GreenError::TooLong);
    };
    open_nodes.push(OpenNode {
        kind: kind.0,
        first,
        number,
    })?;
    *started = number;
    Ok(())
}

/// Creates the arena if there is none.
fn make_arena(alloc: Global, arena: &mut Option<Rc<Arena>>) -> Result<(), AllocError>
    ensures { (done : List Entry) → IsFilled arena.old done → IsSame arena.old arena.new done }
{
    if arena.is_none() {
        *arena = Some(Rc::new(alloc, Arena::new(alloc))?);
    }
    Ok(())
}

/// Appends a token to the arena, which is created if there is none.
fn push_token(
    alloc: Global,
    arena: &mut Option<Rc<Arena>>,
    done: &mut Vec<Entry>,
    kind: u16,
    text: &str,
) -> Result<(), AllocError>
    requires { IsFilled arena.old done.old.items }
    ensures filled { IsFilled arena.new done.new.items }
    ensures ok { OnOk result (terms_done arena.new done.new.items
        ≡ terms_done arena.old done.old.items
        ++ Token (record { kind = kind; text = text.now }) ∷ []) }
    ensures err { OnErr result
        (terms_done arena.new done.new.items ≡ terms_done arena.old done.old.items) }
    ensures rooted { OnErr result (IsRooted arena.old done.old.items
        → IsRooted arena.new done.new.items) }
{
    make_arena(alloc, arena)?;
    let Some(shared) = arena else {
        return Err(AllocError);
    };
    let Some(arena) = Rc::get_mut(shared) else {
        return Err(AllocError);
    };
    arena.push_token(done, kind, text)
}

/// Closes an open node of the arena, which is created if there is none. The children are
/// `done[open.first..]`. A root becomes the last entry of the arena.
fn close(
    alloc: Global,
    arena: &mut Option<Rc<Arena>>,
    done: &mut Vec<Entry>,
    open: OpenNode,
    is_root: bool,
) -> Result<(), GreenError>
    requires filled { IsFilled arena.old done.old.items }
    requires within { open.first ≤ length done.old.items }
    requires whole { OnTrue is_root (open.first ≡ 0) }
    ensures filled { IsFilled arena.new done.new.items }
    ensures ok { OnOk result (terms_done arena.new done.new.items
        ≡ take open.first (terms_done arena.old done.old.items)
        ++ Node (tree_of open.kind (drop open.first (terms_done arena.old done.old.items))) ∷ []) }
    ensures fits { OnOk result
        (FitsNode (drop open.first (terms_done arena.old done.old.items))) }
    ensures refused { IfErr result
        (RefusesUnless (FitsNode (drop open.first (terms_done arena.old done.old.items)))) }
    ensures rooted { OnOk result (OnTrue is_root (IsRooted arena.new done.new.items)) }
    ensures err { OnErr result
        (terms_done arena.new done.new.items ≡ terms_done arena.old done.old.items) }
{
    if done.len() - open.first > MOST {
        return Err(GreenError::TooLong);
    }
    make_arena(alloc, arena)?;
    let Some(shared) = arena else {
        return Err(GreenError::NoMemory);
    };
    let Some(arena) = Rc::get_mut(shared) else {
        return Err(GreenError::NoMemory);
    };
    close_in(arena, done, open, is_root)?;
    Ok(())
}

/// Closes an open node of an arena. A root becomes the last entry of the arena.
#[inline(always)]
pub(crate) fn close_in(
    arena: &mut Arena,
    done: &mut Vec<Entry>,
    open: OpenNode,
    is_root: bool,
) -> Result<(), AllocError>
    requires growing { IsGrowing arena.old done.old.items }
    requires within { open.first ≤ length done.old.items }
    requires whole { OnTrue is_root (open.first ≡ 0) }
    ensures growing { IsGrowing arena.new done.new.items }
    ensures text { string_bytes arena.new.text ≡ string_bytes arena.old.text }
    ensures used { arena.new.used ≡ arena.old.used }
    ensures ok { OnOk result (terms_over arena.new done.new.items
        ≡ take open.first (terms_over arena.old done.old.items)
        ++ Node (tree_of open.kind (drop open.first (terms_over arena.old done.old.items))) ∷ []) }
    ensures rooted { OnOk result (OnTrue is_root
        (IsRootedBy (terms_over arena.new done.new.items) (terms_at (items_in arena.new)))) }
    ensures err { OnErr result
        (terms_over arena.new done.new.items ≡ terms_over arena.old done.old.items) }
{
    if is_root {
        arena.close_root(done, open.kind)?;
    } else {
        arena.close(done, open.kind, open.first)?;
    }
    Ok(())
}
