//! A builder of green trees over a given text, so that no token copies its text.
ghost use Rattle.std.specs.Prelude.{◌≡◌, ◌+◌, ◌<◌, ◌≤◌, ◌^◌, ◌↔◌, true, length, IsCharBoundary, IfOk, IfErr, OnOk, OnErr, [], ◌∷◌};
ghost use Rattle.rowan_green.specs.Term.{FitsToken, FitsNode};
ghost use Rattle.rowan_green.specs.Word.{words};
ghost use Rattle.rowan_green.specs.Refusal.{RefusesUnless};
ghost use Rattle.rowan_green.specs.Building.{current_children};
ghost use Rattle.rowan_green.specs.TextBuilding.{text_given, with_piece, with_node, with_end, MayNotFinish};

use crate::arena::{Arena, Entry};
use crate::builder::{OpenNode, close_in, innermost, is_complete, is_root, push_open};
use crate::error::GreenError;
use crate::flat_node::FlatNode;
use crate::node::GreenNode;
use crate::syntax_kind::SyntaxKind;
use crate::utility_types::NodeOrToken;
use std::alloc::Global;
use std::marker::Model;
use std::rc::Rc;

/// The maximum length of a text, in bytes, and the maximum number of children.
const MOST: usize = u32::MAX as usize;

/// A builder of one tree over a text; each token is the next piece of it. Model: the word of the
/// accepted calls, the text, and the number of its bytes that belong to tokens.
#[derive(Drop)]
pub struct GreenTextBuilder {
    alloc: Global,
    arena: Arena,
    open_nodes: Vec<OpenNode>,
    done: Vec<Entry>,
    started: u64,
}

impl Model for GreenTextBuilder {
    ghost use Rattle.rowan_green.specs.TextBuilding.{TextBuilding};

    ghost Value = { TextBuilding };

    ghost use Rattle.std.specs.Prelude.{string_bytes};
    ghost use Rattle.rowan_green.specs.Arena.{terms_over};
    ghost use Rattle.rowan_green.specs.OpenNodes.{building_of};
    ghost use Rattle.rowan_green.specs.TextBuilding.{IsTextBuilder};

    ghost view = { λ b. record {
      building = building_of b.open_nodes.items (terms_over b.arena b.done.items) b.started;
      text = string_bytes b.arena.text;
      used = b.arena.used;
    } };

    ghost invariant = { λ b. IsTextBuilder b.open_nodes.items b.arena b.done.items };
}

/// Returns `true` if `end` is a character boundary of `text`.
#[inline(always)]
fn may_be_cut(text: &[u8], end: usize) -> bool
    requires { end ≤ length text.now }
    ensures { (result ≡ true) ↔ IsCharBoundary text.now end }
{
    match text.get(end) {
        Some(byte) => *byte < 128 || *byte >= 192,
        None => true,
    }
}

impl GreenTextBuilder {
    /// Creates a builder over `text`, without tokens and nodes.
    ///
    /// # Errors
    ///
    /// - [`GreenError::TooLong`] if `text` has 2^32 bytes or more.
    /// - [`GreenError::NoMemory`] if an allocation fails.
    pub fn new(alloc: Global, text: &str) -> Result<GreenTextBuilder, GreenError>
        ensures ok { IfOk result (λ b. b ≡ text_given text.now) }
        ensures fits { OnOk result (FitsToken text.now) }
        ensures refused { IfErr result (RefusesUnless (FitsToken text.now)) }
    {
        if text.len() > MOST {
            return Err(GreenError::TooLong);
        }
        Ok(GreenTextBuilder {
            alloc,
            arena: Arena::over(alloc, text)?,
            open_nodes: Vec::new(alloc),
            done: Vec::new(alloc),
            started: 0,
        })
    }

    /// Appends a token, whose text is the next `len` bytes of the text.
    ///
    /// # Errors
    ///
    /// - [`GreenError::TooLong`] if fewer than `len` bytes are left, or a character does not end
    ///   there.
    /// - [`GreenError::NoMemory`] if an allocation fails, or if the arena would hold 2^32 records.
    ///
    /// On error, `self` is unchanged.
    #[inline(always)]
    pub fn token(&mut self, kind: SyntaxKind, len: usize) -> Result<(), GreenError>
        ensures ok { OnOk result (self.new ≡ with_piece self.old kind.0 len) }
        ensures fits { OnOk result (IsCharBoundary self.old.text (self.old.used + len)) }
        ensures refused { IfErr result
            (RefusesUnless (IsCharBoundary self.old.text (self.old.used + len))) }
        ensures err { OnErr result (self.new ≡ self.old) }
    {
        let text = self.arena.text.as_bytes();
        let used = self.arena.used as usize;
        if len > text.len() - used || !may_be_cut(text, used + len) {
            return Err(GreenError::TooLong);
        }
        self.arena.push_piece(&mut self.done, kind.0, len)?;
        Ok(())
    }

    /// Opens a node.
    ///
    /// # Errors
    ///
    /// - [`GreenError::TooLong`] if 2^64 - 1 nodes were started.
    /// - [`GreenError::NoMemory`] if an allocation fails.
    ///
    /// On error, `self` is unchanged.
    #[inline(always)]
    pub fn start_node(&mut self, kind: SyntaxKind) -> Result<(), GreenError>
        ensures ok { OnOk result (self.new ≡ with_node self.old kind.0) }
        ensures fits { OnOk result (self.old.building.started + 1 < 2 ^ 64) }
        ensures refused { IfErr result
            (RefusesUnless (self.old.building.started + 1 < 2 ^ 64)) }
        ensures err { OnErr result (self.new ≡ self.old) }
    {
        let first = self.done.len();
        push_open(&mut self.open_nodes, &mut self.started, kind, first)
    }

    /// Closes the innermost open node.
    ///
    /// # Errors
    ///
    /// - [`GreenError::Unbalanced`] if no node is open.
    /// - [`GreenError::TooLong`] if the node has 2^32 children or more.
    /// - [`GreenError::NoMemory`] if an allocation fails, or if the arena would hold 2^32 entries.
    ///
    /// On error, `self` is unchanged.
    pub fn finish_node(&mut self) -> Result<(), GreenError>
        ensures ok { OnOk result (self.new ≡ with_end self.old) }
        ensures fits { OnOk result (FitsNode (current_children self.old.building)) }
        ensures too_long { result ≡ Err GreenError.TooLong
            → FitsNode (current_children self.old.building) → ⊥ }
        ensures unbalanced { (result ≡ Err GreenError.Unbalanced)
            ↔ (self.old.building.open_numbers ≡ []) }
        ensures err { OnErr result (self.new ≡ self.old) }
    {
        let Some(open) = innermost(&self.open_nodes) else {
            return Err(GreenError::Unbalanced);
        };
        if self.done.len() - open.first > MOST {
            return Err(GreenError::TooLong);
        }
        let root = is_root(&self.open_nodes, open);
        close_in(&mut self.arena, &mut self.done, open, root)?;
        self.open_nodes.pop();
        Ok(())
    }

    /// Returns the tree if it is one complete node.
    ///
    /// # Errors
    ///
    /// - [`GreenError::Unbalanced`] if the tree is not one complete node.
    /// - [`GreenError::NoMemory`] if an allocation fails.
    pub fn finish(self) -> Result<GreenNode, GreenError>
        ensures ok { IfOk result (λ t. self.building.word ≡ words (NodeOrToken.Node t ∷ [])) }
        ensures refused { IfErr result (MayNotFinish self.building) }
    {
        if !is_complete(&self.open_nodes, &self.done) {
            return Err(GreenError::Unbalanced);
        }
        let GreenTextBuilder {
            alloc,
            arena,
            open_nodes: _,
            done: _,
            started: _,
        } = self;
        match Rc::new(alloc, arena) {
            Ok(arena) => Ok(GreenNode::of_flat(FlatNode::of_last(arena))),
            Err(_refused) => Err(GreenError::NoMemory),
        }
    }
}
