//! Texts of trees, read piece by piece without a copy.
ghost use Rattle.std.specs.Prelude.{◌≡◌, ◌+◌, ◌^◌, ◌<◌, ℕ, List, [], ◌++◌, length, take, drop, Result, Ok, Err};
ghost use Rattle.rowan_green.specs.Forest.{tree_text};
ghost use Rattle.rowan.specs.Text.{IsPart};

use crate::child_parts::{ChildPart, ChildParts};
use rowan_green::{GreenNodeRef, NodeOrToken};

/// A reader of a text in pieces, in order. A piece is not empty and comes with its offset.
pub(crate) trait ChunkReader: Sized {
    /// The value with which a reader stops before the end.
    type Found;

    /// Holds if a reader may read this text, in any pieces, and nothing else.
    ghost can_read: { Self → List ℕ → Type 0 };

    /// Holds for each possible result of reading a text that starts at this offset, in any pieces:
    /// the reader after it, or the value with which it stopped.
    ghost reads: { Self → ℕ → List ℕ → Result Self Self.Found → Type 0 };

    fn read(self, at: u32, chunk: &str) -> Result<Self, Self::Found>
        requires can { can_read self chunk.now }
        requires some { 0 < length chunk.now }
        requires fits { at + length chunk.now < 2 ^ 32 }
        ensures { reads self at chunk.now result };

    /// A reader that may read two texts may read the first.
    ghost begins: { (r : Self) (a b : List ℕ) → can_read r (a ++ b) → can_read r a };

    /// A reader that may read two texts may read the second after the first.
    ghost goes_on: { (r s : Self) (at : ℕ) (a b : List ℕ) → can_read r (a ++ b)
        → reads r at a (Ok s) → can_read s b };

    /// Reading the empty text changes nothing.
    ghost nothing: { (r : Self) (at : ℕ) → reads r at [] (Ok r) };

    /// Reading two texts, one after another, is reading both as one text.
    ghost further: { (r s : Self) (at : ℕ) (a b : List ℕ) (x : Result Self Self.Found)
        → reads r at a (Ok s) → reads s (at + length a) b x → reads r at (a ++ b) x };

    /// If a reader stops, the text that follows does not matter.
    ghost stopped: { (r : Self) (e : Self.Found) (at : ℕ) (a b : List ℕ) → reads r at a (Err e)
        → reads r at (a ++ b) (Err e) };
}

/// A part of a node's text: `len` bytes from offset `start` on.
#[derive(Drop)]
pub(crate) struct Part<'a> {
    pub(crate) node: GreenNodeRef<'a>,
    pub(crate) start: u32,
    pub(crate) len: u32,
}

impl Part<'_> {
    /// Passes the part to `reader`, in pieces.
    pub(crate) fn read<R: ChunkReader>(&self, reader: R) -> Result<R, R::Found>
        requires can { R.can_read reader
            (take self.now.len (drop self.now.start (tree_text self.now.node))) }
        requires part { IsPart (tree_text self.now.node)
            self.now.start (self.now.start + self.now.len) }
        ensures { R.reads reader 0
            (take self.now.len (drop self.now.start (tree_text self.now.node))) result }
    {
        read_part(
            &self.node,
            self.start as usize,
            self.len as usize,
            0,
            reader,
        )
    }
}

/// Passes `len` bytes of the node's text, from offset `skip` on, to `reader`. The reader gets `at`
/// as the offset of the first of them. Descends only into nodes that have some of these bytes.
fn read_part<R: ChunkReader>(
    node: &GreenNodeRef<'_>,
    skip: usize,
    len: usize,
    at: u32,
    reader: R,
) -> Result<R, R::Found>
    requires can { R.can_read reader (take len (drop skip (tree_text node.now))) }
    requires part { IsPart (tree_text node.now) skip (skip + len) }
    requires fits { at + len < 2 ^ 32 }
    ensures { R.reads reader at (take len (drop skip (tree_text node.now))) result }
{
    if let Some(text) = node.flat_text() {
        if len == 0 {
            return Ok(reader);
        }
        return reader.read(at, &text[skip..skip + len]);
    }
    let mut reader = reader;
    let mut place = at;
    for part in ChildParts::of(node, skip, len) {
        let ChildPart { child, start, len } = part;
        let read = match child {
            NodeOrToken::Node(node) => read_part(&node, start, len, place, reader),
            NodeOrToken::Token(token) => reader.read(place, &token.text()[start..start + len]),
        };
        match read {
            Ok(next) => reader = next,
            Err(found) => return Err(found),
        }
        place += len as u32;
    }
    Ok(reader)
}
