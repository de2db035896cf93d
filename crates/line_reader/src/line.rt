//! A line as far as it was read.

ghost use Rattle.std.specs.Prelude.{◌≡◌, ◌≢◌, ◌≤◌, ◌<◌, ◌++◌, ℕ, [], All, IsTrue, ◌↔◌, List, OnOk, true, false, length, slice_index, take, vec_len};
ghost use Rattle.line_reader.specs.Lines.{line_feed};
ghost use Rattle.line_reader.specs.Parts.{IsFront};

use std::alloc::{AllocError, Global};

/// The front of a line, of which at most a limit of bytes is kept.
#[derive(Drop)]
pub(crate) struct Line {
    /// The bytes, or none once there are more than the limit.
    pub(crate) bytes: Vec<u8>,
    /// `true` if there are more bytes than the limit.
    pub(crate) is_long: bool,
}

/// Returns the index of the first line feed, or the length.
pub(crate) fn line_len(bytes: &[u8]) -> usize
    ensures bound { result ≤ length bytes.now }
    ensures before { All (λ byte. byte ≢ line_feed) (take result bytes.now) }
    ensures at { result < length bytes.now → slice_index bytes.now result ≡ line_feed }
{
    for (i, byte) in bytes.iter().enumerate() {
        if *byte == b'\n' {
            return i;
        }
    }
    bytes.len()
}

impl Line {
    /// Returns an empty line.
    pub(crate) fn new(alloc: Global) -> Line
        ensures bytes { result.bytes.items ≡ [] }
        ensures is_long { result.is_long ≡ false }
    {
        Line {
            bytes: Vec::new(alloc),
            is_long: false,
        }
    }

    /// Returns `true` if there is no byte.
    pub(crate) fn is_empty(&self) -> bool
        ensures { (limit : ℕ) (front : List ℕ)
            → IsFront limit front self.now.bytes.items self.now.is_long
            → IsTrue result ↔ front ≡ [] }
    {
        !self.is_long && self.bytes.is_empty()
    }

    /// Makes the line empty.
    pub(crate) fn clear(&mut self)
        ensures bytes { self.new.bytes.items ≡ [] }
        ensures is_long { self.new.is_long ≡ false }
    {
        self.bytes.clear();
        self.is_long = false;
    }

    /// Appends a part of the line.
    pub(crate) fn append(&mut self, limit: usize, part: &[u8]) -> Result<(), AllocError>
        ensures { OnOk result ((front : List ℕ)
            → IsFront limit front self.old.bytes.items self.old.is_long
            → IsFront limit (front ++ part.now) self.new.bytes.items self.new.is_long) }
    {
        if self.is_long {
            return Ok(());
        }
        if part.len() > limit.saturating_sub(self.bytes.len()) {
            self.is_long = true;
            self.bytes.clear();
            return Ok(());
        }
        self.bytes.extend_from_slice(part)
    }
}
