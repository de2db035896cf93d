//! Characters in texts of trees.
ghost use Rattle.std.specs.Prelude.{ℕ, ◌<◌, take, MatchOption};
ghost use Rattle.std.specs.Bool.{MatchBool};
ghost use Rattle.rowan_green.specs.Forest.{tree_text};
ghost use Rattle.rowan.specs.Text.{IsCut, Lacks, FirstAt, IsCharAt};

use crate::chunks::ChunkReader;
use crate::syntax_text::SyntaxText;
use rowan_green::{GreenNodeRef, NodeOrToken, TextSize};

/// A search for a character, which stops with the offset of the character.
#[derive(Drop)]
struct CharSearch {
    wanted: char,
}

impl ChunkReader for CharSearch {
    type Found = u32;

    ghost use Rattle.std.specs.Prelude.{⊤};
    ghost use Rattle.rowan.specs.Reading.{Finds, finds_nothing, finds_further, finds_stopped};

    ghost can_read = { λ _ _. ⊤ };

    ghost begins = { λ _ _ _ _. tt };

    ghost goes_on = { λ _ _ _ _ _ _ _. tt };

    ghost reads = { Finds (λ s. s.wanted) };

    ghost nothing = { finds_nothing _ };

    ghost further = { finds_further _ };

    ghost stopped = { finds_stopped _ };

    fn read(self, at: u32, chunk: &str) -> Result<CharSearch, u32> {
        match chunk.find(self.wanted) {
            Some(index) => Err(at + index as u32),
            None => Ok(self),
        }
    }
}

impl SyntaxText {
    /// Returns the offset of the first occurrence of `wanted`, in bytes. Descends only into nodes
    /// that have some of the text.
    pub fn find_char(&self, wanted: char) -> Option<TextSize>
        ensures { MatchOption result (Lacks wanted self.now) (λ n. FirstAt wanted self.now n.0) }
    {
        match self.part().read(CharSearch { wanted }) {
            Ok(_) => None,
            Err(byte) => Some(TextSize(byte)),
        }
    }

    /// Returns `true` if the text contains `wanted`.
    pub fn contains_char(&self, wanted: char) -> bool
        ensures { MatchBool result ((n : ℕ) × FirstAt wanted self.now n) (Lacks wanted self.now) }
    {
        self.find_char(wanted).is_some()
    }

    /// Returns the character that starts at byte `offset` of the text, if any: no character starts
    /// at the text's end, after it, or inside another. Descends one path.
    pub fn char_at(&self, offset: TextSize) -> Option<char>
        ensures { IsCharAt self.now offset.0 result }
    {
        let part = self.part();
        if offset.0 >= part.len {
            return None;
        }
        char_in(part.node, part.start + offset.0, part.start + part.len)
    }
}

/// Returns the character that starts at offset `byte` of the first `end` bytes of the node's text;
/// `None` if no character starts there.
fn char_in(node: GreenNodeRef<'_>, byte: u32, end: u32) -> Option<char>
    requires cut { IsCut (tree_text node) end }
    requires before { byte < end }
    ensures { IsCharAt (take end (tree_text node.entry)) byte result }
{
    let mut inside = node;
    let mut byte = byte;
    let mut end = end;
    'down: loop {
        if let Some(text) = inside.flat_text() {
            return char_of(&text[..end as usize], byte);
        }
        let found = inside.child_at_offset(TextSize(byte))?;
        let child = inside.child(found.index)?;
        let offset = byte - found.start.0;
        let within = (end - found.start.0).min(child.text_len().0);
        match child {
            NodeOrToken::Node(node) => {
                inside = node;
                byte = offset;
                end = within;
            }
            NodeOrToken::Token(token) => return char_of(&token.text()[..within as usize], offset),
        }
    }
}

/// Returns the character that starts at offset `byte`, if any.
fn char_of(text: &str, byte: u32) -> Option<char>
    ensures { IsCharAt text.now byte result }
{
    if !text.is_char_boundary(byte as usize) {
        return None;
    }
    text[byte as usize..].chars().next()
}
