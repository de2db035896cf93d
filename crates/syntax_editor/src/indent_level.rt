//! The indentation of lines.
ghost use Rattle.std.specs.Prelude.{◌≡◌, ◌==◌, chars, option_map, IfOk};
ghost use Rattle.syntax_tree.specs.declared.element.SyntaxElement.TheVariants.{Node};
ghost use Rattle.syntax_editor.specs.Indent.{after_line_feed, own_level, level_at, level_of};

use parser_input::SyntaxKind;
use std::alloc::{AllocError, Global};
use std::fmt;
use std::ops::{Add, AddAssign};
use syntax_tree::{RustLanguage, SyntaxElement, SyntaxNode, SyntaxToken};

/// A number of steps of four spaces. Sums stop at 255.
#[derive(Clone, Copy, Debug, PartialEq, Eq, PartialOrd, Ord)]
pub struct IndentLevel(pub u8);

impl IndentLevel {
    /// Returns the level without steps.
    pub fn zero() -> IndentLevel
        ensures { result.0 ≡ 0 }
    {
        IndentLevel(0)
    }

    /// Returns `true` if the level has no steps.
    pub fn is_zero(&self) -> bool
        ensures { result ≡ (self.now.0 == 0) }
    {
        self.0 == 0
    }

    /// Returns the indentation of the line of `token`: a step for every four characters after the
    /// last line feed of the first whitespace with a line feed, from the token itself backwards
    /// through the tree. Without such whitespace there is no step.
    pub fn from_token(alloc: Global, token: &SyntaxToken) -> Result<IndentLevel, AllocError>
        ensures { IfOk result (λ level. level.0 ≡ level_at token.now.place) }
    {
        level_at(alloc, token.cursor().clone()?)
    }

    /// Returns the level of a node's first token. A node without tokens has no step.
    pub fn from_node(alloc: Global, node: &SyntaxNode) -> Result<IndentLevel, AllocError>
        ensures { IfOk result (λ level. level.0 ≡ level_of (Node node.now)) }
    {
        match node.cursor().first_token(alloc)? {
            Some(token) => level_at(alloc, token),
            None => Ok(IndentLevel::zero()),
        }
    }

    /// Returns the level of a token, or of a node's first token.
    pub fn from_element(alloc: Global, element: &SyntaxElement) -> Result<IndentLevel, AllocError>
        ensures { IfOk result (λ level. level.0 ≡ level_of element.now) }
    {
        match element {
            SyntaxElement::Node(node) => IndentLevel::from_node(alloc, node),
            SyntaxElement::Token(token) => IndentLevel::from_token(alloc, token),
        }
    }
}

/// Returns the number of characters after the last line feed of `text`, if it has one.
fn after_line_feed(text: &str) -> Option<usize>
    ensures { result ≡ after_line_feed (chars text.now) }
{
    // (the length of a text fits, so the count does)
    let _size = text.len();
    let mut found = false;
    let mut count = 0usize;
    for c in text.chars() {
        if c == '\n' {
            found = true;
            count = 0;
            continue;
        }
        count += 1;
    }
    if found { Some(count) } else { None }
}

/// Returns the level of a whitespace token with a line feed.
fn own_level(token: &rowan::SyntaxToken<RustLanguage>) -> Option<IndentLevel>
    ensures { option_map (λ level. level.0) result ≡ own_level token.now }
{
    if token.green().kind().0 != SyntaxKind::WHITESPACE.to_raw() {
        return None;
    }
    let steps = after_line_feed(token.text())? / 4;
    if steps < 255 {
        Some(IndentLevel(steps as u8))
    } else {
        Some(IndentLevel(255))
    }
}

/// Returns the level of the first whitespace token with a line feed, from `token` backwards; no
/// step without one.
fn level_at(
    alloc: Global,
    token: rowan::SyntaxToken<RustLanguage>,
) -> Result<IndentLevel, AllocError>
    ensures { IfOk result (λ level. level.0 ≡ level_at token) }
{
    let mut place = token;
    loop {
        if let Some(level) = own_level(&place) {
            return Ok(level);
        }
        match place.prev_token(alloc)? {
            Some(before) => place = before,
            None => return Ok(IndentLevel::zero()),
        }
    }
}

impl From<u8> for IndentLevel {
    ghost use Rattle.std.specs.Prelude.{◌≡◌};

    ghost from_gives = { λ n level. level.0 ≡ n };

    fn from(steps: u8) -> IndentLevel {
        IndentLevel(steps)
    }
}

impl Add<u8> for IndentLevel {
    type Output = IndentLevel;

    ghost use Rattle.std.specs.Prelude.{◌≡◌, ◌+◌, min};

    ghost add_gives = { λ level n r. r.0 ≡ min (level.0 + n) 255 };

    fn add(self, more: u8) -> IndentLevel {
        IndentLevel(self.0.saturating_add(more))
    }
}

impl AddAssign<u8> for IndentLevel {
    ghost use Rattle.std.specs.Prelude.{◌≡◌, ◌+◌, min};

    ghost add_assign_gives = { λ level n r. r.0 ≡ min (level.0 + n) 255 };

    fn add_assign(&mut self, more: u8) {
        *self = *self + more;
    }
}

impl fmt::Display for IndentLevel {
    ghost use Rattle.std.specs.Prelude.{Some};
    ghost use Rattle.syntax_editor.specs.Indent.{spaces};

    ghost output = { λ level. Some (spaces level.0) };

    fn fmt<W: fmt::Write>(&self, f: &mut fmt::Formatter<W>) -> fmt::Result {
        for _step in 0..self.0 {
            f.write_str("    ")?;
        }
        Ok(())
    }
}
