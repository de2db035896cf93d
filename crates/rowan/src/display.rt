//! Display of cursors: their texts.
ghost use Rattle.std.specs.Prelude.{◌+◌, take, drop, Some};
ghost use Rattle.std.specs.Fmt.{WritesOnOk};
ghost use Rattle.rowan_green.specs.Forest.{tree_text};
ghost use Rattle.rowan.specs.Text.{IsPart};
ghost use Rattle.rowan.specs.Place.{text_at};

use crate::api::{SyntaxNode, SyntaxToken};
use crate::child_parts::{ChildPart, ChildParts};
use crate::language::Language;
use crate::syntax_text::SyntaxText;
use rowan_green::{GreenNodeRef, NodeOrToken};
use std::fmt;

impl<L: Language> fmt::Display for SyntaxNode<L> {
    ghost output = { λ p. Some (text_at p) };

    fn fmt<W: fmt::Write>(&self, f: &mut fmt::Formatter<W>) -> fmt::Result {
        self.green().fmt(f)
    }
}

impl<L: Language> fmt::Display for SyntaxToken<L> {
    ghost output = { λ p. Some (text_at p) };

    fn fmt<W: fmt::Write>(&self, f: &mut fmt::Formatter<W>) -> fmt::Result {
        f.write_str(self.text())
    }
}

/// Writes `len` bytes of a node's text, after the first `skip` bytes. Descends only into nodes that
/// have some of these bytes.
fn write_part<W: fmt::Write>(
    node: &GreenNodeRef<'_>,
    skip: usize,
    len: usize,
    f: &mut fmt::Formatter<W>,
) -> fmt::Result
    requires { IsPart (tree_text node.now) skip (skip + len) }
    ensures { WritesOnOk W.write_str_gives f.old result
        (take len (drop skip (tree_text node.now))) f.new }
{
    if let Some(text) = node.flat_text() {
        if len == 0 {
            return Ok(());
        }
        return f.write_str(&text[skip..skip + len]);
    }
    for part in ChildParts::of(node, skip, len) {
        let ChildPart { child, start, len } = part;
        match child {
            NodeOrToken::Node(node) => write_part(&node, start, len, f)?,
            NodeOrToken::Token(token) => f.write_str(&token.text()[start..start + len])?,
        }
    }
    Ok(())
}

impl fmt::Display for SyntaxText {
    ghost output = { λ t. Some t };

    fn fmt<W: fmt::Write>(&self, f: &mut fmt::Formatter<W>) -> fmt::Result {
        let part = self.part();
        write_part(&part.node, part.start as usize, part.len as usize, f)
    }
}
