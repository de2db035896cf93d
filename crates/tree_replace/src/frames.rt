//! Frames: the smallest element around a match that its place reads by one production, whatever is beside
//! it there. Whether a text reads as it should is read off the frame alone.

use crate::same::{Change, is_changed};
use crate::texts::Span;
use parser_input::SyntaxKind;
use pattern_parser::frames::{after, before};
use pattern_parser::reading::node_between;
use pattern_parser::{Dialect, PatternError};
use std::alloc::{AllocError, Global};
use syntax_tree::SyntaxNode;
use tree_patterns::Fragment;
use tree_patterns::kinds::is_among;

/// What the place of a frame reads.
#[derive(Clone, Copy, Debug, PartialEq, Eq)]
pub enum FrameKind {
    /// An expression, a type or a pattern of values, closed by delimiters or commas.
    Closed(Fragment),
    Statement,
    /// The last of a block.
    Tail,
    FileItem,
    ModuleItem,
    AssociatedItem,
    File,
}

/// A frame.
#[derive(Drop)]
pub struct Frame {
    pub node: SyntaxNode,
    pub kind: FrameKind,
}

const EXPRESSIONS: [SyntaxKind; 4] = [
    SyntaxKind::ARG_LIST,
    SyntaxKind::ARRAY_EXPR,
    SyntaxKind::TUPLE_EXPR,
    SyntaxKind::PAREN_EXPR,
];

const TYPES: [SyntaxKind; 3] = [
    SyntaxKind::TYPE_ARG,
    SyntaxKind::TUPLE_TYPE,
    SyntaxKind::PAREN_TYPE,
];

const PATTERNS: [SyntaxKind; 3] = [
    SyntaxKind::TUPLE_PAT,
    SyntaxKind::TUPLE_STRUCT_PAT,
    SyntaxKind::SLICE_PAT,
];

/// Returns `true` if a node is the first child node of its parent.
fn is_first(alloc: Global, parent: &SyntaxNode, node: &SyntaxNode) -> Result<bool, AllocError> {
    Ok(match parent.first_child(alloc)? {
        Some(first) => first.text_range() == node.text_range(),
        None => false,
    })
}

/// Returns `true` if a node is the last child node of its parent.
fn is_last(alloc: Global, parent: &SyntaxNode, node: &SyntaxNode) -> Result<bool, AllocError> {
    Ok(match parent.last_child(alloc)? {
        Some(last) => last.text_range() == node.text_range(),
        None => false,
    })
}

/// Returns what a place in a node reads, if it reads that whatever is beside it.
fn kind_in(
    alloc: Global,
    parent: &SyntaxNode,
    node: &SyntaxNode,
) -> Result<Option<FrameKind>, AllocError> {
    let kind = parent.kind();
    let raw = kind.to_raw();
    if is_among(&EXPRESSIONS, raw) {
        return Ok(Some(FrameKind::Closed(Fragment::Expression)));
    }
    if is_among(&TYPES, raw) {
        return Ok(Some(FrameKind::Closed(Fragment::Type)));
    }
    if is_among(&PATTERNS, raw) {
        return Ok(Some(FrameKind::Closed(Fragment::Pattern)));
    }
    if kind == SyntaxKind::INDEX_EXPR && !is_first(alloc, parent, node)? {
        return Ok(Some(FrameKind::Closed(Fragment::Expression)));
    }
    if kind == SyntaxKind::STMT_LIST {
        let is_tail = is_last(alloc, parent, node)?;
        let kind = if is_tail {
            FrameKind::Tail
        } else {
            FrameKind::Statement
        };
        return Ok(Some(kind));
    }
    Ok(match kind {
        SyntaxKind::SOURCE_FILE => Some(FrameKind::FileItem),
        SyntaxKind::ITEM_LIST => Some(FrameKind::ModuleItem),
        SyntaxKind::ASSOC_ITEM_LIST => Some(FrameKind::AssociatedItem),
        _ => None,
    })
}

/// Returns the frame of a node.
pub fn frame_of(alloc: Global, node: &SyntaxNode) -> Result<Frame, AllocError> {
    let mut last = node.clone()?;
    for ancestor in node.ancestors()? {
        let ancestor = ancestor?;
        let Some(parent) = ancestor.parent()? else {
            return Ok(Frame {
                node: ancestor,
                kind: FrameKind::File,
            });
        };
        if let Some(kind) = kind_in(alloc, &parent, &ancestor)? {
            return Ok(Frame {
                node: ancestor,
                kind,
            });
        }
        last = ancestor;
    }
    Ok(Frame {
        node: last,
        kind: FrameKind::File,
    })
}

/// Returns the texts between which a frame is read.
fn texts_around(kind: FrameKind) -> (&'static str, &'static str) {
    match kind {
        FrameKind::Closed(fragment) => (before(fragment), after(fragment)),
        FrameKind::Statement => ("fn f() { ", "\nlet _ = 0; }"),
        FrameKind::Tail => ("fn f() { ", "\n}"),
        FrameKind::FileItem => ("", "\n"),
        FrameKind::ModuleItem => ("mod m { ", "\n}"),
        FrameKind::AssociatedItem => ("impl A { ", "\n}"),
        FrameKind::File => ("", ""),
    }
}

/// Returns `true` if a text reads as a frame with a change.
pub fn reads_as_changed(
    alloc: Global,
    dialect: Dialect,
    frame: &Frame,
    change: &Change<'_>,
    text: &str,
) -> Result<bool, PatternError> {
    let (before, after) = texts_around(frame.kind);
    let Some(read) = node_between(alloc, dialect, before, text, after)? else {
        return Ok(false);
    };
    let start = Span::of_node(&frame.node).start;
    let old = frame.node.cursor().green().as_ref();
    let wanted = if old.kind().0 == change.kind && Span::of_node(&frame.node) == change.span {
        change.new.kind().0
    } else {
        old.kind().0
    };
    // (nodes of the same bytes: the one of the frame's kind)
    for node in read.descendants(alloc)? {
        let node = node?;
        if node.text_range() != read.text_range() {
            return Ok(false);
        }
        let green = node.cursor().green().as_ref();
        if green.kind().0 == wanted {
            return Ok(is_changed(alloc, &old, start, change, &green)?);
        }
    }
    Ok(false)
}
