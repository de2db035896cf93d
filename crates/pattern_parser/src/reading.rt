//! What a text is as a fragment.

use crate::error::PatternError;
use crate::frames::{after, before, has_kind};
use parser_input::Edition;
use ra_parser::Grammar;
use rowan_green::{GreenNode, GreenNodeRef, NodeOrToken};
use rust_document::{Document, OpenError};
use std::alloc::Global;
use syntax_tree::{SyntaxNode, TreeIds};
use tree_patterns::Fragment;

/// The Rust that texts are read as.
#[derive(Clone, Copy, Debug, PartialEq, Eq)]
pub struct Dialect {
    pub edition: Edition,
    pub grammar: Grammar,
}

/// A range of bytes.
#[derive(Clone, Copy)]
pub struct Bounds {
    pub start: u32,
    pub end: u32,
}

/// Returns the first node below `node`, in preorder, that has the bounds. The node's text starts at `at`.
#[tactic(auto, using(tree_patterns::proofs::LeafLists::child_facts))]
fn node_over<'a>(node: &GreenNodeRef<'a>, at: u32, bounds: Bounds) -> Option<GreenNodeRef<'a>> {
    let mut at = at;
    for child in node.children() {
        let start = at;
        at = start.saturating_add(child.text_len().0);
        if let NodeOrToken::Node(inner) = child {
            if start == bounds.start && at == bounds.end {
                return Some(inner);
            }
            let found = node_over(&inner, start, bounds);
            if found.is_some() {
                return found;
            }
        }
    }
    None
}

/// Opens a text that holds a fragment.
pub fn opened(alloc: Global, dialect: Dialect, text: &str) -> Result<Document, PatternError> {
    let mut ids = TreeIds::new();
    match Document::open_by(alloc, dialect.edition, dialect.grammar, text, &mut ids) {
        Ok(document) => Ok(document),
        Err(OpenError::TooLong) => Err(PatternError::TooLong),
        Err(_) => Err(PatternError::NoMemory),
    }
}

/// Returns the number of bytes of a text.
fn size_of(text: &str) -> Result<u32, PatternError> {
    match u32::try_from(text.len()) {
        Ok(size) => Ok(size),
        Err(_) => Err(PatternError::TooLong),
    }
}

/// Returns the one node that a text is as a fragment, if it reads so without messages.
pub fn read_as(
    alloc: Global,
    dialect: Dialect,
    fragment: Fragment,
    text: &str,
) -> Result<Option<GreenNode>, PatternError> {
    let before = before(fragment);
    let after = after(fragment);
    let whole = format!(in alloc; "{before}{text}{after}")?;
    let document = opened(alloc, dialect, whole.as_str())?;
    if !document.errors().is_empty() {
        return Ok(None);
    }
    let start = size_of(before)?;
    let bounds = Bounds {
        start,
        end: start.saturating_add(size_of(text)?),
    };
    let root = document.root().cursor().green().as_ref();
    match node_over(&root, 0, bounds) {
        Some(node) if has_kind(fragment, node.kind().0) => Ok(Some(node.to_owned()?)),
        _ => Ok(None),
    }
}

/// Returns the node that a text is as a fragment, if it reads so without messages, in a new tree.
///
/// # Errors
///
/// - [`PatternError::TooLong`] if the text is past the limit of a document.
/// - [`PatternError::NoMemory`] if an allocation fails.
pub fn read_node(
    alloc: Global,
    dialect: Dialect,
    fragment: Fragment,
    text: &str,
) -> Result<Option<SyntaxNode>, PatternError> {
    let before = before(fragment);
    let after = after(fragment);
    let found = node_between(alloc, dialect, before, text, after)?;
    Ok(match found {
        Some(node) if has_kind(fragment, node.cursor().green().kind().0) => Some(node),
        _ => None,
    })
}

/// Returns the outermost node that a text is between two others, if they read so without messages.
///
/// # Errors
///
/// As of [`read_node`].
pub fn node_between(
    alloc: Global,
    dialect: Dialect,
    before: &str,
    text: &str,
    after: &str,
) -> Result<Option<SyntaxNode>, PatternError> {
    let whole = format!(in alloc; "{before}{text}{after}")?;
    let document = opened(alloc, dialect, whole.as_str())?;
    if !document.errors().is_empty() {
        return Ok(None);
    }
    let start = size_of(before)?;
    let end = start.saturating_add(size_of(text)?);
    for node in document.root().descendants(alloc)? {
        let node = node?;
        let range = node.text_range();
        if range.start().0 == start && range.end().0 == end {
            return Ok(Some(node));
        }
    }
    Ok(None)
}
