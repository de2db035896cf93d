//! Parts of texts.

use rowan_green::GreenElementRef;
use std::alloc::{AllocError, Global};
use syntax_tree::{SyntaxElement, SyntaxNode};

/// A range of bytes.
#[derive(Clone, Copy, Debug, PartialEq, Eq)]
pub struct Span {
    pub start: usize,
    pub end: usize,
}

impl Span {
    /// Returns the bytes of an element.
    pub fn of(element: &SyntaxElement) -> Span {
        let range = element.text_range();
        Span {
            start: usize::from(range.start()),
            end: usize::from(range.end()),
        }
    }

    /// Returns the bytes of a node.
    pub fn of_node(node: &SyntaxNode) -> Span {
        let range = node.text_range();
        Span {
            start: usize::from(range.start()),
            end: usize::from(range.end()),
        }
    }

    /// Returns `true` if it has all bytes of another.
    pub fn holds(self, other: Span) -> bool {
        self.start <= other.start && other.end <= self.end
    }
}

/// Returns the text of a range; nothing if it is none of the text.
pub fn part(text: &str, start: usize, end: usize) -> &str {
    match text.get(start..end) {
        Some(part) => part,
        None => "",
    }
}

/// Returns the green node or token of an element.
pub fn green_of(element: &SyntaxElement) -> GreenElementRef<'_> {
    match element {
        SyntaxElement::Node(node) => GreenElementRef::Node(node.cursor().green().as_ref()),
        SyntaxElement::Token(token) => GreenElementRef::Token(token.cursor().green().as_ref()),
    }
}

/// Returns the text between the first and the last child of a node, where its delimiters are.
pub fn inside(alloc: Global, list: &SyntaxNode) -> Result<Option<Span>, AllocError> {
    let mut first = None;
    let mut last = None;
    for child in list.children_with_tokens(alloc)? {
        let span = Span::of(&child?);
        if first.is_none() {
            first = Some(span.end);
        }
        last = Some(span.start);
    }
    Ok(match (first, last) {
        (Some(start), Some(end)) if start <= end => Some(Span { start, end }),
        _ => None,
    })
}
