//! Comments of matches.

use crate::rule::Rule;
use crate::texts::{Span, inside, part};
use parser_input::{Edition, LexedStr, SyntaxKind};
use std::alloc::{AllocError, Global};
use syntax_tree::{SyntaxElement, SyntaxNode};
use tree_search::{Binding, Match};

/// Returns the list around the elements of a sequence.
fn list_of(elements: &[SyntaxElement]) -> Result<Option<SyntaxNode>, AllocError> {
    if elements.is_empty() {
        return Ok(None);
    }
    elements[0].parent()
}

/// Returns the bytes of what is bound: of a sequence those from its first element to its last, or all
/// between the delimiters if it has its list for itself. `None` of no elements.
pub fn extent(
    alloc: Global,
    binding: &Binding,
    is_whole: bool,
) -> Result<Option<Span>, AllocError> {
    let elements = binding.elements();
    if elements.is_empty() {
        return Ok(None);
    }
    if is_whole {
        if let Some(list) = list_of(elements)? {
            return inside(alloc, &list);
        }
    }
    let start = Span::of(&elements[0]).start;
    let end = Span::of(&elements[elements.len() - 1]).end;
    Ok(Some(Span { start, end }))
}

/// Returns the bytes that the template keeps of a match.
fn kept_of(alloc: Global, rule: &Rule, found: &Match) -> Result<Vec<Span>, AllocError> {
    let mut kept = Vec::new(alloc);
    let bindings = found.bindings();
    for (source, is_whole) in rule.sources.iter().zip(rule.wholes.iter()) {
        if *source < bindings.len() {
            if let Some(span) = extent(alloc, &bindings[*source], *is_whole)? {
                kept.push(span)?;
            }
        }
    }
    Ok(kept)
}

/// Returns the comments of a match that are in no part that the template keeps.
pub fn lost_comments(alloc: Global, rule: &Rule, found: &Match) -> Result<Vec<Span>, AllocError> {
    let mut lost = Vec::new(alloc);
    let SyntaxElement::Node(node) = found.element() else {
        return Ok(lost);
    };
    let mut kept = None;
    for element in node.descendants_with_tokens(alloc)? {
        let element = element?;
        if element.kind() != SyntaxKind::COMMENT {
            continue;
        }
        let spans: Vec<Span> = match kept.take() {
            Some(spans) => spans,
            None => kept_of(alloc, rule, found)?,
        };
        let span = Span::of(&element);
        if !spans.iter().any(|one| one.holds(span)) {
            lost.push(span)?;
        }
        kept = Some(spans);
    }
    Ok(lost)
}

/// Returns comments of a text as they come before what replaces a match: behind each of them is a space, or
/// behind one that ends its line a line feed and `indent`.
pub fn comments_before(
    alloc: Global,
    text: &str,
    comments: &[Span],
    indent: &str,
) -> Result<String, AllocError> {
    let mut before = String::new(alloc);
    for span in comments {
        let comment = part(text, span.start, span.end);
        before.push_str(comment)?;
        if comment.starts_with("//") {
            before.push_str("\n")?;
            before.push_str(indent)?;
        } else {
            before.push_str(" ")?;
        }
    }
    Ok(before)
}

/// Returns a text without the whitespace and comments that it begins with.
pub fn without_front(alloc: Global, edition: Edition, text: &str) -> Result<&str, AllocError> {
    let tokens = LexedStr::new(alloc, edition, text)?;
    for index in 0..tokens.len() {
        if !tokens.kind(index).is_trivia() {
            return Ok(part(text, tokens.text_start(index), text.len()));
        }
    }
    Ok("")
}
