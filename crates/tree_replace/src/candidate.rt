//! The matches of a text, with the texts that replace them.

use crate::comments::lost_comments;
use crate::error::Reason;
use crate::rule::Rule;
use crate::texts::Span;
use rust_source::Source;
use std::alloc::{AllocError, Global};
use tree_search::Match;

/// A match, and the text that replaces it.
#[derive(Drop)]
pub struct Candidate<'a> {
    pub found: &'a Match,
    pub span: Span,
    /// The spaces and tabs that begin its line.
    pub indent: String,
    /// The comments in it that are in no part that the template keeps.
    pub lost: Vec<Span>,
    /// What comes before the text that replaces it: these comments, if the options say so.
    pub comments: String,
    /// The number of the match of which it is a whole binding.
    pub owner: Option<usize>,
    /// The text in its place, behind its comments, once that is decided.
    pub new: String,
    pub refused: Option<Reason>,
}

/// Returns `true` if a range is what a place of a match stands for, as its only element.
fn is_bound(found: &Match, span: Span) -> bool {
    found
        .bindings()
        .iter()
        .any(|binding| match binding.elements() {
            [element] => Span::of(element) == span,
            _ => false,
        })
}

/// Leaves the matches around a range in `open`, the innermost last, and returns that one.
fn innermost(
    candidates: &[Candidate<'_>],
    open: &mut Vec<usize>,
    span: Span,
) -> Result<Option<usize>, AllocError> {
    'innermost: while let Some(last) = open.pop() {
        if last < candidates.len() && candidates[last].span.holds(span) {
            open.push(last)?;
            return Ok(Some(last));
        }
    }
    Ok(None)
}

/// Returns the match of which a range is a whole binding, if it is one of the match around it.
fn owner_of(candidates: &[Candidate<'_>], around: Option<usize>, span: Span) -> Option<usize> {
    let number = around?;
    if number < candidates.len() && is_bound(candidates[number].found, span) {
        Some(number)
    } else {
        None
    }
}

/// Returns a candidate for each match of a rule in a source, in order: each before those in it.
pub fn candidates_of<'a>(
    alloc: Global,
    source: &Source,
    rule: &Rule,
    matches: &'a [Match],
) -> Result<Vec<Candidate<'a>>, AllocError> {
    let mut candidates: Vec<Candidate<'a>> = Vec::new(alloc);
    let mut open = Vec::new(alloc);
    for found in matches {
        let span = Span::of(found.element());
        let indent = source.line_indent(found.element())?;
        let lost = lost_comments(alloc, rule, found)?;
        let around = innermost(candidates.as_slice(), &mut open, span)?;
        let owner = owner_of(candidates.as_slice(), around, span);
        open.push(candidates.len())?;
        candidates.push(Candidate {
            found,
            span,
            indent,
            lost,
            comments: String::new(alloc),
            owner,
            new: String::new(alloc),
            refused: None,
        })?;
    }
    Ok(candidates)
}
