//! What fills the holes of a template for a match.

use crate::asked::{is_asked, is_glued};
use crate::candidate::Candidate;
use crate::comments::{extent, without_front};
use crate::error::ReplaceError;
use crate::indents::reindented;
use crate::rule::Rule;
use crate::texts::{Span, part};
use parser_input::SyntaxKind;
use pattern_parser::{Dialect, TemplatePiece, TemplateTree, read_node};
use rust_source::Source;
use std::alloc::{AllocError, Global};
use syntax_tree::{SyntaxElement, SyntaxNode};
use tree_patterns::kinds::is_among;
use tree_patterns::{Fragment, Pattern, Place};
use tree_search::{Binding, match_at};

/// Nodes that are one delimited group.
const GROUPS: [SyntaxKind; 5] = [
    SyntaxKind::PAREN_EXPR,
    SyntaxKind::TUPLE_EXPR,
    SyntaxKind::ARRAY_EXPR,
    SyntaxKind::PAREN_TYPE,
    SyntaxKind::TUPLE_TYPE,
];

/// What all instances of a text are made of.
#[derive(Clone, Copy)]
pub struct Making<'a> {
    pub alloc: Global,
    pub dialect: Dialect,
    pub source: &'a Source,
    pub rule: &'a Rule,
}

/// What is put into a hole.
#[derive(Drop)]
pub struct Filling {
    pub text: String,
    /// The number of elements.
    pub count: usize,
    /// Whether the element is one identifier.
    pub is_name: bool,
    /// Whether it is more than a token and more than one delimited group.
    pub has_several_tokens: bool,
    /// The kind of the parentheses around it, if there are some.
    pub closed: Option<SyntaxKind>,
}

/// Returns the text of a range with the matches in it replaced that are not refused. They begin at `from`.
pub fn rewritten(
    alloc: Global,
    text: &str,
    span: Span,
    candidates: &[Candidate<'_>],
    from: usize,
) -> Result<String, AllocError> {
    let mut out = String::new(alloc);
    let mut at = span.start;
    for candidate in candidates.iter().skip(from) {
        if candidate.span.start >= span.end {
            break;
        }
        if candidate.span.start >= at && candidate.refused.is_none() {
            out.push_str(part(text, at, candidate.span.start))?;
            out.push_str(candidate.new.as_str())?;
            at = candidate.span.end;
        }
    }
    out.push_str(part(text, at, span.end))?;
    Ok(out)
}

/// Returns `true` if a binding is one identifier.
fn is_name(alloc: Global, binding: &Binding) -> Result<bool, AllocError> {
    let [SyntaxElement::Node(node)] = binding.elements() else {
        return Ok(false);
    };
    let Some(token) = node.first_token(alloc)? else {
        return Ok(false);
    };
    Ok(token.kind() == SyntaxKind::IDENT && token.text_range() == node.text_range())
}

/// Returns `true` if a binding is more than a token and more than one delimited group.
fn has_several_tokens(alloc: Global, binding: &Binding) -> Result<bool, AllocError> {
    let [SyntaxElement::Node(node)] = binding.elements() else {
        return Ok(false);
    };
    if is_among(&GROUPS, node.kind().to_raw()) {
        return Ok(false);
    }
    let Some(token) = node.first_token(alloc)? else {
        return Ok(false);
    };
    Ok(token.text_range() != node.text_range())
}

/// Returns the element whose line has the indent of a binding: of a sequence that has its list for itself
/// that of the list.
fn line_of(
    making: &Making<'_>,
    binding: &Binding,
    is_whole: bool,
) -> Result<Option<String>, AllocError> {
    let [first, ..] = binding.elements() else {
        return Ok(None);
    };
    if is_whole {
        if let Some(list) = first.parent()? {
            return Ok(Some(making.source.line_indent(&SyntaxElement::Node(list))?));
        }
    }
    Ok(Some(making.source.line_indent(first)?))
}

/// Returns what a binding puts into a hole, without parentheses. `indent` is that of the hole's line.
fn bound_text(
    making: &Making<'_>,
    candidates: &[Candidate<'_>],
    number: usize,
    hole: usize,
    indent: &str,
) -> Result<Filling, ReplaceError> {
    let alloc = making.alloc;
    let empty = Filling {
        text: String::new(alloc),
        count: 0,
        is_name: false,
        has_several_tokens: false,
        closed: None,
    };
    let rule = making.rule;
    if number >= candidates.len() || hole >= rule.sources.len() || hole >= rule.wholes.len() {
        return Ok(empty);
    }
    let bindings = candidates[number].found.bindings();
    let source = rule.sources[hole];
    if source >= bindings.len() {
        return Ok(empty);
    }
    let binding = &bindings[source];
    let is_whole = rule.wholes[hole];
    let Some(span) = extent(alloc, binding, is_whole)? else {
        return Ok(empty);
    };
    let from = number.saturating_add(1);
    let text = rewritten(alloc, making.source.text(), span, candidates, from)?;
    let text = match line_of(making, binding, is_whole)? {
        Some(old) => { reindented(alloc, making.dialect, text.as_str(), old.as_str(), indent)? }
        None => text,
    };
    Ok(Filling {
        text,
        count: binding.elements().len(),
        is_name: is_name(alloc, binding)?,
        has_several_tokens: has_several_tokens(alloc, binding)?,
        closed: None,
    })
}

/// Returns the template with one filling, and with stand-ins in the other holes; and how much of the text
/// is before the filling.
fn filled_alone(
    alloc: Global,
    rule: &Rule,
    hole: usize,
    filling: &str,
) -> Result<(String, usize), AllocError> {
    let mut out = String::new(alloc);
    let mut before = 0usize;
    for piece in &rule.template.pieces {
        match piece {
            TemplatePiece::Leaf(_, text) => out.push_str(text.as_str())?,
            TemplatePiece::Hole(number) if *number == hole => {
                before = out.len();
                out.push_str(filling)?;
            }
            TemplatePiece::Hole(number) => {
                if *number < rule.template.holes.len() {
                    out.push_str(rule.template.holes[*number].word.as_str())?;
                }
            }
        }
    }
    Ok((out, before))
}

/// Returns the one node that a binding is, if it has exactly this text.
pub fn node_with_text<'a>(
    binding: &'a Binding,
    text: &str,
) -> Result<Option<&'a SyntaxNode>, AllocError> {
    let [SyntaxElement::Node(node)] = binding.elements() else {
        return Ok(None);
    };
    Ok(if node.text()?.eq_str(text) {
        Some(node)
    } else {
        None
    })
}

/// Returns `true` if what fills a hole has to be in parentheses there: the template with it alone reads
/// otherwise, or rustc asks for them.
fn wants_parentheses(
    making: &Making<'_>,
    template: &Pattern,
    hole: usize,
    filling: &str,
) -> Result<bool, ReplaceError> {
    let alloc = making.alloc;
    let (text, before) = filled_alone(alloc, making.rule, hole, filling)?;
    let fragment = template.fragment();
    let text = text.as_str();
    let Some(node) = read_node(alloc, making.dialect, fragment, text)? else {
        return Ok(true);
    };
    let Some(bindings) = match_at(alloc, template, &SyntaxElement::Node(node))? else {
        return Ok(true);
    };
    if hole >= bindings.len() {
        return Ok(true);
    }
    let bare = without_front(alloc, making.dialect.edition, filling)?;
    let Some(place) = node_with_text(&bindings[hole], bare)? else {
        return Ok(true);
    };
    let new = place.cursor().green().as_ref();
    if is_asked(alloc, place, &new)? {
        return Ok(true);
    }
    let behind = before.saturating_add(filling.len());
    Ok(
        fragment_of(making.rule, hole) == Some(Fragment::Expression)
            && is_glued(
                part(text, 0, before),
                filling,
                part(text, behind, text.len()),
            ),
    )
}

/// Returns the fragment that fills a hole, if it can be in parentheses.
fn fragment_of(rule: &Rule, hole: usize) -> Option<Fragment> {
    if hole >= rule.sources.len() || rule.sources[hole] >= rule.places.len() {
        return None;
    }
    match rule.places[rule.sources[hole]] {
        Place::Expression => Some(Fragment::Expression),
        Place::Type => Some(Fragment::Type),
        Place::Pattern => Some(Fragment::Pattern),
        _ => None,
    }
}

/// Returns the kind of a fragment in parentheses.
pub fn parentheses(fragment: Fragment) -> Option<SyntaxKind> {
    match fragment {
        Fragment::Expression => Some(SyntaxKind::PAREN_EXPR),
        Fragment::Type => Some(SyntaxKind::PAREN_TYPE),
        Fragment::Pattern => Some(SyntaxKind::PAREN_PAT),
        Fragment::Statement => None,
        Fragment::Item => None,
    }
}

/// Returns `true` if a hole is among the tokens of a macro call.
fn is_in_tokens(rule: &Rule, hole: usize) -> bool {
    hole < rule.template.holes.len() && rule.template.holes[hole].place == Place::Token
}

/// Returns `true` if what fills a hole has to be in parentheses there.
fn has_to_be_closed(
    making: &Making<'_>,
    template: &Pattern,
    hole: usize,
    filling: &Filling,
) -> Result<bool, ReplaceError> {
    if filling.is_name {
        return Ok(false);
    }
    if is_in_tokens(making.rule, hole) {
        // (a macro may read what is beside it as operators)
        let fenced = making.rule.fenced.as_slice();
        return Ok(hole < fenced.len() && !fenced[hole] && filling.has_several_tokens);
    }
    wants_parentheses(making, template, hole, filling.text.as_str())
}

/// Puts a filling into parentheses if it has to be.
fn close(making: &Making<'_>, hole: usize, filling: Filling) -> Result<Filling, ReplaceError> {
    let TemplateTree::Pattern(template) = &making.rule.template.tree else {
        return Ok(filling);
    };
    let Some(fragment) = fragment_of(making.rule, hole) else {
        return Ok(filling);
    };
    if !has_to_be_closed(making, template, hole, &filling)? {
        return Ok(filling);
    }
    let inner = filling.text.as_str();
    let text = format!(in making.alloc; "({inner})")?;
    let closed = if is_in_tokens(making.rule, hole) {
        None
    } else {
        parentheses(fragment)
    };
    Ok(Filling {
        text,
        count: filling.count,
        is_name: false,
        has_several_tokens: false,
        closed,
    })
}

/// Returns the indent of the line of each hole in the template, behind that of the match.
fn hole_indent(
    alloc: Global,
    rule: &Rule,
    hole: usize,
    indent: &str,
) -> Result<String, AllocError> {
    let mut own = "";
    for piece in &rule.template.pieces {
        match piece {
            TemplatePiece::Leaf(kind, text) if *kind == SyntaxKind::WHITESPACE.to_raw() => {
                if let Some((_, rest)) = text.as_str().rsplit_once('\n') {
                    own = rest;
                }
            }
            TemplatePiece::Leaf(_, _) => {}
            TemplatePiece::Hole(number) => {
                if *number == hole {
                    break;
                }
            }
        }
    }
    format!(in alloc; "{indent}{own}")
}

/// Returns what fills the holes for a match.
pub fn fillings(
    making: &Making<'_>,
    candidates: &[Candidate<'_>],
    number: usize,
) -> Result<Vec<Filling>, ReplaceError> {
    let alloc = making.alloc;
    let mut fillings = Vec::new(alloc);
    if number >= candidates.len() {
        return Ok(fillings);
    }
    let indent = candidates[number].indent.as_str();
    for hole in 0..making.rule.template.holes.len() {
        let line = hole_indent(alloc, making.rule, hole, indent)?;
        let bare = bound_text(making, candidates, number, hole, line.as_str())?;
        fillings.push(close(making, hole, bare)?)?;
    }
    Ok(fillings)
}
