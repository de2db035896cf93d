//! Instances: a template with what a match binds in its holes.

use crate::candidate::Candidate;
use crate::comments::without_front;
use crate::error::ReplaceError;
use crate::fillings::{Filling, Making, fillings, node_with_text};
use crate::template_text::filled;
use pattern_parser::{TemplateTree, read_node};
use std::alloc::AllocError;
use syntax_tree::{SyntaxElement, SyntaxNode};
use tree_patterns::{Pattern, Place};
use tree_search::{Binding, match_at};

/// Returns `true` if what a template's hole has in a reading is what fills it.
fn is_filled(
    making: &Making<'_>,
    binding: &Binding,
    is_sequence: bool,
    filling: &Filling,
) -> Result<bool, AllocError> {
    if is_sequence {
        return Ok(binding.elements().len() == filling.count);
    }
    let bare = without_front(making.alloc, making.dialect.edition, filling.text.as_str())?;
    if let [SyntaxElement::Token(token)] = binding.elements() {
        return Ok(token.text() == bare);
    }
    let Some(node) = node_with_text(binding, bare)? else {
        return Ok(false);
    };
    Ok(match filling.closed {
        Some(kind) => node.kind() == kind,
        None => true,
    })
}

/// Returns `true` if a node is the template with what fills its holes.
fn is_instance(
    making: &Making<'_>,
    template: &Pattern,
    node: &SyntaxNode,
    fillings: &[Filling],
) -> Result<bool, ReplaceError> {
    let alloc = making.alloc;
    let element = SyntaxElement::Node(node.clone()?);
    let Some(bindings) = match_at(alloc, template, &element)? else {
        // (a place among tokens may have several)
        return Ok(
            making
                .rule
                .template
                .holes
                .iter()
                .any(|hole| hole.place == Place::Token),
        );
    };
    let holes = making.rule.template.holes.iter();
    for ((binding, hole), filling) in bindings.iter().zip(holes).zip(fillings.iter()) {
        if !is_filled(making, binding, hole.is_sequence, filling)? {
            return Ok(false);
        }
    }
    Ok(true)
}

/// Returns the text of the instance of a match, and the node that it is; `None` if it reads otherwise.
pub fn instance(
    making: &Making<'_>,
    candidates: &[Candidate<'_>],
    number: usize,
) -> Result<Option<(String, SyntaxNode)>, ReplaceError> {
    let alloc = making.alloc;
    if number >= candidates.len() {
        return Ok(None);
    }
    let fillings = fillings(making, candidates, number)?;
    let indent = candidates[number].indent.as_str();
    let text = filled(alloc, making.rule, fillings.as_slice(), indent)?;
    let fragment = making.rule.pattern.fragment();
    let Some(node) = read_node(alloc, making.dialect, fragment, text.as_str())? else {
        return Ok(None);
    };
    if let TemplateTree::Pattern(template) = &making.rule.template.tree {
        if !is_instance(making, template, &node, fillings.as_slice())? {
            return Ok(None);
        }
    }
    Ok(Some((text, node)))
}
