//! Whether elements fit the tree of a pattern.
ghost use Rattle.std.specs.Prelude.{◌≡◌, ◌∷◌, [], ◌≤◌, ◌++◌, length, IfOk, IfSome, OnOk};
ghost use Rattle.std.specs.Prelude.{◌==◌};
ghost use Rattle.std.specs.List.{list_any};
ghost use Rattle.parser_input.specs.Kinds.{SEMICOLON};
ghost use Rattle.tree_patterns.specs.Places.{place_of};
ghost use Rattle.tree_search.specs.Elements.{is_leaf, kind_of, may_stand};
ghost use Rattle.tree_search.specs.Fit.{first_is, fit, fit_element, may_run, run_of, taken, with_taken, IsFit};

use crate::bones::{bones_of, raw_kind};
use crate::matching::Binding;
use parser_input::SyntaxKind;
use rowan_green::{Children, GreenNodeRef, GreenTokenRef, NodeOrToken};
use std::alloc::{AllocError, Global};
use syntax_tree::SyntaxElement;
use tree_patterns::Place;
use tree_patterns::place::may_be;

/// Returns `true` if `element` is the token `leaf`.
fn is_leaf(leaf: &GreenTokenRef<'_>, element: &SyntaxElement) -> bool
    ensures { result ≡ is_leaf leaf.now element.now }
{
    match element {
        SyntaxElement::Node(node) => {
            let _node = node.cursor().green();
            false
        }
        SyntaxElement::Token(token) => token.cursor().green().as_ref() == *leaf,
    }
}

/// Returns `true` if `place` may stand for `element`.
fn may_stand(place: Place, element: &SyntaxElement) -> bool
    ensures { result ≡ may_stand place element.now }
{
    match element {
        SyntaxElement::Node(node) => {
            may_be(place, &NodeOrToken::Node(node.cursor().green().as_ref()))
        }
        SyntaxElement::Token(token) => {
            may_be(place, &NodeOrToken::Token(token.cursor().green().as_ref()))
        }
    }
}

/// Returns `true` if an element is a semicolon.
fn has_semicolon(run: &[SyntaxElement]) -> bool
    ensures { result ≡ list_any (λ e. kind_of e == SEMICOLON) run.now }
{
    run.iter().any(|element| raw_kind(element) == SyntaxKind::SEMICOLON.to_raw())
}

/// Returns `true` if a sequence may stand for a run of elements.
fn may_run(place: Place, run: &[SyntaxElement]) -> bool
    ensures { result ≡ may_run place run.now }
{
    match place {
        Place::ArraySequence => !has_semicolon(run),
        _ => true,
    }
}

/// Returns 1 if the first element is the token `leaf`.
#[tactic(auto, using(crate::proofs::Taking::taking))]
fn first_leaf(leaf: &GreenTokenRef<'_>, elements: &[SyntaxElement]) -> Option<usize>
    ensures taken { result ≡ first_is (is_leaf leaf.now) elements.now }
    ensures within { IfSome result (λ n. n ≤ length elements.now) }
{
    if elements.is_empty() {
        return None;
    }
    if is_leaf(leaf, &elements[0]) {
        Some(1)
    } else {
        None
    }
}

/// Returns 1 if `place` may stand for the first element.
#[tactic(auto, using(crate::proofs::Taking::taking))]
fn first_place(place: Place, elements: &[SyntaxElement]) -> Option<usize>
    ensures taken { result ≡ first_is (may_stand place) elements.now }
    ensures within { IfSome result (λ n. n ≤ length elements.now) }
{
    if elements.is_empty() {
        return None;
    }
    if may_stand(place, &elements[0]) {
        Some(1)
    } else {
        None
    }
}

/// Returns the number of elements before the last `rest` ones, if a sequence may stand for them.
#[tactic(auto, using(crate::proofs::Taking::taking))]
fn run_of(place: Place, rest: usize, elements: &[SyntaxElement]) -> Option<usize>
    ensures taken { result ≡ run_of place rest elements.now }
    ensures within { IfSome result (λ n. n ≤ length elements.now) }
{
    if rest > elements.len() {
        return None;
    }
    let count = elements.len() - rest;
    if may_run(place, &elements[..count]) {
        Some(count)
    } else {
        None
    }
}

/// Returns the number of `elements` that a leaf of a pattern takes, before `rest` further elements of
/// the pattern.
fn taken(leaf: &GreenTokenRef<'_>, rest: usize, elements: &[SyntaxElement]) -> Option<usize>
    ensures taken { result ≡ taken leaf.now rest elements.now }
    ensures within { IfSome result (λ n. n ≤ length elements.now) }
{
    match Place::from_raw(leaf.kind().0) {
        None => first_leaf(leaf, elements),
        Some(place) => {
            if place.is_sequence() {
                run_of(place, rest, elements)
            } else {
                first_place(place, elements)
            }
        }
    }
}

/// Adds what a leaf of a pattern binds with the elements that it takes.
fn bind(
    alloc: Global,
    leaf: &GreenTokenRef<'_>,
    elements: &[SyntaxElement],
    bound: &mut Vec<Binding>,
) -> Result<(), AllocError>
    ensures { OnOk result
        (bound.new.items ≡ with_taken (place_of leaf.now.kind) elements.now bound.old.items) }
{
    if Place::from_raw(leaf.kind().0).is_none() {
        return Ok(());
    }
    bound.push(Binding::copy_of(alloc, elements)?)?;
    Ok(())
}

/// Returns the number of children that are left.
fn count_left(children: &Children<'_>) -> usize
    ensures { result ≡ length children.now }
{
    children.len()
}

/// Returns `true` if an element fits a node of a pattern, and adds what its places stand for.
#[cycle(fit)]
pub(crate) fn fit_element(
    alloc: Global,
    wanted: &GreenNodeRef<'_>,
    element: &SyntaxElement,
    bound: &mut Vec<Binding>,
) -> Result<bool, AllocError>
    ensures { IfOk result (λ is. IsFit
        (fit_element wanted.now.kind wanted.now.forest element.now bound.old.items)
        is bound.new.items) }
{
    match element {
        SyntaxElement::Token(_) => Ok(false),
        SyntaxElement::Node(node) => {
            if node.cursor().green().kind().0 != wanted.kind().0 {
                return Ok(false);
            }
            let bones = bones_of(alloc, node)?;
            fit(alloc, wanted, bones.as_slice(), bound)
        }
    }
}

/// Returns `true` if elements fit the children of a node of a pattern, one by one, and adds what its
/// places stand for.
#[cycle(fit)]
#[tactic(auto, using(crate::proofs::Fits::fit_steps))]
fn fit(
    alloc: Global,
    wanted: &GreenNodeRef<'_>,
    elements: &[SyntaxElement],
    bound: &mut Vec<Binding>,
) -> Result<bool, AllocError>
    ensures { IfOk result (λ is. IsFit
        (fit wanted.now.forest elements.now bound.old.items) is bound.new.items) }
{
    let mut left = wanted.children();
    let mut elements = elements;
    'children: while let Some(child) = left.next() {
        match child {
            NodeOrToken::Node(child) => {
                if elements.is_empty() {
                    return Ok(false);
                }
                if !fit_element(alloc, &child, &elements[0], bound)? {
                    return Ok(false);
                }
                elements = &elements[1..];
            }
            NodeOrToken::Token(leaf) => {
                let Some(count) = taken(&leaf, count_left(&left), elements) else {
                    return Ok(false);
                };
                let (run, behind) = elements.split_at(count);
                bind(alloc, &leaf, run, bound)?;
                elements = behind;
            }
        }
    }
    Ok(elements.is_empty())
}
