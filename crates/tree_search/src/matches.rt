//! The matches in a tree.
ghost use Rattle.std.specs.Prelude.{◌≡◌, ◌≤◌, ◌∷◌, [], ◌++◌, if◌then◌else◌, length, map, reverse, take, IfOk, OnOk};
ghost use Rattle.std.specs.List.{list_any};
ghost use Rattle.std.specs.Str.{bytes_eq};
ghost use Rattle.syntax_tree.specs.declared.element.SyntaxElement.TheVariants.{Node};
ghost use Rattle.tree_search.specs.Elements.{children_below};
ghost use Rattle.tree_search.specs.Matching.{names};
ghost use Rattle.tree_search.specs.Search.{bound_elements, is_first, AreMatches};

use crate::bones::children_of;
use crate::matching::{Binding, match_at};
use rowan_green::GreenTokenRef;
use std::alloc::{AllocError, Global};
use std::marker::Model;
use syntax_tree::{SyntaxElement, SyntaxNode};
use tree_patterns::Pattern;

/// A match: an element, and what the places of the pattern stand for, in order.
#[derive(Drop)]
pub struct Match {
    element: SyntaxElement,
    bindings: Vec<Binding>,
}

impl Model for Match {
    ghost use Rattle.std.specs.Coded.{codes};
    ghost use Rattle.rowan_green.specs.Forest.{tree_code};
    ghost use Rattle.tree_search.specs.Search.{Found};

    ghost Value = { Found };

    ghost coded = { Prim.hlevel (codes, tree_code) };

    ghost view = { λ m. record { element = m.element; bound = m.bindings.items } };
}

impl Match {
    /// Returns the element that matches.
    pub fn element(&self) -> &SyntaxElement
        ensures { result.now ≡ self.now.element }
    {
        &self.element
    }

    /// Returns what the places of the pattern stand for, in order.
    pub fn bindings(&self) -> &[Binding]
        ensures { result.now ≡ self.now.bound }
    {
        self.bindings.as_slice()
    }
}

/// Puts elements on a stack, the first on top.
#[tactic(auto, using(tree_patterns::proofs::Stacks::moved))]
fn push_reversed(
    elements: Vec<SyntaxElement>,
    stack: &mut Vec<SyntaxElement>,
) -> Result<(), AllocError>
    ensures { OnOk result (stack.new.items ≡ stack.old.items ++ reverse elements.items) }
{
    let mut elements = elements;
    'elements: while let Some(element) = elements.pop() {
        stack.push(element)?;
    }
    Ok(())
}

/// Returns `true` if a place of a name is among places.
fn is_seen(seen: &[GreenTokenRef<'_>], name: &str) -> bool
    ensures { result ≡ list_any (λ l. bytes_eq l.text name.now) seen.now }
{
    seen.iter().any(|place| place.text() == name)
}

/// Returns `true` if a place is the first of its name among places, or has none.
#[tactic(auto, using(crate::proofs::Bindings::seen_names))]
fn is_first(seen: &[GreenTokenRef<'_>], name: &str) -> bool
    ensures { result ≡ is_first (map (λ l. l.text) seen.now) name.now }
{
    name == "_" || !is_seen(seen, name)
}

/// Adds elements to others.
fn extend(elements: &mut Vec<SyntaxElement>, more: &[SyntaxElement]) -> Result<(), AllocError>
    ensures { OnOk result (elements.new.items ≡ elements.old.items ++ more.now) }
{
    for element in more {
        elements.push(element.clone()?)?;
    }
    Ok(())
}

/// Returns the first places.
fn front<'a, 'b>(places: &'b [GreenTokenRef<'a>], count: usize) -> &'b [GreenTokenRef<'a>]
    requires { count ≤ length places.now }
    ensures { result.now ≡ take count places.now }
{
    &places[..count]
}

/// Adds the elements of a binding, unless a place of its name was seen.
fn extend_first(
    elements: &mut Vec<SyntaxElement>,
    seen: &[GreenTokenRef<'_>],
    name: &str,
    binding: &Binding,
) -> Result<(), AllocError>
    ensures { OnOk result (elements.new.items ≡ elements.old.items
        ++ (if is_first (map (λ l. l.text) seen.now) name.now then binding.now else [])) }
{
    if is_first(seen, name) {
        extend(elements, binding.elements())?;
        return Ok(());
    }
    Ok(())
}

/// Returns the elements that the first places of names stand for, in order.
fn bound_elements(
    alloc: Global,
    places: &[GreenTokenRef<'_>],
    bindings: &[Binding],
) -> Result<Vec<SyntaxElement>, AllocError>
    ensures { IfOk result (λ v. v.items
        ≡ bound_elements [] (map (λ l. l.text) places.now) bindings.now) }
{
    let mut elements = Vec::new(alloc);
    let mut at = 0usize;
    'places: while at < places.len() {
        if at >= bindings.len() {
            return Ok(elements);
        }
        let seen = front(places, at);
        let place = &places[at];
        let binding = &bindings[at];
        extend_first(&mut elements, seen, place.text(), binding)?;
        at += 1;
    }
    Ok(elements)
}

/// Adds a match, and puts what its places stand for on a stack, the first on top.
fn push_match(
    alloc: Global,
    pattern: &Pattern,
    found: Match,
    stack: &mut Vec<SyntaxElement>,
    matches: &mut Vec<Match>,
) -> Result<(), AllocError>
    ensures stack { OnOk result (stack.new.items
        ≡ stack.old.items ++ reverse (bound_elements [] (names pattern.now) found.bound)) }
    ensures matches { OnOk result (matches.new.items ≡ matches.old.items ++ found ∷ []) }
{
    let places = pattern.places(alloc)?;
    let inner = bound_elements(alloc, places.as_slice(), found.bindings())?;
    push_reversed(inner, stack)?;
    matches.push(found)?;
    Ok(())
}

/// Returns the children of an element, in order.
fn children_below(alloc: Global, element: &SyntaxElement) -> Result<Vec<SyntaxElement>, AllocError>
    ensures { IfOk result (λ v. v.items ≡ children_below element.now) }
{
    match element {
        SyntaxElement::Node(node) => children_of(alloc, node),
        SyntaxElement::Token(_) => Ok(Vec::new(alloc)),
    }
}

/// Returns the matches of `pattern` in the tree below `root` and in `root` itself, in source order: of a
/// node that matches, itself, then those in what its places stand for; of another one, those in its
/// children. What the pattern itself fixes is not searched again.
///
/// # Errors
///
/// [`AllocError`] if an allocation fails or a reference count overflows.
#[tactic(auto, using(crate::proofs::Searches::search_steps))]
pub fn search(alloc: Global, pattern: &Pattern, root: &SyntaxNode) -> Result<Vec<Match>, AllocError>
    ensures { IfOk result (λ v. AreMatches pattern.now (Node root.now ∷ []) v.items) }
{
    let mut matches = Vec::new(alloc);
    let mut stack = Vec::new(alloc);
    stack.push(SyntaxElement::Node(root.clone()?))?;
    'stack: while let Some(element) = stack.pop() {
        match match_at(alloc, pattern, &element)? {
            Some(bindings) => {
                let found = Match { element, bindings };
                push_match(alloc, pattern, found, &mut stack, &mut matches)?;
            }
            None => {
                let children = children_below(alloc, &element)?;
                push_reversed(children, &mut stack)?;
            }
        }
    }
    Ok(matches)
}
