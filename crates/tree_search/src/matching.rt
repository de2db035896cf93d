//! Matches of a pattern.
ghost use Rattle.std.specs.Prelude.{◌≡◌, IfOk, map, option_map};
ghost use Rattle.tree_patterns.specs.Patterns.{places};
ghost use Rattle.tree_search.specs.Matching.{agrees, all_agree, matched, names, same_name};

use crate::fit::fit_element;
use crate::tokens::same_tokens;
use rowan_green::GreenTokenRef;
use std::alloc::{AllocError, Global};
use std::marker::Model;
use syntax_tree::SyntaxElement;
use tree_patterns::Pattern;

/// What a place stands for in a match: one element, or a run of elements of a list. Model: the elements.
#[derive(Drop)]
pub struct Binding {
    elements: Vec<SyntaxElement>,
}

impl Model for Binding {
    ghost use Rattle.std.specs.Prelude.{List};
    ghost use Rattle.std.specs.Coded.{codes};
    ghost use Rattle.rowan_green.specs.Forest.{tree_code};
    ghost use Rattle.syntax_tree.specs.declared.element.SyntaxElement.{SyntaxElement};

    ghost Value = { List SyntaxElement };

    ghost coded = { Prim.hlevel (codes, tree_code) };

    ghost view = { λ b. b.elements.items };
}

impl Binding {
    /// Returns a binding of these elements.
    pub(crate) fn copy_of(alloc: Global, elements: &[SyntaxElement]) -> Result<Binding, AllocError>
        ensures { IfOk result (λ b. b ≡ elements.now) }
    {
        let mut copies = Vec::new(alloc);
        for element in elements {
            copies.push(element.clone()?)?;
        }
        Ok(Binding { elements: copies })
    }

    /// Returns its elements, in order: one where the place is no sequence.
    pub fn elements(&self) -> &[SyntaxElement]
        ensures { result.now ≡ self.now }
    {
        self.elements.as_slice()
    }
}

/// Returns `true` if two places have one name, which is not `_`.
fn same_name(name: &str, other: &str) -> bool
    ensures { result ≡ same_name name.now other.now }
{
    name != "_" && other == name
}

/// Returns `true` if a binding has the tokens of the later bindings of its name.
#[tactic(auto, using(crate::proofs::Heads::agree_steps))]
fn agrees(
    alloc: Global,
    name: &str,
    binding: &Binding,
    places: &[GreenTokenRef<'_>],
    bindings: &[Binding],
) -> Result<bool, AllocError>
    ensures { IfOk result (λ b. b
        ≡ agrees name.now binding.now (map (λ l. l.text) places.now) bindings.now) }
{
    let mut places = places;
    let mut bindings = bindings;
    'places: while !places.is_empty() {
        if bindings.is_empty() {
            return Ok(true);
        }
        if same_name(name, places[0].text()) {
            if !same_tokens(alloc, binding.elements(), bindings[0].elements())? {
                return Ok(false);
            }
        }
        places = &places[1..];
        bindings = &bindings[1..];
    }
    Ok(true)
}

/// Returns `true` if places of one name stand for equal tokens.
#[tactic(auto, using(crate::proofs::Heads::all_steps))]
fn all_agree(
    alloc: Global,
    places: &[GreenTokenRef<'_>],
    bindings: &[Binding],
) -> Result<bool, AllocError>
    ensures { IfOk result (λ b. b
        ≡ all_agree (map (λ l. l.text) places.now) bindings.now) }
{
    let mut places = places;
    let mut bindings = bindings;
    'places: while !places.is_empty() {
        if bindings.is_empty() {
            return Ok(true);
        }
        let name = places[0].text();
        if !agrees(alloc, name, &bindings[0], &places[1..], &bindings[1..])? {
            return Ok(false);
        }
        places = &places[1..];
        bindings = &bindings[1..];
    }
    Ok(true)
}

/// Returns what the places of `pattern` stand for, in order, if `element` matches it.
///
/// # Errors
///
/// [`AllocError`] if an allocation fails or a reference count overflows.
pub fn match_at(
    alloc: Global,
    pattern: &Pattern,
    element: &SyntaxElement,
) -> Result<Option<Vec<Binding>>, AllocError>
    ensures { IfOk result (λ found. option_map (λ v. v.items) found ≡ matched pattern.now element.now) }
{
    let mut bindings = Vec::new(alloc);
    if !fit_element(alloc, &pattern.tree().as_ref(), element, &mut bindings)? {
        return Ok(None);
    }
    let places = pattern.places(alloc)?;
    if !all_agree(alloc, places.as_slice(), bindings.as_slice())? {
        return Ok(None);
    }
    Ok(Some(bindings))
}
