//! Puts `#[must_use]` before every `pub fn` that returns a type and lacks the attribute.
#![tactic(auto)]

ghost use Rattle.std.specs.Prelude.{◌≡◌, length, map, option_map, IfErr, IfOk, OnOk};
ghost use Rattle.rust_source.specs.Changes.{OnlyAdds};
ghost use Rattle.rust_source.specs.Elements.{element_of};
ghost use Rattle.must_use_tool.specs.Marks.{IsMarked};
ghost use Rattle.must_use_tool.specs.Places.{has_must_use, is_must_use, place_of, places, places_in};

use rust_source::{
    AstNode, Fn, FnParts, HasAttributes, HasVisibility, Source, SourceError, SyntaxElement,
    SyntaxKind, SyntaxNode, is_of_kind,
};
use std::alloc::{AllocError, Global};

/// Returns `true` if an attribute is a `must_use`, with or without a reason.
fn is_must_use(alloc: Global, attribute: &SyntaxNode) -> Result<bool, AllocError>
    ensures { IfOk result (λ b. b ≡ is_must_use attribute.now) }
{
    for node in attribute.descendants(alloc)? {
        let node = node?;
        if is_of_kind(&node, SyntaxKind::PATH) {
            return Ok(node.text()?.eq_str("must_use"));
        }
    }
    Ok(false)
}

/// Returns `true` if a function has the attribute.
fn has_must_use(alloc: Global, function: &Fn) -> Result<bool, AllocError>
    ensures { IfOk result (λ b. b ≡ has_must_use function.now.syntax) }
{
    for attribute in function.attributes(alloc)? {
        if is_must_use(alloc, &attribute?)? {
            return Ok(true);
        }
    }
    Ok(false)
}

/// Returns the `pub` of `node` if it is a function that is to have the attribute.
fn place_of(alloc: Global, node: SyntaxNode) -> Result<Option<SyntaxElement>, AllocError>
    ensures { IfOk result (λ place. option_map element_of place ≡ place_of node) }
{
    let Some(function) = Fn::cast(node) else {
        return Ok(None);
    };
    if function.ret_type(alloc)?.is_none() || has_must_use(alloc, &function)? {
        return Ok(None);
    }
    let Some(visibility) = function.visibility(alloc)? else {
        return Ok(None);
    };
    // (`pub(crate)` is more than the word)
    if visibility.text()?.eq_str("pub") {
        return Ok(Some(SyntaxElement::Node(visibility)));
    }
    Ok(None)
}

/// Returns the `pub` of each function of a tree that is to have the attribute.
fn places(alloc: Global, root: &SyntaxNode) -> Result<Vec<SyntaxElement>, AllocError>
    ensures { IfOk result (λ places. map element_of places.items ≡ places_in root.now) }
{
    let mut places = Vec::new(alloc);
    for node in root.descendants(alloc)? {
        if let Some(place) = place_of(alloc, node?)? {
            places.push(place)?;
        }
    }
    Ok(places)
}

/// Puts the attribute before each such function, on a line of its own, and returns how often. Nothing is
/// replaced or deleted.
///
/// # Errors
///
/// As of the calls of [`Source`]. On error, the document is unchanged.
pub fn add_must_use(source: &mut Source) -> Result<usize, SourceError>
    ensures marked { OnOk result (IsMarked source.old source.new.document) }
    ensures count { IfOk result (λ count. count ≡ length (places source.old.document)) }
    ensures adds { OnOk result (OnlyAdds source.old.document source.new.document) }
    ensures kept { IfErr result (λ _. source.new.document ≡ source.old.document) }
{
    let attribute = SyntaxElement::Node(source.payload_attribute("#[must_use]")?);
    let places = places(source.alloc(), source.root())?;
    let mut editor = source.editor()?;
    for place in &places {
        source.insert_on_line_before(&mut editor, place, &attribute)?;
    }
    source.commit_without_messages(editor)?;
    Ok(places.len())
}
