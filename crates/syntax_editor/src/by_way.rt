//! Maps from the elements of a tree to indices of changes, by the paths of the elements.
ghost use Rattle.std.specs.Prelude.{◌≡◌, Some, if◌then◌else◌, OnOk, OnErr, fold};
ghost use Rattle.std.specs.Cmp.{partial_equiv_from_equiv, on_equiv};
ghost use Rattle.std.specs.Cmp.Lexicographic.{nat_list_eq_equiv};
ghost use Rattle.rowan.specs.Same.{numbers_fed};
ghost use Rattle.syntax_tree.specs.Element.{Way, same_way};
ghost use Rattle.syntax_editor.specs.ByWay.{way_of, same_named, named_alike, number_at};

use std::alloc::AllocError;
use std::collections::HashMap;
use std::collections::hash_map::Equivalent;
use std::hash::{Hash, Hasher};
use syntax_tree::SyntaxElement;

/// An element as a key: two are equal if their paths are, whatever their trees.
#[derive(Drop)]
pub(crate) struct Named(SyntaxElement);

/// A borrowed element, which is looked up among the keys without an allocation.
#[derive(Clone, Copy)]
struct Asked<'a>(&'a SyntaxElement);

/// A map from elements, by their paths, to indices of changes.
pub(crate) type Singles = HashMap<Named, usize>;

/// Returns `true` if two elements have the same path, in whatever trees they stand.
pub(crate) fn has_way_of(one: &SyntaxElement, other: &SyntaxElement) -> bool
    ensures { result ≡ same_way (way_of one.now) (way_of other.now) }
{
    match (one, other) {
        (SyntaxElement::Node(one), SyntaxElement::Node(other)) => {
            one.cursor().has_way_of(other.cursor())
        }
        (SyntaxElement::Token(one), SyntaxElement::Token(other)) => {
            one.cursor().has_way_of(other.cursor())
        }
        (SyntaxElement::Node(node), SyntaxElement::Token(token)) => {
            node.cursor().has_way_of_token(token.cursor())
        }
        (SyntaxElement::Token(token), SyntaxElement::Node(node)) => {
            node.cursor().has_way_of_token(token.cursor())
        }
    }
}

/// Feeds a hash with the path of an element.
fn hash_way<H: Hasher>(element: &SyntaxElement, state: &mut H)
    ensures { state.new ≡ fold H.write state.old (numbers_fed (way_of element.now)) }
{
    match element {
        SyntaxElement::Node(node) => node.cursor().hash_way(state),
        SyntaxElement::Token(token) => token.cursor().hash_way(state),
    }
}

impl PartialEq for Named {
    ghost eq = { λ a b. same_named a.0 b.0 };

    ghost laws = { partial_equiv_from_equiv (on_equiv (λ a. way_of a.0) nat_list_eq_equiv) };

    fn eq(&self, other: &Named) -> bool {
        has_way_of(&self.0, &other.0)
    }
}

impl Eq for Named {
    ghost laws = { on_equiv (λ a. way_of a.0) nat_list_eq_equiv };
}

impl Hash for Named {
    ghost hash_input = { λ a. numbers_fed (way_of a.0) };

    ghost respects_eq = { λ a b. named_alike a.0 b.0 };

    fn hash<H: Hasher>(&self, state: &mut H) {
        hash_way(&self.0, state);
    }
}

impl<'a> PartialEq for Asked<'a> {
    ghost eq = { λ a b. same_named a.0.now b.0.now };

    ghost laws = { partial_equiv_from_equiv (on_equiv (λ a. way_of a.0.now) nat_list_eq_equiv) };

    fn eq(&self, other: &Asked<'a>) -> bool {
        has_way_of(self.0, other.0)
    }
}

impl<'a> Eq for Asked<'a> {
    ghost laws = { on_equiv (λ a. way_of a.0.now) nat_list_eq_equiv };
}

impl<'a> Hash for Asked<'a> {
    ghost hash_input = { λ a. numbers_fed (way_of a.0.now) };

    ghost respects_eq = { λ a b. named_alike a.0.now b.0.now };

    fn hash<H: Hasher>(&self, state: &mut H) {
        hash_way(self.0, state);
    }
}

impl<'a> Equivalent<Named> for Asked<'a> {
    ghost equivalent = { λ a b. same_named a.0.now b.0 };

    ghost respects_hash = { λ a b. named_alike a.0.now b.0 };

    ghost respects_eq = { λ a x y. nat_list_eq_equiv.congr (way_of a.0.now) (way_of x.0) (way_of y.0) };

    fn equivalent(&self, key: &Named) -> bool {
        has_way_of(self.0, &key.0)
    }
}

/// Returns the index that the element has in the map, if any. It allocates nothing.
pub(crate) fn number_at(singles: &Singles, element: &SyntaxElement) -> Option<usize>
    ensures { result ≡ number_at singles.now (way_of element.now) }
{
    singles.get(Asked(element)).copied()
}

/// Maps the path of `element` to `number`, which replaces any earlier number. On error, each path
/// keeps its number.
pub(crate) fn put(
    singles: &mut Singles,
    element: SyntaxElement,
    number: usize,
) -> Result<(), AllocError>
    ensures ok { OnOk result ((w : Way) → number_at singles.new w
        ≡ (if same_way (way_of element) w then Some number else number_at singles.old w)) }
    ensures err { OnErr result ((w : Way) → number_at singles.new w ≡ number_at singles.old w) }
{
    singles.insert(Named(element), number)?;
    Ok(())
}
