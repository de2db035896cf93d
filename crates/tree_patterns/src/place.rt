//! Places: the parts of a pattern that stand for parts of a text.

ghost use Rattle.std.specs.Prelude.{◌≡◌};
ghost use Rattle.tree_patterns.specs.Places.{has_let, is_sequence, may_be, may_be_node, place_of, raw_of_place};

use crate::kinds::{EXPRESSIONS, PATTERNS, TYPES, is_among};
use parser_input::SyntaxKind;
use rowan_green::{GreenElementRef, GreenNodeRef, NodeOrToken};

/// What a place of a pattern may stand for.
#[derive(Clone, Copy, Debug, PartialEq, Eq)]
pub enum Place {
    /// An expression that is no condition with `let`.
    Expression,
    Type,
    /// A pattern of values.
    Pattern,
    Path,
    /// A segment of a path.
    Segment,
    /// A name that is used.
    NameRef,
    /// A name that is declared.
    Name,
    /// An element of a token tree: a token, or a delimited group.
    Token,
    /// Any number of elements of a list.
    Sequence,
    /// Any number of elements of an array.
    ArraySequence,
}

/// The raw kind of the first place's leaf in the tree of a pattern. It is greater than the number of
/// each kind of Rust.
pub const FIRST_PLACE: u16 = 1024;

impl Place {
    /// Returns the raw kind of its leaf in the tree of a pattern.
    pub fn to_raw(self) -> u16
        ensures { result ≡ raw_of_place self }
    {
        match self {
            Place::Expression => 1024,
            Place::Type => 1025,
            Place::Pattern => 1026,
            Place::Path => 1027,
            Place::Segment => 1028,
            Place::NameRef => 1029,
            Place::Name => 1030,
            Place::Token => 1031,
            Place::Sequence => 1032,
            Place::ArraySequence => 1033,
        }
    }

    /// Returns the place that a leaf of a raw kind stands for.
    pub fn from_raw(raw: u16) -> Option<Place>
        ensures { result ≡ place_of raw }
    {
        match raw {
            1024 => Some(Place::Expression),
            1025 => Some(Place::Type),
            1026 => Some(Place::Pattern),
            1027 => Some(Place::Path),
            1028 => Some(Place::Segment),
            1029 => Some(Place::NameRef),
            1030 => Some(Place::Name),
            1031 => Some(Place::Token),
            1032 => Some(Place::Sequence),
            1033 => Some(Place::ArraySequence),
            _ => None,
        }
    }

    /// Returns `true` if it matches any number of elements.
    pub fn is_sequence(self) -> bool
        ensures { result ≡ is_sequence self }
    {
        matches!(self, Place::Sequence | Place::ArraySequence)
    }

    /// Returns the place that a sequence is in a list of a raw kind.
    pub fn of_list(kind: u16) -> Place {
        if kind == SyntaxKind::ARRAY_EXPR.to_raw() {
            Place::ArraySequence
        } else {
            Place::Sequence
        }
    }

    /// Returns the place that a node of a raw kind is if its only token is a metavariable.
    pub fn of_node(kind: u16) -> Option<Place> {
        if kind == SyntaxKind::PATH_EXPR.to_raw() {
            return Some(Place::Expression);
        }
        if kind == SyntaxKind::PATH_TYPE.to_raw() {
            return Some(Place::Type);
        }
        if kind == SyntaxKind::IDENT_PAT.to_raw() {
            return Some(Place::Pattern);
        }
        if kind == SyntaxKind::PATH.to_raw() {
            return Some(Place::Path);
        }
        if kind == SyntaxKind::PATH_SEGMENT.to_raw() {
            return Some(Place::Segment);
        }
        if kind == SyntaxKind::NAME_REF.to_raw() {
            return Some(Place::NameRef);
        }
        if kind == SyntaxKind::NAME.to_raw() {
            return Some(Place::Name);
        }
        None
    }
}

/// Returns `true` if a node is a condition with `let`: a `let`, or an operator with such an operand.
#[tactic(auto, using(crate::proofs::LeafLists::child_facts))]
pub fn has_let(node: &GreenNodeRef<'_>) -> bool
    ensures { result ≡ has_let node.now }
{
    if node.kind().0 == SyntaxKind::LET_EXPR.to_raw() {
        return true;
    }
    if node.kind().0 != SyntaxKind::BIN_EXPR.to_raw() {
        return false;
    }
    for child in node.children() {
        if let NodeOrToken::Node(child) = child {
            if has_let(&child) {
                return true;
            }
        }
    }
    false
}

/// Returns `true` if `place` may stand for a node.
fn may_be_node(place: Place, node: &GreenNodeRef<'_>) -> bool
    ensures { result ≡ may_be_node place node.now }
{
    let kind = node.kind().0;
    match place {
        Place::Expression => is_among(&EXPRESSIONS, kind) && !has_let(node),
        Place::Type => is_among(&TYPES, kind),
        Place::Pattern => is_among(&PATTERNS, kind),
        Place::Path => kind == SyntaxKind::PATH.to_raw(),
        Place::Segment => kind == SyntaxKind::PATH_SEGMENT.to_raw(),
        Place::NameRef => kind == SyntaxKind::NAME_REF.to_raw(),
        Place::Name => kind == SyntaxKind::NAME.to_raw(),
        Place::Token => true,
        Place::Sequence => false,
        Place::ArraySequence => false,
    }
}

/// Returns `true` if `place`, which is no sequence, may stand for an element.
pub fn may_be(place: Place, element: &GreenElementRef<'_>) -> bool
    ensures { result ≡ may_be place element.now }
{
    match element {
        NodeOrToken::Node(node) => may_be_node(place, node),
        NodeOrToken::Token(_) => matches!(place, Place::Token),
    }
}
