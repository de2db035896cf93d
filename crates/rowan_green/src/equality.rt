//! Equality of nodes and elements: kinds, shapes and texts.
ghost use Rattle.std.specs.Prelude.{◌≡◌, ◌≤◌, ◌&&◌, max};
ghost use Rattle.rowan_green.specs.Forest.{same_forest, same_tree, tree_count, forest_count};
ghost use Rattle.rowan_green.specs.Term.{children_of, forest_of, same_term, term_count};
ghost use Rattle.rowan_green.specs.Comparing.{outcome, pending_count};

use crate::element_ref::{GreenElementRef, GreenNodeRef};
use crate::utility_types::NodeOrToken;

/// The result of comparing two lists, or the pair of nodes on which it depends.
#[derive(Drop)]
enum Comparison<'a> {
    Different,
    Same,
    Pending(GreenNodeRef<'a>, GreenNodeRef<'a>),
}

/// Returns `true` if the nodes are equal.
///
/// A loop continues with one pair of children; calls compare the other pairs. Those have at most
/// half of the text of `a` each, so the calls nest to the logarithm of its length.
#[cycle(same)]
pub(crate) fn same_node<'a>(a: GreenNodeRef<'a>, b: GreenNodeRef<'a>) -> bool
    ensures { result ≡ same_tree a.entry b.entry }
{
    let mut one = a;
    let mut two = b;
    'down: loop {
        if one.kind().0 != two.kind().0 {
            return false;
        }
        match same_children(&one, &two) {
            Comparison::Different => return false,
            Comparison::Same => return true,
            Comparison::Pending(child, other) => {
                one = child;
                two = other;
            }
        }
    }
}

/// Compares the children of two nodes, except one pair of nodes.
#[cycle(same)]
fn same_children<'a>(a: &GreenNodeRef<'a>, b: &GreenNodeRef<'a>) -> Comparison<'a>
    ensures outcome { outcome result
        ≡ same_forest (forest_of (children_of a.now)) (forest_of (children_of b.now)) }
    ensures below { pending_count result ≤ forest_count (forest_of (children_of a.now)) }
{
    let count = a.child_count();
    if count != b.child_count() {
        return Comparison::Different;
    }
    let mut comparison = Comparison::Same;
    for i in 0..count {
        comparison = with_pair(comparison, a.child_at(i), b.child_at(i));
        if let Comparison::Different = comparison {
            return Comparison::Different;
        }
    }
    comparison
}

/// Compares one more pair of elements.
#[cycle(same)]
fn with_pair<'a>(
    comparison: Comparison<'a>,
    a: GreenElementRef<'a>,
    b: GreenElementRef<'a>,
) -> Comparison<'a>
    ensures outcome { outcome result ≡ (outcome comparison.entry && same_term a.entry b.entry) }
    ensures below { pending_count result
        ≤ max (pending_count comparison.entry) (term_count a.entry) }
{
    match a {
        NodeOrToken::Node(a) => match b {
            NodeOrToken::Node(b) => with_nodes(comparison, a, b),
            NodeOrToken::Token(_) => Comparison::Different,
        },
        NodeOrToken::Token(a) => match b {
            NodeOrToken::Node(_) => Comparison::Different,
            NodeOrToken::Token(b) => {
                if a == b {
                    comparison
                } else {
                    Comparison::Different
                }
            }
        },
    }
}

/// Compares one more pair of nodes. If a pair is pending already, compares the pair with the
/// shorter text.
#[cycle(same)]
fn with_nodes<'a>(
    comparison: Comparison<'a>,
    a: GreenNodeRef<'a>,
    b: GreenNodeRef<'a>,
) -> Comparison<'a>
    ensures outcome { outcome result ≡ (outcome comparison.entry && same_tree a.entry b.entry) }
    ensures below { pending_count result
        ≤ max (pending_count comparison.entry) (tree_count a.entry) }
{
    match comparison {
        Comparison::Different => Comparison::Different,
        Comparison::Same => Comparison::Pending(a, b),
        Comparison::Pending(one, two) => {
            if a.text_len().0 <= one.text_len().0 {
                if same_node(a, b) {
                    Comparison::Pending(one, two)
                } else {
                    Comparison::Different
                }
            } else if same_node(one, two) {
                Comparison::Pending(a, b)
            } else {
                Comparison::Different
            }
        }
    }
}
