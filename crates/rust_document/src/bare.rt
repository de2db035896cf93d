//! Compares trees without their whitespace and comments.
ghost use Rattle.std.specs.Prelude.{◌≡◌, ◌≤◌, ◌<◌, ◌&&◌, max, MatchOption};
ghost use Rattle.rowan_green.specs.Forest.{empty, same_tree, tree_count};
ghost use Rattle.rowan_green.specs.Term.{forest_of, term_count};
ghost use Rattle.rust_document.specs.Bare.{is_left_out, Steps};
ghost use Rattle.rust_document.specs.Comparing.{outcome, pending_count, same_bare_term};
ghost use Rattle.rust_document.specs.Rewrite.{bare};
ghost use Rattle.rust_document.specs.Step.{bare_tree};

use parser_input::syntax_kind::SyntaxKind;
use rowan_green::{Children, GreenElementRef, GreenNode, GreenNodeRef, NodeOrToken};

/// Returns `true` if an element is whitespace or a comment.
pub fn is_left_out(element: &GreenElementRef<'_>) -> bool
    ensures { result ≡ is_left_out element.now }
{
    let NodeOrToken::Token(token) = element else {
        return false;
    };
    let kind = token.kind().0;
    kind == SyntaxKind::WHITESPACE.to_raw() || kind == SyntaxKind::COMMENT.to_raw()
}

/// Returns the next child that is neither whitespace nor a comment.
fn next_bare<'a>(children: &mut Children<'a>) -> Option<GreenElementRef<'a>>
    ensures { MatchOption result (bare (forest_of children.old) ≡ empty)
        (λ e. Steps children.old e children.new) }
{
    'children: while let Some(child) = children.next() {
        if !is_left_out(&child) {
            return Some(child);
        }
    }
    None
}

/// A comparison of two lists: the answer, or the two nodes on which it depends.
#[derive(Drop)]
enum Comparison<'a> {
    Different,
    Same,
    Pending(GreenNodeRef<'a>, GreenNodeRef<'a>),
}

/// Returns `true` if two trees are equal apart from whitespace and comments.
pub fn same_bare(a: &GreenNode, b: &GreenNode) -> bool
    ensures { result ≡ same_tree (bare_tree a.now) (bare_tree b.now) }
{
    same_nodes(a.as_ref(), b.as_ref())
}

/// Returns `true` if two nodes are equal apart from whitespace and comments.
///
/// A loop goes on with one pair of children, and only the other pairs are compared by calls. Those
/// have at most half of the text of `a` each, so the calls nest to the logarithm of its length.
#[cycle(same)]
fn same_nodes<'a>(a: GreenNodeRef<'a>, b: GreenNodeRef<'a>) -> bool
    ensures { result ≡ same_tree (bare_tree a.entry) (bare_tree b.entry) }
{
    let mut one = a;
    let mut two = b;
    'down: loop {
        match compared(&one, &two) {
            Comparison::Different => return false,
            Comparison::Same => return true,
            Comparison::Pending(child, other) => {
                one = child;
                two = other;
            }
        }
    }
}

/// Compares two nodes, except one pair of their children.
#[cycle(same)]
fn compared<'a>(a: &GreenNodeRef<'a>, b: &GreenNodeRef<'a>) -> Comparison<'a>
    ensures outcome { outcome result ≡ same_tree (bare_tree a.now) (bare_tree b.now) }
    ensures below { pending_count result < tree_count a.now }
{
    if a.kind() != b.kind() {
        return Comparison::Different;
    }
    let mut left = a.children();
    let mut right = b.children();
    let mut comparison = Comparison::Same;
    'children: while let Some(x) = next_bare(&mut left) {
        let Some(y) = next_bare(&mut right) else {
            return Comparison::Different;
        };
        comparison = with_pair(comparison, x, y);
        if let Comparison::Different = comparison {
            return Comparison::Different;
        }
    }
    if next_bare(&mut right).is_none() {
        comparison
    } else {
        Comparison::Different
    }
}

/// Compares a pair of elements too.
#[cycle(same)]
fn with_pair<'a>(
    comparison: Comparison<'a>,
    x: GreenElementRef<'a>,
    y: GreenElementRef<'a>,
) -> Comparison<'a>
    ensures outcome { outcome result ≡ (outcome comparison.entry
        && same_bare_term x.entry y.entry) }
    ensures below { pending_count result
        ≤ max (pending_count comparison.entry) (term_count x.entry) }
{
    match (x, y) {
        (NodeOrToken::Node(x), NodeOrToken::Node(y)) => with_nodes(comparison, x, y),
        (NodeOrToken::Token(x), NodeOrToken::Token(y)) => {
            if x == y {
                comparison
            } else {
                Comparison::Different
            }
        }
        _ => Comparison::Different,
    }
}

/// Compares a pair of nodes too. If a pair is pending, it compares the pair with the shorter text.
#[cycle(same)]
fn with_nodes<'a>(
    comparison: Comparison<'a>,
    a: GreenNodeRef<'a>,
    b: GreenNodeRef<'a>,
) -> Comparison<'a>
    ensures outcome { outcome result
        ≡ (outcome comparison.entry && same_tree (bare_tree a.entry) (bare_tree b.entry)) }
    ensures below { pending_count result
        ≤ max (pending_count comparison.entry) (tree_count a.entry) }
{
    match comparison {
        Comparison::Different => Comparison::Different,
        Comparison::Same => Comparison::Pending(a, b),
        Comparison::Pending(one, two) => {
            if a.text_len().0 <= one.text_len().0 {
                if same_nodes(a, b) {
                    Comparison::Pending(one, two)
                } else {
                    Comparison::Different
                }
            } else if same_nodes(one, two) {
                Comparison::Pending(a, b)
            } else {
                Comparison::Different
            }
        }
    }
}
