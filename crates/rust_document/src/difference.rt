//! The first difference between two trees, trivia aside.
ghost use Rattle.std.specs.Prelude.{◌≡◌, ◌+◌, ◌<◌, ◌≤◌, ◌^◌, length, option_map, IfSome, MatchOption};
ghost use Rattle.rowan_green.specs.Forest.{tree_text};
ghost use Rattle.rowan_green.specs.Term.{forest_of, texts_of};
ghost use Rattle.syntax_tree.specs.Language.{kind_of_raw};
ghost use Rattle.rust_document.specs.Difference.{first_apart, nothing, placed, told, told_of, tree_apart, Finds};

use crate::bare::is_left_out;
use parser_input::SyntaxKind;
use rowan::Language;
use rowan_green::{
    Children, GreenElementRef, GreenNode, GreenNodeRef, NodeOrToken, TextRange, TextSize,
};
use syntax_tree::RustLanguage;

/// The first difference between a rewritten tree and the reading of its text, whitespace and
/// comments aside.
#[derive(Clone, Copy, Debug, PartialEq, Eq)]
pub struct Difference {
    /// The bytes of the element that is wanted, or, if no more is wanted, of the one that is read.
    pub range: TextRange,
    /// The kind of the element of the rewritten tree; `None` if its parent has no more.
    pub wanted: Option<SyntaxKind>,
    /// The kind of the element of the reading; `None` if its parent has no more.
    pub read: Option<SyntaxKind>,
}

/// The bytes at which two trees differ, and the raw kinds of the elements there.
#[derive(Clone, Copy, Debug, PartialEq, Eq)]
pub struct Apart {
    pub start: u32,
    pub end: u32,
    pub wanted: Option<u16>,
    pub read: Option<u16>,
}

/// A child with its bytes.
#[derive(Drop)]
struct Placed<'a> {
    element: GreenElementRef<'a>,
    start: u32,
    end: u32,
}

/// Returns the next child that is no trivia, with its bytes. `at` is the offset
/// of the children that are left.
fn next_placed<'a>(children: &mut Children<'a>, at: &mut u32) -> Option<Placed<'a>>
    requires { at.old + length (texts_of children.old) < 2 ^ 32 }
    ensures { MatchOption result (placed at.old (forest_of children.old) ≡ nothing)
        (λ x. Finds at.old children.old x.element x.start x.end children.new
        × (at.new ≡ x.end)) }
{
    'children: while let Some(element) = children.next() {
        let start = *at;
        let end = start + element.text_len().0;
        *at = end;
        if !is_left_out(&element) {
            return Some(Placed {
                element,
                start,
                end,
            });
        }
    }
    None
}

/// Returns the first difference between the children of two nodes, which start at these offsets.
fn apart_below(
    wanted: &GreenNodeRef<'_>,
    read: &GreenNodeRef<'_>,
    wanted_at: u32,
    read_at: u32,
) -> Option<Apart>
    requires wanted_fits { wanted_at + length (tree_text wanted.now) < 2 ^ 32 }
    requires read_fits { read_at + length (tree_text read.now) < 2 ^ 32 }
    ensures first { result
        ≡ first_apart (placed wanted_at wanted.now.forest) (placed read_at read.now.forest) }
    ensures ordered { IfSome result (λ a. a.start ≤ a.end) }
{
    let mut left = wanted.children();
    let mut right = read.children();
    let mut left_at = wanted_at;
    let mut right_at = read_at;
    'children: while let Some(x) = next_placed(&mut left, &mut left_at) {
        let Some(y) = next_placed(&mut right, &mut right_at) else {
            return Some(Apart {
                start: x.start,
                end: x.end,
                wanted: Some(x.element.kind().0),
                read: None,
            });
        };
        let apart = match (&x.element, &y.element) {
            (NodeOrToken::Node(a), NodeOrToken::Node(b)) if a.kind() == b.kind() => {
                apart_below(a, b, x.start, y.start)
            }
            (NodeOrToken::Token(a), NodeOrToken::Token(b)) if a == b => None,
            _ => Some(Apart {
                start: x.start,
                end: x.end,
                wanted: Some(x.element.kind().0),
                read: Some(y.element.kind().0),
            }),
        };
        if apart.is_some() {
            return apart;
        }
    }
    match next_placed(&mut right, &mut right_at) {
        Some(y) => Some(Apart {
            start: y.start,
            end: y.end,
            wanted: None,
            read: Some(y.element.kind().0),
        }),
        None => None,
    }
}

/// Returns the first difference between two trees that are whole texts.
fn tree_apart(wanted: &GreenNode, read: &GreenNode) -> Option<Apart>
    ensures first { result ≡ tree_apart wanted.now read.now }
    ensures ordered { IfSome result (λ a. a.start ≤ a.end) }
{
    let end = wanted.text_len().0;
    // (this shows that the other text fits, too)
    let _fits = read.text_len().0;
    if wanted.kind() == read.kind() {
        return apart_below(&wanted.as_ref(), &read.as_ref(), 0, 0);
    }
    Some(Apart {
        start: 0,
        end,
        wanted: Some(wanted.kind().0),
        read: Some(read.kind().0),
    })
}

/// Returns the kind of a raw number, if there is one.
fn kind_if(raw: Option<u16>) -> Option<SyntaxKind>
    ensures { result ≡ option_map kind_of_raw raw }
{
    match raw {
        Some(raw) => Some(RustLanguage::kind_from_raw(rowan_green::SyntaxKind(raw))),
        None => None,
    }
}

/// Returns the first difference between two trees that are whole texts.
pub fn difference_of(wanted: &GreenNode, read: &GreenNode) -> Option<Difference>
    ensures { option_map told_of result ≡ option_map told (tree_apart wanted.now read.now) }
{
    match tree_apart(wanted, read) {
        Some(apart) => Some(Difference {
            range: TextRange::new(TextSize(apart.start), TextSize(apart.end)),
            wanted: kind_if(apart.wanted),
            read: kind_if(apart.read),
        }),
        None => None,
    }
}
