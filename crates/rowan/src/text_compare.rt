//! Comparing texts of trees, without a copy.
ghost use Rattle.std.specs.Prelude.{◌≡◌, ◌+◌, ◌^◌, ◌≤◌, ◌<◌, ◌⊎◌, true, false, take, drop, length, MatchOption};
ghost use Rattle.std.specs.Bool.{OnTrue};
ghost use Rattle.std.specs.Str.{bytes_eq};
ghost use Rattle.rowan_green.specs.Forest.{tree_text};
ghost use Rattle.rowan_green.specs.declared.utility_types.NodeOrToken.TheVariants.{Node, Token};
ghost use Rattle.rowan.specs.Text.{IsPart};
ghost use Rattle.rowan.specs.Comparing.{IsStretch, IsHead, Passes, PassesBoth, Differ, bytes_left};

use crate::chunks::Part;
use crate::syntax_text::SyntaxText;
use crate::text_bytes::has_bytes;
use rowan_green::{GreenElementRef, GreenNodeRef, GreenTokenRef, NodeOrToken};

/// A part of a node's text, read from its start: `left` bytes, which start `offset` bytes after the
/// start of child `index`.
#[derive(Drop)]
struct Stretch<'a> {
    node: GreenNodeRef<'a>,
    index: usize,
    offset: u32,
    left: u32,
}

impl<'a> Stretch<'a> {
    fn of(part: Part<'a>) -> Stretch<'a>
        requires part { IsPart (tree_text part.node) part.start (part.start + part.len) }
        requires fits { part.start + part.len < 2 ^ 32 }
        ensures sound { IsStretch result }
        ensures bytes { bytes_left result ≡ take part.entry.len
            (drop part.entry.start (tree_text part.entry.node)) }
        ensures left { result.left ≡ part.entry.len }
    {
        Stretch {
            node: part.node,
            index: 0,
            offset: part.start,
            left: part.len,
        }
    }

    /// Skips the elements before the first remaining byte, and returns the element with that byte;
    /// `None` if no byte is left.
    fn head(&mut self) -> Option<GreenElementRef<'a>>
        requires { IsStretch self.old }
        ensures passes { Passes 0 self.old self.new }
        ensures head { MatchOption result (self.new.left ≡ 0)
            (λ e. IsHead self.new e) }
    {
        let count = self.node.children().len();
        'elements: while self.index < count && self.left > 0 {
            let child = self.node.child(self.index)?;
            let size = child.text_len().0;
            if self.offset < size {
                return Some(child);
            }
            self.offset -= size;
            self.index += 1;
        }
        None
    }

    /// Skips `count` bytes.
    fn pass(&mut self, count: u32)
        requires sound { IsStretch self.old }
        requires enough { count ≤ self.old.left }
        ensures { Passes count self.old self.new }
    {
        self.offset += count;
        self.left -= count;
    }
}

/// Compares two tokens in which the parts start, as far as both parts have bytes there, and skips
/// equal bytes. Returns `false` if the bytes differ.
fn same_tokens(
    a: &mut Stretch<'_>,
    here: &GreenTokenRef<'_>,
    b: &mut Stretch<'_>,
    there: &GreenTokenRef<'_>,
) -> bool
    requires sound { IsStretch a.old × IsStretch b.old }
    requires here { IsHead a.old (Token here.now) }
    requires there { IsHead b.old (Token there.now) }
    ensures same { OnTrue result (PassesBoth a.old b.old a.new b.new × (a.new.left < a.old.left)) }
    ensures differ { result ≡ false → Differ (bytes_left a.old) (bytes_left b.old) }
{
    let here_left = a.left.min(here.text_len().0 - a.offset);
    let there_left = b.left.min(there.text_len().0 - b.offset);
    let count = here_left.min(there_left);
    let front = &here.text().as_bytes()[a.offset as usize..(a.offset + count) as usize];
    let other = &there.text().as_bytes()[b.offset as usize..(b.offset + count) as usize];
    if front != other {
        return false;
    }
    a.pass(count);
    b.pass(count);
    true
}

/// Compares the bytes that `a` has in `node`, in which it starts, with those of `b`, as far as both
/// have bytes, and skips equal bytes. Returns `false` if the bytes differ.
#[cycle(same)]
fn same_within(a: &mut Stretch<'_>, node: GreenNodeRef<'_>, b: &mut Stretch<'_>) -> bool
    requires sound { IsStretch a.old × IsStretch b.old }
    requires head { IsHead a.old (Node node) }
    requires some { 0 < b.old.left }
    ensures same { OnTrue result (PassesBoth a.old b.old a.new b.new × (a.new.left < a.old.left)) }
    ensures differ { result ≡ false → Differ (bytes_left a.old) (bytes_left b.old) }
{
    let size = a.left.min(node.text_len().0 - a.offset);
    let mut inner = Stretch {
        node,
        index: 0,
        offset: a.offset,
        left: size,
    };
    if !same_front(&mut inner, b) {
        return false;
    }
    a.pass(size - inner.left);
    true
}

/// Compares two parts as far as both have bytes, and skips equal bytes. Returns `false` if the
/// bytes differ.
#[cycle(same)]
fn same_front(a: &mut Stretch<'_>, b: &mut Stretch<'_>) -> bool
    requires sound { IsStretch a.old × IsStretch b.old }
    ensures same { OnTrue result (PassesBoth a.old b.old a.new b.new) }
    ensures ends { OnTrue result ((a.new.left ≡ 0) ⊎ (b.new.left ≡ 0)) }
    ensures differ { result ≡ false → Differ (bytes_left a.old) (bytes_left b.old) }
{
    'heads: loop {
        let Some(here) = a.head() else { return true };
        let Some(there) = b.head() else { return true };
        if !same_heads(a, here, b, there) {
            return false;
        }
    }
}

/// Compares two elements in which the parts start, as far as both parts have bytes there, and skips
/// equal bytes. Returns `false` if the bytes differ. Descends into the longer node. The other part
/// continues from its position, so that its elements are not searched again.
#[cycle(same)]
fn same_heads(
    a: &mut Stretch<'_>,
    here: GreenElementRef<'_>,
    b: &mut Stretch<'_>,
    there: GreenElementRef<'_>,
) -> bool
    requires sound { IsStretch a.old × IsStretch b.old }
    requires here { IsHead a.old here }
    requires there { IsHead b.old there }
    ensures same { OnTrue result (PassesBoth a.old b.old a.new b.new × (a.new.left < a.old.left)) }
    ensures differ { result ≡ false → Differ (bytes_left a.old) (bytes_left b.old) }
{
    match (here, there) {
        (NodeOrToken::Token(here), NodeOrToken::Token(there)) => same_tokens(a, &here, b, &there),
        (NodeOrToken::Node(here), NodeOrToken::Token(_)) => same_within(a, here, b),
        (NodeOrToken::Token(_), NodeOrToken::Node(there)) => same_within(b, there, a),
        (NodeOrToken::Node(here), NodeOrToken::Node(there)) => {
            if here.text_len().0 - a.offset >= there.text_len().0 - b.offset {
                same_within(a, here, b)
            } else {
                same_within(b, there, a)
            }
        }
    }
}

impl SyntaxText {
    /// Returns `true` if the text is equal to `text`.
    pub fn eq_str(&self, text: &str) -> bool
        ensures { result ≡ bytes_eq self.now text.now }
    {
        let part = self.part();
        part.len as usize == text.len()
            && has_bytes(part.node, part.start as usize, text.as_bytes())
    }
}

/// Returns `true` if two texts of one length start at the same offset of equal nodes.
fn stands_alike(a: &Part<'_>, b: &Part<'_>) -> bool
    ensures { result ≡ true → take a.now.len (drop a.now.start (tree_text a.now.node))
        ≡ take a.now.len (drop b.now.start (tree_text b.now.node)) }
{
    a.start == b.start && a.node == b.node
}

impl PartialEq for SyntaxText {
    ghost use Rattle.std.specs.Str.{bytes_eq};
    ghost use Rattle.std.specs.Cmp.{partial_equiv_from_equiv};
    ghost use Rattle.std.specs.Cmp.Lexicographic.{nat_list_eq_equiv};

    ghost eq = { bytes_eq };

    ghost laws = { partial_equiv_from_equiv nat_list_eq_equiv };

    /// Returns `true` if the texts are equal, however their trees divide them. Unless they start at
    /// equal offsets of equal nodes, they are compared side by side, from the first byte on. A node
    /// that ends after a node of the other tree is entered again there, and its earlier children
    /// are skipped by their lengths.
    fn eq(&self, other: &SyntaxText) -> bool {
        let part = self.part();
        let there = other.part();
        if part.len != there.len {
            return false;
        }
        if stands_alike(&part, &there) {
            return true;
        }
        same_front(&mut Stretch::of(part), &mut Stretch::of(there))
    }
}

impl Eq for SyntaxText {
    ghost use Rattle.std.specs.Cmp.Lexicographic.{nat_list_eq_equiv};

    ghost laws = { nat_list_eq_equiv };
}
