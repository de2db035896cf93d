//! Tests what contracts leave open: that calls succeed while allocations do, and that a custom
//! language can be used. Each public function is called once.
//!
//! A row has a question about a tree and the expected answer. Values with cursors are dropped in
//! small helpers with few exits: each exit of a function is proved.
ghost use Rattle.std.specs.Iterator.{IsFinite};

mod deep;
mod finding;
mod printing;
mod steps;
mod texts;
mod walks;

use crate::{Kind, Lists};
use rowan::{ElementExt, Language, SyntaxElement, SyntaxNode, SyntaxToken, WalkEvent};
use rowan_green::{GreenError, GreenNode, GreenNodeBuilder, NodeOrToken, SyntaxKind, TextRange};
use std::alloc::{AllocError, Global};
use std::hash::{DefaultHasher, Hash, Hasher};
use std::test::Fail;

type Node = SyntaxNode<Lists>;

type Token = SyntaxToken<Lists>;

type Element = SyntaxElement<Lists>;

/// `ab`, a list of `,`, an empty list and `cd`, then `;`, a list of `e`, an empty list.
const SAMPLE: &str = "{ ab ( , ( ) cd ) ; ( e ) ( ) }";

/// Adds the elements that `words` stand for to `builder`.
fn put_all(builder: &mut GreenNodeBuilder<'_>, words: &str) -> Result<(), GreenError> {
    for word in words.split(' ') {
        put(builder, word)?;
    }
    Ok(())
}

/// Adds the element that one word stands for: `{` and `(` start a root and a list, `}` and `)` end
/// one, and all else is a token.
fn put(builder: &mut GreenNodeBuilder<'_>, word: &str) -> Result<(), GreenError> {
    if word == "{" {
        return builder.start_node(SyntaxKind(1));
    }
    if word == "(" {
        return builder.start_node(SyntaxKind(2));
    }
    if (word == ")") | (word == "}") {
        return builder.finish_node();
    }
    if (word == ",") | (word == ";") {
        return builder.token(SyntaxKind(4), word);
    }
    builder.token(SyntaxKind(3), word)
}

/// Returns the green tree that `words` stand for.
fn green(alloc: Global, words: &str) -> Result<GreenNode, GreenError> {
    let mut builder = GreenNodeBuilder::new(alloc);
    put_all(&mut builder, words)?;
    match builder.finish() {
        Ok(node) => Ok(node),
        Err(unfinished) => Err(unfinished.error),
    }
}

/// Returns the root of that tree.
fn tree(alloc: Global, words: &str) -> Result<Node, GreenError> {
    Ok(Node::new_root(alloc, green(alloc, words)?)?)
}

/// Returns the first list of the sample, `,` to `cd`.
fn first_list(alloc: Global) -> Result<Node, Fail> {
    match tree(alloc, SAMPLE)?.first_child(alloc)? {
        Some(node) => Ok(node),
        None => Err(Fail::new("no child")),
    }
}

/// Returns the `,` in that list.
fn comma(alloc: Global) -> Result<Token, Fail> {
    match first_list(alloc)?.first_token(alloc)? {
        Some(token) => Ok(token),
        None => Err(Fail::new("no token")),
    }
}

/// Values that an answer can show.
trait Shown {
    fn show(&self, alloc: Global, out: &mut String) -> Result<(), Fail>;
}

/// Appends a kind and a range.
fn show_at(alloc: Global, out: &mut String, kind: Kind, range: TextRange) -> Result<(), Fail> {
    let name = Lists::kind_name(kind);
    let word = format!(in alloc; "{name}@{}..{} ", range.start().0, range.end().0)?;
    Ok(out.push_str(word.as_str())?)
}

impl Shown for Node {
    fn show(&self, alloc: Global, out: &mut String) -> Result<(), Fail> {
        show_at(alloc, out, self.kind(), self.text_range())
    }
}

impl Shown for Token {
    fn show(&self, alloc: Global, out: &mut String) -> Result<(), Fail> {
        show_at(alloc, out, self.kind(), self.text_range())
    }
}

impl Shown for Element {
    fn show(&self, alloc: Global, out: &mut String) -> Result<(), Fail> {
        show_at(alloc, out, self.kind(), self.text_range())
    }
}

impl<T: Shown> Shown for Option<T> {
    fn show(&self, alloc: Global, out: &mut String) -> Result<(), Fail> {
        match self {
            Some(shown) => shown.show(alloc, out),
            None => Ok(out.push_str("none ")?),
        }
    }
}

impl<T: Shown> Shown for WalkEvent<T> {
    fn show(&self, alloc: Global, out: &mut String) -> Result<(), Fail> {
        match self {
            WalkEvent::Enter(element) => {
                out.push_str("+")?;
                element.show(alloc, out)
            }
            WalkEvent::Leave(element) => {
                out.push_str("-")?;
                element.show(alloc, out)
            }
        }
    }
}

/// Appends all items of an iterator, up to its first error.
fn show_all<T: Shown + Drop, I: Iterator<Item = Result<T, AllocError>> + Drop>(
    alloc: Global,
    out: &mut String,
    items: I,
) -> Result<(), Fail>
    requires can { I.can_next items }
    requires ends { IsFinite (I.remaining items) }
{
    for item in items {
        show_item(alloc, out, item)?;
    }
    Ok(())
}

fn show_item<T: Shown + Drop>(
    alloc: Global,
    out: &mut String,
    item: Result<T, AllocError>,
) -> Result<(), Fail> {
    match item {
        Ok(item) => item.show(alloc, out),
        Err(e) => Err(Fail::from(e)),
    }
}

fn hash_of<T: Hash>(value: &T) -> u64 {
    let mut state = DefaultHasher::new();
    value.hash(&mut state);
    state.finish()
}
