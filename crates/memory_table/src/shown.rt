//! What is written for the answers.
ghost use Rattle.std.specs.Iterator.{IsFinite};

use rowan::{AstNode, ElementExt, Language, SyntaxElement, SyntaxNode, SyntaxToken, WalkEvent};
use rowan_green::TextRange;
use rowan_suite::{ListNode, Lists};
use std::alloc::{AllocError, Global};

pub type Node = SyntaxNode<Lists>;

pub type Token = SyntaxToken<Lists>;

pub type Element = SyntaxElement<Lists>;

/// What is written for an answer.
pub trait Shown {
    fn show(&self, alloc: Global, out: &mut String) -> Result<(), AllocError>;
}

/// A name and a range.
fn show_at(
    alloc: Global,
    out: &mut String,
    name: &str,
    range: TextRange,
) -> Result<(), AllocError> {
    let word = format!(in alloc; "{name}@{}..{} ", range.start().0, range.end().0)?;
    out.push_str(word.as_str())
}

impl Shown for Node {
    fn show(&self, alloc: Global, out: &mut String) -> Result<(), AllocError> {
        show_at(alloc, out, Lists::kind_name(self.kind()), self.text_range())
    }
}

impl Shown for Token {
    fn show(&self, alloc: Global, out: &mut String) -> Result<(), AllocError> {
        show_at(alloc, out, Lists::kind_name(self.kind()), self.text_range())
    }
}

impl Shown for Element {
    fn show(&self, alloc: Global, out: &mut String) -> Result<(), AllocError> {
        show_at(alloc, out, Lists::kind_name(self.kind()), self.text_range())
    }
}

impl Shown for ListNode {
    fn show(&self, alloc: Global, out: &mut String) -> Result<(), AllocError> {
        self.syntax().show(alloc, out)
    }
}

impl Shown for syntax_tree::SyntaxElement {
    fn show(&self, alloc: Global, out: &mut String) -> Result<(), AllocError> {
        show_at(alloc, out, self.kind().name(), self.text_range())
    }
}

impl Shown for syntax_tree::SyntaxNode {
    fn show(&self, alloc: Global, out: &mut String) -> Result<(), AllocError> {
        show_at(alloc, out, self.kind().name(), self.text_range())
    }
}

impl<T: Shown> Shown for Option<T> {
    fn show(&self, alloc: Global, out: &mut String) -> Result<(), AllocError> {
        match self {
            Some(shown) => shown.show(alloc, out),
            None => out.push_str("none "),
        }
    }
}

impl<T: Shown> Shown for WalkEvent<T> {
    fn show(&self, alloc: Global, out: &mut String) -> Result<(), AllocError> {
        match self {
            WalkEvent::Enter(element) => {
                out.push_str("+")?;
                element.show(alloc, out)
            }
            WalkEvent::Leave(element) => {
                out.push_str("-")?;
                element.show(alloc, out)
            }
        }
    }
}

/// Returns what is written for one answer.
pub fn one_shown<T: Shown + Drop>(
    alloc: Global,
    answer: Result<T, AllocError>,
) -> Result<String, AllocError> {
    let mut out = String::new(alloc);
    answer?.show(alloc, &mut out)?;
    Ok(out)
}

/// Returns what is written for all that an iterator yields, up to its first error.
pub fn all_shown<T: Shown + Drop, I: Iterator<Item = Result<T, AllocError>> + Drop>(
    alloc: Global,
    items: I,
) -> Result<String, AllocError>
    requires can { I.can_next items }
    requires ends { IsFinite (I.remaining items) }
{
    let mut out = String::new(alloc);
    for item in items {
        item?.show(alloc, &mut out)?;
    }
    Ok(out)
}

/// Returns what is written for the elements of a list.
pub fn list_shown<T: Shown>(alloc: Global, items: &[T]) -> Result<String, AllocError> {
    let mut out = String::new(alloc);
    for item in items {
        item.show(alloc, &mut out)?;
    }
    Ok(out)
}
