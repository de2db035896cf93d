//! The text of a tree, with identifiers renamed, by a loop.
ghost use Rattle.std.specs.Prelude.{◌≡◌, string_bytes, if◌then◌else◌, IfOk};
ghost use Rattle.rowan_green.specs.Leaf.{same_leaf};
ghost use Rattle.renamer.specs.Renamed.{identifier, renamed_text};

use parser_input::SyntaxKind;
use rowan_green::{GreenNode, GreenTokenRef, NodeOrToken};
use std::alloc::{AllocError, Global};

/// Returns `true` if a token is the identifier `name`.
fn is_named(token: &GreenTokenRef<'_>, name: &str) -> bool
    ensures { result ≡ same_leaf token.now (identifier name.now) }
{
    token.kind().0 == SyntaxKind::IDENT as u16 && token.text() == name
}

/// Returns the text of a token, or `new` if it is the identifier `old`.
fn leaf_text<'a>(token: &GreenTokenRef<'a>, old: &str, new: &'a str) -> &'a str
    ensures { result.now
        ≡ (if same_leaf token.now (identifier old.now) then new.now else token.now.text) }
{
    if is_named(token, old) {
        new
    } else {
        token.text()
    }
}

/// Returns the text of a tree with each identifier `old` renamed to `new`. The children that are left of
/// each open node are in a list, so that a deep tree takes no more stack than a flat one.
///
/// # Errors
///
/// [`AllocError`] if an allocation fails.
pub(crate) fn renamed_text<'a>(
    alloc: Global,
    tree: &'a GreenNode,
    old: &str,
    new: &'a str,
) -> Result<String, AllocError>
    ensures { IfOk result (λ text. string_bytes text ≡ renamed_text old.now new.now tree.now) }
{
    let mut text = String::with_capacity(alloc, usize::from(tree.text_len()))?;
    let mut above = Vec::new(alloc);
    let mut children = tree.children();
    'elements: loop {
        match children.next() {
            Some(NodeOrToken::Node(node)) => {
                above.push(children)?;
                children = node.children();
            }
            Some(NodeOrToken::Token(token)) => text.push_str(leaf_text(&token, old, new))?,
            None => match above.pop() {
                Some(rest) => children = rest,
                None => return Ok(text),
            },
        }
    }
}
