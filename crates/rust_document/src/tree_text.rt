//! The text of a tree, by a loop.
ghost use Rattle.std.specs.Prelude.{◌≡◌, string_bytes, IfOk};
ghost use Rattle.rowan_green.specs.Forest.{tree_text};

use rowan_green::{GreenNode, NodeOrToken};
use std::alloc::{AllocError, Global};

/// Returns the text of a tree, as its `Display` writes it. That goes one call deeper for each level;
/// here the children that are left of each open node stand in a list.
pub fn text_of(alloc: Global, tree: &GreenNode) -> Result<String, AllocError>
    ensures { IfOk result (λ text. string_bytes text ≡ tree_text tree.now) }
{
    let mut text = String::with_capacity(alloc, usize::from(tree.text_len()))?;
    let mut above = Vec::new(alloc);
    let mut children = tree.children();
    'elements: loop {
        match children.next() {
            Some(NodeOrToken::Node(node)) => {
                above.push(children)?;
                children = node.children();
            }
            Some(NodeOrToken::Token(token)) => text.push_str(token.text())?,
            None => match above.pop() {
                Some(rest) => children = rest,
                None => return Ok(text),
            },
        }
    }
}
