//! What a text says: messages, elements, typed nodes.

use rust_source::{
    AstNode, Fn, HasName, Source, SyntaxElement, SyntaxKind, SyntaxNode, TextRange, TextSize,
};

/// Returns a range of bytes.
pub(crate) fn range(start: u32, end: u32) -> TextRange {
    TextRange::new(TextSize::new(start), TextSize::new(end.max(start)))
}

/// Prints the kind, the range and the text of a node.
fn show(rt: &HostRuntime, words: &str, node: &SyntaxNode) -> anyhow::Result<()> {
    let (start, end) = (node.text_range().start().0, node.text_range().end().0);
    let kind = node.kind();
    println!(rt; "{words}: {kind:?}@{start}..{end}")?;
    Ok(())
}

/// Reads a text without a change.
pub(crate) fn read(rt: &HostRuntime, source: &Source) -> anyhow::Result<()> {
    let alloc = rt.alloc();
    // 2. Its messages.
    println!(rt; "messages: {}", source.errors().len())?;
    // 3. All nodes in preorder. Each is an `Ok`, or out of memory.
    for node in source.root().descendants(alloc)? {
        let node = node?;
        // 4. A typed node, and a part of it by name.
        if let Some(function) = Fn::cast(node) {
            if let Some(name) = function.name(alloc)? {
                show(rt, "name", &name)?;
            }
        }
    }
    // 5. The outermost element of a kind with a range of bytes.
    if let Some(SyntaxElement::Node(product)) = source.find(SyntaxKind::BIN_EXPR, range(26, 31))? {
        show(rt, "found", &product)?;
    }
    Ok(())
}
