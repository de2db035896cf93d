//! Changes that are recorded, committed and refused; edits and renamings.

use crate::reading::range;
use anyhow::bail;
use rust_source::{
    Annotations, Source, SyntaxAnnotation, SyntaxEditor, SyntaxElement, SyntaxKind,
    SyntaxMappingBuilder, TopEntryPoint,
};

/// Returns the element of a kind at a range of bytes.
fn element(
    source: &Source,
    kind: SyntaxKind,
    start: u32,
    end: u32,
) -> anyhow::Result<SyntaxElement> {
    match source.find(kind, range(start, end))? {
        Some(element) => Ok(element),
        None => bail!("no element at {start}..{end}"),
    }
}

/// Puts a sum for a factor, which is unfaithful without parentheses.
fn unfaithful(rt: &HostRuntime, source: &mut Source) -> anyhow::Result<()> {
    // 6. A text to insert, read as an expression.
    let sum = source.payload_node(TopEntryPoint::Expr, SyntaxKind::BIN_EXPR, "1 + 2")?;
    // 7. An editor of the present tree. What follows is recorded, and changes nothing.
    let mut editor = source.editor()?;
    // 8. An element is replaced.
    let factor = element(source, SyntaxKind::PATH_EXPR, 26, 27)?;
    editor.replace(rt.alloc(), &factor, &SyntaxElement::Node(sum))?;
    // 9. Where the new text would not read as the rewritten tree.
    if let Some(found) = source.difference(&editor)? {
        let (start, end) = (found.range.start().0, found.range.end().0);
        println!(rt;
            "difference at {start}..{end}: {:?}, not {:?}",
            found.wanted, found.read
        )?;
    }
    // 10. A commit that is refused changes nothing.
    match source.commit(editor) {
        Ok(_) => bail!("committed"),
        Err(error) => println!(rt; "refused: {error}")?,
    }
    Ok(())
}

/// Wraps the product in parentheses, and changes its first factor: the factor is mapped to its place in
/// the parentheses.
fn wrapped(
    rt: &HostRuntime,
    source: &mut Source,
    mark: SyntaxAnnotation,
) -> anyhow::Result<SyntaxEditor> {
    let alloc = rt.alloc();
    let wrapped = source.payload_node(TopEntryPoint::Expr, SyntaxKind::PAREN_EXPR, "(a * 2)")?;
    let Some(inside) = wrapped.first_child(alloc)? else {
        bail!("no product");
    };
    let product = element(source, SyntaxKind::BIN_EXPR, 26, 31)?;
    let mut editor = source.editor()?;
    // 11. A mapping says which node of a replacement stands for which old one, so that changes in the
    // old one have a place.
    if let SyntaxElement::Node(product) = &product {
        let mut builder = SyntaxMappingBuilder::new(alloc, wrapped.clone()?)?;
        builder.map_node(alloc, product.clone()?, inside)?;
        builder.finish(editor.mappings())?;
    }
    editor.replace(alloc, &product, &SyntaxElement::Node(wrapped))?;
    let one = source.payload_node(TopEntryPoint::Expr, SyntaxKind::LITERAL, "1")?;
    let one = SyntaxElement::Node(one);
    // 12. An annotation marks an element that is to be found again after the commit.
    editor.add_annotation(&one, mark)?;
    let factor = element(source, SyntaxKind::LITERAL, 30, 31)?;
    editor.replace(alloc, &factor, &one)?;
    Ok(editor)
}

/// Changes a text.
pub(crate) fn change(rt: &HostRuntime, source: &mut Source) -> anyhow::Result<()> {
    unfaithful(rt, source)?;
    let older = source.editor()?;
    let mark = Annotations::new().next()?;
    let editor = wrapped(rt, source, mark)?;
    // 13. A commit applies all changes at once. Neither text may have messages here.
    let committed = source.commit_without_messages(editor)?;
    for (range, _) in &committed.annotated {
        println!(rt; "marked: {}..{}", range.start().0, range.end().0)?;
    }
    print!(rt; "{}", source.text())?;
    // 14. An editor of an earlier tree is foreign.
    match source.commit(older) {
        Ok(_) => bail!("committed"),
        Err(error) => println!(rt; "refused: {error}")?,
    }
    // 15. A statement on a line of its own, with the indentation of its neighbor.
    let statement = source.payload_statement("let b = a;")?;
    let mut editor = source.editor()?;
    let call = element(source, SyntaxKind::CALL_EXPR, 24, 34)?;
    source.insert_on_line_before(&mut editor, &call, &SyntaxElement::Node(statement))?;
    source.commit(editor)?;
    // 16. Bytes are replaced, as by a keystroke, whatever the new text reads as; identifiers are renamed.
    let at = range(3, 4);
    if source.can_edit(at) {
        source.edit(at, "twice")?;
    }
    source.rename("a", "number")?;
    print!(rt; "{}", source.text())?;
    println!(rt; "tree {}", source.root().tree())?;
    Ok(())
}
