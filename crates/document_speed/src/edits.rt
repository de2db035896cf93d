//! Records the replacement of each tenth child of a long list of tokens, and finishes the edit.
ghost use Rattle.std.specs.Prelude.{◌≡◌, [], IfSome};

use parser_input::syntax_kind::SyntaxKind;
use rowan_green::{GreenNode, GreenNodeBuilder, GreenToken};
use rust_document::SyntaxEditor;
use std::alloc::Global;
use std::io;
use std::time::Instant;
use syntax_tree::{SyntaxElement, SyntaxNode, SyntaxToken, TreeIds};

fn raw(kind: SyntaxKind) -> rowan_green::SyntaxKind {
    rowan_green::SyntaxKind(kind.to_raw())
}

/// Returns a file of `children` tokens.
fn file(alloc: Global, children: usize) -> Option<GreenNode> {
    let mut builder = GreenNodeBuilder::new(alloc);
    builder.start_node(raw(SyntaxKind::SOURCE_FILE)).ok()?;
    for _ in 0..children {
        builder.token(raw(SyntaxKind::IDENT), "a").ok()?;
    }
    builder.finish_node().ok()?;
    builder.finish().ok()
}

fn editor(alloc: Global, children: usize, ids: &mut TreeIds) -> Option<SyntaxEditor> {
    let root = SyntaxNode::new_root(alloc, file(alloc, children)?, ids).ok()?;
    Some(SyntaxEditor::of_root(alloc, root))
}

/// Returns the replacement.
fn other(alloc: Global, ids: &mut TreeIds) -> Option<SyntaxElement> {
    let green = GreenToken::new(alloc, raw(SyntaxKind::IDENT), "b").ok()?;
    let token = SyntaxToken::detached(alloc, green, ids).ok()?;
    Some(SyntaxElement::Token(token))
}

/// Records the replacement of each tenth child with `new`.
fn record(
    alloc: Global,
    editor: &mut SyntaxEditor,
    children: usize,
    new: &SyntaxElement,
) -> Option<()> {
    for number in 0..children {
        if number % 10 == 0 {
            let old = editor.root().element_at(alloc, &[number]).ok()??;
            editor.replace(alloc, &old, new).ok()?;
        }
    }
    Some(())
}

fn measured(rt: &HostRuntime, children: usize, ids: &mut TreeIds) -> io::Result<Option<usize>> {
    let alloc = rt.alloc();
    let Some(mut editor) = editor(alloc, children, ids) else {
        return Ok(None);
    };
    let Some(new) = other(alloc, ids) else {
        return Ok(None);
    };
    let start = Instant::now(rt)?;
    let recorded = record(alloc, &mut editor, children, &new);
    let recording = start.elapsed(rt)?.as_micros();
    if recorded.is_none() {
        return Ok(None);
    }
    let finished = editor.finish(alloc, ids).ok();
    let both = start.elapsed(rt)?.as_micros();
    eprintln!(rt;
        "{children} children: recorded in {recording}, also finished in {both} microseconds"
    )?;
    Ok(finished.map(|edit| edit.changed().len()))
}

/// Prints the number of tokens of a list that were replaced; the times go to standard error.
pub(crate) fn measure(rt: &HostRuntime, children: usize) -> io::Result<()> {
    match measured(rt, children, &mut TreeIds::new())? {
        Some(changed) => println!(rt; "{changed}"),
        None => println!(rt; "not edited"),
    }
}
