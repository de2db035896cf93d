//! Changed and annotated elements of the new tree of an edit.
use crate::tests::tree::{Tree, payload, root};
use std::alloc::Global;
use std::test::Fail;
use syntax_editor::{Annotations, SyntaxAnnotation, SyntaxEdit, SyntaxEditor};
use syntax_tree::{SyntaxElement, TreeIds};

/// An annotation of the literal that replaces both arguments, one of the comma, and an unused one.
#[derive(Clone, Copy)]
struct Marks {
    put: SyntaxAnnotation,
    comma: SyntaxAnnotation,
    none: SyntaxAnnotation,
}

/// Returns the child of the argument list at index `number`.
fn child(alloc: Global, editor: &SyntaxEditor, number: usize) -> Result<SyntaxElement, Fail> {
    match editor.root().element_at(alloc, &[number])? {
        Some(element) => Ok(element),
        None => Err(Fail::new("no such child")),
    }
}

fn three_marks() -> Result<Marks, Fail> {
    let mut marks = Annotations::new();
    let put = marks.next()?;
    let comma = marks.next()?;
    let none = marks.next()?;
    Ok(Marks { put, comma, none })
}

fn mark_comma(
    alloc: Global,
    editor: &mut SyntaxEditor,
    mark: SyntaxAnnotation,
) -> Result<(), Fail> {
    let comma = child(alloc, editor, 2)?;
    editor.add_annotation(&comma, mark)?;
    Ok(())
}

fn record(
    alloc: Global,
    editor: &mut SyntaxEditor,
    new: &SyntaxElement,
    marks: Marks,
) -> Result<(), Fail> {
    editor.add_annotation(new, marks.put)?;
    mark_comma(alloc, editor, marks.comma)?;
    replace(alloc, editor, 1, new)?;
    replace(alloc, editor, 4, new)
}

/// Returns an edit that replaces both arguments with one literal.
fn edited(alloc: Global, marks: Marks) -> Result<SyntaxEdit, Fail> {
    let mut ids = TreeIds::new();
    let root = root(alloc, Tree::Args, &mut ids)?;
    let mut editor = SyntaxEditor::of_root(alloc, root);
    let new = payload(alloc, "LITERAL 3", &mut ids)?;
    record(alloc, &mut editor, &new, marks)?;
    Ok(editor.finish(alloc, &mut ids)?)
}

fn replace(
    alloc: Global,
    editor: &mut SyntaxEditor,
    number: usize,
    new: &SyntaxElement,
) -> Result<(), Fail> {
    let old = child(alloc, editor, number)?;
    editor.replace(alloc, &old, new)?;
    Ok(())
}

fn push_range(alloc: Global, element: &SyntaxElement, out: &mut String) -> Result<(), Fail> {
    let range = element.text_range();
    let range = format!(in alloc; " {}..{}", range.start().0, range.end().0)?;
    out.push_str(&range)?;
    Ok(())
}

fn push_ranges(alloc: Global, elements: &[SyntaxElement], out: &mut String) -> Result<(), Fail> {
    for element in elements {
        push_range(alloc, element, out)?;
    }
    out.push_str(";")?;
    Ok(())
}

fn push_annotated(
    alloc: Global,
    edit: &SyntaxEdit,
    marks: Marks,
    out: &mut String,
) -> Result<(), Fail> {
    for (element, mark) in edit.annotated() {
        push_range(alloc, element, out)?;
        out.push_str(if *mark == marks.put { " put" } else { " comma" })?;
    }
    Ok(())
}

fn push_told(alloc: Global, edit: &SyntaxEdit, marks: Marks, out: &mut String) -> Result<(), Fail> {
    push_ranges(alloc, edit.changed_elements(), out)?;
    for mark in [marks.put, marks.comma, marks.none] {
        push_ranges(alloc, edit.find_annotation(mark), out)?;
    }
    push_annotated(alloc, edit, marks, out)
}

/// Returns the ranges of the inserted elements, of the elements found by each annotation, and of
/// all annotated elements.
pub(crate) fn told(alloc: Global) -> Result<String, Fail> {
    let marks = three_marks()?;
    let edit = edited(alloc, marks)?;
    let mut out = String::new(alloc);
    push_told(alloc, &edit, marks, &mut out)?;
    Ok(out)
}
