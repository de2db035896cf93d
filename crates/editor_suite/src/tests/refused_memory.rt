//! Repeats calls whose allocation failed: a call that returns an error leaves the editor unchanged.
//! `bench/refused.py` runs this with each allocation failing in turn.
ghost use Rattle.std.specs.Prelude.{◌≡◌, [], IfSome};

use parser_input::SyntaxKind;
use rowan_green::{GreenNode, GreenNodeBuilder, GreenToken};
use std::alloc::Global;
use std::test::Fail;
use syntax_editor::{SyntaxEdit, SyntaxEditor};
use syntax_tree::{Position, SyntaxElement, SyntaxNode, SyntaxToken, TreeIds};

const TOKENS: &[(SyntaxKind, &str)] = &[
    (SyntaxKind::L_PAREN, "("),
    (SyntaxKind::INT_NUMBER, "1"),
    (SyntaxKind::COMMA, ","),
    (SyntaxKind::WHITESPACE, " "),
    (SyntaxKind::INT_NUMBER, "2"),
    (SyntaxKind::R_PAREN, ")"),
];

fn raw(kind: SyntaxKind) -> rowan_green::SyntaxKind {
    rowan_green::SyntaxKind(kind.to_raw())
}

fn green(alloc: Global) -> Option<GreenNode> {
    let mut builder = GreenNodeBuilder::new(alloc);
    builder.start_node(raw(SyntaxKind::ARG_LIST)).ok()?;
    for (kind, text) in TOKENS {
        builder.token(raw(*kind), text).ok()?;
    }
    builder.finish_node().ok()?;
    builder.finish().ok()
}

/// Returns the root of `(1, 2)`, which is one node.
fn root(alloc: Global, ids: &mut TreeIds) -> Option<SyntaxNode>
    ensures { IfSome result (λ r. r.place.up ≡ []) }
{
    SyntaxNode::new_root(alloc, green(alloc)?, ids).ok()
}

/// Returns the token to insert.
fn token(alloc: Global, ids: &mut TreeIds) -> Option<SyntaxElement> {
    let green = GreenToken::new(alloc, raw(SyntaxKind::INT_NUMBER), "3").ok()?;
    let token = SyntaxToken::detached(alloc, green, ids).ok()?;
    Some(SyntaxElement::Token(token))
}

/// Returns the gap after the last token.
fn end(editor: &SyntaxEditor) -> Option<Position> {
    let parent = editor.root().clone().ok()?;
    Some(Position { parent, index: 6 })
}

/// Returns `true` if the child at index `child` is deleted, by a call that is repeated once if it
/// fails.
fn deletes(alloc: Global, editor: &mut SyntaxEditor, child: usize) -> Option<bool> {
    let old = editor.root().element_at(alloc, &[child]).ok()??;
    Some(editor.delete(alloc, &old).is_ok() || editor.delete(alloc, &old).is_ok())
}

fn replaces(
    alloc: Global,
    editor: &mut SyntaxEditor,
    child: usize,
    new: &SyntaxElement,
) -> Option<bool> {
    let old = editor.root().element_at(alloc, &[child]).ok()??;
    Some(editor.replace(alloc, &old, new).is_ok() || editor.replace(alloc, &old, new).is_ok())
}

fn inserts(alloc: Global, editor: &mut SyntaxEditor, new: &SyntaxElement) -> Option<bool> {
    let place = end(editor)?;
    let again = end(editor)?;
    let is_done = editor.insert(alloc, place, new).is_ok();
    Some(is_done || editor.insert(alloc, again, new).is_ok())
}

/// Returns `true` if the first number is deleted, the second replaced, and a third inserted at the
/// end, each by a call that is repeated once if it fails; `None` if another allocation failed.
fn recorded(alloc: Global, editor: &mut SyntaxEditor, new: &SyntaxElement) -> Option<bool> {
    let deleted = deletes(alloc, editor, 1)?;
    let replaced = replaces(alloc, editor, 4, new)?;
    let inserted = inserts(alloc, editor, new)?;
    Some(deleted & replaced & inserted)
}

/// Returns the edit of `(1, 2)`, and whether all changes were recorded; `None` if an allocation
/// failed outside the recording calls.
fn edited(alloc: Global) -> Option<(SyntaxEdit, bool)> {
    let mut ids = TreeIds::new();
    let root = root(alloc, &mut ids)?;
    let new = token(alloc, &mut ids)?;
    let mut editor = SyntaxEditor::of_root(alloc, root);
    let is_recorded = recorded(alloc, &mut editor, &new)?;
    let edit = editor.finish(alloc, &mut ids).ok()?;
    Some((edit, is_recorded))
}

/// Returns `true` if `(1, 2)` becomes `(, 3)3`; `None` if an allocation failed outside the
/// recording calls.
fn is_edited(alloc: Global) -> Option<bool> {
    let (edit, is_recorded) = edited(alloc)?;
    let text = edit.new_root().cursor().text().ok()?;
    Some(is_recorded & text.eq_str("(, 3)3"))
}

#[test]
fn refused_calls_leave_the_editor(rt: HostRuntime) -> Result<(), Fail> {
    let is_edited = match is_edited(rt.alloc()) {
        Some(answer) => answer,
        None => is_edited(rt.alloc()) == Some(true),
    };
    assert!(rt; is_edited);
    Ok(())
}
