//! The text that a commit would make, before any text is read: a deep one is not to be read on a small
//! stack.
ghost use Rattle.std.specs.Prelude.{◌≡◌, ℕ, map, option_map, string_bytes, IfErr, IfOk, OnOk};
ghost use Rattle.syntax_tree.specs.Handle.{element_of};
ghost use Rattle.document_requests.specs.Applied.{IsUnprepared, IsWithheld};
ghost use Rattle.document_requests.specs.Asked.{change as change_in};
ghost use Rattle.document_requests.specs.Session.{Given, Ready, found, is_only_child, only_child, payload_entry, prepared, prepared_by, put_element, taken};
ghost use Rattle.kept_document.specs.Depth.{made_text, text_by};

use crate::tree_text::renamed_text;
use document_requests::stop::Stop;
use document_requests::{Change, Entry, Op, Refusal, Target};
use ra_parser::TopEntryPoint;
use rowan_green::{TextRange, TextSize};
use rust_document::{Document, PayloadEntry, SyntaxEditor};
use std::alloc::{AllocError, Global};
use syntax_editor::RewriteError;
use syntax_tree::{Position, SyntaxElement, SyntaxNode, TreeIds};

/// Returns the element that a target names.
fn target_of(
    alloc: Global,
    document: &Document,
    target: Target,
) -> Result<Option<SyntaxElement>, AllocError>
    ensures { IfOk result (λ element. option_map element_of element ≡ found document.now target) }
{
    if target.start >= target.stop || target.stop > document.text().len() as u64 {
        return Ok(None);
    }
    let start = TextSize::new(target.start as u32);
    let stop = TextSize::new(target.stop as u32);
    document.find(alloc, target.kind, TextRange::new(start, stop))
}

/// Returns what a text is read as.
fn entry_of(entry: Entry) -> PayloadEntry
    ensures { result ≡ payload_entry entry }
{
    match entry {
        Entry::Token => PayloadEntry::Token,
        Entry::Expr => PayloadEntry::Top(TopEntryPoint::Expr),
        Entry::Ty => PayloadEntry::Top(TopEntryPoint::Ty),
        Entry::Pattern => PayloadEntry::Top(TopEntryPoint::Pattern),
        Entry::Item => PayloadEntry::Top(TopEntryPoint::SourceFile),
        Entry::Stmt => PayloadEntry::Top(TopEntryPoint::MacroStmts),
    }
}

/// Returns `true` if a text is put as the only child of what it is read as.
fn is_only_child(entry: Entry) -> bool
    ensures { result ≡ is_only_child entry }
{
    matches!(entry, Entry::Item | Entry::Stmt)
}

/// Returns the only child of a node, tokens counted too.
fn only_child_of(alloc: Global, node: &SyntaxNode) -> Result<Option<SyntaxElement>, AllocError>
    ensures { IfOk result (λ child. option_map element_of child ≡ only_child node.now) }
{
    if node.cursor().green().children().len() != 1 {
        return Ok(None);
    }
    let mut way = node.way(alloc)?;
    way.insert(0, 0)?;
    node.element_at(alloc, &way)
}

/// Returns the only child of an element. A token has none.
fn only_child(alloc: Global, element: &SyntaxElement) -> Result<Option<SyntaxElement>, AllocError>
    ensures { IfOk result
        (λ child. option_map element_of child ≡ only_child (element_of element.now)) }
{
    match element {
        SyntaxElement::Node(node) => only_child_of(alloc, node),
        SyntaxElement::Token(token) => {
            let _leaf = token.cursor().green();
            Ok(None)
        }
    }
}

/// Returns the element that a text is put as.
fn payload_of(
    alloc: Global,
    document: &Document,
    entry: Entry,
    text: &str,
    ids: &mut TreeIds,
) -> Result<SyntaxElement, Stop>
    ensures given { IfOk result (λ element. taken entry document.now text.now ids.old
        ≡ Given (element_of element) ids.new) }
    ensures stopped { IfErr result
        (IsWithheld (taken entry document.now text.now ids.old) ids.new) }
{
    let payload = document.payload(alloc, entry_of(entry), text, ids)?;
    // (this shows that the number of its tree fits)
    prove!(payload.tree() <= u32::MAX);
    if !is_only_child(entry) {
        return Ok(payload);
    }
    match only_child(alloc, &payload)? {
        Some(child) => Ok(child),
        None => Err(Stop::Refused(Refusal::Payload)),
    }
}

/// Records that an element comes to another one.
fn put_at(
    alloc: Global,
    editor: &mut SyntaxEditor,
    op: Op,
    old: &SyntaxElement,
    new: &SyntaxElement,
) -> Result<(), Stop>
    ensures done { OnOk result ((next : ℕ)
        → put_element op (element_of old.now) editor.old next (element_of new.now)
        ≡ Ready editor.new next) }
    ensures stopped { IfErr result (λ stop. (next : ℕ)
        → IsUnprepared (put_element op (element_of old.now) editor.old next
        (element_of new.now)) next stop) }
{
    match op {
        Op::Replace => Ok(editor.replace(alloc, old, new)?),
        Op::Before => Ok(editor.insert(alloc, Position::before(old)?, new)?),
        Op::After => Ok(editor.insert(alloc, Position::after(old)?, new)?),
    }
}

/// Records a change of a commit.
fn record(
    alloc: Global,
    document: &Document,
    editor: &mut SyntaxEditor,
    change: Change<'_>,
    ids: &mut TreeIds,
) -> Result<(), Stop>
    ensures done { OnOk result (prepared_by (change_in change.entry) document.now editor.old ids.old
        ≡ Ready editor.new ids.new) }
    ensures stopped { IfErr result (IsUnprepared
        (prepared_by (change_in change.entry) document.now editor.old ids.old) ids.new) }
{
    match change {
        Change::Put {
            op,
            target,
            entry,
            text,
        } => {
            let Some(old) = target_of(alloc, document, target)? else {
                return Err(Stop::Refused(Refusal::NoTarget));
            };
            let new = payload_of(alloc, document, entry, text, ids)?;
            put_at(alloc, editor, op, &old, &new)
        }
        Change::Delete { target } => {
            let Some(old) = target_of(alloc, document, target)? else {
                return Err(Stop::Refused(Refusal::NoTarget));
            };
            editor.delete(alloc, &old)?;
            Ok(())
        }
    }
}

/// Records the changes of a commit in order, up to the first that is refused.
fn record_all(
    alloc: Global,
    document: &Document,
    editor: &mut SyntaxEditor,
    changes: &[Change<'_>],
    ids: &mut TreeIds,
) -> Result<(), Stop>
    ensures done { OnOk result (prepared (map change_in changes.now) document.now editor.old ids.old
        ≡ Ready editor.new ids.new) }
    ensures stopped { IfErr result (IsUnprepared
        (prepared (map change_in changes.now) document.now editor.old ids.old) ids.new) }
{
    for change in changes {
        record(alloc, document, editor, *change, ids)?;
    }
    Ok(())
}

/// Returns the text of the tree with all recorded changes applied, if they can be.
fn text_by(alloc: Global, editor: &SyntaxEditor) -> Result<Option<String>, AllocError>
    ensures { IfOk result (λ text. option_map string_bytes text ≡ text_by editor.now) }
{
    match editor.rewritten(alloc) {
        Ok(rewritten) => Ok(Some(renamed_text(alloc, &rewritten.green, "", "")?)),
        Err(RewriteError::Intersecting) => Ok(None),
        Err(RewriteError::MissingMapping) => Ok(None),
        Err(RewriteError::TooLong) => Ok(None),
        Err(RewriteError::NoMemory) => Err(AllocError),
    }
}

/// Returns the text that a commit of these changes would make, if none of them is refused.
///
/// # Errors
///
/// [`AllocError`] if an allocation fails.
pub(crate) fn committed_text(
    alloc: Global,
    document: &Document,
    changes: &[Change<'_>],
) -> Result<Option<String>, AllocError>
    ensures { IfOk result (λ text. option_map string_bytes text
        ≡ made_text document.now (map change_in changes.now)) }
{
    // (a source of its own: its first number is not that of the present tree)
    let mut ids = TreeIds::starting_at(document.root().tree().wrapping_add(1));
    let mut editor = document.editor(alloc)?;
    match record_all(alloc, document, &mut editor, changes, &mut ids) {
        Ok(()) => text_by(alloc, &editor),
        Err(Stop::Refused(_)) => Ok(None),
        Err(Stop::NoMemory) => Err(AllocError),
    }
}
