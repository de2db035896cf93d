//! The elements of a tree as rows.
ghost use Rattle.std.specs.Prelude.{◌≡◌, ◌+◌, ◌<◌, ◌^◌, ◌++◌, IfOk, OnOk};
ghost use Rattle.rowan_green.specs.Term.{kind_of, term_len};
ghost use Rattle.rust_document.specs.Step.{present};
ghost use Rattle.document_rows.specs.Pending.{Enters, pending, total_len};
ghost use Rattle.document_rows.specs.Rows.{element_row, element_rows, element_rows_of};

use crate::rows::{ElementRow, shown};
use rowan_green::{Children, GreenElementRef, GreenNode, NodeOrToken};
use rust_document::Document;
use std::alloc::{AllocError, Global};

/// Returns the row of an element that starts at the byte `start`. `depth` is the number of nodes around
/// it.
fn element_row(element: &GreenElementRef<'_>, depth: usize, start: u32) -> ElementRow
    requires { start + term_len element.now < 2 ^ 32 }
    ensures { result ≡ element_row (kind_of element.now) depth start (start + term_len element.now) }
{
    ElementRow {
        kind: u32::from(element.kind().0),
        depth: shown(depth),
        start,
        end: start + u32::from(element.text_len()),
    }
}

/// Enters a node, or passes a token. Returns the offset of what comes next.
fn enter<'a>(
    element: GreenElementRef<'a>,
    start: u32,
    levels: &mut Vec<Children<'a>>,
) -> Result<u32, AllocError>
    requires { start + term_len element < 2 ^ 32 }
    ensures { IfOk result (Enters element.entry start levels.old.items levels.new.items) }
{
    match element {
        NodeOrToken::Node(node) => {
            levels.push(node.children())?;
            Ok(start)
        }
        NodeOrToken::Token(token) => Ok(start + u32::from(token.text_len())),
    }
}

/// Appends the rows of the elements in `levels`: what is left of a node's children, and what is left
/// around it, the innermost last.
fn push_levels(levels: &mut Vec<Children<'_>>, rows: &mut Vec<ElementRow>) -> Result<(), AllocError>
    requires { total_len levels.old.items < 2 ^ 32 }
    ensures { OnOk result (rows.new.items ≡ rows.old.items ++ pending 1 0 levels.old.items) }
{
    let mut start = 0u32;
    'levels: while let Some(mut children) = levels.pop() {
        let depth = levels.as_slice().len().saturating_add(1);
        match children.next() {
            Some(element) => {
                rows.push(element_row(&element, depth, start))?;
                levels.push(children)?;
                start = enter(element, start, levels)?;
            }
            None => continue,
        }
    }
    Ok(())
}

/// Returns a row for each element of a tree, in preorder.
///
/// # Errors
///
/// [`AllocError`] if an allocation fails.
pub fn tree_rows(alloc: Global, root: &GreenNode) -> Result<Vec<ElementRow>, AllocError>
    ensures { IfOk result (λ rows. rows.items ≡ element_rows root.now) }
{
    let mut rows = Vec::new(alloc);
    rows.push(ElementRow {
        kind: u32::from(root.kind().0),
        depth: 0,
        start: 0,
        end: u32::from(root.text_len()),
    })?;
    let mut levels = Vec::new(alloc);
    levels.push(root.children())?;
    push_levels(&mut levels, &mut rows)?;
    Ok(rows)
}

/// Returns a row for each element of a document's tree, in preorder. The root has depth 0.
///
/// # Errors
///
/// [`AllocError`] if an allocation fails.
pub fn element_rows(alloc: Global, document: &Document) -> Result<Vec<ElementRow>, AllocError>
    ensures { IfOk result (λ rows. rows.items ≡ element_rows_of document.now) }
{
    tree_rows(alloc, document.root().cursor().green())
}
