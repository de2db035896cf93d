//! Trees with numbers, and the elements in them.
use super::{open, range};
use parser_input::syntax_kind::SyntaxKind;
use rowan_green::{GreenElement, GreenNode};
use std::alloc::{AllocError, Global};
use std::test::Fail;
use syntax_tree::elements::{node, token};
use syntax_tree::{SyntaxElement, SyntaxNode, SyntaxToken, TreeError, TreeIds};

#[test]
fn numbers(rt: HostRuntime) {
    let mut ids = TreeIds::new();
    assert!(rt; ids.next() == Ok(1) && ids.next() == Ok(2));
    let mut last = TreeIds::starting_at(u32::MAX);
    assert!(rt; last.next() == Ok(u32::MAX) && last.next().is_err() && last.next().is_err());
}

/// Returns the depth of an element, its start in bytes, and whether `root` has an element at its
/// up-path.
fn place_of(
    alloc: Global,
    root: &SyntaxNode,
    element: &SyntaxElement,
) -> Result<(usize, u32, bool), AllocError> {
    let way = element.way(alloc)?;
    let again = root.element_at(alloc, &way)?.is_some();
    Ok((way.len(), element.text_range().start().0, again))
}

/// Returns the place of the name below the root of `struct S;`, or `None` if it is not found.
fn place_below(alloc: Global, root: &SyntaxNode) -> Result<Option<(usize, u32, bool)>, AllocError> {
    match root.find(alloc, SyntaxKind::IDENT, range(7, 8))? {
        Some(name) => Ok(Some(place_of(alloc, root, &name)?)),
        None => Ok(None),
    }
}

fn place_of_name(alloc: Global) -> Result<Option<(usize, u32, bool)>, Fail> {
    let document = open(alloc, "struct S;")?;
    Ok(place_below(alloc, document.root())?)
}

#[test]
fn a_name_in_its_tree(rt: HostRuntime) -> Result<(), Fail> {
    assert!(rt; place_of_name(rt.alloc())? == Some((3, 7, true)));
    Ok(())
}

/// A name of one token.
fn name(alloc: Global) -> Result<GreenNode, AllocError> {
    let ident = GreenElement::from(token(alloc, SyntaxKind::IDENT, "Tee")?);
    node(alloc, SyntaxKind::NAME, vec![in alloc; ident]?)
}

/// A root, where the numbers last: its number, its kind, and its length in bytes.
fn root(alloc: Global, ids: &mut TreeIds) -> Result<(u32, SyntaxKind, u32), TreeError> {
    let root = SyntaxNode::new_root(alloc, name(alloc)?, ids)?;
    Ok((root.tree(), root.kind(), root.text_range().len().0))
}

/// Returns the number, the kind and the length of a token that is the only child of a new root, if
/// a tree number is left.
fn detached(alloc: Global, ids: &mut TreeIds) -> Result<(u32, SyntaxKind, u32), TreeError> {
    let token = token(alloc, SyntaxKind::IDENT, "Tee")?;
    let token = SyntaxToken::detached(alloc, token, ids)?;
    Ok((token.tree(), token.kind(), token.text_range().len().0))
}

#[test]
fn roots_and_tokens(rt: HostRuntime) {
    let mut ids = TreeIds::starting_at(u32::MAX - 1);
    assert!(rt; root(rt.alloc(), &mut ids) == Ok((u32::MAX - 1, SyntaxKind::NAME, 3)));
    assert!(rt; detached(rt.alloc(), &mut ids) == Ok((u32::MAX, SyntaxKind::IDENT, 3)));
    assert!(rt; detached(rt.alloc(), &mut ids) == Err(TreeError::Spent));
    assert!(rt; root(rt.alloc(), &mut ids) == Err(TreeError::Spent));
}
