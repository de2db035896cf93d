//! The indent levels of elements, and the whitespace between them.
use crate::tests::tree::{Tree, root};
use std::alloc::Global;
use std::test::Fail;
use syntax_editor::{IndentLevel, Space};
use syntax_tree::{SyntaxElement, SyntaxNode, TreeIds};

/// Returns the element at up-path `way`.
fn element(alloc: Global, root: &SyntaxNode, way: &[usize]) -> Result<SyntaxElement, Fail> {
    match root.element_at(alloc, way)? {
        Some(element) => Ok(element),
        None => Err(Fail::new("nothing stands there")),
    }
}

/// Returns `true` if the element at up-path `way` has indent level `level`.
pub(crate) fn has_level(alloc: Global, tree: Tree, way: &[usize], level: u8) -> Result<bool, Fail> {
    let mut ids = TreeIds::new();
    let root = root(alloc, tree, &mut ids)?;
    let element = element(alloc, &root, way)?;
    Ok(IndentLevel::from_element(alloc, &element)? == IndentLevel(level))
}

/// Returns the whitespace that goes between the children `left` and `right` of a root.
pub(crate) fn between(alloc: Global, tree: Tree, left: usize, right: usize) -> Result<Space, Fail> {
    let mut ids = TreeIds::new();
    let root = root(alloc, tree, &mut ids)?;
    let first = element(alloc, &root, &[left])?;
    let second = element(alloc, &root, &[right])?;
    Ok(Space::between(alloc, &first, &second)?)
}
