//! The ancestors of an element.
use crate::tests::tree::{Tree, root};
use std::alloc::Global;
use std::fmt::Write;
use std::test::Fail;
use syntax_tree::TreeIds;

/// Returns the kinds of the ancestors of the element of the argument list at up-path `way`, each
/// after a space. They include the element itself if it is a node.
pub(crate) fn kinds_above(alloc: Global, way: &[usize]) -> Result<String, Fail> {
    let root = root(alloc, Tree::Args, &mut TreeIds::new())?;
    let Some(element) = root.element_at(alloc, way)? else {
        return Err(Fail::new("no such element"));
    };
    let mut kinds = String::new(alloc);
    for node in element.ancestors()? {
        write!(kinds, " {}", node?.kind().name())?;
    }
    Ok(kinds)
}
