//! Editors of typed nodes.
use crate::tests::tree::{Tree, root};
use parser_input::SyntaxKind;
use std::alloc::Global;
use std::collections::HashSet;
use std::test::Fail;
use syntax_editor::{
    AttrsOwnerEdit, Fn, ItemList, SourceFile, StmtList, Struct, SyntaxEditor, Use,
};
use syntax_tree::{AstNode, SyntaxElement, TreeIds};

/// Returns for each typed node whether `kind` can be cast to it: a file, a struct, a function, a
/// use, items, statements.
pub(crate) fn casts(kind: SyntaxKind) -> [bool; 6] {
    [
        SourceFile::can_cast(kind),
        Struct::can_cast(kind),
        Fn::can_cast(kind),
        Use::can_cast(kind),
        ItemList::can_cast(kind),
        StmtList::can_cast(kind),
    ]
}

/// Returns the statements of a block.
fn statements(alloc: Global, ids: &mut TreeIds) -> Result<StmtList, Fail> {
    let root = root(alloc, Tree::Lines, ids)?;
    let Some(SyntaxElement::Node(node)) = root.element_at(alloc, &[1])? else {
        return Err(Fail::new("no statements"));
    };
    match StmtList::cast(node) {
        Some(list) => Ok(list),
        None => Err(Fail::new("of another type")),
    }
}

/// Returns the number and the text of the tree that is edited for the statements of a block, and
/// whether its root is the typed root.
pub(crate) fn typed_copy(alloc: Global) -> Result<String, Fail> {
    let mut ids = TreeIds::new();
    let list = statements(alloc, &mut ids)?;
    let (editor, root) = SyntaxEditor::with_ast_node(alloc, &list, &mut ids)?;
    let is_root = *editor.root() == *root.syntax();
    let text = editor.root().cursor().text()?;
    Ok(format!(in alloc; "{} {text} {is_root}", editor.root().tree())?)
}

/// Returns whether a set that holds a typed node contains a clone of it, and the equal node of
/// another tree.
pub(crate) fn holds_clone_and_other(alloc: Global) -> Result<[bool; 2], Fail> {
    let mut ids = TreeIds::new();
    let list = statements(alloc, &mut ids)?;
    let clone = list.clone()?;
    let other = statements(alloc, &mut ids)?;
    let mut set = HashSet::new(alloc);
    set.insert(list)?;
    Ok([set.contains(&clone), set.contains(&other)])
}

/// Returns the text of a struct after its attributes and documentation are removed.
pub(crate) fn stripped(alloc: Global) -> Result<String, Fail> {
    let mut ids = TreeIds::new();
    let node = root(alloc, Tree::Documented, &mut ids)?;
    let mut editor = SyntaxEditor::of_root(alloc, node.clone()?);
    let Some(documented) = Struct::cast(node) else {
        return Err(Fail::new("of another type"));
    };
    documented.remove_attrs_and_docs(alloc, &mut editor)?;
    let edit = editor.finish(alloc, &mut ids)?;
    Ok(format!(in alloc; "{}", edit.new_root().cursor().text()?)?)
}
