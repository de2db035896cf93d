//! Editors, and what comes of the changes that are recorded in them.
ghost use Rattle.std.specs.Prelude.{◌≡◌, []};

use crate::recording::{child, record};
use crate::trees::{element, node, root, word};
use memory_table::row::{Ask, Row};
use memory_table::shown::{list_shown, one_shown};
use parser_input::SyntaxKind;
use std::alloc::Global;
use syntax_editor::{FinishError, MakeError, Space, SyntaxEditor};
use syntax_tree::{SyntaxElement, SyntaxNode, SyntaxToken, TreeIds};

/// The calls of `syntax_editor`.
#[derive(Clone, Copy)]
pub(crate) enum EditorCall {
    New,
    MakeWhitespace,
    MakeToken,
    Between,
    AddAnnotation,
    AddAnnotationAll,
    Insert,
    InsertAll,
    InsertWithWhitespace,
    InsertAllWithWhitespace,
    Delete,
    DeleteAll,
    Replace,
    ReplaceWithMany,
    ReplaceAll,
    Merge,
    Finish,
    FindElement,
    Rewritten,
    RewrittenNested,
    HasCollision,
    AnnotatedIn,
}

/// What an editor says before it is finished.
fn asked(alloc: Global, call: EditorCall, editor: &SyntaxEditor) -> anyhow::Result<String> {
    match call {
        EditorCall::Rewritten | EditorCall::RewrittenNested => Ok(format!(in alloc;
            "{}",
            editor.rewritten(alloc)?.green
        )?),
        EditorCall::HasCollision => Ok(format!(in alloc; "{}", editor.has_collision(alloc)?)?),
        _ => {
            let root = editor.root();
            let origins = vec![in alloc; SyntaxElement::Node(root.clone()?)]?;
            Ok(format!(in alloc; "{}", editor.annotated_in(alloc, root, &origins)?.len())?)
        }
    }
}

/// The number of the rewritten tree, its text, and how many annotated elements it has. A call that
/// makes whitespace may use up numbers before it answers out of memory, and the number is left out
/// then.
fn finished(
    alloc: Global,
    call: EditorCall,
    editor: SyntaxEditor,
    ids: &mut TreeIds,
) -> anyhow::Result<String> {
    let old = node(alloc, editor.root(), &[4])?;
    let edit = editor.finish(alloc, ids)?;
    if matches!(call, EditorCall::FindElement) {
        return Ok(one_shown(alloc, edit.find_element(alloc, &old))?);
    }
    let text = edit.new_root().cursor().text()?;
    match call {
        EditorCall::InsertWithWhitespace | EditorCall::InsertAllWithWhitespace => {
            Ok(format!(in alloc; "{text}")?)
        }
        _ => {
            let number = edit.new_root().tree();
            Ok(format!(in alloc; "{number} {text} {}", edit.annotated().len())?)
        }
    }
}

/// An editor of a tree that replaces its first literal.
fn replacing(alloc: Global, root: &SyntaxNode, new: &SyntaxElement) -> anyhow::Result<SyntaxEditor>
    requires { root.now.place.up ≡ [] }
{
    let mut editor = SyntaxEditor::of_root(alloc, root.clone()?);
    let old = child(alloc, &editor, 1)?;
    editor.replace(alloc, &old, new)?;
    Ok(editor)
}

/// The number and the text of a rewritten tree. It is recorded and finished a second time if memory
/// is refused: no number is used up then.
fn finished_again(alloc: Global, refused: &mut u32) -> anyhow::Result<String> {
    let mut ids = TreeIds::new();
    let root = root(alloc, &mut ids)?;
    let new = SyntaxElement::Token(word(alloc, &mut ids)?);
    let first = replacing(alloc, &root, &new)?.finish(alloc, &mut ids);
    let edit = match first {
        Err(FinishError::NoMemory) => {
            *refused = refused.saturating_add(1);
            replacing(alloc, &root, &new)?.finish(alloc, &mut ids)?
        }
        edit => edit?,
    };
    let text = edit.new_root().cursor().text()?;
    Ok(format!(in alloc; "{} {text}", edit.new_root().tree())?)
}

fn recorded(alloc: Global, call: EditorCall, refused: &mut u32) -> anyhow::Result<String> {
    let mut ids = TreeIds::new();
    let root = root(alloc, &mut ids)?;
    let mut editor = SyntaxEditor::of_root(alloc, root);
    record(alloc, call, &mut editor, &mut ids, refused)?;
    match call {
        EditorCall::Rewritten
        | EditorCall::RewrittenNested
        | EditorCall::HasCollision
        | EditorCall::AnnotatedIn => asked(alloc, call, &editor),
        _ => finished(alloc, call, editor, &mut ids),
    }
}

/// The number and the text of the tree of an editor of the second literal.
fn copied(alloc: Global, root: &SyntaxNode, ids: &mut TreeIds) -> anyhow::Result<String> {
    let literal = node(alloc, root, &[4])?;
    let (editor, copy) = SyntaxEditor::new(alloc, literal, ids)?;
    let text = editor.root().cursor().text()?;
    Ok(format!(in alloc; "{} {text}", copy.tree())?)
}

fn factory_token(
    alloc: Global,
    call: EditorCall,
    editor: &SyntaxEditor,
    ids: &mut TreeIds,
) -> Result<SyntaxToken, MakeError> {
    match call {
        EditorCall::MakeWhitespace => editor.make().whitespace(alloc, "  ", ids),
        _ => editor.make().token(alloc, SyntaxKind::IDENT, "x", ids),
    }
}

/// A token that the factory of an editor makes, a second time if it runs out of memory: no number is
/// used up then.
fn made(
    alloc: Global,
    call: EditorCall,
    editor: &SyntaxEditor,
    ids: &mut TreeIds,
    refused: &mut u32,
) -> anyhow::Result<String> {
    let token = match factory_token(alloc, call, editor, ids) {
        Err(MakeError::NoMemory) => {
            *refused = refused.saturating_add(1);
            factory_token(alloc, call, editor, ids)?
        }
        token => token?,
    };
    let number = token.tree();
    let token = list_shown(alloc, &[SyntaxElement::Token(token)])?;
    Ok(format!(in alloc; "{number} {token}")?)
}

/// What comes between the first two children of a root.
fn between(alloc: Global, root: &SyntaxNode) -> anyhow::Result<String> {
    let (left, right) = (element(alloc, root, &[0])?, element(alloc, root, &[1])?);
    Ok(match Space::between(alloc, &left, &right)? {
        Space::Nothing => String::from_str(alloc, "nothing")?,
        space => format!(in alloc; "`{space}`")?,
    })
}

impl Ask for EditorCall {
    fn answer(self, alloc: Global, refused: &mut u32) -> anyhow::Result<String> {
        let mut ids = TreeIds::new();
        match self {
            EditorCall::New => copied(alloc, &root(alloc, &mut ids)?, &mut ids),
            EditorCall::Finish => finished_again(alloc, refused),
            EditorCall::Between => between(alloc, &root(alloc, &mut ids)?),
            EditorCall::MakeWhitespace | EditorCall::MakeToken => {
                let editor = SyntaxEditor::of_root(alloc, root(alloc, &mut ids)?);
                made(alloc, self, &editor, &mut ids, refused)
            }
            _ => recorded(alloc, self, refused),
        }
    }
}

pub(crate) const ROWS: &[Row<EditorCall>] = &[
    ("syntax_editor::SyntaxEditor::new", EditorCall::New, "2 2"),
    (
        "syntax_editor::SyntaxFactory::whitespace",
        EditorCall::MakeWhitespace,
        "2 WHITESPACE@0..2 ",
    ),
    (
        "syntax_editor::SyntaxFactory::token",
        EditorCall::MakeToken,
        "2 IDENT@0..1 ",
    ),
    ("syntax_editor::Space::between", EditorCall::Between, "` `"),
    (
        "syntax_editor::SyntaxEditor::add_annotation",
        EditorCall::AddAnnotation,
        "3 (x, 2) 1",
    ),
    (
        "syntax_editor::SyntaxEditor::add_annotation_all",
        EditorCall::AddAnnotationAll,
        "3 (x, 2) 2",
    ),
    (
        "syntax_editor::SyntaxEditor::insert",
        EditorCall::Insert,
        "3 x(1, 2) 0",
    ),
    (
        "syntax_editor::SyntaxEditor::insert_all",
        EditorCall::InsertAll,
        "3 (1, 2)xx 0",
    ),
    (
        "syntax_editor::SyntaxEditor::insert_with_whitespace",
        EditorCall::InsertWithWhitespace,
        "(1, 2 x )",
    ),
    (
        "syntax_editor::SyntaxEditor::insert_all_with_whitespace",
        EditorCall::InsertAllWithWhitespace,
        "(1, 2 xx )",
    ),
    (
        "syntax_editor::SyntaxEditor::delete",
        EditorCall::Delete,
        "3 (, 2) 0",
    ),
    (
        "syntax_editor::SyntaxEditor::delete_all",
        EditorCall::DeleteAll,
        "3 ( 2) 0",
    ),
    (
        "syntax_editor::SyntaxEditor::replace",
        EditorCall::Replace,
        "3 (x, 2) 0",
    ),
    (
        "syntax_editor::SyntaxEditor::replace_with_many",
        EditorCall::ReplaceWithMany,
        "3 (xx, 2) 0",
    ),
    (
        "syntax_editor::SyntaxEditor::replace_all",
        EditorCall::ReplaceAll,
        "3 (xx2) 0",
    ),
    (
        "syntax_editor::SyntaxEditor::merge",
        EditorCall::Merge,
        "3 (x, ) 0",
    ),
    (
        "syntax_editor::SyntaxEditor::finish",
        EditorCall::Finish,
        "3 (x, 2)",
    ),
    (
        "syntax_editor::SyntaxEdit::find_element",
        EditorCall::FindElement,
        "LITERAL@4..5 ",
    ),
    (
        "syntax_editor::SyntaxEditor::rewritten",
        EditorCall::Rewritten,
        "(x, 2)",
    ),
    (
        "syntax_editor::SyntaxEditor::rewritten",
        EditorCall::RewrittenNested,
        "(1, (1, x2))",
    ),
    (
        "syntax_editor::SyntaxEditor::has_collision",
        EditorCall::HasCollision,
        "false",
    ),
    (
        "syntax_editor::SyntaxEditor::annotated_in",
        EditorCall::AnnotatedIn,
        "0",
    ),
];
