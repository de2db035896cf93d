//! Takes an argument that is a binary expression out of a call, into a variable.
#![tactic(auto)]

ghost use Rattle.std.specs.Prelude.{◌≡◌, IfErr, IfOk};
ghost use Rattle.extract_tool.specs.Extracts.{Answers, argument_of, is_argument};

use rust_source::{
    Source, SourceError, SyntaxElement, SyntaxKind, SyntaxNode, TopEntryPoint, ancestor_below,
    is_of_kind,
};
use std::alloc::{AllocError, Global};

/// The outcome of an extraction.
#[derive(Clone, Copy, Debug, PartialEq, Eq)]
pub enum Extraction {
    Done,
    /// There is no such argument in a statement.
    NoArgument,
    /// The name is an identifier of the text already.
    NameIsUsed,
}

/// Returns `true` if `node` is a binary expression and an argument.
fn is_argument(node: &SyntaxNode) -> Result<bool, AllocError>
    ensures { IfOk result (λ b. b ≡ is_argument node.now) }
{
    if !is_of_kind(node, SyntaxKind::BIN_EXPR) {
        return Ok(false);
    }
    match node.parent()? {
        Some(parent) => Ok(is_of_kind(&parent, SyntaxKind::ARG_LIST)),
        None => Ok(false),
    }
}

/// Returns the binary expression of this number, counted from 0, among the arguments of calls.
fn argument(
    alloc: Global,
    root: &SyntaxNode,
    number: usize,
) -> Result<Option<SyntaxNode>, AllocError>
    ensures { IfOk result (λ n. n ≡ argument_of root.now number) }
{
    let mut left = number;
    for node in root.descendants(alloc)? {
        let node = node?;
        if is_argument(&node)? {
            if left == 0 {
                return Ok(Some(node));
            }
            left -= 1;
        }
    }
    Ok(None)
}

/// Replaces the argument of this number with `name`, and puts `let name = argument;` before its
/// statement, on a line of its own. Nothing else changes.
///
/// # Errors
///
/// As of the calls of [`Source`]. On error, the document is unchanged.
pub fn extract(source: &mut Source, number: usize, name: &str) -> Result<Extraction, SourceError>
    ensures answers { IfOk result (Answers source.old number name.now source.new.document) }
    ensures kept { IfErr result (λ _. source.new.document ≡ source.old.document) }
{
    let alloc = source.alloc();
    if source.has_identifier(name) {
        return Ok(Extraction::NameIsUsed);
    }
    let Some(argument) = argument(alloc, source.root(), number)? else {
        return Ok(Extraction::NoArgument);
    };
    let Some(statement) = ancestor_below(&argument, SyntaxKind::STMT_LIST)? else {
        return Ok(Extraction::NoArgument);
    };
    let text = format!(in alloc; "let {name} = {};", argument.cursor())?;
    let binding = SyntaxElement::Node(source.payload_statement(text.as_str())?);
    let path = source.payload_node(TopEntryPoint::Expr, SyntaxKind::PATH_EXPR, name)?;
    let path = SyntaxElement::Node(path);
    let mut editor = source.editor()?;
    source.insert_on_line_before(&mut editor, &SyntaxElement::Node(statement), &binding)?;
    let argument = SyntaxElement::Node(argument);
    editor.replace(alloc, &argument, &path)?;
    source.commit_without_messages(editor)?;
    Ok(Extraction::Done)
}
