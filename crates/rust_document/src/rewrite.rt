//! Reads the text of a rewritten tree, and compares.
ghost use Rattle.std.specs.Prelude.{◌≡◌, ◌≤◌, length, map, option_map, string_bytes, IfOk, IfErr, OnOk};
ghost use Rattle.rowan_green.specs.Forest.{tree_text};
ghost use Rattle.tree_rewrite.specs.Fits.{IsNode};
ghost use Rattle.tree_rewrite.specs.Pieces.{Say};
ghost use Rattle.syntax_editor.specs.Rewriting.{rewriting};
ghost use Rattle.rust_document.specs.Committed.{annotated_ends, bounds_of};
ghost use Rattle.rust_document.specs.Difference.{difference, told_of, IsDifference, LacksDifference, LacksReading};
ghost use Rattle.rust_document.specs.NextReading.{IsOwnParse};
ghost use Rattle.rust_document.specs.Rewrite.{annotated};
ghost use Rattle.rust_document.specs.Step.{MAX_TEXT};
ghost use Rattle.rust_document.specs.Rewritten.{IsReadBack, RefusesReadBack, IsRewritten, RefusesRewritten};

use crate::bare::same_bare;
use crate::difference::{Difference, difference_of};
use crate::document::MAX_TEXT;
use crate::error::CommitError;
use crate::lexing::lexed_content;
use crate::parse::Parse;
use crate::read::{NextReading, NextText, read, read_next};
use crate::tree_text::text_of;
use parser_input::edition::Edition;
use ra_parser::{Grammar, TopEntryPoint};
use rowan_green::{GreenNode, TextRange};
use std::alloc::{AllocError, Global};
use syntax_editor::{SyntaxAnnotation, SyntaxEditor};
use syntax_tree::{SyntaxElement, SyntaxNode, TreeIds};
use tree_rewrite::origins::origins_of;
use tree_rewrite::piece::Piece;

/// The text of a rewritten tree, with its reading, the tree and the pieces that it was built from,
/// the ranges that were inserted, and those of annotated elements.
#[derive(Drop)]
pub struct Rewritten {
    pub text: String,
    pub reading: NextReading,
    pub green: GreenNode,
    pub changed: Vec<TextRange>,
    pub pieces: Vec<Piece>,
    pub annotated: Vec<(TextRange, SyntaxAnnotation)>,
}

/// A text with its reading.
#[derive(Drop)]
struct ReadBack {
    text: String,
    reading: NextReading,
}

/// Returns the text of `tree` with its reading; `before` is the parse of another text.
///
/// # Errors
///
/// - [`CommitError::TooLong`] if the text has more than [`MAX_TEXT`] bytes.
/// - [`CommitError::Unfaithful`] if the tree of the reading differs from `tree` in more than
///   whitespace and comments.
/// - [`CommitError::NoMemory`] if an allocation fails.
fn read_back(
    alloc: Global,
    grammar: Grammar,
    edition: Edition,
    tree: &GreenNode,
    before: &Parse,
) -> Result<ReadBack, CommitError>
    requires { IsOwnParse before.now }
    ensures ok { IfOk result (λ r. IsReadBack grammar edition tree.now before.now.input
        (string_bytes r.text) r.reading) }
    ensures refused { IfErr result (RefusesReadBack grammar edition tree.now) }
{
    if usize::from(tree.text_len()) > MAX_TEXT {
        return Err(CommitError::TooLong);
    }
    let text = text_of(alloc, tree)?;
    let kept = lexed_content(alloc, text.as_str())?;
    let unread = NextText {
        text: text.as_str(),
        kept,
        root: None,
    };
    let next = read_next(alloc, grammar, edition, unread, before)?;
    if same_bare(tree, &next.reading.root) {
        return Ok(ReadBack {
            text,
            reading: next,
        });
    }
    Err(CommitError::Unfaithful)
}

/// The bytes of elements, each with its annotation.
fn ranges_of(
    alloc: Global,
    found: &[(SyntaxElement, SyntaxAnnotation)],
) -> Result<Vec<(TextRange, SyntaxAnnotation)>, AllocError>
    ensures { IfOk result (λ v. map annotated_ends v.items ≡ map bounds_of found.now) }
{
    let mut ranges = Vec::new(alloc);
    for (element, annotation) in found {
        let range = element.text_range();
        ranges.push((range, *annotation))?;
    }
    Ok(ranges)
}

/// The bytes of the annotated elements that stand in the rewritten tree of an editor, which was
/// made of these pieces.
fn annotated_ranges(
    alloc: Global,
    editor: &SyntaxEditor,
    tree: GreenNode,
    pieces: &[Piece],
) -> Result<Vec<(TextRange, SyntaxAnnotation)>, AllocError>
    requires tree { IsNode (rewriting editor.now) tree }
    requires says { Say pieces.now (rewriting editor.now) }
    ensures { IfOk result (λ v. map annotated_ends v.items ≡ annotated editor.now) }
{
    if !editor.is_annotated() {
        return Ok(Vec::new(alloc));
    }
    let came_from = origins_of(alloc, pieces)?;
    // (a separate source of tree numbers: these handles are dropped when their ranges are known)
    let Ok(root) = SyntaxNode::new_root(alloc, tree, &mut TreeIds::new()) else {
        return Err(AllocError);
    };
    let found = editor.annotated_in(alloc, &root, &came_from.elements)?;
    ranges_of(alloc, &found)
}

/// What an editor's changes make of its tree; `before` is the parse of the tree's own text.
pub fn rewrite(
    alloc: Global,
    grammar: Grammar,
    edition: Edition,
    editor: &SyntaxEditor,
    before: &Parse,
) -> Result<Rewritten, CommitError>
    requires { IsOwnParse before.now }
    ensures ok { IfOk result (λ r. IsRewritten grammar edition editor.now before.now.input
        (string_bytes r.text) r.reading r.changed.items) }
    ensures green { IfOk result (λ r. IsNode (rewriting editor.now) r.green) }
    ensures says { IfOk result (λ r. Say r.pieces.items (rewriting editor.now)) }
    ensures annotated { IfOk result
        (λ r. map annotated_ends r.annotated.items ≡ annotated editor.now) }
    ensures refused { IfErr result (RefusesRewritten grammar edition editor.now) }
{
    let rewritten = editor.rewritten(alloc)?;
    let ReadBack { text, reading } = read_back(alloc, grammar, edition, &rewritten.green, before)?;
    let tree = rewritten.green.clone()?;
    let annotated = annotated_ranges(alloc, editor, tree, &rewritten.pieces)?;
    Ok(Rewritten {
        text,
        reading,
        green: rewritten.green,
        changed: rewritten.changed,
        pieces: rewritten.pieces,
        annotated,
    })
}

/// Returns the first difference between a tree and the reading of its text.
///
/// # Errors
///
/// - [`CommitError::TooLong`] if the text has more than [`MAX_TEXT`] bytes.
/// - [`CommitError::NoMemory`] if an allocation fails.
fn difference_from_reading(
    alloc: Global,
    grammar: Grammar,
    edition: Edition,
    tree: &GreenNode,
) -> Result<Option<Difference>, CommitError>
    ensures fits { OnOk result (length (tree_text tree.now) ≤ MAX_TEXT) }
    ensures told { IfOk result (λ r. option_map told_of r ≡ difference grammar edition tree.now) }
    ensures refused { IfErr result (LacksReading tree.now) }
{
    let len = usize::from(tree.text_len());
    if len > MAX_TEXT {
        return Err(CommitError::TooLong);
    }
    let text = text_of(alloc, tree)?;
    let reading = read(
        alloc,
        TopEntryPoint::SourceFile,
        grammar,
        edition,
        text.as_str(),
    )?;
    Ok(difference_of(tree, &reading.root))
}

/// Returns the first difference between the rewritten tree of `editor` and the reading of its text.
///
/// # Errors
///
/// As of [`rewrite`], but never [`CommitError::Unfaithful`].
pub fn rewritten_difference(
    alloc: Global,
    grammar: Grammar,
    edition: Edition,
    editor: &SyntaxEditor,
) -> Result<Option<Difference>, CommitError>
    ensures told { IfOk result (IsDifference grammar edition editor.now) }
    ensures refused { IfErr result (LacksDifference editor.now) }
{
    let made = editor.rewritten(alloc)?;
    difference_from_reading(alloc, grammar, edition, &made.green)
}
