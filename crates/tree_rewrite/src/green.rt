//! Green elements, built from pieces.
ghost use Rattle.std.specs.Prelude.{◌≡◌, ◌++◌, ◌∷◌, [], IfOk, IfErr, IfSome, OnOk, Some};
ghost use Rattle.rowan_green.specs.Forest.{Tree};
ghost use Rattle.rowan_green.specs.Term.{terms, tree_of, FitsNode};
ghost use Rattle.rowan_green.specs.declared.utility_types.NodeOrToken.TheVariants.{Node};
ghost use Rattle.tree_rewrite.specs.Marked.{Marked, forest_in};
ghost use Rattle.tree_rewrite.specs.Pieces.{Stand, closed, after_piece, Say};
ghost use Rattle.tree_rewrite.specs.Growing.{IsMade, NewFit, NewFitIn, RefusesUnless};

use crate::error::ExecuteError;
use crate::piece::Piece;
use rowan_green::{GreenElement, GreenError, GreenNode, NodeOrToken, SyntaxKind};
use std::alloc::{AllocError, Global};
use std::mem;

/// An open node, with its kind, or an open group of inserted elements; with the elements before it.
#[derive(Drop)]
pub struct Begun {
    kind: Option<SyntaxKind>,
    before: Vec<GreenElement>,
}

/// Creates a node of kind `kind` with children `children`.
fn node_of(
    alloc: Global,
    kind: SyntaxKind,
    children: Vec<GreenElement>,
) -> Result<GreenNode, ExecuteError>
    ensures node { IfOk result (λ n. n ≡ tree_of kind.0 children.items) }
    ensures fits { OnOk result (FitsNode children.items) }
    ensures refused { IfErr result (RefusesUnless (FitsNode children.items)) }
{
    match GreenNode::new(alloc, kind, children.into_iter()) {
        Ok(node) => Ok(node),
        Err(GreenError::TooLong) => Err(ExecuteError::TooLong),
        Err(_) => Err(ExecuteError::NoMemory),
    }
}

/// Starts a node of kind `kind`, or a group of inserted elements if `kind` is `None`.
fn begin(
    alloc: Global,
    kind: Option<SyntaxKind>,
    done: &mut Vec<GreenElement>,
    around: &mut Vec<Begun>,
) -> Result<(), AllocError>
    ensures done { OnOk result (done.new.items ≡ []) }
    ensures around { OnOk result ((g : Begun) × (around.new.items ≡ around.old.items ++ g ∷ [])
        × (g.kind ≡ kind) × (g.before.items ≡ done.old.items)) }
{
    let before = mem::replace(done, Vec::new(alloc));
    around.push(Begun { kind, before })?;
    Ok(())
}

/// Appends `elements`.
fn push_all(elements: Vec<GreenElement>, to: &mut Vec<GreenElement>) -> Result<(), AllocError>
    ensures { OnOk result (to.new.items ≡ to.old.items ++ elements.items) }
{
    for element in elements {
        to.push(element)?;
    }
    Ok(())
}

/// Ends the last open node or group.
fn close(
    alloc: Global,
    done: &mut Vec<GreenElement>,
    around: &mut Vec<Begun>,
) -> Result<(), ExecuteError>
    ensures made { (s : Stand) → IsMade done.old.items around.old.items s → OnOk result
        (IsMade done.new.items around.new.items (closed s.done s.around)) }
    ensures fits { (s : Stand) → IsMade done.old.items around.old.items s → NewFitIn s → OnOk result
        (NewFitIn (closed s.done s.around)) }
    ensures refused { (s : Stand) → IsMade done.old.items around.old.items s → IfErr result
        (RefusesUnless (NewFitIn (closed s.done s.around))) }
{
    let Some(Begun { kind, before }) = around.pop() else {
        return Ok(());
    };
    let children = mem::replace(done, before);
    match kind {
        Some(kind) => {
            let node = node_of(alloc, kind, children)?;
            done.push(NodeOrToken::Node(node))?;
        }
        None => push_all(children, done)?,
    }
    Ok(())
}

/// Processes one piece.
fn step(
    alloc: Global,
    piece: &Piece,
    done: &mut Vec<GreenElement>,
    around: &mut Vec<Begun>,
) -> Result<(), ExecuteError>
    ensures made { (s : Stand) → IsMade done.old.items around.old.items s → OnOk result
        (IsMade done.new.items around.new.items (after_piece piece.now s)) }
    ensures fits { (s : Stand) → IsMade done.old.items around.old.items s → NewFitIn s → OnOk result
        (NewFitIn (after_piece piece.now s)) }
    ensures refused { (s : Stand) → IsMade done.old.items around.old.items s → IfErr result
        (RefusesUnless (NewFitIn (after_piece piece.now s))) }
{
    match piece {
        Piece::Whole(element) => done.push(element.green()?)?,
        Piece::Open(node) => {
            let green = node.cursor().green();
            let _count = green.children();
            let _length = green.text_len();
            begin(alloc, Some(green.kind()), done, around)?;
        }
        Piece::Group(_) => begin(alloc, None, done, around)?,
        Piece::Close => close(alloc, done, around)?,
    }
    Ok(())
}

/// Returns the green elements of `pieces`.
pub fn green_of(alloc: Global, pieces: &[Piece]) -> Result<Vec<GreenElement>, ExecuteError>
    ensures elements { (m : Marked) → Say pieces.now m
        → IfOk result (λ v. v.items ≡ terms (forest_in m)) }
    ensures fits { (m : Marked) → Say pieces.now m → OnOk result (NewFit m) }
    ensures refused { (m : Marked) → Say pieces.now m → IfErr result (RefusesUnless (NewFit m)) }
{
    let mut done = Vec::new(alloc);
    let mut around = Vec::new(alloc);
    for piece in pieces {
        step(alloc, piece, &mut done, &mut around)?;
    }
    Ok(done)
}

/// Returns the only element, if there is exactly one and it is a node.
pub fn one_node(elements: Vec<GreenElement>) -> Option<GreenNode>
    ensures is { IfSome result (λ t. elements.items ≡ Node t ∷ []) }
    ensures all { (t : Tree) → elements.items ≡ Node t ∷ [] → result ≡ Some t }
{
    let mut elements = elements;
    let last = elements.pop();
    if !elements.is_empty() {
        return None;
    }
    match last {
        Some(NodeOrToken::Node(node)) => Some(node),
        _ => None,
    }
}
