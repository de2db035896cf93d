//! Green tokens and nodes, and their builder.
use memory_table::row::{Ask, Row};
use rowan_green::{
    GreenElement, GreenError, GreenNode, GreenNodeBuilder, GreenTextBuilder, GreenToken, SyntaxKind,
};
use std::alloc::{AllocError, Global};

/// The calls of `rowan_green`.
#[derive(Clone, Copy)]
pub(crate) enum GreenCall {
    NewToken,
    NewNode,
    CloneToken,
    CloneNode,
    OwnToken,
    OwnNode,
    CloneElement,
    ReplaceChild,
    InsertChild,
    RemoveChild,
    SpliceChildren,
    Build,
    BuildOver,
}

fn token(alloc: Global, kind: u16, text: &str) -> Result<GreenToken, GreenError> {
    GreenToken::new(alloc, SyntaxKind(kind), text)
}

/// A node of the tokens `a` and `b`.
fn pair(alloc: Global) -> Result<GreenNode, GreenError> {
    let first = GreenElement::from(token(alloc, 2, "a")?);
    let second = GreenElement::from(token(alloc, 3, "b")?);
    let children = vec![in alloc; first, second]?;
    GreenNode::new(alloc, SyntaxKind(1), children.into_iter())
}

/// The text of a node, and the number of its children.
fn read(alloc: Global, node: &GreenNode) -> Result<String, AllocError> {
    format!(in alloc; "{node} {}", node.children().len())
}

/// Makes one edit of a pair.
fn edited(alloc: Global, call: GreenCall) -> Result<GreenNode, GreenError> {
    let node = pair(alloc)?;
    if node.children().len() != 2 {
        return Err(GreenError::Unbalanced);
    }
    let c = GreenElement::from(token(alloc, 4, "c")?);
    match call {
        GreenCall::ReplaceChild => node.replace_child(alloc, 0, c),
        GreenCall::InsertChild => node.insert_child(alloc, 2, c),
        GreenCall::RemoveChild => node.remove_child(alloc, 0),
        _ => node.splice_children(alloc, 1..2, vec![in alloc; c.clone()?, c]?.into_iter()),
    }
}

fn copied(alloc: Global, call: GreenCall) -> Result<String, GreenError> {
    let node = pair(alloc)?;
    match call {
        GreenCall::CloneNode => Ok(format!(in alloc; "{}", node.clone()?)?),
        _ => Ok(format!(in alloc; "{}", GreenElement::from(node).clone()?)?),
    }
}

/// Returns `true` if a call has to be made a second time, and counts it then.
fn is_refused(answer: Result<(), GreenError>, refused: &mut u32) -> bool {
    if answer == Err(GreenError::NoMemory) {
        *refused = refused.saturating_add(1);
        return true;
    }
    false
}

fn start(
    builder: &mut GreenNodeBuilder<'_>,
    kind: u16,
    refused: &mut u32,
) -> Result<(), GreenError> {
    let answer = builder.start_node(SyntaxKind(kind));
    if is_refused(answer, refused) {
        return builder.start_node(SyntaxKind(kind));
    }
    answer
}

fn put(
    builder: &mut GreenNodeBuilder<'_>,
    text: &str,
    refused: &mut u32,
) -> Result<(), GreenError> {
    let answer = builder.token(SyntaxKind(3), text);
    if is_refused(answer, refused) {
        return builder.token(SyntaxKind(3), text);
    }
    answer
}

fn close(builder: &mut GreenNodeBuilder<'_>, refused: &mut u32) -> Result<(), GreenError> {
    let answer = builder.finish_node();
    if is_refused(answer, refused) {
        return builder.finish_node();
    }
    answer
}

/// Wraps the last two of five tokens into a node, and each of the others into one of its own.
fn put_all(builder: &mut GreenNodeBuilder<'_>, refused: &mut u32) -> Result<(), GreenError> {
    start(builder, 1, refused)?;
    for text in ["a", "b", "c"] {
        start(builder, 2, refused)?;
        put(builder, text, refused)?;
        close(builder, refused)?;
    }
    let checkpoint = builder.checkpoint();
    put(builder, "d", refused)?;
    put(builder, "e", refused)?;
    let answer = builder.start_node_at(checkpoint, SyntaxKind(4));
    if is_refused(answer, refused) {
        builder.start_node_at(checkpoint, SyntaxKind(4))?;
    }
    close(builder, refused)?;
    close(builder, refused)
}

fn built(alloc: Global, refused: &mut u32) -> Result<GreenNode, GreenError> {
    let mut builder = GreenNodeBuilder::new(alloc);
    put_all(&mut builder, refused)?;
    match builder.finish() {
        Ok(node) => Ok(node),
        Err(unfinished) => Err(unfinished.error),
    }
}

/// Builds a node of three tokens over one text, the second of them in a node of its own.
fn built_over(alloc: Global, refused: &mut u32) -> Result<GreenNode, GreenError> {
    let mut builder = GreenTextBuilder::new(alloc, "abcd")?;
    for (kind, len) in [(1, 1), (2, 2)] {
        let kind = SyntaxKind(kind);
        if is_refused(builder.start_node(kind), refused) {
            builder.start_node(kind)?;
        }
        if is_refused(builder.token(SyntaxKind(3), len), refused) {
            builder.token(SyntaxKind(3), len)?;
        }
    }
    if is_refused(builder.finish_node(), refused) {
        builder.finish_node()?;
    }
    if is_refused(builder.token(SyntaxKind(3), 1), refused) {
        builder.token(SyntaxKind(3), 1)?;
    }
    if is_refused(builder.finish_node(), refused) {
        builder.finish_node()?;
    }
    builder.finish()
}

impl Ask for GreenCall {
    fn answer(self, alloc: Global, refused: &mut u32) -> anyhow::Result<String> {
        match self {
            GreenCall::NewToken => Ok(format!(in alloc; "{}", token(alloc, 2, "a")?)?),
            GreenCall::CloneToken => Ok(format!(in alloc; "{}", token(alloc, 2, "a")?.clone()?)?),
            GreenCall::OwnToken => {
                let token = token(alloc, 2, "a")?;
                Ok(format!(in alloc; "{}", token.as_ref().to_owned()?)?)
            }
            GreenCall::OwnNode => Ok(read(alloc, &pair(alloc)?.as_ref().to_owned()?)?),
            GreenCall::NewNode => Ok(read(alloc, &pair(alloc)?)?),
            GreenCall::CloneNode | GreenCall::CloneElement => Ok(copied(alloc, self)?),
            GreenCall::Build => Ok(read(alloc, &built(alloc, refused)?)?),
            GreenCall::BuildOver => Ok(read(alloc, &built_over(alloc, refused)?)?),
            _ => Ok(read(alloc, &edited(alloc, self)?)?),
        }
    }
}

pub(crate) const ROWS: &[Row<GreenCall>] = &[
    ("rowan_green::GreenToken::new", GreenCall::NewToken, "a"),
    ("rowan_green::GreenNode::new", GreenCall::NewNode, "ab 2"),
    ("rowan_green::GreenToken::clone", GreenCall::CloneToken, "a"),
    ("rowan_green::GreenNode::clone", GreenCall::CloneNode, "ab"),
    (
        "rowan_green::GreenTokenRef::to_owned",
        GreenCall::OwnToken,
        "a",
    ),
    (
        "rowan_green::GreenNodeRef::to_owned",
        GreenCall::OwnNode,
        "ab 2",
    ),
    (
        "rowan_green::GreenNode::clone",
        GreenCall::CloneElement,
        "ab",
    ),
    (
        "rowan_green::GreenNode::replace_child",
        GreenCall::ReplaceChild,
        "cb 2",
    ),
    (
        "rowan_green::GreenNode::insert_child",
        GreenCall::InsertChild,
        "abc 3",
    ),
    (
        "rowan_green::GreenNode::remove_child",
        GreenCall::RemoveChild,
        "b 1",
    ),
    (
        "rowan_green::GreenNode::splice_children",
        GreenCall::SpliceChildren,
        "acc 3",
    ),
    (
        "rowan_green::GreenNodeBuilder::{start_node, token, start_node_at, finish_node, finish}",
        GreenCall::Build,
        "abcde 4",
    ),
    (
        "rowan_green::GreenTextBuilder::{new, start_node, token, finish_node, finish}",
        GreenCall::BuildOver,
        "abcd 3",
    ),
];
