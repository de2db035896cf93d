//! Builders of trees.
use super::{node, node_of_one, node_of_two, row_of, token};
use rowan_green::{
    GreenElement, GreenError, GreenNode, GreenNodeBuilder, GreenTextBuilder, NodeCache, SyntaxKind,
    TextSize,
};
use std::alloc::Global;
use std::test::Fail;

/// Builds a node of kind 1 over `aäbb`: the token `a`, a node of kind 4 around the token `ä`, and the
/// token `bb`.
fn built_over(alloc: Global) -> Result<GreenNode, GreenError> {
    let mut builder = GreenTextBuilder::new(alloc, "aäbb")?;
    builder.start_node(SyntaxKind(1))?;
    builder.token(SyntaxKind(2), 1)?;
    builder.start_node(SyntaxKind(4))?;
    builder.token(SyntaxKind(3), 2)?;
    builder.finish_node()?;
    builder.token(SyntaxKind(3), 2)?;
    builder.finish_node()?;
    builder.finish()
}

#[test]
fn pieces_of_a_text_are_its_tokens(rt: HostRuntime) -> Result<(), Fail> {
    let alloc = rt.alloc();
    let inner = node_of_one(alloc, 4, token(alloc, 3, "ä")?)?;
    let children = vec![in alloc; token(alloc, 2, "a")?, inner, token(alloc, 3, "bb")?]?;
    assert!(rt; GreenElement::from(built_over(alloc)?) == node(alloc, 1, children)?);
    Ok(())
}

#[test]
fn a_long_piece_has_its_text(rt: HostRuntime) -> Result<(), Fail> {
    let alloc = rt.alloc();
    let mut text = String::from_str(alloc, "b")?;
    for _ in 0..300 {
        text.push('a')?;
    }
    let mut builder = GreenTextBuilder::new(alloc, &text)?;
    builder.start_node(SyntaxKind(1))?;
    builder.token(SyntaxKind(2), 1)?;
    builder.token(SyntaxKind(3), 300)?;
    builder.finish_node()?;
    let built = GreenElement::from(builder.finish()?);
    let long = token(alloc, 3, &text.as_str()[1..])?;
    assert!(rt; built == node_of_two(alloc, 1, token(alloc, 2, "b")?, long)?);
    Ok(())
}

#[test]
fn pieces_end_with_characters_and_the_text(rt: HostRuntime) -> Result<(), Fail> {
    let alloc = rt.alloc();
    let mut builder = GreenTextBuilder::new(alloc, "ä")?;
    assert!(rt; builder.finish_node() == Err(GreenError::Unbalanced));
    builder.start_node(SyntaxKind(1))?;
    assert!(rt; builder.token(SyntaxKind(2), 1) == Err(GreenError::TooLong));
    assert!(rt; builder.token(SyntaxKind(2), 3) == Err(GreenError::TooLong));
    builder.token(SyntaxKind(2), 2)?;
    assert!(rt; builder.token(SyntaxKind(2), 1) == Err(GreenError::TooLong));
    builder.finish_node()?;
    let built = GreenElement::from(builder.finish()?);
    assert!(rt; built == node_of_one(alloc, 1, token(alloc, 2, "ä")?)?);
    let mut open = GreenTextBuilder::new(alloc, "")?;
    open.start_node(SyntaxKind(1))?;
    assert!(rt; open.finish().err() == Some(GreenError::Unbalanced));
    Ok(())
}

/// Builds a node of kind 1 with the token `a`, and a node of kind 4 around the token `b` after it.
fn wrapped(alloc: Global) -> Result<GreenNode, GreenError> {
    let mut builder = GreenNodeBuilder::new(alloc);
    builder.start_node(SyntaxKind(1))?;
    builder.token(SyntaxKind(2), "a")?;
    let checkpoint = builder.checkpoint();
    builder.token(SyntaxKind(3), "b")?;
    builder.start_node_at(checkpoint, SyntaxKind(4))?;
    builder.finish_node()?;
    builder.finish_node()?;
    Ok(builder.finish()?)
}

#[test]
fn a_checkpoint_wraps_what_came_after_it(rt: HostRuntime) -> Result<(), Fail> {
    let alloc = rt.alloc();
    let inner = node_of_one(alloc, 4, token(alloc, 3, "b")?)?;
    let outer = node_of_two(alloc, 1, token(alloc, 2, "a")?, inner)?;
    assert!(rt; GreenElement::from(wrapped(alloc)?) == outer);
    Ok(())
}

/// Returns `true` if a checkpoint in an inner node is valid until that node is closed, and causes
/// an error after that.
fn goes_stale(builder: &mut GreenNodeBuilder<'_>) -> Result<bool, GreenError> {
    builder.start_node(SyntaxKind(1))?;
    builder.start_node(SyntaxKind(2))?;
    let checkpoint = builder.checkpoint();
    let was_one = builder.is_checkpoint(checkpoint);
    builder.finish_node()?;
    let is_one = builder.is_checkpoint(checkpoint);
    let refused = builder.start_node_at(checkpoint, SyntaxKind(3));
    builder.finish_node()?;
    Ok(was_one & !is_one & (refused == Err(GreenError::Unbalanced)))
}

/// Returns the node that is built after that, or `None` if the checkpoint did not go stale.
fn built_past_stale(alloc: Global) -> Result<Option<GreenNode>, GreenError> {
    let mut builder = GreenNodeBuilder::new(alloc);
    let goes_stale = goes_stale(&mut builder)?;
    let node = builder.finish()?;
    Ok(goes_stale.then_some(node))
}

/// Returns a node of kind 1 with an empty node of kind 2.
fn nested(alloc: Global) -> Result<GreenElement, GreenError> {
    node_of_one(alloc, 1, node(alloc, 2, Vec::new(alloc))?)
}

#[test]
fn a_stale_checkpoint_is_unbalanced(rt: HostRuntime) -> Result<(), Fail> {
    let nested = nested(rt.alloc())?.into_node();
    assert!(rt; nested.is_some());
    assert!(rt; built_past_stale(rt.alloc())? == nested);
    Ok(())
}

/// Closes a node where none is open, and then leaves a node with the token `a` open. Returns `true`
/// if the first call was an error.
fn left_open(builder: &mut GreenNodeBuilder<'_>) -> Result<bool, GreenError> {
    let refused = builder.finish_node();
    builder.start_node(SyntaxKind(1))?;
    builder.token(SyntaxKind(2), "a")?;
    Ok(refused == Err(GreenError::Unbalanced))
}

/// Returns the node that is built after that node is closed, or `None` if a call before that was
/// not an error as expected.
fn built_past_refusals(alloc: Global) -> Result<Option<GreenNode>, GreenError> {
    let mut builder = GreenNodeBuilder::new(alloc);
    if !left_open(&mut builder)? {
        return Ok(None);
    }
    let Err(unfinished) = builder.finish() else {
        return Ok(None);
    };
    let is_refused = unfinished.error == GreenError::Unbalanced;
    let mut builder = unfinished.builder;
    builder.finish_node()?;
    let node = builder.finish()?;
    Ok(is_refused.then_some(node))
}

#[test]
fn what_is_not_one_complete_node_is_unbalanced(rt: HostRuntime) -> Result<(), Fail> {
    let expected = row_of(rt.alloc(), &["a"])?;
    assert!(rt; built_past_refusals(rt.alloc())? == Some(expected));
    Ok(())
}

/// Finishes a builder whose outer node is still open, after its child was closed.
fn half_done(alloc: Global) -> Result<GreenNode, GreenError> {
    let mut builder = GreenNodeBuilder::new(alloc);
    builder.start_node(SyntaxKind(1))?;
    builder.start_node(SyntaxKind(2))?;
    builder.finish_node()?;
    Ok(builder.finish()?)
}

/// Builds a node of kind 1 with two nodes of kind `inner`, each with the token `x`.
fn built_with(alloc: Global, cache: &mut NodeCache, inner: u16) -> Result<GreenNode, GreenError> {
    let mut builder = GreenNodeBuilder::with_cache(alloc, cache);
    builder.start_node(SyntaxKind(1))?;
    for _ in 0..2 {
        builder.start_node(SyntaxKind(inner))?;
        builder.token(SyntaxKind(3), "x")?;
        builder.finish_node()?;
    }
    builder.finish_node()?;
    Ok(builder.finish()?)
}

#[test]
fn one_cache_serves_several_builders(rt: HostRuntime) -> Result<(), Fail> {
    let alloc = rt.alloc();
    assert!(rt; half_done(alloc).err() == Some(GreenError::Unbalanced));
    let mut cache = NodeCache::new(alloc);
    // (more trees than a cache keeps)
    for inner in 10..30 {
        let small = node_of_one(alloc, inner, token(alloc, 3, "x")?)?;
        let expected = node_of_two(alloc, 1, small.clone()?, small)?;
        for _ in 0..2 {
            let built = built_with(alloc, &mut cache, inner)?;
            assert!(rt; GreenElement::from(built) == expected);
        }
    }
    Ok(())
}

fn was_refused(answer: Result<(), GreenError>) -> bool {
    answer == Err(GreenError::NoMemory)
}

/// Adds a token; repeats the call once if it is out of memory.
fn add_token(builder: &mut GreenNodeBuilder<'_>, text: &str) -> Result<(), GreenError> {
    let kind = SyntaxKind(2);
    let answer = builder.token(kind, text);
    if was_refused(answer) {
        builder.token(kind, text)
    } else {
        answer
    }
}

fn close(builder: &mut GreenNodeBuilder<'_>) -> Result<(), GreenError> {
    let answer = builder.finish_node();
    if was_refused(answer) {
        builder.finish_node()
    } else {
        answer
    }
}

/// Wraps the last of five tokens; repeats each call once if it is out of memory.
fn wrap_last(builder: &mut GreenNodeBuilder<'_>) -> Result<(), GreenError> {
    for text in ["a", "b", "c", "d"] {
        add_token(builder, text)?;
    }
    let checkpoint = builder.checkpoint();
    add_token(builder, "e")?;
    let kind = SyntaxKind(4);
    let answer = builder.start_node_at(checkpoint, kind);
    if was_refused(answer) {
        builder.start_node_at(checkpoint, kind)
    } else {
        answer
    }
}

/// With `rt try --test --fail-alloc N` one allocation fails. If the call that failed had changed
/// the builder, the tree would differ.
#[test]
fn a_refused_growth_changes_nothing(rt: HostRuntime) -> Result<(), Fail> {
    let alloc = rt.alloc();
    let mut builder = GreenNodeBuilder::new(alloc);
    let kind = SyntaxKind(1);
    let answer = builder.start_node(kind);
    if was_refused(answer) {
        builder.start_node(kind)?;
    }
    wrap_last(&mut builder)?;
    close(&mut builder)?;
    close(&mut builder)?;
    let tree = builder.finish()?;
    assert!(rt; tree.text_len() == TextSize(5) && tree.children().len() == 5);
    match tree.remove_child(alloc, 4) {
        Ok(less) => assert!(rt; less.text_len() == TextSize(4)),
        Err(refused) => assert!(rt; refused == GreenError::NoMemory),
    }
    assert!(rt; tree.text_len() == TextSize(5));
    Ok(())
}
