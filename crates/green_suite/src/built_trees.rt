//! Calls succeed while allocations succeed: trees are built, read, and refused where they are not
//! complete.
use rowan_green::{
    GreenError, GreenNode, GreenNodeBuilder, GreenToken, NodeOrToken, SyntaxKind, TextSize,
};
use std::alloc::Global;
use std::test::Fail;

const FILE: SyntaxKind = SyntaxKind(1);

const LIST: SyntaxKind = SyntaxKind(2);

const WORD: SyntaxKind = SyntaxKind(3);

/// The number of children from which on a node has a record.
const MANY: u32 = 256;

/// Returns the tree of a file: a list of two words, then a word.
fn file(alloc: Global) -> Result<GreenNode, Fail> {
    let mut builder = GreenNodeBuilder::new(alloc);
    builder.start_node(FILE)?;
    builder.start_node(LIST)?;
    builder.token(WORD, "one")?;
    builder.token(WORD, "é")?;
    builder.finish_node()?;
    builder.token(WORD, "two")?;
    builder.finish_node()?;
    Ok(builder.finish().map_err(GreenError::from)?)
}

#[test]
fn a_tree_is_read(rt: HostRuntime) -> Result<(), Fail> {
    let file = file(rt.alloc())?;
    let root = file.as_ref();
    assert!(rt; root.kind() == FILE);
    let text = format!(in rt.alloc(); "{file}")?;
    assert!(rt; text.as_str() == "oneétwo");
    assert!(rt; root.children().len() == 2);
    let Some(NodeOrToken::Node(list)) = root.child(0) else {
        return Err(Fail::new("no list"));
    };
    assert!(rt; list.kind() == LIST);
    assert!(rt; list.text_len().0 == 5);
    let Some(NodeOrToken::Token(last)) = root.children().next_back() else {
        return Err(Fail::new("no word"));
    };
    assert!(rt; last.text() == "two");
    Ok(())
}

#[test]
fn children_are_found_by_offset(rt: HostRuntime) -> Result<(), Fail> {
    let file = file(rt.alloc())?;
    let root = file.as_ref();
    let found = root.child_at_offset(TextSize(5));
    assert!(rt; found.is_some_and(|child| child.index == 1));
    assert!(rt; root.child_at_offset(TextSize(8)).is_none());
    assert!(rt; root.child_start(1).is_some_and(|start| start.0 == 5));
    Ok(())
}

#[test]
fn long_tokens_and_wide_nodes_have_records(rt: HostRuntime) -> Result<(), Fail> {
    let mut text = String::new(rt.alloc());
    let mut builder = GreenNodeBuilder::new(rt.alloc());
    builder.start_node(FILE)?;
    builder.start_node(LIST)?;
    for _word in 0..MANY {
        text.push('a')?;
        builder.token(WORD, "a")?;
    }
    builder.finish_node()?;
    builder.token(WORD, text.as_str())?;
    builder.finish_node()?;
    let file = builder.finish().map_err(GreenError::from)?;
    assert!(rt; file.text_len().0 == 2 * MANY);
    assert!(rt;
        file.as_ref()
            .child_start(1)
            .is_some_and(|start| start.0 == MANY)
    );
    Ok(())
}

#[test]
fn an_open_node_is_not_finished(rt: HostRuntime) -> Result<(), Fail> {
    let mut builder = GreenNodeBuilder::new(rt.alloc());
    builder.start_node(FILE)?;
    builder.token(WORD, "one")?;
    let Err(refused) = builder.finish() else {
        return Err(Fail::new("an open node is finished"));
    };
    assert!(rt; refused.error == GreenError::Unbalanced);
    let mut builder = refused.builder;
    builder.finish_node()?;
    let checkpoint = builder.checkpoint();
    assert!(rt; builder.is_checkpoint(checkpoint));
    let file = builder.finish().map_err(GreenError::from)?;
    assert!(rt; file.text_len().0 == 3);
    Ok(())
}

#[test]
fn an_edit_of_a_tree_shares_it(rt: HostRuntime) -> Result<(), Fail> {
    let file = file(rt.alloc())?;
    assert!(rt; file.children().len() == 2);
    let edited = file.remove_child(rt.alloc(), 1)?;
    let text = format!(in rt.alloc(); "{edited}")?;
    assert!(rt; text.as_str() == "oneé");
    assert!(rt; edited != file);
    Ok(())
}

/// Returns the length of the text of a child.
fn len_of(node: &GreenNode, index: usize) -> Result<u32, Fail> {
    match node.child(index) {
        Some(child) => Ok(child.text_len().0),
        None => Err(Fail::new("no child")),
    }
}

#[test]
fn an_edit_of_a_wide_node_keeps_the_other_children(rt: HostRuntime) -> Result<(), Fail> {
    let mut builder = GreenNodeBuilder::new(rt.alloc());
    builder.start_node(FILE)?;
    for _word in 0..MANY {
        builder.token(WORD, "ab")?;
    }
    builder.finish_node()?;
    let file = builder.finish().map_err(GreenError::from)?;
    assert!(rt; file.children().len() == 256);
    let word = GreenToken::new(rt.alloc(), WORD, "new")?;
    let edited = file.insert_child(rt.alloc(), 100, NodeOrToken::Token(word))?;
    assert!(rt; edited.children().len() == 257);
    assert!(rt; edited.text_len().0 == 2 * MANY + 3);
    assert!(rt; len_of(&edited, 99)? == 2);
    assert!(rt; len_of(&edited, 100)? == 3);
    assert!(rt; len_of(&edited, 256)? == 2);
    assert!(rt; edited.child(257).is_none());
    assert!(rt; edited.child_start(100).is_some_and(|start| start.0 == 200));
    assert!(rt; edited.child_start(101).is_some_and(|start| start.0 == 203));
    let found = edited.child_at_offset(TextSize(2 * MANY + 2));
    assert!(rt; found.is_some_and(|child| child.index == 256 && child.looks <= 20));
    let back = edited.remove_child(rt.alloc(), 100)?;
    assert!(rt; back == file);
    let text = format!(in rt.alloc(); "{back}")?;
    assert!(rt; text.len() == 512);
    Ok(())
}
