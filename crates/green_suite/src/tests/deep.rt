//! Deep trees: a call for each level would need more than the default stack.
use super::{node, node_of_one, node_of_two, token};
use rowan_green::{GreenElement, GreenError, TextSize};
use std::alloc::Global;
use std::test::Fail;

/// Where the inner node is among the children of each node.
#[derive(Clone, Copy)]
enum Shape {
    Alone,
    First,
    Last,
    Middle,
}

/// Returns a node of the element, and of tokens `+` around it.
fn around(alloc: Global, element: GreenElement, shape: Shape) -> Result<GreenElement, GreenError> {
    match shape {
        Shape::Alone => node_of_one(alloc, 1, element),
        Shape::First => node_of_two(alloc, 1, element, token(alloc, 2, "+")?),
        Shape::Last => node_of_two(alloc, 1, token(alloc, 2, "+")?, element),
        Shape::Middle => {
            let mut children = Vec::new(alloc);
            push_tokens(alloc, &mut children)?;
            children.push(element)?;
            push_tokens(alloc, &mut children)?;
            node(alloc, 1, children)
        }
    }
}

/// Appends ten tokens `+`.
fn push_tokens(alloc: Global, children: &mut Vec<GreenElement>) -> Result<(), GreenError> {
    let plus = token(alloc, 2, "+")?;
    for _ in 0..10 {
        children.push(plus.clone()?)?;
    }
    Ok(())
}

/// Returns as many nodes in one another as `levels`, around a token.
fn nested(alloc: Global, levels: usize, shape: Shape) -> Result<GreenElement, GreenError> {
    let mut element = token(alloc, 2, "a")?;
    for _ in 0..levels {
        element = around(alloc, element, shape)?;
    }
    Ok(element)
}

/// Returns the length of the text of such a node, which is dropped.
fn nested_len(alloc: Global, levels: usize, shape: Shape) -> Result<TextSize, GreenError> {
    Ok(nested(alloc, levels, shape)?.text_len())
}

#[test]
fn deep_trees_are_dropped(rt: HostRuntime) -> Result<(), Fail> {
    let alloc = rt.alloc();
    for (shape, levels, len) in [
        (Shape::Alone, 200_000, 1),
        (Shape::First, 200_000, 200_001),
        (Shape::Last, 200_000, 200_001),
        (Shape::Middle, 100_000, 2_000_001),
    ] {
        assert!(rt; nested_len(alloc, levels, shape)? == TextSize(len));
    }
    Ok(())
}

/// Returns `true` if two such nodes are equal, and differ from one with a node more.
fn are_compared(alloc: Global, levels: usize, shape: Shape) -> Result<bool, GreenError> {
    let (one, two) = (nested(alloc, levels, shape)?, nested(alloc, levels, shape)?);
    let are_equal = one == two;
    let more = around(alloc, two, shape)?;
    Ok(are_equal & (one != more))
}

#[test]
fn deep_trees_are_compared(rt: HostRuntime) -> Result<(), Fail> {
    let alloc = rt.alloc();
    for shape in [Shape::Alone, Shape::First, Shape::Last, Shape::Middle] {
        assert!(rt; are_compared(alloc, 200_000, shape)?);
    }
    Ok(())
}
