//! Numbered trees, their handles and mappings, and orders of changes. A row has a question and the
//! expected answer.
use parser_input::SyntaxKind;
use rowan_green::{GreenError, GreenNode, GreenNodeBuilder, GreenToken};
use std::alloc::Global;
use std::test::Fail;
use syntax_tree::{
    MappingError, Position, PositionError, SyntaxElement, SyntaxMapping, SyntaxMappingBuilder,
    SyntaxNode, SyntaxToken, TreeIds,
};
use tree_rewrite::job::{Job, is_order};
use tree_rewrite::tree_change::{Target, TreeChange};

fn raw(kind: SyntaxKind) -> rowan_green::SyntaxKind {
    rowan_green::SyntaxKind(kind.to_raw())
}

/// `f;`: a path, and a semicolon after it.
fn green(alloc: Global) -> Result<GreenNode, GreenError> {
    let mut builder = GreenNodeBuilder::new(alloc);
    builder.start_node(raw(SyntaxKind::SOURCE_FILE))?;
    builder.start_node(raw(SyntaxKind::PATH))?;
    builder.token(raw(SyntaxKind::IDENT), "f")?;
    builder.finish_node()?;
    builder.token(raw(SyntaxKind::SEMICOLON), ";")?;
    builder.finish_node()?;
    match builder.finish() {
        Ok(node) => Ok(node),
        Err(unfinished) => Err(unfinished.error),
    }
}

/// Returns the root of that tree, under the next tree number.
fn root(alloc: Global, ids: &mut TreeIds) -> Result<SyntaxNode, Fail> {
    let green = green(alloc)?;
    Ok(SyntaxNode::new_root(alloc, green, ids)?)
}

/// Returns the path in that tree.
fn path(alloc: Global, root: &SyntaxNode) -> Result<SyntaxNode, Fail> {
    match root.children(alloc)?.next() {
        Some(node) => Ok(node?),
        None => Err(Fail::new("no child")),
    }
}

/// What is asked of the tree.
#[derive(Clone, Copy)]
enum Ask {
    Elements,
    Above,
    Subtree,
    Detached,
    Gaps,
    Mapped,
    Added,
    Merged,
    Refused,
}

/// A question and the expected answer.
type Row = (Ask, &'static str);

/// Appends the kind of `element` and the indices of its path.
fn show(alloc: Global, out: &mut String, element: &SyntaxElement) -> Result<(), Fail> {
    out.push_str(element.kind().name())?;
    for number in element.path(alloc)? {
        let number = format!(in alloc; " {number}")?;
        out.push_str(&number)?;
    }
    Ok(out.push_str(";")?)
}

fn elements(alloc: Global, out: &mut String, root: &SyntaxNode) -> Result<(), Fail> {
    for element in root.descendants_with_tokens(alloc)? {
        show(alloc, out, &element?)?;
    }
    Ok(())
}

fn above(alloc: Global, out: &mut String, root: &SyntaxNode) -> Result<(), Fail> {
    for node in path(alloc, root)?.ancestors()? {
        show(alloc, out, &SyntaxElement::Node(node?))?;
    }
    Ok(())
}

/// Appends the tree number of `element`, the element of a new tree, and then the element.
fn alone(alloc: Global, out: &mut String, element: &SyntaxElement) -> Result<(), Fail> {
    let number = format!(in alloc; "{} ", element.tree())?;
    out.push_str(&number)?;
    show(alloc, out, element)
}

fn subtree(
    alloc: Global,
    out: &mut String,
    root: &SyntaxNode,
    ids: &mut TreeIds,
) -> Result<(), Fail> {
    let copy = path(alloc, root)?.clone_subtree(alloc, ids)?;
    alone(alloc, out, &SyntaxElement::Node(copy))
}

fn detached(alloc: Global, out: &mut String, ids: &mut TreeIds) -> Result<(), Fail> {
    let green = GreenToken::new(alloc, raw(SyntaxKind::IDENT), "g")?;
    let token = SyntaxToken::detached(alloc, green, ids)?;
    alone(alloc, out, &SyntaxElement::Token(token))
}

fn show_gap(
    alloc: Global,
    out: &mut String,
    gap: Result<Position, PositionError>,
) -> Result<(), Fail> {
    match gap {
        Ok(gap) => {
            let index = format!(in alloc; "{};", gap.index)?;
            Ok(out.push_str(&index)?)
        }
        Err(PositionError::NoParent) => Ok(out.push_str("NoParent;")?),
        Err(PositionError::NoMemory) => Err(Fail::new("out of memory")),
    }
}

/// Appends the gaps before and after a node.
fn gaps_beside(alloc: Global, out: &mut String, node: &SyntaxElement) -> Result<(), Fail> {
    show_gap(alloc, out, Position::before(node))?;
    show_gap(alloc, out, Position::after(node))
}

/// Appends the gap after the children of a root.
fn last_gap(alloc: Global, out: &mut String, root: &SyntaxNode) -> Result<(), Fail> {
    show_gap(alloc, out, Ok(Position::last_child_of(root)?))
}

fn gaps(alloc: Global, out: &mut String, root: SyntaxNode) -> Result<(), Fail> {
    gaps_beside(alloc, out, &SyntaxElement::Node(path(alloc, &root)?))?;
    last_gap(alloc, out, &root)?;
    show_gap(alloc, out, Position::before(&SyntaxElement::Node(root)))
}

/// Returns a builder that maps the path to its copy in another tree.
fn builder(
    alloc: Global,
    root: &SyntaxNode,
    other: &SyntaxNode,
) -> Result<SyntaxMappingBuilder, Fail> {
    let mut builder = SyntaxMappingBuilder::new(alloc, other.clone()?)?;
    let input = path(alloc, root)?;
    builder.map_node(alloc, input, path(alloc, other)?)?;
    Ok(builder)
}

/// Returns a mapping of the path to its copy in another tree.
fn mapping(alloc: Global, root: &SyntaxNode, other: &SyntaxNode) -> Result<SyntaxMapping, Fail> {
    let builder = builder(alloc, root, other)?;
    let mut mapping = SyntaxMapping::new(alloc);
    builder.finish(&mut mapping)?;
    Ok(mapping)
}

/// Appends the number of entries of `mapping`, and the node that it maps the path to, if any.
fn show_mapping(
    alloc: Global,
    out: &mut String,
    mapping: &SyntaxMapping,
    root: &SyntaxNode,
) -> Result<(), Fail> {
    let count = format!(in alloc; "{};", mapping.len())?;
    out.push_str(&count)?;
    match mapping.image_at(root.tree(), &[0])? {
        Some(image) => alone(alloc, out, &SyntaxElement::Node(image.clone()?)),
        None => Ok(out.push_str("none")?),
    }
}

fn mapped(
    alloc: Global,
    out: &mut String,
    root: &SyntaxNode,
    other: &SyntaxNode,
) -> Result<(), Fail> {
    let mapping = mapping(alloc, root, other)?;
    show_mapping(alloc, out, &mapping, root)
}

/// Adds the entries of a builder for a newer tree to a mapping, and shows the result.
fn added(
    alloc: Global,
    out: &mut String,
    (root, other, newer): (&SyntaxNode, &SyntaxNode, &SyntaxNode),
) -> Result<(), Fail> {
    let mut mapping = mapping(alloc, root, other)?;
    mapping.add_mapping(builder(alloc, root, newer)?)?;
    show_mapping(alloc, out, &mapping, root)
}

/// Merges a mapping to a newer tree into a mapping, and shows the result.
fn merged(
    alloc: Global,
    out: &mut String,
    (root, other, newer): (&SyntaxNode, &SyntaxNode, &SyntaxNode),
) -> Result<(), Fail> {
    let mut whole = mapping(alloc, root, other)?;
    whole.merge(mapping(alloc, root, newer)?)?;
    show_mapping(alloc, out, &whole, root)
}

fn show_refusal(out: &mut String, refused: Result<(), MappingError>) -> Result<(), Fail> {
    let word = match refused {
        Ok(()) => "Ok;",
        Err(MappingError::NotChild) => "NotChild;",
        Err(MappingError::MoreInputs) => "MoreInputs;",
        Err(MappingError::Order) => "Order;",
        Err(MappingError::NoMemory) => "NoMemory;",
    };
    Ok(out.push_str(word)?)
}

/// Appends the outcome of mapping one node to another.
fn refused_node(
    alloc: Global,
    out: &mut String,
    builder: &mut SyntaxMappingBuilder,
    (old, new): (&SyntaxNode, &SyntaxNode),
) -> Result<(), Fail> {
    let old = old.clone()?;
    show_refusal(out, builder.map_node(alloc, old, new.clone()?))
}

/// Returns `count` handles of `node`.
fn copies(alloc: Global, node: &SyntaxNode, count: usize) -> Result<Vec<SyntaxNode>, Fail> {
    let mut copies = Vec::new(alloc);
    for _ in 0..count {
        copies.push(node.clone()?)?;
    }
    Ok(copies)
}

/// Appends the outcomes of mapping two nodes to one, and no nodes to one.
fn refused_children(
    alloc: Global,
    out: &mut String,
    builder: &mut SyntaxMappingBuilder,
    (old, new): (&SyntaxNode, &SyntaxNode),
) -> Result<(), Fail> {
    let both = copies(alloc, old, 2)?;
    let one = copies(alloc, new, 1)?;
    show_refusal(out, builder.map_children(alloc, &both, &one))?;
    show_refusal(out, builder.map_children(alloc, &[], &one))
}

fn refused_paths(
    alloc: Global,
    out: &mut String,
    builder: &mut SyntaxMappingBuilder,
    (old, new, other): (&SyntaxNode, &SyntaxNode, &SyntaxNode),
) -> Result<(), Fail> {
    refused_node(alloc, out, builder, (new, new))?;
    refused_node(alloc, out, builder, (old, other))?;
    refused_children(alloc, out, builder, (old, new))
}

fn refused(
    alloc: Global,
    out: &mut String,
    root: &SyntaxNode,
    other: &SyntaxNode,
) -> Result<(), Fail> {
    let mut builder = SyntaxMappingBuilder::new(alloc, other.clone()?)?;
    let old = path(alloc, root)?;
    let new = path(alloc, other)?;
    refused_paths(alloc, out, &mut builder, (&old, &new, other))
}

/// Answers a question about two trees.
fn answer_of_two(
    alloc: Global,
    out: &mut String,
    is_mapped: bool,
    ids: &mut TreeIds,
) -> Result<(), Fail> {
    let tree = root(alloc, ids)?;
    let other = root(alloc, ids)?;
    if is_mapped {
        mapped(alloc, out, &tree, &other)
    } else {
        refused(alloc, out, &tree, &other)
    }
}

/// Answers a question about three trees.
fn answer_of_three(
    alloc: Global,
    out: &mut String,
    is_merged: bool,
    ids: &mut TreeIds,
) -> Result<(), Fail> {
    let tree = root(alloc, ids)?;
    let other = root(alloc, ids)?;
    let newer = root(alloc, ids)?;
    if is_merged {
        merged(alloc, out, (&tree, &other, &newer))
    } else {
        added(alloc, out, (&tree, &other, &newer))
    }
}

/// Answers a question about one tree.
fn answer_of_one(alloc: Global, out: &mut String, ask: Ask, ids: &mut TreeIds) -> Result<(), Fail> {
    let tree = root(alloc, ids)?;
    match ask {
        Ask::Elements => elements(alloc, out, &tree),
        Ask::Above => above(alloc, out, &tree),
        Ask::Subtree => subtree(alloc, out, &tree, ids),
        Ask::Detached => detached(alloc, out, ids),
        _ => gaps(alloc, out, tree),
    }
}

fn is_met(alloc: Global, (ask, expected): &Row) -> Result<bool, Fail> {
    let mut out = String::new(alloc);
    let mut ids = TreeIds::new();
    match ask {
        Ask::Mapped => answer_of_two(alloc, &mut out, true, &mut ids)?,
        Ask::Refused => answer_of_two(alloc, &mut out, false, &mut ids)?,
        Ask::Added => answer_of_three(alloc, &mut out, false, &mut ids)?,
        Ask::Merged => answer_of_three(alloc, &mut out, true, &mut ids)?,
        _ => answer_of_one(alloc, &mut out, *ask, &mut ids)?,
    }
    Ok(out.as_str() == *expected)
}

const ROWS: &[Row] = &[
    (Ask::Elements, "SOURCE_FILE;PATH 0;IDENT 0 0;SEMICOLON 1;"),
    (Ask::Above, "PATH 0;SOURCE_FILE;"),
    (Ask::Subtree, "2 PATH;"),
    (Ask::Detached, "2 IDENT 0;"),
    (Ask::Gaps, "0;1;2;NoParent;"),
    (Ask::Mapped, "1;2 PATH 0;"),
    (Ask::Added, "2;3 PATH 0;"),
    (Ask::Merged, "2;3 PATH 0;"),
    (Ask::Refused, "Order;NotChild;MoreInputs;Ok;"),
];

#[test]
fn syntax_trees(rt: HostRuntime) -> Result<(), Fail> {
    for row in ROWS {
        assert!(rt; is_met(rt.alloc(), row)?, "{}", row.1);
    }
    Ok(())
}

fn slot(alloc: Global, number: usize) -> Result<TreeChange, Fail> {
    let first = vec![in alloc; number]?;
    let target = Target::Slots {
        first,
        more: 0,
        single: true,
    };
    Ok(TreeChange::new(target, Vec::new(alloc)))
}

fn deletion(alloc: Global) -> Result<Job, Fail> {
    Ok(Job::new(None, slot(alloc, 0)?, None))
}

fn replacement(alloc: Global) -> Result<Job, Fail> {
    let owner = vec![in alloc; 1]?;
    Ok(Job::new(None, slot(alloc, 1)?, Some(owner)))
}

fn insertion(alloc: Global) -> Result<Job, Fail> {
    let parent = vec![in alloc; 1]?;
    let sheet = vec![in alloc; 1]?;
    let change = TreeChange::new(Target::Gap { parent, index: 0 }, Vec::new(alloc));
    Ok(Job::new(Some(sheet), change, None))
}

/// Returns three planned changes: a node is deleted, the next one is replaced with a node, and an
/// insertion is made in that payload.
fn jobs(alloc: Global) -> Result<Vec<Job>, Fail> {
    let mut jobs = Vec::new(alloc);
    jobs.push(deletion(alloc)?)?;
    jobs.push(replacement(alloc)?)?;
    jobs.push(insertion(alloc)?)?;
    Ok(jobs)
}

fn orders_are_told(alloc: Global) -> Result<bool, Fail> {
    let jobs = jobs(alloc)?;
    let admitted = is_order(&jobs, &[0, 2, 1]) & is_order(&jobs, &[2, 1, 0]);
    let refused = is_order(&jobs, &[0, 1, 2]) | is_order(&jobs, &[2, 1]);
    Ok(admitted & !refused)
}

#[test]
fn owners_come_after_what_they_own(rt: HostRuntime) -> Result<(), Fail> {
    assert!(rt; orders_are_told(rt.alloc())?);
    Ok(())
}
