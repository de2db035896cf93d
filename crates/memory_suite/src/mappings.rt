//! Mappings between numbered trees, and plans of changes.
ghost use Rattle.std.specs.Prelude.{◌≡◌, []};

use crate::trees::{element, node, root, word};
use anyhow::bail;
use memory_table::row::{Ask, Row};
use memory_table::shown::{list_shown, one_shown};
use std::alloc::{AllocError, Global};
use syntax_tree::{
    MappingError, Position, SyntaxElement, SyntaxMapping, SyntaxMappingBuilder, SyntaxNode, TreeIds,
};
use tree_rewrite::change::Change;
use tree_rewrite::plan::Plan;

/// The calls on mappings, and those of `annotated_elements` that follow them.
#[derive(Clone, Copy)]
pub(crate) enum MappingCall {
    NewBuilder,
    MapNode,
    MapChildren,
    Finish,
    AddMapping,
    Append,
    Merge,
    ImageAt,
    Followed,
    Found,
    Changed,
    Annotated,
    Build,
    Order,
    Execute,
}

/// Two trees of this text, each under a number of its own.
#[derive(Drop)]
struct Trees {
    input: SyntaxNode,
    output: SyntaxNode,
}

fn two_trees(alloc: Global) -> anyhow::Result<Trees> {
    let mut ids = TreeIds::new();
    let input = root(alloc, &mut ids)?;
    let output = root(alloc, &mut ids)?;
    Ok(Trees { input, output })
}

/// Maps the second literal, a second time if it runs out of memory.
fn map_node(
    alloc: Global,
    trees: &Trees,
    builder: &mut SyntaxMappingBuilder,
    refused: &mut u32,
) -> anyhow::Result<()> {
    let (input, output) = (
        node(alloc, &trees.input, &[4])?,
        node(alloc, &trees.output, &[4])?,
    );
    let first = builder.map_node(alloc, input, output);
    if first == Err(MappingError::NoMemory) {
        *refused = refused.saturating_add(1);
        let (input, output) = (
            node(alloc, &trees.input, &[4])?,
            node(alloc, &trees.output, &[4])?,
        );
        return Ok(builder.map_node(alloc, input, output)?);
    }
    Ok(first?)
}

/// Maps both literals, a second time if it runs out of memory.
fn map_children(
    alloc: Global,
    trees: &Trees,
    builder: &mut SyntaxMappingBuilder,
    refused: &mut u32,
) -> anyhow::Result<()> {
    let inputs = vec![in alloc;
        node(alloc, &trees.input, &[1])?,
        node(alloc, &trees.input, &[4])?,
    ]?;
    let outputs = vec![in alloc;
        node(alloc, &trees.output, &[1])?,
        node(alloc, &trees.output, &[4])?,
    ]?;
    let first = builder.map_children(alloc, &inputs, &outputs);
    if first == Err(MappingError::NoMemory) {
        *refused = refused.saturating_add(1);
        return Ok(builder.map_children(alloc, &inputs, &outputs)?);
    }
    Ok(first?)
}

/// A builder that maps one literal, or both.
fn builder(
    alloc: Global,
    trees: &Trees,
    is_both: bool,
    refused: &mut u32,
) -> anyhow::Result<SyntaxMappingBuilder> {
    let mut builder = SyntaxMappingBuilder::new(alloc, trees.output.clone()?)?;
    if is_both {
        map_children(alloc, trees, &mut builder, refused)?;
    } else {
        map_node(alloc, trees, &mut builder, refused)?;
    }
    Ok(builder)
}

/// Moves a builder's entries into a mapping, by one of three calls.
fn put(
    call: MappingCall,
    mapping: &mut SyntaxMapping,
    mut entries: SyntaxMapping,
    builder: SyntaxMappingBuilder,
) -> Result<(), AllocError> {
    match call {
        MappingCall::AddMapping => mapping.add_mapping(builder),
        MappingCall::Append => {
            builder.finish(&mut entries)?;
            mapping.append(&mut entries)
        }
        MappingCall::Merge => {
            builder.finish(&mut entries)?;
            mapping.merge(entries)
        }
        _ => builder.finish(mapping),
    }
}

/// A mapping of the second literal, whose entries are moved there a second time if memory is
/// refused.
fn mapping(
    alloc: Global,
    call: MappingCall,
    trees: &Trees,
    refused: &mut u32,
) -> anyhow::Result<SyntaxMapping> {
    let is_both = matches!(call, MappingCall::MapChildren);
    let mut mapping = SyntaxMapping::new(alloc);
    for _ in 0..2 {
        let builder = builder(alloc, trees, is_both, refused)?;
        if put(call, &mut mapping, SyntaxMapping::new(alloc), builder).is_ok() {
            return Ok(mapping);
        }
        *refused = refused.saturating_add(1);
        if mapping.len() != 0 {
            bail!("a refused call left an entry");
        }
    }
    bail!("refused twice")
}

/// The number of entries, and what the second literal is mapped to.
fn read(alloc: Global, mapping: &SyntaxMapping) -> Result<String, AllocError> {
    let image = match mapping.image_at(1, &[4])? {
        Some(node) => Some(node.clone()?),
        None => None,
    };
    format!(in alloc; "{} {}", mapping.len(), one_shown(alloc, Ok(image))?)
}

/// What the second literal and its mapping lead to.
fn followed(
    alloc: Global,
    call: MappingCall,
    trees: &Trees,
    mapping: &SyntaxMapping,
) -> anyhow::Result<String> {
    let literal = element(alloc, &trees.input, &[4])?;
    match call {
        MappingCall::Followed => {
            let found = annotated_elements::following::followed(alloc, mapping, &literal);
            Ok(one_shown(alloc, found)?)
        }
        MappingCall::Annotated => {
            let marks = vec![in alloc; (literal, 7u8)]?;
            let origins = vec![in alloc; element(alloc, &trees.output, &[4])?]?;
            let leaf = node(alloc, &trees.output, &[4])?;
            let found = annotated_elements::annotated::annotated(
                alloc, mapping, &marks, &leaf, &origins,
            )?;
            Ok(format!(in alloc; "{}", found.len())?)
        }
        MappingCall::Found => {
            let origins = vec![in alloc; literal.clone()?]?;
            let root = &trees.output;
            Ok(list_shown(
                alloc,
                &annotated_elements::found::found(alloc, root, &origins, &literal)?,
            )?)
        }
        _ => {
            let root = &trees.output;
            Ok(list_shown(
                alloc,
                &annotated_elements::changed::changed(alloc, root, &[false, true])?,
            )?)
        }
    }
}

/// A plan that inserts a word before the closing parenthesis.
fn plan(alloc: Global, root: &SyntaxNode, ids: &mut TreeIds) -> anyhow::Result<Plan>
    requires { root.now.place.up ≡ [] }
{
    let new = vec![in alloc; SyntaxElement::Token(word(alloc, ids)?)]?;
    let place = Position {
        parent: root.clone()?,
        index: 5,
    };
    let changes = vec![in alloc; Change::Insert { place, new }]?;
    Ok(Plan::build(alloc, root, changes, &SyntaxMapping::new(alloc))?)
}

fn planned(alloc: Global, call: MappingCall) -> anyhow::Result<String> {
    let mut ids = TreeIds::new();
    let root = root(alloc, &mut ids)?;
    let plan = plan(alloc, &root, &mut ids)?;
    let order = plan.order(alloc)?;
    match call {
        MappingCall::Build => Ok(format!(in alloc; "{}", plan.len())?),
        MappingCall::Order => Ok(format!(in alloc; "{}", order.len())?),
        _ => Ok(format!(in alloc; "{}", plan.execute(alloc, &order)?.green)?),
    }
}

impl Ask for MappingCall {
    fn answer(self, alloc: Global, refused: &mut u32) -> anyhow::Result<String> {
        match self {
            MappingCall::Build | MappingCall::Order | MappingCall::Execute => planned(alloc, self),
            _ => {
                let trees = two_trees(alloc)?;
                let mapping = mapping(alloc, self, &trees, refused)?;
                match self {
                    MappingCall::Followed
                    | MappingCall::Found
                    | MappingCall::Changed
                    | MappingCall::Annotated => followed(alloc, self, &trees, &mapping),
                    _ => Ok(read(alloc, &mapping)?),
                }
            }
        }
    }
}

const ONE: &str = "1 LITERAL@4..5 ";

pub(crate) const ROWS: &[Row<MappingCall>] = &[
    (
        "syntax_tree::SyntaxMappingBuilder::new",
        MappingCall::NewBuilder,
        ONE,
    ),
    (
        "syntax_tree::SyntaxMappingBuilder::map_node",
        MappingCall::MapNode,
        ONE,
    ),
    (
        "syntax_tree::SyntaxMappingBuilder::map_children",
        MappingCall::MapChildren,
        "2 LITERAL@4..5 ",
    ),
    (
        "syntax_tree::SyntaxMappingBuilder::finish",
        MappingCall::Finish,
        ONE,
    ),
    (
        "syntax_tree::SyntaxMapping::add_mapping",
        MappingCall::AddMapping,
        ONE,
    ),
    (
        "syntax_tree::SyntaxMapping::append",
        MappingCall::Append,
        ONE,
    ),
    ("syntax_tree::SyntaxMapping::merge", MappingCall::Merge, ONE),
    (
        "syntax_tree::SyntaxMapping::image_at",
        MappingCall::ImageAt,
        ONE,
    ),
    (
        "annotated_elements::following::followed",
        MappingCall::Followed,
        "LITERAL@4..5 ",
    ),
    (
        "annotated_elements::found::found",
        MappingCall::Found,
        "ARG_LIST@0..6 ",
    ),
    (
        "annotated_elements::changed::changed",
        MappingCall::Changed,
        "L_PAREN@0..1 ",
    ),
    (
        "annotated_elements::annotated::annotated",
        MappingCall::Annotated,
        "1",
    ),
    ("tree_rewrite::Plan::build", MappingCall::Build, "1"),
    ("tree_rewrite::Plan::order", MappingCall::Order, "1"),
    (
        "tree_rewrite::Plan::execute",
        MappingCall::Execute,
        "(1, 2x)",
    ),
];
