//! A case: changes recorded on a tree, and the expected result.
ghost use Rattle.std.specs.Prelude.{◌≡◌, ◌≤◌, [], map, is_none, false, IfOk};
ghost use Rattle.std.specs.Bool.{OnTrue};
ghost use Rattle.std.specs.List.{All};
ghost use Rattle.tree_rewrite.specs.Recorded.{IsOrdered, KeepsOneRoot};
ghost use Rattle.tree_rewrite.specs.Change.{IsOneNode};
ghost use Rattle.rowan.specs.Place.{index_of};
ghost use Rattle.syntax_tree.specs.Handle.{element_of, parent_of};

use anyhow::{Context, bail};
use rowan_green::{GreenNode, GreenNodeBuilder, SyntaxKind, TextRange};
use serde_json::Value;
use std::alloc::Global;
use syntax_tree::{
    Position, SyntaxElement, SyntaxMapping, SyntaxMappingBuilder, SyntaxNode, TreeIds,
};
use tree_rewrite::change::Change;
use tree_rewrite::error::PlanError;
use tree_rewrite::origins::origins_of;
use tree_rewrite::plan::Plan;

/// Returns the member `name` of an object.
fn member<'a>(value: &'a Value, name: &str) -> anyhow::Result<&'a Value> {
    value.get(name).context("a member is missing")
}

/// Returns the elements of a list.
fn list(value: &Value) -> anyhow::Result<&[Value]> {
    let list = value.as_array().context("a value is no list")?;
    Ok(list.as_slice())
}

/// Returns the number at `index` of a list.
fn number_in(value: &Value, index: usize) -> anyhow::Result<usize> {
    let number = value.get(index).and_then(Value::as_u64);
    Ok(number.context("a value is no number")? as usize)
}

/// Returns the numbers of a list.
fn numbers(alloc: Global, value: &Value) -> anyhow::Result<Vec<usize>> {
    let mut numbers = Vec::new(alloc);
    for number in list(value)? {
        let number = number.as_u64().context("a value is no number")?;
        numbers.push(number as usize)?;
    }
    Ok(numbers)
}

/// Adds one entry of a tree to `builder`: the start of a node, a token, or the end of a node.
fn build_sign(sign: &Value, builder: &mut GreenNodeBuilder) -> anyhow::Result<()> {
    let Some(kind) = sign.get(0).and_then(Value::as_u64) else {
        return Ok(builder.finish_node()?);
    };
    let kind = SyntaxKind(kind.min(5) as u16);
    match sign.get(1).and_then(Value::as_str) {
        Some(text) => builder.token(kind, text)?,
        None => builder.start_node(kind)?,
    }
    Ok(())
}

/// Builds the green tree of a list of entries.
fn green(alloc: Global, signs: &Value) -> anyhow::Result<GreenNode> {
    let mut builder = GreenNodeBuilder::new(alloc);
    for sign in list(signs)? {
        build_sign(sign, &mut builder)?;
    }
    match builder.finish() {
        Ok(node) => Ok(node),
        Err(unfinished) => Err(unfinished.error.into()),
    }
}

/// Returns the trees of a case, numbered from 1.
fn trees(alloc: Global, case: &Value) -> anyhow::Result<Vec<SyntaxNode>> {
    let mut ids = TreeIds::new();
    let mut trees = Vec::new(alloc);
    for signs in list(member(case, "trees")?)? {
        let green = green(alloc, signs)?;
        trees.push(SyntaxNode::new_root(alloc, green, &mut ids)?)?;
    }
    Ok(trees)
}

/// Returns the child of `node` at index `number`.
fn child(alloc: Global, node: &SyntaxNode, number: usize) -> anyhow::Result<SyntaxElement> {
    let mut left = number;
    for child in node.children_with_tokens(alloc)? {
        let child = child?;
        if left == 0 {
            return Ok(child);
        }
        left -= 1;
    }
    bail!("a child is missing")
}

/// Returns the element at `path` from `root`.
fn element_at(alloc: Global, root: &SyntaxNode, path: &[usize]) -> anyhow::Result<SyntaxElement> {
    let mut element = SyntaxElement::Node(root.clone()?);
    for number in path {
        let SyntaxElement::Node(node) = element else {
            bail!("a path leads through a token")
        };
        element = child(alloc, &node, *number)?;
    }
    Ok(element)
}

/// Returns the element that `at` names by a tree number and a path.
fn element(alloc: Global, trees: &[SyntaxNode], at: &Value) -> anyhow::Result<SyntaxElement> {
    let number = number_in(at, 0)?;
    let root = trees.get(number.saturating_sub(1)).context("no such tree")?;
    let path = numbers(alloc, at.get(1).context("a path is missing")?)?;
    element_at(alloc, root, &path)
}

/// Returns the node that `at` names by a tree number and a path.
fn node(alloc: Global, trees: &[SyntaxNode], at: &Value) -> anyhow::Result<SyntaxNode> {
    match element(alloc, trees, at)? {
        SyntaxElement::Node(node) => Ok(node),
        SyntaxElement::Token(_) => bail!("a token stands for a node"),
    }
}

/// Returns a builder of a mapping to the children of the parent of `output`.
fn builder_beside(alloc: Global, output: &SyntaxNode) -> anyhow::Result<SyntaxMappingBuilder> {
    let parent = output.parent()?.context("a root is mapped to")?;
    Ok(SyntaxMappingBuilder::new(alloc, parent)?)
}

/// Adds one entry to `mapping`.
fn map_entry(
    alloc: Global,
    trees: &[SyntaxNode],
    entry: &Value,
    mapping: &mut SyntaxMapping,
) -> anyhow::Result<()> {
    let output = node(alloc, trees, entry.get(1).context("no output")?)?;
    let mut builder = builder_beside(alloc, &output)?;
    let input = node(alloc, trees, entry.get(0).context("no input")?)?;
    builder.map_node(alloc, input, output)?;
    Ok(builder.finish(mapping)?)
}

/// Returns the mapping of a case.
fn mapping(alloc: Global, trees: &[SyntaxNode], case: &Value) -> anyhow::Result<SyntaxMapping> {
    let mut mapping = SyntaxMapping::new(alloc);
    for entry in list(member(case, "mapping")?)? {
        map_entry(alloc, trees, entry, &mut mapping)?;
    }
    Ok(mapping)
}

/// Returns the elements that a change inserts.
fn payload(
    alloc: Global,
    trees: &[SyntaxNode],
    change: &Value,
) -> anyhow::Result<Vec<SyntaxElement>> {
    let mut new = Vec::new(alloc);
    for at in list(member(change, "new")?)? {
        new.push(element(alloc, trees, at)?)?;
    }
    Ok(new)
}

/// Returns the node whose children a change affects.
fn parent(alloc: Global, root: &SyntaxNode, path: &Value) -> anyhow::Result<SyntaxNode> {
    match element_at(alloc, root, &numbers(alloc, path)?)? {
        SyntaxElement::Node(node) => Ok(node),
        SyntaxElement::Token(_) => bail!("a token has no children"),
    }
}

/// Returns the member `name` of an object as a number.
fn number(value: &Value, name: &str) -> anyhow::Result<usize> {
    let number = member(value, name)?.as_u64();
    Ok(number.context("a member is no number")? as usize)
}

/// Returns `true` if `elements` is a single node.
fn is_one_node(elements: &[SyntaxElement]) -> bool
    ensures { OnTrue result (IsOneNode (map element_of elements.now)) }
{
    match elements {
        [element] => element.is_node(),
        _ => false,
    }
}

/// Returns `true` if `element` is a root.
fn is_root(element: &SyntaxElement) -> anyhow::Result<bool>
    ensures { IfOk result (λ b. b ≡ is_none (parent_of (element_of element.now))) }
{
    Ok(element.parent()?.is_none())
}

/// Returns `true` if the change was recorded as the replacement of a single element.
fn is_single(change: &Value) -> anyhow::Result<bool> {
    member(change, "single")?.as_bool().context("no truth")
}

/// Returns the first and the last element of a child range.
fn row(
    alloc: Global,
    parent: &SyntaxNode,
    change: &Value,
) -> anyhow::Result<(SyntaxElement, SyntaxElement)>
    ensures ordered { IfOk result
        (λ r. index_of (element_of r.0).place ≤ index_of (element_of r.1).place) }
    ensures below { IfOk result (λ r. is_none (parent_of (element_of r.0)) ≡ false) }
{
    let first = child(alloc, parent, number(change, "first")?)?;
    let last = child(alloc, parent, number(change, "last")?)?;
    if last.index() < first.index() {
        bail!("a row of children is turned around")
    }
    if is_root(&first)? {
        bail!("a child is a root")
    }
    Ok((first, last))
}

/// Returns the recorded replacement of a child range.
fn row_replacement(
    alloc: Global,
    parent: &SyntaxNode,
    trees: &[SyntaxNode],
    change: &Value,
) -> anyhow::Result<Change>
    ensures ordered { IfOk result (λ c. IsOrdered c) }
    ensures root { IfOk result (λ c. KeepsOneRoot c) }
{
    let single = is_single(change)?;
    let (first, last) = row(alloc, parent, change)?;
    Ok(Change::Replace {
        first,
        last,
        new: payload(alloc, trees, change)?,
        single,
    })
}

/// Returns the recorded replacement of the root.
fn root_replacement(
    alloc: Global,
    root: &SyntaxNode,
    trees: &[SyntaxNode],
    change: &Value,
) -> anyhow::Result<Change>
    ensures ordered { IfOk result (λ c. IsOrdered c) }
    ensures root { IfOk result (λ c. KeepsOneRoot c) }
{
    let single = is_single(change)?;
    let new = payload(alloc, trees, change)?;
    if !is_one_node(&new) {
        bail!("the root is replaced by something else than one node")
    }
    let first = SyntaxElement::Node(root.clone()?);
    let last = first.clone()?;
    Ok(Change::Replace {
        first,
        last,
        new,
        single,
    })
}

/// Returns a recorded replacement.
fn replacement(
    alloc: Global,
    root: &SyntaxNode,
    trees: &[SyntaxNode],
    change: &Value,
) -> anyhow::Result<Change>
    ensures ordered { IfOk result (λ c. IsOrdered c) }
    ensures root { IfOk result (λ c. KeepsOneRoot c) }
{
    let path = member(change, "parent")?;
    if path.is_null() {
        return root_replacement(alloc, root, trees, change);
    }
    let parent = parent(alloc, root, path)?;
    row_replacement(alloc, &parent, trees, change)
}

/// Returns a recorded change.
fn change(
    alloc: Global,
    root: &SyntaxNode,
    trees: &[SyntaxNode],
    value: &Value,
) -> anyhow::Result<Change>
    ensures ordered { IfOk result (λ c. IsOrdered c) }
    ensures root { IfOk result (λ c. KeepsOneRoot c) }
{
    let Some(insert) = value.get("insert") else {
        return replacement(alloc, root, trees, member(value, "replace")?);
    };
    let place = Position {
        parent: parent(alloc, root, member(insert, "parent")?)?,
        index: number(insert, "index")?,
    };
    let new = payload(alloc, trees, insert)?;
    Ok(Change::Insert { place, new })
}

/// Returns the recorded changes of a case.
fn changes(
    alloc: Global,
    root: &SyntaxNode,
    trees: &[SyntaxNode],
    case: &Value,
) -> anyhow::Result<Vec<Change>>
    ensures ordered { IfOk result (λ v. All IsOrdered v.items) }
    ensures root { IfOk result (λ v. All KeepsOneRoot v.items) }
{
    let mut changes = Vec::new(alloc);
    for value in list(member(case, "changes")?)? {
        changes.push(change(alloc, root, trees, value)?)?;
    }
    Ok(changes)
}

/// Returns `true` if `ranges` are the changed ranges of the case.
fn are_changed(case: &Value, ranges: &[TextRange]) -> anyhow::Result<bool> {
    let expected = list(member(case, "changed")?)?;
    for (range, expected) in ranges.iter().zip(expected) {
        let start = number_in(expected, 0)?;
        let end = number_in(expected, 1)?;
        if range.start().0 as usize != start || range.end().0 as usize != end {
            return Ok(false);
        }
    }
    Ok(ranges.len() == expected.len())
}

/// Returns `true` if `origins` are the origins of the case.
fn are_origins(alloc: Global, case: &Value, origins: &[SyntaxElement]) -> anyhow::Result<bool> {
    let expected = list(member(case, "origins")?)?;
    for (origin, expected) in origins.iter().zip(expected) {
        let path = numbers(alloc, expected.get(1).context("a path is missing")?)?;
        if origin.tree() as usize != number_in(expected, 0)? {
            return Ok(false);
        }
        if origin.path(alloc)?.as_slice() != path.as_slice() {
            return Ok(false);
        }
    }
    Ok(origins.len() == expected.len())
}

/// Returns `true` if `order` is admitted, and the plan, executed in it, results in the tree, the
/// changed ranges and the origins of the case.
fn is_made(alloc: Global, case: &Value, plan: Plan, order: &[usize]) -> anyhow::Result<bool> {
    if !plan.is_order(order) {
        return Ok(false);
    }
    let rewritten = plan.execute(alloc, order)?;
    let changed = are_changed(case, &rewritten.changed)?;
    let came_from = origins_of(alloc, &rewritten.pieces)?;
    let origins = are_origins(alloc, case, &came_from.elements)?;
    let expected = green(alloc, member(case, "tree")?)?;
    Ok(rewritten.green == expected && changed && origins)
}

/// Returns the plan of the case's changes on the tree of `root`.
fn planned(
    alloc: Global,
    case: &Value,
    root: &SyntaxNode,
) -> anyhow::Result<Result<Plan, PlanError>>
    requires { root.now.place.up ≡ [] }
{
    let trees = trees(alloc, case)?;
    let mapping = mapping(alloc, &trees, case)?;
    let changes = changes(alloc, root, &trees, case)?;
    Ok(Plan::build(alloc, root, changes, &mapping))
}

/// Returns `true` if the plan does so in each of `orders`.
fn is_made_in_each(
    alloc: Global,
    case: &Value,
    root: &SyntaxNode,
    orders: &[Value],
) -> anyhow::Result<bool>
    requires { root.now.place.up ≡ [] }
{
    for order in orders {
        let Ok(plan) = planned(alloc, case, root)? else {
            return Ok(false);
        };
        if !is_made(alloc, case, plan, &numbers(alloc, order)?)? {
            return Ok(false);
        }
    }
    Ok(true)
}

/// Returns `true` if the plan admits none of the orders that the case says are refused.
fn are_refused(alloc: Global, case: &Value, plan: &Plan) -> anyhow::Result<bool> {
    let Some(orders) = case.get("refused_orders") else {
        return Ok(true);
    };
    for order in list(orders)? {
        if plan.is_order(&numbers(alloc, order)?) {
            return Ok(false);
        }
    }
    Ok(true)
}

/// Returns `true` if the plan does so in its own order and in those of the case, has as many
/// planned changes as the case, and admits none of the orders that the case says are refused.
fn is_executed(alloc: Global, case: &Value, root: &SyntaxNode, plan: Plan) -> anyhow::Result<bool>
    requires { root.now.place.up ≡ [] }
{
    if plan.len() != number(case, "kept")? || !are_refused(alloc, case, &plan)? {
        return Ok(false);
    }
    let in_each = match case.get("orders") {
        Some(orders) => is_made_in_each(alloc, case, root, list(orders)?)?,
        None => true,
    };
    let order = plan.order(alloc)?;
    Ok(in_each && is_made(alloc, case, plan, &order)?)
}

/// Returns `true` if the changes of the case, on the tree of `root`, have the expected verdict and
/// result.
fn is_met_on(alloc: Global, case: &Value, root: &SyntaxNode) -> anyhow::Result<bool>
    requires { root.now.place.up ≡ [] }
{
    let verdict = member(case, "verdict")?.as_str().context("no verdict")?;
    match planned(alloc, case, root)? {
        Ok(plan) => Ok(verdict == "accepted" && is_executed(alloc, case, root, plan)?),
        Err(PlanError::Intersecting) => Ok(verdict == "Intersecting"),
        Err(PlanError::MissingMapping) => Ok(verdict == "MissingMapping"),
        Err(PlanError::NoMemory) => bail!("out of memory"),
    }
}

/// Returns the entries of the tree that is edited.
fn first_tree(case: &Value) -> anyhow::Result<&Value> {
    list(member(case, "trees")?)?.first().context("no tree")
}

/// Returns `true` if the changes of the case have the expected result.
pub(crate) fn is_met(alloc: Global, case: &Value) -> anyhow::Result<bool> {
    let green = green(alloc, first_tree(case)?)?;
    let root = SyntaxNode::new_root(alloc, green, &mut TreeIds::new())?;
    is_met_on(alloc, case, &root)
}
