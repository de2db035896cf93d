//! Mappings from nodes to the corresponding nodes of other trees.
ghost use Rattle.std.specs.Prelude.{◌≡◌, ◌∷◌, ◌++◌, [], length, slice_get, option_map, IfOk, IfErr, OnOk, OnErr};
ghost use Rattle.std.specs.List.{zip};
ghost use Rattle.std.specs.Option.{option_copied};
ghost use Rattle.std.specs.Coded.{codes};
ghost use Rattle.rowan_green.specs.Forest.{Tree, tree_code};
ghost use Rattle.syntax_tree.specs.Element.{element_at};
ghost use Rattle.syntax_tree.specs.Mapping.{AcceptsNode, RefusesNode, AcceptsNodes, RefusesNodes, is_child, are_children, are_ordered, image_of, Mapping, Building};

use crate::error::MappingError;
use crate::handle::SyntaxNode;
use std::alloc::{AllocError, Global};
use std::marker::Model;

/// A mapping from input nodes to output nodes in trees with greater numbers.
///
/// Of several entries with the same input, the last one counts. Model: the entries, in the order in
/// which they were recorded.
#[derive(Drop)]
pub struct SyntaxMapping {
    entries: Vec<(SyntaxNode, SyntaxNode)>,
}

impl Model for SyntaxMapping {
    ghost Value = { Mapping };

    ghost coded = { Prim.hlevel (codes, tree_code) };

    ghost view = { λ m. m.entries.items };
}

impl SyntaxMapping {
    /// Creates an empty mapping.
    pub fn new(alloc: Global) -> SyntaxMapping
        ensures { result ≡ [] }
    {
        SyntaxMapping {
            entries: Vec::new(alloc),
        }
    }

    /// Returns the output of the last entry whose input is at up-path `way` in the tree with number
    /// `tree`.
    pub fn image_at(&self, tree: u32, way: &[usize]) -> Result<Option<&SyntaxNode>, AllocError>
        ensures { (t : Tree) → IfOk result
            (λ r. option_copied r ≡ image_of self.now (element_at tree t way.now)) }
    {
        let mut before = self.entries.len();
        while before > 0 {
            before -= 1;
            let (input, output) = &self.entries[before];
            if input.tree() == tree && input.stands_at(way)? {
                return Ok(Some(output));
            }
        }
        Ok(None)
    }

    /// Returns the input and the output of the entry at `index`, in the order in which they were
    /// recorded; `None` if there are no more entries.
    pub fn entry(&self, index: usize) -> Option<(&SyntaxNode, &SyntaxNode)>
        ensures { option_map (λ e. (e.0.now, e.1.now)) result ≡ slice_get self.now index }
    {
        let (input, output) = self.entries.get(index)?;
        Some((input, output))
    }

    /// Returns the number of entries.
    pub fn len(&self) -> usize
        ensures { result ≡ length self.now }
    {
        self.entries.len()
    }

    /// Appends the entries of `builder`. On error, the mapping is unchanged.
    pub fn add_mapping(&mut self, builder: SyntaxMappingBuilder) -> Result<(), AllocError>
        ensures ok { OnOk result (self.new ≡ self.old ++ builder.entries) }
        ensures err { OnErr result (self.new ≡ self.old) }
    {
        let mut entries = builder.entries;
        self.entries.append(&mut entries)
    }

    /// Moves the entries of `other` to the end of this mapping and leaves `other` empty. On error,
    /// both mappings are unchanged.
    pub fn append(&mut self, other: &mut SyntaxMapping) -> Result<(), AllocError>
        ensures ok { OnOk result (self.new ≡ self.old ++ other.old) }
        ensures emptied { OnOk result (other.new ≡ []) }
        ensures err { OnErr result (self.new ≡ self.old) }
        ensures kept { OnErr result (other.new ≡ other.old) }
    {
        self.entries.append(&mut other.entries)
    }

    /// Appends the entries of `other`. On error, the mapping is unchanged.
    pub fn merge(&mut self, other: SyntaxMapping) -> Result<(), AllocError>
        ensures ok { OnOk result (self.new ≡ self.old ++ other) }
        ensures err { OnErr result (self.new ≡ self.old) }
    {
        let mut entries = other.entries;
        self.entries.append(&mut entries)
    }
}

/// A builder of mapping entries whose outputs are children of one node.
#[derive(Drop)]
pub struct SyntaxMappingBuilder {
    parent: SyntaxNode,
    way: Vec<usize>,
    entries: Vec<(SyntaxNode, SyntaxNode)>,
}

impl Model for SyntaxMappingBuilder {
    ghost Value = { Building };

    ghost coded = { Prim.hlevel (codes, tree_code) };

    ghost view = { λ b. record { parent = b.parent; entries = b.entries.items } };

    ghost invariant = { λ b. b.way.items ≡ b.parent.place.up };
}

impl SyntaxMappingBuilder {
    /// Creates an empty builder for outputs that are children of `parent`.
    pub fn new(alloc: Global, parent: SyntaxNode) -> Result<SyntaxMappingBuilder, AllocError>
        ensures { IfOk result (λ b. b ≡ record { parent = parent; entries = [] }) }
    {
        let way = parent.way(alloc)?;
        Ok(SyntaxMappingBuilder {
            parent,
            way,
            entries: Vec::new(alloc),
        })
    }

    /// Records that `output` corresponds to `input`.
    ///
    /// # Errors
    ///
    /// - [`MappingError::NotChild`] if `output` is not a child of the parent.
    /// - [`MappingError::Order`] if the tree number of `output` is not greater than that of
    ///   `input`.
    /// - [`MappingError::NoMemory`] if an allocation fails.
    ///
    /// On error, the builder is unchanged.
    pub fn map_node(
        &mut self,
        alloc: Global,
        input: SyntaxNode,
        output: SyntaxNode,
    ) -> Result<(), MappingError>
        ensures ok { OnOk result (self.new
            ≡ record self.old { entries = self.old.entries ++ (input, output) ∷ [] }) }
        ensures fits { OnOk result (AcceptsNode self.old.parent input output) }
        ensures refused { IfErr result (RefusesNode self.old.parent input output) }
        ensures err { OnErr result (self.new ≡ self.old) }
    {
        if !self.is_parent_of(alloc, &output)? {
            return Err(MappingError::NotChild);
        }
        if output.tree() <= input.tree() {
            return Err(MappingError::Order);
        }
        self.entries.push((input, output))?;
        Ok(())
    }

    /// Records that each output corresponds to the input at its index. Outputs without an input are
    /// ignored.
    ///
    /// # Errors
    ///
    /// - [`MappingError::NotChild`] if an output that has an input is not a child of the parent.
    /// - [`MappingError::MoreInputs`] if there are more inputs than outputs.
    /// - [`MappingError::Order`] if the tree number of an output is not greater than that of its
    ///   input.
    /// - [`MappingError::NoMemory`] if an allocation fails.
    ///
    /// On error, the builder is unchanged.
    pub fn map_children(
        &mut self,
        alloc: Global,
        inputs: &[SyntaxNode],
        outputs: &[SyntaxNode],
    ) -> Result<(), MappingError>
        ensures ok { OnOk result (self.new
            ≡ record self.old { entries = self.old.entries ++ zip inputs.now outputs.now }) }
        ensures fits { OnOk result (AcceptsNodes self.old.parent inputs.now outputs.now) }
        ensures refused { IfErr result (RefusesNodes self.old.parent inputs.now outputs.now) }
        ensures err { OnErr result (self.new ≡ self.old) }
    {
        let mut added = pairs_of(alloc, inputs, outputs)?;
        if !self.is_parent_of_all(alloc, &added)? {
            return Err(MappingError::NotChild);
        }
        if inputs.len() > outputs.len() {
            return Err(MappingError::MoreInputs);
        }
        if !are_ordered(&added) {
            return Err(MappingError::Order);
        }
        self.entries.append(&mut added)?;
        Ok(())
    }

    /// Returns `true` if all outputs of `entries` are children of the parent.
    fn is_parent_of_all(
        &self,
        alloc: Global,
        entries: &[(SyntaxNode, SyntaxNode)],
    ) -> Result<bool, AllocError>
        ensures { IfOk result (λ b. b ≡ are_children self.now.parent entries.now) }
    {
        for entry in entries {
            if !self.is_parent_of(alloc, &entry.1)? {
                return Ok(false);
            }
        }
        Ok(true)
    }

    /// Returns `true` if `node` is a child of the parent.
    fn is_parent_of(&self, alloc: Global, node: &SyntaxNode) -> Result<bool, AllocError>
        ensures { IfOk result (λ b. b ≡ is_child self.now.parent node.now) }
    {
        if node.tree() != self.parent.tree() {
            return Ok(false);
        }
        let way = node.way(alloc)?;
        match way.split_first() {
            Some((_, above)) => Ok(above == self.way.as_slice()),
            None => Ok(false),
        }
    }

    /// Appends all entries to `mapping`. On error, `mapping` is unchanged.
    pub fn finish(self, mapping: &mut SyntaxMapping) -> Result<(), AllocError>
        ensures ok { OnOk result (mapping.new ≡ mapping.old ++ self.entries) }
        ensures err { OnErr result (mapping.new ≡ mapping.old) }
    {
        mapping.add_mapping(self)
    }
}

/// Returns each input paired with the output at its index, up to the shorter length.
fn pairs_of(
    alloc: Global,
    inputs: &[SyntaxNode],
    outputs: &[SyntaxNode],
) -> Result<Vec<(SyntaxNode, SyntaxNode)>, AllocError>
    ensures { IfOk result (λ v. v.items ≡ zip inputs.now outputs.now) }
{
    let mut pairs = Vec::new(alloc);
    let count = inputs.len().min(outputs.len());
    for k in 0..count {
        let input = inputs[k].clone()?;
        let output = outputs[k].clone()?;
        pairs.push((input, output))?;
    }
    Ok(pairs)
}

/// Returns `true` if the tree number of each output is greater than that of its input.
fn are_ordered(entries: &[(SyntaxNode, SyntaxNode)]) -> bool
    ensures { result ≡ are_ordered entries.now }
{
    for entry in entries {
        if entry.0.tree() >= entry.1.tree() {
            return false;
        }
    }
    true
}
