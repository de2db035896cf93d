//! A mapping with an index of its inputs, so that no lookup examines all entries.
ghost use Rattle.std.specs.Prelude.{◌≡◌, ◌<◌, ◌++◌, ◌∷◌, [], ℕ, length, map, Some, None, if◌then◌else◌, IfOk, OnOk};
ghost use Rattle.std.specs.Option.{option_copied};
ghost use Rattle.rowan_green.specs.Forest.{Tree};
ghost use Rattle.syntax_tree.specs.Element.{Way, same_element, element_at};
ghost use Rattle.syntax_tree.specs.Mapping.{or_else};
ghost use Rattle.tree_rewrite.specs.WayTrie.{number_of, number_at, IsSound};
ghost use Rattle.tree_rewrite.specs.Mapped.{output_in, images_to};

use crate::way_trie::WayTrie;
use std::alloc::{AllocError, Global};
use std::marker::Model;
use syntax_tree::{SyntaxMapping, SyntaxNode};

/// A mapping with an index of its inputs. Model: the mapping.
pub struct MappedNodes<'m> {
    alloc: Global,
    mapping: &'m SyntaxMapping,
    /// The index of the last entry of each input. The input is named by its up-path, with the
    /// number of its tree at the end.
    inputs: WayTrie,
}

// Not derived: a derived drop is opened field by field in each function that drops one.
impl Drop for MappedNodes<'_> {
    fn drop(self) {
        let MappedNodes {
            alloc: _alloc,
            mapping: _mapping,
            inputs: _inputs,
        } = self;
    }
}

impl<'m> Model for MappedNodes<'m> {
    ghost use Rattle.std.specs.Coded.{codes};
    ghost use Rattle.rowan_green.specs.Forest.{tree_code};
    ghost use Rattle.syntax_tree.specs.Mapping.{Mapping};
    ghost use Rattle.tree_rewrite.specs.Mapped.{IsIndex};

    ghost Value = { Mapping };

    ghost coded = { Prim.hlevel (codes, tree_code) };

    ghost view = { λ m. m.mapping.now };

    ghost invariant = { λ m. IsIndex m.inputs m.mapping.now };
}

/// Assigns `number` to `input`, unless it already has a number.
fn put_input(
    alloc: Global,
    input: &SyntaxNode,
    number: usize,
    inputs: &mut WayTrie,
) -> Result<(), AllocError>
    requires sound { IsSound inputs.old }
    ensures numbers { OnOk result ((n : ℕ) (t : Tree) (w : Way) → number_at inputs.new (w ++ n ∷ [])
        ≡ or_else (number_at inputs.old (w ++ n ∷ []))
        (if same_element input.now (element_at n t w) then Some number else None)) }
    ensures sound { OnOk result (IsSound inputs.new) }
{
    let mut key = input.way(alloc)?;
    key.push(input.tree() as usize)?;
    inputs.put_free(&key, number)?;
    Ok(())
}

/// Returns the output of the entry that `node` has the index of, if any.
fn output_at<'m>(
    mapping: &'m SyntaxMapping,
    inputs: &WayTrie,
    node: Option<usize>,
) -> Option<&'m SyntaxNode>
    ensures { option_copied result
        ≡ output_in mapping.now (number_of inputs.now.numbers.items node) }
{
    let number = inputs.number(node)?;
    let entry = mapping.entry(number)?;
    Some(entry.1)
}

impl<'m> MappedNodes<'m> {
    /// Creates the index of `mapping`, in time linear in the up-paths of its inputs.
    pub fn new(alloc: Global, mapping: &'m SyntaxMapping) -> Result<MappedNodes<'m>, AllocError>
        ensures { IfOk result (λ m. m ≡ mapping.now) }
    {
        let mut inputs = WayTrie::new(alloc)?;
        let mut before = mapping.len();
        // The last entry of an input comes first, and keeps its place in the trie.
        while before > 0 {
            before -= 1;
            let Some(entry) = mapping.entry(before) else {
                unreachable!()
            };
            put_input(alloc, entry.0, before, &mut inputs)?;
        }
        Ok(MappedNodes {
            alloc,
            mapping,
            inputs,
        })
    }

    /// Returns the number of entries of the mapping.
    pub fn len(&self) -> usize
        ensures { result ≡ length self.now }
    {
        let mapping = self.mapping;
        mapping.len()
    }

    /// Returns the images of the elements of the tree with number `tree` on up-path `way`, from the
    /// root down to the element at `way`: for each the output of the last entry with that input,
    /// or `None`. They are found by one walk down the index.
    pub fn images(
        &self,
        tree: u32,
        way: &[usize],
    ) -> Result<Vec<Option<&'m SyntaxNode>>, AllocError>
        ensures { (t : Tree) → IfOk result
            (λ v. map option_copied v.items ≡ images_to self.now tree t way.now) }
    {
        let mapping = self.mapping;
        let inputs = &self.inputs;
        let mut node = inputs.child(WayTrie::ROOT, tree as usize);
        let mut images = Vec::new(self.alloc);
        images.push(output_at(mapping, inputs, node))?;
        let mut depth = way.len();
        while depth > 0 {
            depth -= 1;
            node = inputs.child(node, way[depth]);
            images.push(output_at(mapping, inputs, node))?;
        }
        Ok(images)
    }
}
