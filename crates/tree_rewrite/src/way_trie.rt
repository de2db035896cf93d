//! A trie from up-paths to numbers. One walk down an up-path finds the numbers of all elements on
//! it.
ghost use Rattle.std.specs.Prelude.{◌≡◌, ◌∷◌, ℕ, Some, None, false, option_and_then, IfOk, OnOk};
ghost use Rattle.syntax_tree.specs.Element.{Way, same_way};
ghost use Rattle.tree_rewrite.specs.WayTrie.{child_in, number_of, node_at, number_at, IsSound, HasNode};
ghost use Rattle.tree_rewrite.specs.Held.{IsPutOrTaken};
ghost use Rattle.tree_rewrite.specs.declared.way_trie.WayTrie.{WayTrie};

use std::alloc::{AllocError, Global};
use std::collections::HashMap;

/// A trie from up-paths to numbers. It has a node for the root and one for each index on the
/// up-paths. A lookup takes time linear in the length of the up-path.
#[derive(Drop)]
pub struct WayTrie {
    /// The node of a child, by the node of its parent and its index.
    pub children: HashMap<(usize, usize), usize>,
    /// The number of each node, if any. The first node is the root.
    pub numbers: Vec<Option<usize>>,
}

impl WayTrie {
    /// The node of the root.
    pub const ROOT: Option<usize> = Some(0);

    /// Returns a trie without numbers.
    pub fn new(alloc: Global) -> Result<WayTrie, AllocError>
        ensures sound { IfOk result IsSound }
        ensures empty { IfOk result (λ t. (w : Way) → number_at t w ≡ None) }
    {
        let mut numbers = Vec::new(alloc);
        numbers.push(None)?;
        Ok(WayTrie {
            children: HashMap::new(alloc),
            numbers,
        })
    }

    /// Returns the node of child `index`, if both `parent` and the child have a node.
    pub fn child(&self, parent: Option<usize>, index: usize) -> Option<usize>
        ensures { result ≡ option_and_then (λ p. child_in self.now.children p index) parent }
    {
        let parent = parent?;
        self.children.get(&(parent, index)).copied()
    }

    /// Returns the number of `node`, if any.
    pub fn number(&self, node: Option<usize>) -> Option<usize>
        ensures { result ≡ number_of self.now.numbers.items node }
    {
        match self.numbers.get(node?) {
            Some(number) => *number,
            None => None,
        }
    }

    /// Returns the node of up-path `way`, if any.
    pub fn node_at(&self, way: &[usize]) -> Option<usize>
        ensures { result ≡ node_at self.now way.now }
    {
        let mut node = WayTrie::ROOT;
        let mut depth = way.len();
        while depth > 0 {
            depth -= 1;
            node = self.child(node, way[depth]);
        }
        node
    }

    /// Returns the number of up-path `way`, if any.
    pub fn number_at(&self, way: &[usize]) -> Option<usize>
        ensures { result ≡ number_at self.now way.now }
    {
        self.number(self.node_at(way))
    }

    /// Returns the node of child `index` of the node `parent`, and creates it if needed.
    fn enter(&mut self, parent: usize, index: usize) -> Result<usize, AllocError>
        requires sound { IsSound self.old }
        ensures { (u : Way) → node_at self.old u ≡ Some parent
            → IfOk result (λ k. HasNode (index ∷ u) k self.old self.new) }
    {
        if let Some(node) = self.child(Some(parent), index) {
            return Ok(node);
        }
        let node = self.numbers.len();
        self.numbers.push(None)?;
        self.children.insert((parent, index), node)?;
        Ok(node)
    }

    /// Returns the node of up-path `way`, and creates all missing nodes on it.
    pub fn enter_way(&mut self, way: &[usize]) -> Result<usize, AllocError>
        requires sound { IsSound self.old }
        ensures { IfOk result (λ k. HasNode way.now k self.old self.new) }
    {
        let mut node = 0;
        let mut depth = way.len();
        while depth > 0 {
            depth -= 1;
            node = self.enter(node, way[depth])?;
        }
        Ok(node)
    }

    /// Assigns `number` to `node`. Returns `false` if the node already has a number, which it
    /// keeps.
    fn put_node(&mut self, node: usize, number: usize) -> bool
        requires sound { IsSound self.old }
        requires node { (v : Way) × (node_at self.old v ≡ Some node) }
        ensures put { (v : Way) (t : WayTrie) → HasNode v node t self.old
            → IsPutOrTaken (same_way v) number t self.new result }
        ensures sound { IsSound self.new }
        ensures nodes { (w : Way) → node_at self.new w ≡ node_at self.old w }
        ensures kept { result ≡ false → (w : Way) → number_at self.new w ≡ number_at self.old w }
    {
        if self.number(Some(node)).is_some() {
            return false;
        }
        self.numbers[node] = Some(number);
        true
    }

    /// Assigns `number` to up-path `way`. Returns `false` if it already has a number, which it
    /// keeps.
    pub fn put_free(&mut self, way: &[usize], number: usize) -> Result<bool, AllocError>
        requires sound { IsSound self.old }
        ensures put { IfOk result (IsPutOrTaken (same_way way.now) number self.old self.new) }
        ensures kept { IfOk result (λ b. b ≡ false → (w : Way) → number_at self.new w
            ≡ number_at self.old w) }
        ensures sound { OnOk result (IsSound self.new) }
    {
        let node = self.enter_way(way)?;
        Ok(self.put_node(node, number))
    }

    /// Assigns `number` to child `index` of the node `parent`. Returns `false` if the child already
    /// has a number, which it keeps.
    pub fn put_child(
        &mut self,
        parent: usize,
        index: usize,
        number: usize,
    ) -> Result<bool, AllocError>
        requires sound { IsSound self.old }
        requires parent { (u : Way) × (node_at self.old u ≡ Some parent) }
        ensures put { (u : Way) → node_at self.old u ≡ Some parent
            → IfOk result (IsPutOrTaken (same_way (index ∷ u)) number self.old self.new) }
        ensures sound { OnOk result (IsSound self.new) }
        ensures nodes { OnOk result ((w : Way) (k : ℕ) → node_at self.old w ≡ Some k
            → node_at self.new w ≡ Some k) }
    {
        let node = self.enter(parent, index)?;
        Ok(self.put_node(node, number))
    }
}
