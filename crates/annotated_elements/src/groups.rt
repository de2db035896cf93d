//! Elements of a rewritten tree, grouped by their origins.
ghost use Rattle.std.specs.Prelude.{◌≡◌, ◌∷◌, ◌++◌, [], List, map, true, if◌then◌else◌, IfOk, OnOk};
ghost use Rattle.std.specs.List.{zip};
ghost use Rattle.syntax_tree.specs.Element.{Element, same_element};
ghost use Rattle.syntax_tree.specs.Handle.{element_of};
ghost use Rattle.syntax_tree.specs.Search.{elements};
ghost use Rattle.syntax_tree.specs.declared.element.SyntaxElement.{SyntaxElement};
ghost use Rattle.annotated_elements.specs.Annotated.{elements_of};
ghost use Rattle.annotated_elements.specs.Found.{picked};
ghost use Rattle.annotated_elements.specs.Groups.{group_of, items_of, is_among, IsGroup};

use std::alloc::{AllocError, Global};
use std::collections::{HashMap, HashSet};
use syntax_tree::{SyntaxElement, SyntaxNode};

/// Elements of a rewritten tree, by their origins. Only some origins have a group; elements of
/// other origins are not kept.
#[derive(Drop)]
pub(crate) struct Groups {
    /// The numbers of the trees of the origins that have a group.
    pub trees: HashSet<u32>,
    /// The group of each such origin, by the number of its tree and its up-path.
    pub groups: HashMap<(u32, Vec<usize>), Vec<SyntaxElement>>,
}

/// Returns the number of an element's tree and its up-path.
fn key_of(alloc: Global, element: &SyntaxElement) -> Result<(u32, Vec<usize>), AllocError>
    ensures tree { IfOk result (λ k. k.0 ≡ (element_of element.now).number) }
    ensures way { IfOk result (λ k. k.1.items ≡ (element_of element.now).place.up) }
{
    let way = element.way(alloc)?;
    Ok((element.tree(), way))
}

impl Groups {
    /// Returns an empty group for each of these origins.
    pub(crate) fn new<A: Copy>(
        alloc: Global,
        origins: &[(SyntaxElement, A)],
    ) -> Result<Groups, AllocError>
        ensures { (e : Element) → is_among e (elements_of origins.now) ≡ true
            → IfOk result (λ g. IsGroup g e []) }
    {
        let mut groups = Groups {
            trees: HashSet::new(alloc),
            groups: HashMap::new(alloc),
        };
        for (origin, _) in origins {
            groups.open(alloc, origin)?;
        }
        Ok(groups)
    }

    /// Gives an origin an empty group.
    fn open(&mut self, alloc: Global, origin: &SyntaxElement) -> Result<(), AllocError>
        ensures opened { (e : Element) → same_element (element_of origin.now) e ≡ true
            → OnOk result (IsGroup self.new e []) }
        ensures others { (e : Element) → IsGroup self.old e []
            → OnOk result (IsGroup self.new e []) }
    {
        let key = key_of(alloc, origin)?;
        self.trees.insert(origin.tree())?;
        self.groups.insert(key, Vec::new(alloc))?;
        Ok(())
    }

    /// Appends an element to the group of its origin, if that has one.
    fn add(
        &mut self,
        alloc: Global,
        origin: &SyntaxElement,
        element: SyntaxElement,
    ) -> Result<(), AllocError>
        ensures { (e : Element) (es : List SyntaxElement) → IsGroup self.old e es
            → OnOk result (IsGroup self.new e
            (es ++ (if same_element (element_of origin.now) e then element ∷ [] else []))) }
    {
        if !self.trees.contains(&origin.tree()) {
            return Ok(());
        }
        let key = key_of(alloc, origin)?;
        let Some(mut group) = self.groups.remove(&key) else {
            return Ok(());
        };
        group.push(element)?;
        self.groups.insert(key, group)?;
        Ok(())
    }

    /// Appends the elements of a tree, in preorder, each to the group of its origin. `origins` are
    /// the origins of the elements at and below `root`, in preorder.
    pub(crate) fn add_tree(
        &mut self,
        alloc: Global,
        root: &SyntaxNode,
        origins: &[SyntaxElement],
    ) -> Result<(), AllocError>
        ensures { (e : Element) (es : List SyntaxElement) → IsGroup self.old e es
            → OnOk result (IsGroup self.new e (es ++ picked (λ o. same_element o e)
            (zip (elements root.now) (map element_of origins.now)))) }
    {
        let mut rest = origins;
        let mut left = root.descendants_with_tokens(alloc)?;
        while let Some(element) = left.next() {
            let element = element?;
            let Some((origin, others)) = rest.split_first() else {
                return Ok(());
            };
            self.add(alloc, origin, element)?;
            rest = others;
        }
        Ok(())
    }

    /// Returns the group of an origin, empty if it has none.
    pub(crate) fn group(
        &self,
        alloc: Global,
        origin: &SyntaxElement,
    ) -> Result<&[SyntaxElement], AllocError>
        ensures { IfOk result (λ s. s.now
            ≡ items_of (group_of self.now.groups (element_of origin.now))) }
    {
        let key = key_of(alloc, origin)?;
        match self.groups.get(&key) {
            Some(group) => Ok(group),
            None => Ok(&[]),
        }
    }
}
