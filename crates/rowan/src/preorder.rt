//! Walks in preorder.
ghost use Rattle.std.specs.Prelude.{◌≡◌, ◌<◌, length, IfOk, OnErr, IsSome, List};
ghost use Rattle.std.specs.Coded.{codes};
ghost use Rattle.std.specs.Iterator.{at_most};
ghost use Rattle.rowan_green.specs.declared.utility_types.NodeOrToken.TheVariants.{Node};
ghost use Rattle.rowan_green.specs.Forest.{tree_code};
ghost use Rattle.rowan.specs.Yields.{PicksOrFails, YieldsOrFails};
ghost use Rattle.rowan.specs.Walk.{walk, skipped, node_events, entered, entered_nodes, Event};
ghost use Rattle.rowan.specs.Left.{left_by};

use crate::api::{SyntaxElement, SyntaxNode, element};
use crate::cursor;
use crate::language::Language;
use crate::utility_types::WalkEvent;
use crate::walk::{Step, step_after, step_past};
use rowan_green::NodeOrToken;
use std::alloc::{AllocError, Global};
use std::marker::{Model, PhantomData};

/// An iterator over the events of an element and its descendants, nodes and tokens. Model: the
/// remaining events.
pub struct PreorderWithTokens<L> {
    alloc: Global,
    next: Option<Step>,
    language: PhantomData<L>,
}

// Not derived: a derived drop is opened field by field in each function that drops one.
impl<L> Drop for PreorderWithTokens<L> {
    fn drop(self) {
        let PreorderWithTokens {
            alloc: _,
            next: _next,
            language: _,
        } = self;
    }
}

impl<L> Model for PreorderWithTokens<L> {
    ghost Value = { List Event };

    ghost coded = { Prim.hlevel (codes, tree_code) };

    ghost view = { λ w. left_by w.next };
}

impl<L: Language> PreorderWithTokens<L> {
    pub(crate) fn new(alloc: Global, start: cursor::SyntaxNode) -> PreorderWithTokens<L>
        ensures { result ≡ walk (Node start) }
    {
        PreorderWithTokens {
            alloc,
            next: Some(Step {
                element: NodeOrToken::Node(start),
                leaving: false,
                depth: 0,
            }),
            language: PhantomData,
        }
    }

    /// Skips the remaining descendants of the innermost element that was entered and not yet left;
    /// the next event leaves that element. At the start of a walk, skips the whole walk.
    ///
    /// # Errors
    ///
    /// [`AllocError`] if a reference count overflows.
    ///
    /// On error, `self` is unchanged.
    pub fn skip_subtree(&mut self) -> Result<(), AllocError>
        ensures ok { IfOk result (λ _. self.new ≡ skipped 0 self.old) }
        ensures err { OnErr result (self.new ≡ self.old) }
    {
        let Some(step) = &self.next else {
            return Ok(());
        };
        if !step.leaving {
            self.next = step_past(&step.element, step.depth)?;
        }
        Ok(())
    }
}

impl<L: Language> Iterator for PreorderWithTokens<L> {
    type Item = Result<WalkEvent<SyntaxElement<L>>, AllocError>;

    ghost next_gives = { YieldsOrFails };

    ghost remaining = { λ s. at_most (length s) };

    fn next(&mut self) -> Option<Result<WalkEvent<SyntaxElement<L>>, AllocError>> {
        let step = self.next.take()?;
        match step_after(self.alloc, &step.element, step.leaving, step.depth) {
            Ok(next) => {
                self.next = next;
                let element = element(step.element);
                Some(Ok(if step.leaving {
                    WalkEvent::Leave(element)
                } else {
                    WalkEvent::Enter(element)
                }))
            }
            Err(e) => Some(Err(e)),
        }
    }
}

/// Returns the next event of a node in a walk.
fn next_node_event<L: Language>(
    walk: &mut PreorderWithTokens<L>,
) -> Option<Result<WalkEvent<SyntaxNode<L>>, AllocError>>
    ensures gives { PicksOrFails node_events walk.old result walk.new }
    ensures goes { IsSome result → length walk.new < length walk.old }
{
    while let Some(event) = walk.next() {
        match event {
            Ok(WalkEvent::Enter(NodeOrToken::Node(node))) => return Some(Ok(WalkEvent::Enter(
                node,
            ))),
            Ok(WalkEvent::Leave(NodeOrToken::Node(node))) => return Some(Ok(WalkEvent::Leave(
                node,
            ))),
            Ok(_) => {}
            Err(e) => return Some(Err(e)),
        }
    }
    None
}

/// Returns the next element that a walk enters.
fn next_entered<L: Language>(
    walk: &mut PreorderWithTokens<L>,
) -> Option<Result<SyntaxElement<L>, AllocError>>
    ensures gives { PicksOrFails entered walk.old result walk.new }
    ensures goes { IsSome result → length walk.new < length walk.old }
{
    while let Some(event) = walk.next() {
        match event {
            Ok(WalkEvent::Enter(element)) => return Some(Ok(element)),
            Ok(WalkEvent::Leave(_)) => {}
            Err(e) => return Some(Err(e)),
        }
    }
    None
}

/// Returns the next node that a walk enters.
fn next_entered_node<L: Language>(
    walk: &mut PreorderWithTokens<L>,
) -> Option<Result<SyntaxNode<L>, AllocError>>
    ensures gives { PicksOrFails entered_nodes walk.old result walk.new }
    ensures goes { IsSome result → length walk.new < length walk.old }
{
    while let Some(event) = walk.next() {
        match event {
            Ok(WalkEvent::Enter(NodeOrToken::Node(node))) => return Some(Ok(node)),
            Ok(_) => {}
            Err(e) => return Some(Err(e)),
        }
    }
    None
}

/// An iterator over the events of a node and of its descendants that are nodes. Model: all
/// remaining events, also those of tokens.
#[derive(Drop)]
pub struct Preorder<L> {
    walk: PreorderWithTokens<L>,
}

impl<L> Model for Preorder<L> {
    ghost Value = { List Event };

    ghost coded = { Prim.hlevel (codes, tree_code) };

    ghost view = { λ p. p.walk };
}

impl<L: Language> Preorder<L> {
    /// Skips the remaining descendants, as [`PreorderWithTokens::skip_subtree`] does.
    ///
    /// # Errors
    ///
    /// [`AllocError`] if a reference count overflows.
    ///
    /// On error, `self` is unchanged.
    pub fn skip_subtree(&mut self) -> Result<(), AllocError>
        ensures ok { IfOk result (λ _. self.new ≡ skipped 0 self.old) }
        ensures err { OnErr result (self.new ≡ self.old) }
    {
        self.walk.skip_subtree()
    }
}

impl<L: Language> Iterator for Preorder<L> {
    type Item = Result<WalkEvent<SyntaxNode<L>>, AllocError>;

    ghost next_gives = { PicksOrFails node_events };

    ghost remaining = { λ s. at_most (length s) };

    fn next(&mut self) -> Option<Result<WalkEvent<SyntaxNode<L>>, AllocError>> {
        next_node_event(&mut self.walk)
    }
}

/// An iterator over a node and its descendants that are nodes, in preorder. Model: all remaining
/// events, also those of tokens.
#[derive(Drop)]
pub struct Descendants<L> {
    walk: PreorderWithTokens<L>,
}

impl<L> Model for Descendants<L> {
    ghost Value = { List Event };

    ghost coded = { Prim.hlevel (codes, tree_code) };

    ghost view = { λ p. p.walk };
}

impl<L: Language> Iterator for Descendants<L> {
    type Item = Result<SyntaxNode<L>, AllocError>;

    ghost next_gives = { PicksOrFails entered_nodes };

    ghost remaining = { λ s. at_most (length s) };

    fn next(&mut self) -> Option<Result<SyntaxNode<L>, AllocError>> {
        next_entered_node(&mut self.walk)
    }
}

/// An iterator over a node and its descendants, nodes and tokens, in preorder. Model: all remaining
/// events.
#[derive(Drop)]
pub struct DescendantsWithTokens<L> {
    walk: PreorderWithTokens<L>,
}

impl<L> Model for DescendantsWithTokens<L> {
    ghost Value = { List Event };

    ghost coded = { Prim.hlevel (codes, tree_code) };

    ghost view = { λ p. p.walk };
}

impl<L: Language> Iterator for DescendantsWithTokens<L> {
    type Item = Result<SyntaxElement<L>, AllocError>;

    ghost next_gives = { PicksOrFails entered };

    ghost remaining = { λ s. at_most (length s) };

    fn next(&mut self) -> Option<Result<SyntaxElement<L>, AllocError>> {
        next_entered(&mut self.walk)
    }
}

impl<L: Language> SyntaxNode<L> {
    /// Returns a walk through the node and its descendants, nodes and tokens.
    ///
    /// # Errors
    ///
    /// [`AllocError`] if a reference count overflows.
    pub fn preorder_with_tokens(&self, alloc: Global) -> Result<PreorderWithTokens<L>, AllocError>
        ensures { IfOk result (λ w. w ≡ walk (Node self.now)) }
    {
        Ok(PreorderWithTokens::new(alloc, self.cursor().clone()?))
    }

    /// Returns a walk through the node and its descendants that are nodes.
    ///
    /// # Errors
    ///
    /// [`AllocError`] if a reference count overflows.
    pub fn preorder(&self, alloc: Global) -> Result<Preorder<L>, AllocError>
        ensures { IfOk result (λ w. w ≡ walk (Node self.now)) }
    {
        let walk = self.preorder_with_tokens(alloc)?;
        Ok(Preorder { walk })
    }

    /// Returns an iterator over the node and its descendants that are nodes.
    ///
    /// # Errors
    ///
    /// [`AllocError`] if a reference count overflows.
    pub fn descendants(&self, alloc: Global) -> Result<Descendants<L>, AllocError>
        ensures { IfOk result (λ w. w ≡ walk (Node self.now)) }
    {
        let walk = self.preorder_with_tokens(alloc)?;
        Ok(Descendants { walk })
    }

    /// Returns an iterator over the node and its descendants, nodes and tokens.
    ///
    /// # Errors
    ///
    /// [`AllocError`] if a reference count overflows.
    pub fn descendants_with_tokens(
        &self,
        alloc: Global,
    ) -> Result<DescendantsWithTokens<L>, AllocError>
        ensures { IfOk result (λ w. w ≡ walk (Node self.now)) }
    {
        let walk = self.preorder_with_tokens(alloc)?;
        Ok(DescendantsWithTokens { walk })
    }
}
