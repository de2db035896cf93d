//! The changed ranges of the new text.
ghost use Rattle.std.specs.Prelude.{◌≡◌, ◌+◌, ◌<◌, ◌^◌, ◌++◌, ◌∷◌, [], ◌≤◌, ◌&&◌, map, true, IfOk, OnOk};
ghost use Rattle.tree_rewrite.specs.Marked.{Marked};
ghost use Rattle.tree_rewrite.specs.declared.piece.Piece.TheVariants.{Whole};
ghost use Rattle.tree_rewrite.specs.Pieces.{Stand, closed, after_piece, Say};
ghost use Rattle.tree_rewrite.specs.Changed.{AreChanged, if_changed, bounds};
ghost use Rattle.tree_rewrite.specs.Tracking.{IsEntry, Tracks, is_put, bytes_by, all_bytes};

use crate::piece::Piece;
use rowan_green::{TextRange, TextSize};
use std::alloc::{AllocError, Global};
use std::mem;
use syntax_tree::SyntaxElement;

/// A node, or a group of inserted elements, that was entered; with the state before it.
#[derive(Drop)]
pub struct Entered {
    is_node: bool,
    start: u32,
    told: Option<bool>,
    before: Vec<TextRange>,
}

/// The changed ranges up to an offset, and the open nodes and groups around it. Inside a group,
/// `told` is `Some`: whether the elements of the group are recorded as changed.
#[derive(Drop)]
pub struct Tracker {
    ranges: Vec<TextRange>,
    offset: u32,
    told: Option<bool>,
    around: Vec<Entered>,
}

/// Appends `ranges`.
fn push_ranges(ranges: Vec<TextRange>, to: &mut Vec<TextRange>) -> Result<(), AllocError>
    ensures { OnOk result (to.new.items ≡ to.old.items ++ ranges.items) }
{
    for range in ranges {
        to.push(range)?;
    }
    Ok(())
}

/// Appends the range from `start` to `end` if `is_there`.
fn push_if(is_there: bool, start: u32, end: u32, to: &mut Vec<TextRange>) -> Result<(), AllocError>
    requires { is_there ≡ true → start ≤ end }
    ensures { OnOk result (map bounds to.new.items
        ≡ map bounds to.old.items ++ if_changed is_there (start, end) []) }
{
    if is_there {
        to.push(TextRange::new(TextSize(start), TextSize(end)))?;
    }
    Ok(())
}

/// Returns `true` if `told` is `Some(true)`: the elements of a group are recorded as changed.
pub(crate) fn is_put(told: Option<bool>) -> bool
    ensures { result ≡ is_put told }
{
    match told {
        Some(is_put) => is_put,
        None => false,
    }
}

/// Returns `true` if the node or group that ends is a node that is recorded as changed.
fn is_change(is_node: bool, told: Option<bool>) -> bool
    ensures { result ≡ (is_node && is_put told) }
{
    is_node && is_put(told)
}

impl Tracker {
    /// Skips an element with all elements below it, and records it if it is changed.
    fn pass(&mut self, element: &SyntaxElement) -> Result<(), AllocError>
        requires { self.now.offset + bytes_by (Whole element.now) < 2 ^ 32 }
        ensures tracks { (s : Stand) → Tracks self.old s
            → OnOk result (Tracks self.new (after_piece (Whole element.now) s)) }
        ensures offset { OnOk result
            (self.new.offset ≡ self.old.offset + bytes_by (Whole element.now)) }
    {
        let green = element.green()?;
        let end = self.offset + green.text_len().0;
        push_if(is_put(self.told), self.offset, end, &mut self.ranges)?;
        self.offset = end;
        Ok(())
    }

    /// Enters a node or a group of inserted elements.
    fn enter(&mut self, alloc: Global, is_node: bool, told: Option<bool>) -> Result<(), AllocError>
        ensures ranges { OnOk result (self.new.ranges.items ≡ []) }
        ensures offset { OnOk result (self.new.offset ≡ self.old.offset) }
        ensures told { OnOk result (self.new.told ≡ told) }
        ensures around { OnOk result ((g : Entered)
            × (self.new.around.items ≡ self.old.around.items ++ g ∷ [])
            × IsEntry g is_node self.old) }
    {
        let before = mem::replace(&mut self.ranges, Vec::new(alloc));
        let entered = Entered {
            is_node,
            start: self.offset,
            told: self.told,
            before,
        };
        self.around.push(entered)?;
        self.told = told;
        Ok(())
    }

    /// Leaves the node or group that was entered last.
    fn leave(&mut self) -> Result<(), AllocError>
        requires { (s : Stand) × Tracks self.now s }
        ensures tracks { (s : Stand) → Tracks self.old s
            → OnOk result (Tracks self.new (closed s.done s.around)) }
        ensures offset { OnOk result (self.new.offset ≡ self.old.offset) }
    {
        let Some(
            Entered {
                is_node,
                start,
                told,
                before,
            },
        ) = self.around.pop()
        else {
            return Ok(());
        };
        let inside = mem::replace(&mut self.ranges, before);
        push_if(
            is_change(is_node, told),
            start,
            self.offset,
            &mut self.ranges,
        )?;
        push_ranges(inside, &mut self.ranges)?;
        self.told = told;
        Ok(())
    }

    /// Processes one piece.
    fn step(&mut self, alloc: Global, piece: &Piece) -> Result<(), AllocError>
        requires tracks { (s : Stand) × Tracks self.now s }
        requires fits { self.now.offset + bytes_by piece.now < 2 ^ 32 }
        ensures tracks { (s : Stand) → Tracks self.old s
            → OnOk result (Tracks self.new (after_piece piece.now s)) }
        ensures offset { OnOk result (self.new.offset ≡ self.old.offset + bytes_by piece.now) }
    {
        match piece {
            Piece::Whole(element) => self.pass(element)?,
            Piece::Open(_) => self.enter(alloc, true, None)?,
            Piece::Group(nesting) => {
                let told = Some(self.told.unwrap_or(nesting.is_outermost()));
                self.enter(alloc, false, told)?;
            }
            Piece::Close => self.leave()?,
        }
        Ok(())
    }
}

/// Returns the ranges of the elements that outermost changes inserted, in bytes of the text of
/// `pieces`.
pub fn changed_of(alloc: Global, pieces: &[Piece]) -> Result<Vec<TextRange>, AllocError>
    requires { all_bytes pieces.now < 2 ^ 32 }
    ensures { (m : Marked) → Say pieces.now m → IfOk result (λ v. AreChanged v.items m) }
{
    let mut tracker = Tracker {
        ranges: Vec::new(alloc),
        offset: 0,
        told: None,
        around: Vec::new(alloc),
    };
    for piece in pieces {
        tracker.step(alloc, piece)?;
    }
    let Tracker { ranges, .. } = tracker;
    Ok(ranges)
}
