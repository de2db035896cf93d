//! The ranges of a text that a rewrite changes, beside those of the new text.
ghost use Rattle.std.specs.Prelude.{◌≡◌, ◌+◌, ◌<◌, ◌≤◌, ◌^◌, ◌||◌, List, [], ◌∷◌, ◌++◌, length, map, IsTrue, IfOk, OnOk};
ghost use Rattle.std.specs.Str.{IsCharBoundary};
ghost use Rattle.tree_rewrite.specs.Fits.{IsNode};
ghost use Rattle.tree_rewrite.specs.Marked.{Marked};
ghost use Rattle.tree_rewrite.specs.Pieces.{Say};
ghost use Rattle.tree_rewrite.specs.Tracking.{bytes_by};
ghost use Rattle.tree_rewrite.specs.declared.piece.Piece.TheVariants.{Whole, Close};
ghost use Rattle.rust_document.specs.Edit.{can_edit};
ghost use Rattle.rust_source.specs.ChangedRanges.{ahead, between, bounds, bytes_of, changes_with, follows, in_a_group, in_a_node, standing_of, stays, up_to, AreChanges, AreRewritten, Agrees, CanKeep, CanWalk, HasWalked, IsMoved, Standing};

use rowan_green::{TextRange, TextSize};
use std::alloc::{AllocError, Global};
use syntax_tree::SyntaxElement;
use tree_rewrite::piece::Piece;
use tree_rewrite::plan::Rewritten;

/// A range of a text, and the range of the new text that replaces it.
#[derive(Clone, Copy, Debug, PartialEq, Eq)]
pub struct ChangedRange {
    pub before: TextRange,
    pub after: TextRange,
}

/// A range of a text, and the range of the new text that has its tokens: no change inserted them.
#[derive(Clone, Copy)]
struct StandingRange {
    before: TextRange,
    after: TextRange,
}

impl StandingRange {
    /// Returns `true` if `next` comes next in both texts.
    fn is_followed_by(self, next: StandingRange) -> bool
        ensures { result ≡ follows (standing_of self) (standing_of next) }
    {
        next.before.start().0 == self.before.end().0 && next.after.start().0 == self.after.end().0
    }

    /// Returns the range up to the end of `next`, which comes next in both texts.
    fn up_to(self, next: StandingRange) -> StandingRange
        requires { IsTrue (follows (standing_of self) (standing_of next)) }
        ensures { standing_of result ≡ up_to (standing_of self) (standing_of next) }
    {
        StandingRange {
            before: TextRange::new(self.before.start(), next.before.end()),
            after: TextRange::new(self.after.start(), next.after.end()),
        }
    }
}

/// Two texts, their changed ranges up to a place in each, and these places. Outside of the ranges
/// the texts agree up to there.
#[derive(Drop)]
struct Agreement<'a> {
    before: &'a str,
    after: &'a str,
    ranges: Vec<ChangedRange>,
    before_end: u32,
    after_end: u32,
}

/// Returns `true` if the bytes of `text` from `start` to just before `end` are whole characters.
fn can_edit(text: &str, start: usize, end: usize) -> bool
    requires { start ≤ end }
    ensures test { result ≡ can_edit text.now start end }
    ensures start { IsTrue result → IsCharBoundary text.now start }
    ensures end { IsTrue result → IsCharBoundary text.now end }
{
    text.is_char_boundary(start) && text.is_char_boundary(end)
}

impl<'a> Agreement<'a> {
    /// Creates the agreement of two texts up to their starts.
    fn new(alloc: Global, before: &'a str, after: &'a str) -> Agreement<'a>
        ensures agrees { Agrees result }
        ensures before { result.before.now ≡ before.entry.now }
        ensures after { result.after.now ≡ after.entry.now }
        ensures ahead { (ss : List Standing)
            → ahead result ss ≡ between before.entry.now after.entry.now 0 0 ss }
    {
        Agreement {
            before,
            after,
            ranges: Vec::new(alloc),
            before_end: 0,
            after_end: 0,
        }
    }

    /// Moves the ends on to `to` and `end`. Records the bytes between as changed, if there are any.
    fn skip_to(&mut self, to: u32, end: u32) -> Result<(), AllocError>
        requires agrees { Agrees self.old }
        requires to_order { self.old.before_end ≤ to }
        requires end_order { self.old.after_end ≤ end }
        requires to_boundary { IsCharBoundary self.old.before.now to }
        requires end_boundary { IsCharBoundary self.old.after.now end }
        ensures agrees { OnOk result (Agrees self.new) }
        ensures moved { OnOk result (IsMoved self.old self.new to end) }
    {
        if self.before_end < to || self.after_end < end {
            self.ranges.push(ChangedRange {
                before: TextRange::new(TextSize::new(self.before_end), TextSize::new(to)),
                after: TextRange::new(TextSize::new(self.after_end), TextSize::new(end)),
            })?;
        }
        self.before_end = to;
        self.after_end = end;
        Ok(())
    }

    /// Returns `true` if both texts have the same bytes at `range`, behind the ends.
    fn can_keep(&self, range: StandingRange) -> bool
        ensures keeps { IsTrue result → CanKeep self.now (standing_of range) }
        ensures stays { result
            ≡ stays self.now.before.now self.now.after.now self.now.before_end self.now.after_end
            (standing_of range) }
    {
        let start = usize::from(range.before.start());
        let end = usize::from(range.before.end());
        let place = usize::from(range.after.start());
        let stop = usize::from(range.after.end());
        if range.before.start().0 < self.before_end || range.after.start().0 < self.after_end {
            return false;
        }
        if !can_edit(self.before, start, end) || !can_edit(self.after, place, stop) {
            return false;
        }
        self.before.as_bytes()[start..end] == self.after.as_bytes()[place..stop]
    }

    /// Records that both texts have the same bytes at `range`, if they do.
    fn keep(&mut self, range: StandingRange) -> Result<(), AllocError>
        requires { CanWalk self.old }
        ensures walked { OnOk result (HasWalked self.old self.new) }
        ensures ahead { (ss : List Standing) → OnOk result (ahead self.new ss
            ≡ ahead self.old (standing_of range ∷ ss)) }
    {
        if self.can_keep(range) {
            self.skip_to(range.before.start().0, range.after.start().0)?;
            self.before_end = range.before.end().0;
            self.after_end = range.after.end().0;
        }
        Ok(())
    }

    /// Returns the changed ranges of the whole texts.
    fn finish(mut self) -> Result<Vec<ChangedRange>, AllocError>
        requires { CanWalk self }
        ensures changes { IfOk result (λ v.
            AreChanges self.entry.before.now self.entry.after.now v.items) }
        ensures ahead { IfOk result (λ v. map bounds v.items ≡ ahead self.entry []) }
    {
        let to = self.before.len() as u32;
        let end = self.after.len() as u32;
        self.skip_to(to, end)?;
        let Agreement { ranges, .. } = self;
        Ok(ranges)
    }
}

/// Where the next piece is: below an inserted element or not, and directly in a group of inserted
/// elements or not.
#[derive(Clone, Copy)]
struct Level {
    is_inserted: bool,
    is_in_group: bool,
}

impl Level {
    /// Returns the level of the children of a node.
    fn in_a_node(self) -> Level
        ensures { result ≡ in_a_node self }
    {
        Level {
            is_inserted: self.is_inserted,
            is_in_group: false,
        }
    }

    /// Returns the level of the elements of a group with this flag.
    fn in_a_group(self, is_top: bool) -> Level
        ensures { result ≡ in_a_group is_top self }
    {
        let is_inserted = if self.is_in_group {
            self.is_inserted
        } else {
            self.is_inserted || is_top
        };
        Level {
            is_inserted,
            is_in_group: true,
        }
    }
}

/// The agreement of a text with that of a rewritten tree, as the pieces of the tree come: the last
/// range of elements that no change inserted, which the next one may extend; the place in the new
/// text; the level of the next piece, and the levels around it.
#[derive(Drop)]
struct Walk<'a> {
    agreement: Agreement<'a>,
    run: StandingRange,
    place: u32,
    level: Level,
    around: Vec<Level>,
}

impl Walk<'_> {
    /// Passes an element with all elements below it.
    fn pass(&mut self, element: &SyntaxElement) -> Result<(), AllocError>
        requires walk { CanWalk self.old.agreement }
        requires fits { self.old.place + bytes_of element.now < 2 ^ 32 }
        ensures walked { OnOk result (HasWalked self.old.agreement self.new.agreement) }
        ensures ahead { (ps : List Piece) → OnOk result (changes_with self.new ps
            ≡ changes_with self.old (Whole element.now ∷ ps)) }
        ensures place { OnOk result (self.new.place ≡ self.old.place + bytes_of element.now) }
    {
        let range = element.text_range();
        let place = self.place;
        self.place += range.len().0;
        if self.level.is_inserted || range.is_empty() {
            return Ok(());
        }
        let next = StandingRange {
            before: range,
            after: TextRange::new(TextSize::new(place), TextSize::new(self.place)),
        };
        if self.run.is_followed_by(next) {
            self.run = self.run.up_to(next);
            return Ok(());
        }
        self.agreement.keep(self.run)?;
        self.run = next;
        Ok(())
    }

    /// Enters a node or a group of inserted elements: what is in it has this level.
    fn enter(&mut self, level: Level) -> Result<(), AllocError>
        ensures agreement { OnOk result (self.new.agreement ≡ self.old.agreement) }
        ensures run { OnOk result (self.new.run ≡ self.old.run) }
        ensures place { OnOk result (self.new.place ≡ self.old.place) }
        ensures level { OnOk result (self.new.level ≡ level) }
        ensures around { OnOk result (self.new.around.items
            ≡ self.old.around.items ++ self.old.level ∷ []) }
    {
        self.around.push(self.level)?;
        self.level = level;
        Ok(())
    }

    /// Leaves the node or group that was entered last.
    fn leave(&mut self)
        ensures agreement { self.new.agreement ≡ self.old.agreement }
        ensures place { self.new.place ≡ self.old.place }
        ensures ahead { (ps : List Piece) → changes_with self.new ps
            ≡ changes_with self.old (Close ∷ ps) }
    {
        if let Some(level) = self.around.pop() {
            self.level = level;
        }
    }

    /// Processes one piece.
    fn step(&mut self, piece: &Piece) -> Result<(), AllocError>
        requires walk { CanWalk self.old.agreement }
        requires fits { self.old.place + bytes_by piece.now < 2 ^ 32 }
        ensures walked { OnOk result (HasWalked self.old.agreement self.new.agreement) }
        ensures ahead { (ps : List Piece) → OnOk result (changes_with self.new ps
            ≡ changes_with self.old (piece.now ∷ ps)) }
        ensures place { OnOk result (self.new.place ≡ self.old.place + bytes_by piece.now) }
    {
        match piece {
            Piece::Whole(element) => self.pass(element)?,
            Piece::Open(_) => self.enter(self.level.in_a_node())?,
            Piece::Group(nesting) => self.enter(self.level.in_a_group(nesting.is_outermost()))?,
            Piece::Close => self.leave(),
        }
        Ok(())
    }
}

/// Returns the ranges of `before` that a rewrite changes, each beside the range of `after` that
/// replaces it. `made` is the rewritten tree, and `after` its text: the elements that no change
/// inserted are found by its pieces.
pub(crate) fn changed_ranges(
    alloc: Global,
    before: &str,
    after: &str,
    made: &Rewritten,
) -> Result<Vec<ChangedRange>, AllocError>
    requires before { length before.now < 2 ^ 32 }
    requires after { length after.now < 2 ^ 32 }
    requires made { (m : Marked) × (Say made.now.pieces.items m × IsNode m made.now.green) }
    ensures changes { IfOk result (λ v. AreChanges before.now after.now v.items) }
    ensures rewritten { (m : Marked) → Say made.now.pieces.items m → IfOk result (λ v.
        AreRewritten before.now after.now m v.items) }
{
    // The pieces have the bytes of the tree, which are fewer than 2^32: this length says so.
    let _bytes = made.green.text_len();
    let none = TextRange::new(TextSize::new(0), TextSize::new(0));
    let agreement = Agreement::new(alloc, before, after);
    let mut walk = Walk {
        agreement,
        run: StandingRange {
            before: none,
            after: none,
        },
        place: 0,
        level: Level {
            is_inserted: false,
            is_in_group: false,
        },
        around: Vec::new(alloc),
    };
    for piece in &made.pieces {
        walk.step(piece)?;
    }
    let Walk {
        mut agreement,
        run,
        ..
    } = walk;
    agreement.keep(run)?;
    agreement.finish()
}
