//! Lists of steps, each in eight bytes at most.
//!
//! A [`Step`] takes more, since the length of a leaf is a `usize`. Nearly all lengths fit into one
//! byte; the others are in a list of their own.

ghost use Rattle.std.specs.Prelude.{◌≡◌, [], ◌∷◌, ◌++◌, MatchOption, IfErr, IfOk, OnOk, length, reverse};
ghost use Rattle.parser_events.specs.PackedSteps.{Packs, lengths_after, unpacked};
ghost use Rattle.parser_events.specs.declared.step.Step.TheVariants as steps;
ghost use Rattle.parser_events.specs.declared.step_list.Entry.TheVariants as entries;

use crate::message::Message;
use crate::step::Step;
use parser_input::syntax_kind::SyntaxKind;
use std::alloc::{AllocError, Global};
use std::marker::Model;

/// A step. The length of a leaf is a byte, or is in the list of long lengths.
#[derive(Clone, Copy)]
enum Entry {
    Token {
        kind: SyntaxKind,
        n_input_tokens: u8,
    },
    /// A leaf whose length is the next of the long lengths.
    LongToken {
        kind: SyntaxKind,
    },
    FloatSplit {
        ends_in_dot: bool,
    },
    Enter {
        kind: SyntaxKind,
    },
    Exit,
    Error {
        msg: Message,
    },
}

const _: () = prove!(size_of::<Entry>() <= 8);

/// Returns the entry of a leaf, and `n` unless it is in the entry.
fn pack_token(kind: SyntaxKind, n: usize) -> (Entry, Option<usize>)
    ensures { Packs (steps.Token kind n) result.0 result.1 }
{
    if n <= 255 {
        return (
            Entry::Token {
                kind,
                n_input_tokens: n as u8,
            },
            None,
        );
    }
    (Entry::LongToken { kind }, Some(n))
}

/// Returns the entry of `step`, and its length unless that is in the entry.
fn pack(step: Step) -> (Entry, Option<usize>)
    ensures { Packs step result.0 result.1 }
{
    match step {
        Step::Token {
            kind,
            n_input_tokens,
        } => pack_token(kind, n_input_tokens),
        Step::FloatSplit { ends_in_dot } => (Entry::FloatSplit { ends_in_dot }, None),
        Step::Enter { kind } => (Entry::Enter { kind }, None),
        Step::Exit => (Entry::Exit, None),
        Step::Error { msg } => (Entry::Error { msg }, None),
    }
}

/// Returns the leaf whose length is the last of `long`, and the lengths before that.
fn unpack_long(kind: SyntaxKind, long: &[usize]) -> (Step, &[usize])
    ensures step { result.0 ≡ unpacked (entries.LongToken kind) (reverse long.now) }
    ensures rest { reverse result.1.now
        ≡ lengths_after (entries.LongToken kind) (reverse long.now) }
{
    match long.split_last() {
        Some((n, rest)) => (
            Step::Token {
                kind,
                n_input_tokens: *n,
            },
            rest,
        ),
        None => (
            Step::Token {
                kind,
                n_input_tokens: 0,
            },
            long,
        ),
    }
}

/// Returns the step of `entry`, and the long lengths of the entries before it. The last of `long`
/// is the next one.
fn unpack(entry: Entry, long: &[usize]) -> (Step, &[usize])
    ensures step { result.0 ≡ unpacked entry (reverse long.now) }
    ensures rest { reverse result.1.now ≡ lengths_after entry (reverse long.now) }
{
    match entry {
        Entry::Token {
            kind,
            n_input_tokens,
        } => (
            Step::Token {
                kind,
                n_input_tokens: usize::from(n_input_tokens),
            },
            long,
        ),
        Entry::LongToken { kind } => unpack_long(kind, long),
        Entry::FloatSplit { ends_in_dot } => (Step::FloatSplit { ends_in_dot }, long),
        Entry::Enter { kind } => (Step::Enter { kind }, long),
        Entry::Exit => (Step::Exit, long),
        Entry::Error { msg } => (Step::Error { msg }, long),
    }
}

/// Appends `entry` and its long length. On error, both lists are unchanged.
#[cold]
fn push_both(
    entries: &mut Vec<Entry>,
    long: &mut Vec<usize>,
    entry: Entry,
    length: usize,
) -> Result<(), AllocError>
    ensures entry { OnOk result (entries.new.items ≡ entries.old.items ++ entry ∷ []) }
    ensures length { OnOk result (long.new.items ≡ long.old.items ++ length ∷ []) }
    ensures same_entries { IfErr result (λ _. entries.new.items ≡ entries.old.items) }
    ensures same_lengths { IfErr result (λ _. long.new.items ≡ long.old.items) }
{
    long.push(length)?;
    match entries.push(entry) {
        Ok(()) => Ok(()),
        Err(_refused) => {
            long.pop();
            Err(AllocError)
        }
    }
}

/// A list of steps, built from the last one to the first. Model: the steps, in order.
#[derive(Drop)]
pub(crate) struct StepList {
    /// The last one first.
    entries: Vec<Entry>,
    /// The lengths of the long leaves, the last one first.
    long: Vec<usize>,
}

impl Model for StepList {
    ghost use Rattle.std.specs.Prelude.{List, reverse};
    ghost use Rattle.parser_events.specs.declared.step.Step.{Step};

    ghost Value = { List Step };

    ghost use Rattle.parser_events.specs.PackedSteps.{unpack_all};

    ghost view = { λ s. unpack_all (reverse s.entries.items) (reverse s.long.items) };
}

impl StepList {
    /// Returns an empty list, with room for `count` steps.
    ///
    /// # Errors
    ///
    /// `AllocError` if an allocation fails.
    pub(crate) fn new(alloc: Global, count: usize) -> Result<StepList, AllocError>
        ensures { IfOk result (λ list. list ≡ []) }
    {
        Ok(StepList {
            entries: Vec::with_capacity(alloc, count)?,
            long: Vec::new(alloc),
        })
    }

    /// Returns a list of these steps.
    pub(crate) fn from_slice(alloc: Global, steps: &[Step]) -> Result<StepList, AllocError>
        ensures { IfOk result (λ list. list ≡ steps.now) }
    {
        let mut list = StepList::new(alloc, steps.len())?;
        let mut left = steps.len();
        'steps: while 0 < left {
            left -= 1;
            list.push(steps[left])?;
        }
        Ok(list)
    }

    /// Inserts `step` before the others.
    ///
    /// # Errors
    ///
    /// `AllocError` if an allocation fails. On error, the list is unchanged.
    #[inline(always)]
    pub(crate) fn push(&mut self, step: Step) -> Result<(), AllocError>
        ensures pushed { OnOk result (self.new ≡ step ∷ self.old) }
        ensures unchanged { IfErr result (λ _. self.new ≡ self.old) }
    {
        let (entry, long) = pack(step);
        match long {
            None => {
                self.entries.push(entry)?;
                Ok(())
            }
            Some(length) => push_both(&mut self.entries, &mut self.long, entry, length),
        }
    }

    /// Returns the steps, in order.
    pub(crate) fn iter(&self) -> Steps<'_>
        ensures { result ≡ self.now }
    {
        Steps {
            entries: &self.entries,
            long: &self.long,
        }
    }
}

/// An iterator over the steps of an output. Model: the remaining steps, in order.
#[derive(Drop)]
pub struct Steps<'a> {
    /// The last one first.
    entries: &'a [Entry],
    /// The lengths of the long leaves, the last one first.
    long: &'a [usize],
}

impl<'a> Model for Steps<'a> {
    ghost use Rattle.std.specs.Prelude.{List, reverse};
    ghost use Rattle.parser_events.specs.declared.step.Step.{Step};

    ghost Value = { List Step };

    ghost use Rattle.parser_events.specs.PackedSteps.{unpack_all};

    ghost view = { λ s. unpack_all (reverse s.entries.now) (reverse s.long.now) };
}

impl<'a> Steps<'a> {
    /// Returns the number of remaining steps.
    pub(crate) fn len(&self) -> usize
        ensures { result ≡ length self.now }
    {
        self.entries.len()
    }

    /// Removes and returns the next step.
    pub(crate) fn take_first(&mut self) -> Option<Step>
        ensures { MatchOption result ((self.old ≡ []) × (self.new ≡ []))
            (λ step. self.old ≡ step ∷ self.new) }
    {
        let (entry, entries) = self.entries.split_last()?;
        let (step, long) = unpack(*entry, self.long);
        self.entries = entries;
        self.long = long;
        Some(step)
    }
}

impl<'a> Iterator for Steps<'a> {
    ghost use Rattle.std.specs.Iterator.{YieldsFirst, item_count};

    type Item = Step;

    ghost next_gives = { YieldsFirst (λ s. s) };

    ghost remaining = { item_count (λ s. s) };

    fn next(&mut self) -> Option<Step> {
        self.take_first()
    }
}
