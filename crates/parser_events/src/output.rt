//! What a parser gives: the steps of its trees.

ghost use Rattle.std.specs.Prelude.{◌≡◌, IfOk, map};
ghost use Rattle.parser_input.specs.Lexed.{leaves_of};
ghost use Rattle.parser_events.specs.Fits.{fits};
ghost use Rattle.parser_events.specs.Seen.{step_of};
ghost use Rattle.parser_events.specs.View.{Parsed};

use crate::fits::{covers, has_one_root};
use crate::step::Step;
use crate::step_list::StepList;
pub use crate::step_list::Steps;
use parser_input::lexed_str::LexedStr;
use std::alloc::{AllocError, Global};
use std::marker::Model;

/// The steps of a parser's trees, and how many looks the parser made.
#[derive(Drop)]
pub struct Output {
    steps: StepList,
    looks: u64,
}

impl Model for Output {
    ghost use Rattle.std.specs.Prelude.{map};
    ghost use Rattle.parser_events.specs.View.{Parsed};

    ghost Value = { Parsed };

    ghost use Rattle.parser_events.specs.Seen.{step_of};

    ghost view = { λ o. record { steps = map step_of o.steps; looks = o.looks } };
}

impl Output {
    /// Returns an output of these steps, made with this number of looks.
    pub(crate) fn new(steps: StepList, looks: u64) -> Output
        ensures { result ≡ record { steps = map step_of steps; looks = looks } }
    {
        Output { steps, looks }
    }

    /// An output of these steps, which no parser made: for whoever tries what takes outputs.
    pub fn from_steps(alloc: Global, steps: &[Step]) -> Result<Output, AllocError>
        ensures { IfOk result
            (λ output. output ≡ record { steps = map step_of steps.now; looks = 0 }) }
    {
        let steps = StepList::from_slice(alloc, steps)?;
        Ok(Output::new(steps, 0))
    }

    /// The steps of the trees, in order.
    pub fn iter(&self) -> Steps<'_>
        ensures { map step_of result ≡ self.now.steps }
    {
        self.steps.iter()
    }

    /// How many looks at kinds of the input were made. It stays at 2^64 - 1.
    pub fn steps(&self) -> u64
        ensures { result ≡ self.now.looks }
    {
        self.looks
    }

    /// Returns `true` if the steps are those of one tree over the leaves of `lexed`.
    ///
    /// One node is around all steps, and the steps consume every token of the text. No trivia is
    /// inside a token of several leaves. Each split is at a float, and its `ends_in_dot` is `true`
    /// if and only if the text of the float ends in a dot.
    pub fn fits(&self, lexed: &LexedStr<'_>) -> bool
        ensures { result ≡ fits self.now.steps (leaves_of lexed.now.leaves) }
    {
        has_one_root(self.iter()) && covers(self.iter(), lexed)
    }
}
