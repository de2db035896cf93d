//! What takes the steps of a tree with its text.

ghost use Rattle.std.specs.Prelude.{OnOk, IfErr};
ghost use Rattle.parser_events.specs.TextSteps.{TextStep, text_step_of};

use crate::str_step::StrStep;

/// Takes the steps of a tree with its text, one after another.
pub trait StrSink {
    /// Why a step is refused.
    type Error;

    /// A sink that is as the first says takes the step, and is as the second says from then on.
    ghost takes: { Self → TextStep → Self → Type 0 };

    /// A sink that is as the first says fails at the step for this reason, and is as the second says
    /// from then on.
    ghost fails_at: { Self → TextStep → Self.Error → Self → Type 0 };

    /// Takes the next step, or says why not.
    fn step(&mut self, step: StrStep<'_>) -> Result<(), Self::Error>
        ensures taken { OnOk result (takes self.old (text_step_of step.entry) self.new) }
        ensures refused { IfErr result
            (λ error. fails_at self.old (text_step_of step.entry) error self.new) };
}
