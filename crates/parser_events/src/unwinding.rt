//! From the record of a parser to steps, from the last entry to the first.

ghost use Rattle.std.specs.Prelude.{◌≡◌, ◌≤◌, ◌<◌, length, map, IfOk, OnOk, OnSome, MatchOption, ◌∷◌};
ghost use Rattle.parser_events.specs.Marked.{Marked, walk};
ghost use Rattle.parser_events.specs.Nodes.{entries};
ghost use Rattle.parser_events.specs.Seen.{event_of, state_of, step_of};
ghost use Rattle.parser_events.specs.Unwinding.{begun, passed};
ghost use Rattle.parser_input.specs.Kind.{raw_of};

use crate::event::Event;
use crate::step::Step;
use crate::step_list::StepList;
use parser_input::syntax_kind::SyntaxKind;
use std::alloc::{AllocError, Global};

/// A node whose end was reached, and whose beginning was not.
#[derive(Clone, Copy)]
pub(crate) struct Pending {
    kind: SyntaxKind,
    start: usize,
}

/// The steps after a place, and the nodes that go on before it, the outermost first.
#[derive(Drop)]
pub(crate) struct Unwinding {
    steps: StepList,
    pending: Vec<Pending>,
}

impl Unwinding {
    // Takes the innermost pending node, if it begins here.
    #[inline(always)]
    fn begun_at(&mut self, index: usize) -> Option<SyntaxKind>
        ensures steps { self.new.steps ≡ self.old.steps }
        ensures cases { MatchOption result (begun index (state_of self.old).pending
            (state_of self.old).laid ≡ state_of self.new) (λ kind. (state_of self.old).pending ≡
            record { kind = raw_of kind; start = index } ∷ (state_of self.new).pending) }
        ensures shorter { OnSome result
            (length self.new.pending.items < length self.old.pending.items) }
    {
        let last = *self.pending.last()?;
        if last.start != index {
            return None;
        }
        self.pending.pop();
        Some(last.kind)
    }

    // Enters the nodes that begin at a place.
    #[inline(always)]
    fn enter(&mut self, index: usize) -> Result<(), AllocError>
        ensures { OnOk result (state_of self.new
            ≡ begun index (state_of self.old).pending (state_of self.old).laid) }
    {
        'begun: while let Some(kind) = self.begun_at(index) {
            self.steps.push(Step::Enter { kind })?;
        }
        Ok(())
    }

    #[inline(always)]
    fn end(&mut self, step: Step, kind: SyntaxKind, start: usize) -> Result<(), AllocError>
        ensures { OnOk result (state_of self.new ≡ record {
          pending =
              record { kind = raw_of kind; start = start } ∷
              (state_of self.old).pending;
          laid = step_of step ∷ (state_of self.old).laid;
        }) }
    {
        self.steps.push(step)?;
        self.pending.push(Pending { kind, start })?;
        Ok(())
    }

    #[inline(always)]
    fn lay(&mut self, step: Step) -> Result<(), AllocError>
        ensures { OnOk result (state_of self.new ≡ record {
          pending =
              (state_of self.old).pending;
          laid = step_of step ∷ (state_of self.old).laid;
        }) }
    {
        self.steps.push(step)?;
        Ok(())
    }

    // Passes one entry.
    #[inline(always)]
    fn pass(&mut self, event: Event) -> Result<(), AllocError>
        ensures { OnOk result (state_of self.new ≡ passed (event_of event) (state_of self.old)) }
    {
        match event {
            Event::Token {
                kind,
                n_input_tokens,
            } => {
                self.lay(Step::Token {
                    kind,
                    n_input_tokens,
                })
            }
            Event::Error { msg } => self.lay(Step::Error { msg }),
            Event::Close { kind, start } => self.end(Step::Exit, kind, start),
            Event::Split { ends_in_dot, start } => {
                self.end(
                    Step::FloatSplit { ends_in_dot },
                    SyntaxKind::FIELD_EXPR,
                    start,
                )
            }
        }
    }
}

/// Returns the steps of the recorded trees.
pub(crate) fn unwind(alloc: Global, events: &[Event]) -> Result<StepList, AllocError>
    ensures { IfOk result (λ steps. (f : Marked) → map event_of events.now ≡ entries 0 f
        → map step_of steps ≡ walk f) }
{
    // A closed node has two steps, any other entry one.
    let most = events.len().saturating_mul(2);
    let mut unwinding = Unwinding {
        steps: StepList::new(alloc, most)?,
        pending: Vec::new(alloc),
    };
    let mut index = events.len();
    'entries: while 0 < index {
        unwinding.enter(index)?;
        index -= 1;
        unwinding.pass(events[index])?;
    }
    unwinding.enter(0)?;
    Ok(unwinding.steps)
}
