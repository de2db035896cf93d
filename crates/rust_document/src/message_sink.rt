//! Lists the messages of a text whose tree is known.
ghost use Rattle.std.specs.Prelude.{IfOk};
ghost use Rattle.parser_input.specs.Lexed.{leaves_of};
ghost use Rattle.rust_document.specs.TreeBuilt.{AreMessages};

use crate::syntax_error::{SyntaxError, SyntaxMessage};
use parser_events::output::Output;
use parser_events::shortcuts::intersperse_trivia;
use parser_events::str_sink::StrSink;
use parser_events::str_step::StrStep;
use parser_input::lexed_str::LexedStr;
use std::alloc::{AllocError, Global};

/// Lists the messages, as the steps of a tree with its text come.
#[derive(Drop)]
pub(crate) struct MessageSink {
    errors: Vec<SyntaxError>,
}

impl StrSink for MessageSink {
    type Error = AllocError;

    ghost use Rattle.rust_document.specs.MessageSinks.{IsHeard, IsUnheard};

    ghost takes = { IsHeard };

    ghost fails_at = { IsUnheard };

    fn step(&mut self, step: StrStep<'_>) -> Result<(), AllocError> {
        match step {
            StrStep::Token { kind: _, text: _ } => Ok(()),
            StrStep::Enter { kind: _ } => Ok(()),
            StrStep::Exit => Ok(()),
            StrStep::Error { msg, pos } => {
                let message = SyntaxMessage::Parser(msg);
                self.errors.push(SyntaxError {
                    offset: pos,
                    message,
                })?;
                Ok(())
            }
        }
    }
}

/// Returns the messages of the parser about a text, with their places.
///
/// # Errors
///
/// [`AllocError`] if an allocation fails.
pub(crate) fn parser_messages(
    alloc: Global,
    lexed: &LexedStr<'_>,
    output: &Output,
) -> Result<Vec<SyntaxError>, AllocError>
    ensures { IfOk result
        (λ errors. AreMessages output.now.steps (leaves_of lexed.now.leaves) errors.items) }
{
    let mut sink = MessageSink {
        errors: Vec::new(alloc),
    };
    intersperse_trivia(lexed, output, &mut sink)?;
    let MessageSink { errors } = sink;
    Ok(errors)
}
