//! Builds the tree of a text from the parser's steps.
ghost use Rattle.std.specs.Prelude.{◌≡◌, ◌++◌, ◌∷◌, [], chars, map, OnOk, OnErr, IfOk, IfErr};
ghost use Rattle.rowan_green.specs.declared.error.GreenError.TheVariants.{NoMemory};
ghost use Rattle.parser_input.specs.Kind.{raw_of};
ghost use Rattle.parser_input.specs.Lexed.{leaves_of};
ghost use Rattle.parser_events.specs.Seen.{message_of};
ghost use Rattle.parser_events.specs.TextSteps as texts;
ghost use Rattle.rust_document.specs.Reading.{OfGrammar};
ghost use Rattle.rust_document.specs.Seen.{message_of_error};
ghost use Rattle.rust_document.specs.TreeBuilt.{IsBuilt, IsTreeOf};
ghost use Rattle.rust_document.specs.TreeSinks.{built, MayRefuse};

use crate::syntax_error::{SyntaxError, SyntaxMessage};
use parser_events::message::Message;
use parser_events::output::Output;
use parser_events::shortcuts::intersperse_trivia;
use parser_events::str_sink::StrSink;
use parser_events::str_step::StrStep;
use parser_input::lexed_str::LexedStr;
use parser_input::syntax_kind::SyntaxKind;
use rowan_green::{GreenError, GreenNode, GreenTextBuilder};
use std::alloc::{AllocError, Global};

/// Builds a green tree and lists the messages, as the steps of a tree with its text come.
#[derive(Drop)]
pub(crate) struct TreeSink {
    builder: GreenTextBuilder,
    errors: Vec<SyntaxError>,
}

/// Adds a leaf, the next piece of the text.
#[inline(always)]
fn put_token(builder: &mut GreenTextBuilder, kind: SyntaxKind, text: &str) -> Result<(), GreenError>
    ensures ok { OnOk result (builder.new
        ≡ built builder.old (texts.Token (raw_of kind) (chars text.now))) }
    ensures refused { IfErr result
        (MayRefuse builder.old (texts.Token (raw_of kind) (chars text.now))) }
    ensures err { OnErr result (builder.new ≡ builder.old) }
{
    let kind = rowan_green::SyntaxKind(kind.to_raw());
    builder.token(kind, text.len())
}

/// Opens a node.
#[inline(always)]
fn put_enter(builder: &mut GreenTextBuilder, kind: SyntaxKind) -> Result<(), GreenError>
    ensures ok { OnOk result (builder.new ≡ built builder.old (texts.Enter (raw_of kind))) }
    ensures refused { IfErr result (MayRefuse builder.old (texts.Enter (raw_of kind))) }
    ensures err { OnErr result (builder.new ≡ builder.old) }
{
    let kind = rowan_green::SyntaxKind(kind.to_raw());
    builder.start_node(kind)
}

/// Closes the innermost open node.
#[inline(always)]
fn put_exit(builder: &mut GreenTextBuilder) -> Result<(), GreenError>
    ensures ok { OnOk result (builder.new ≡ built builder.old texts.Exit) }
    ensures refused { IfErr result (MayRefuse builder.old texts.Exit) }
    ensures err { OnErr result (builder.new ≡ builder.old) }
{
    builder.finish_node()
}

/// Appends a message, with the offset that it is about.
#[inline(never)]
fn put_message(
    errors: &mut Vec<SyntaxError>,
    message: Message,
    offset: usize,
) -> Result<(), GreenError>
    ensures ok { OnOk result (map message_of_error errors.new.items
        ≡ map message_of_error errors.old.items ++
        (offset, OfGrammar (message_of message)) ∷ []) }
    ensures refused { IfErr result (λ error. error ≡ NoMemory) }
    ensures err { OnErr result (errors.new.items ≡ errors.old.items) }
{
    let message = SyntaxMessage::Parser(message);
    errors.push(SyntaxError { offset, message })?;
    Ok(())
}

impl StrSink for TreeSink {
    type Error = GreenError;

    ghost use Rattle.rust_document.specs.TreeSinks.{IsTaken, IsRefused};

    ghost takes = { IsTaken };

    ghost fails_at = { IsRefused };

    #[inline(always)]
    fn step(&mut self, step: StrStep<'_>) -> Result<(), GreenError> {
        match step {
            StrStep::Token { kind, text } => put_token(&mut self.builder, kind, text),
            StrStep::Enter { kind } => put_enter(&mut self.builder, kind),
            StrStep::Exit => put_exit(&mut self.builder),
            StrStep::Error { msg, pos } => put_message(&mut self.errors, msg, pos),
        }
    }
}

/// The refusal when memory is out.
fn want_of_memory(error: GreenError) -> AllocError
    requires { error ≡ NoMemory }
{
    match error {
        GreenError::NoMemory => AllocError,
        GreenError::TooLong => unreachable!(),
        GreenError::Unbalanced => unreachable!(),
    }
}

/// The tree of a text, and the messages with their places.
#[derive(Drop)]
pub(crate) struct Built {
    pub root: GreenNode,
    pub errors: Vec<SyntaxError>,
}

/// Builds the tree of a text from the parser's steps over its tokens. Whitespace and comments go
/// where the steps and the leaves say.
///
/// # Errors
///
/// [`AllocError`] if an allocation fails.
pub(crate) fn build(
    alloc: Global,
    lexed: &LexedStr<'_>,
    output: &Output,
) -> Result<Built, AllocError>
    requires { IsTreeOf output.now.steps (leaves_of lexed.now.leaves) }
    ensures { IfOk result
        (λ b. IsBuilt output.now.steps (leaves_of lexed.now.leaves) b.root b.errors.items) }
{
    let text = lexed.range_text(0..lexed.len());
    let builder = match GreenTextBuilder::new(alloc, text) {
        Ok(builder) => builder,
        Err(error) => return Err(want_of_memory(error)),
    };
    let mut sink = TreeSink {
        builder,
        errors: Vec::new(alloc),
    };
    match intersperse_trivia(lexed, output, &mut sink) {
        Ok(()) => {}
        Err(error) => return Err(want_of_memory(error)),
    }
    let TreeSink { builder, errors } = sink;
    match builder.finish() {
        Ok(root) => Ok(Built { root, errors }),
        Err(error) => Err(want_of_memory(error)),
    }
}
