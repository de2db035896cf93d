//! Reads a text.
ghost use Rattle.std.specs.Prelude.{◌≡◌, ◌<◌, ◌≤◌, ◌++◌, List, length, map, chars, IfOk, OnOk};
ghost use Rattle.parser_input.specs.Stored.{whole_of};
ghost use Rattle.parser_events.specs.Steps.{Step};
ghost use Rattle.rust_grammar.specs.Rule.{source_file};
ghost use Rattle.ra_parser.specs.Entries.{production_of};
ghost use Rattle.ra_parser.specs.declared.entry_points.TopEntryPoint.{TopEntryPoint};
ghost use Rattle.ra_parser.specs.declared.grammar.Grammar.{Grammar};
ghost use Rattle.rust_document.specs.IsReading.{IsReading, IsReadingBy};
ghost use Rattle.rust_document.specs.NextReading.{AreStepsBy, IsFirstReading, IsNextReading, IsNextText, IsOwnParse};
ghost use Rattle.rust_document.specs.Reading.{leaves_in, of_leaf_at, of_leaves, tree_by, tree_in};
ghost use Rattle.rust_document.specs.Seen.{message_of_error};
ghost use Rattle.rust_document.specs.TreeBuilt.{AreMessages};

use crate::lexing::{leaves_of, lexed_content};
use crate::message_sink::parser_messages;
use crate::parse::{Parse, parse_input};
use crate::preface::parts_of;
use crate::syntax_error::{SyntaxError, SyntaxMessage};
use crate::tokens::{LexedToken, lexed_tokens};
use crate::tree_sink::{Built, build};
use lexed_text::LexedText;
use parser_events::output::Output;
use parser_input::edition::Edition;
use parser_input::lexed_str::LexedStr;
use ra_parser::{Grammar, TopEntryPoint};
use rowan_green::GreenNode;
use std::alloc::{AllocError, Global};

/// The tokens, the tree and the messages of a text.
#[derive(Drop)]
pub struct Reading {
    pub tokens: Vec<LexedToken>,
    pub root: GreenNode,
    pub errors: Vec<SyntaxError>,
}

/// The reading of a text, and what serves the next one.
#[derive(Drop)]
pub struct FirstReading {
    pub reading: Reading,
    /// The text's content with its tokens.
    pub kept: LexedText,
    pub parse: Parse,
}

/// The reading of a text that takes the place of another one.
#[derive(Drop)]
pub struct NextReading {
    pub reading: Reading,
    /// The text's content with its tokens.
    pub kept: LexedText,
    /// The parse of the text; `None` if that of the text before serves.
    pub parse: Option<Parse>,
    /// The number of leaves behind the preface.
    pub leaves: usize,
    /// The number of lookaheads; 0 if the parse before serves.
    pub steps: u64,
}

/// Appends the message of the lexer about a leaf, if there is one.
fn append_fault(
    lexed: &LexedStr<'_>,
    leaf: usize,
    errors: &mut Vec<SyntaxError>,
) -> Result<(), AllocError>
    requires { leaf < length lexed.now.leaves }
    ensures { OnOk result
        (map message_of_error errors.new.items ≡ map message_of_error errors.old.items
        ++ of_leaf_at lexed.now.leaves leaf) }
{
    let Some(words) = lexed.error(leaf) else {
        return Ok(());
    };
    let offset = lexed.text_start(leaf);
    let message = SyntaxMessage::Lexer(words);
    errors.push(SyntaxError { offset, message })?;
    Ok(())
}

/// Appends the messages of the lexer.
fn append_faults(lexed: &LexedStr<'_>, errors: &mut Vec<SyntaxError>) -> Result<(), AllocError>
    ensures { OnOk result (map message_of_error errors.new.items
        ≡ map message_of_error errors.old.items ++ of_leaves 0 lexed.now.leaves) }
{
    for leaf in 0..lexed.len() {
        append_fault(lexed, leaf, errors)?;
    }
    Ok(())
}

/// Reads the leaves of a text whose tree is built, with the parser's messages.
///
/// # Errors
///
/// [`AllocError`] if an allocation fails.
fn read_built(
    alloc: Global,
    text: &str,
    lexed: &LexedStr<'_>,
    built: Built,
) -> Result<Reading, AllocError>
    requires fits { length text.now ≤ 16777216 }
    requires whole { lexed.now ≡ whole_of lexed.now.edition (chars text.now) }
    ensures { IfOk result (λ r. (top : TopEntryPoint) (grammar : Grammar) (steps : List Step)
        → AreStepsBy (production_of top) grammar lexed.now.edition (chars text.now) steps
        → built.root ≡ tree_by (production_of top) grammar lexed.now.edition (chars text.now)
        → AreMessages steps (leaves_in lexed.now.edition (chars text.now)) built.errors.items
        → IsReadingBy (production_of top) grammar lexed.now.edition (chars text.now)
        r.tokens.items r.root r.errors.items) }
{
    let Built { root, mut errors } = built;
    append_faults(lexed, &mut errors)?;
    let tokens = lexed_tokens(alloc, lexed)?;
    Ok(Reading {
        tokens,
        root,
        errors,
    })
}

/// Reads the leaves of a text for which the parser's output is known.
///
/// # Errors
///
/// [`AllocError`] if an allocation fails.
fn read_leaves(
    alloc: Global,
    text: &str,
    lexed: &LexedStr<'_>,
    output: &Output,
) -> Result<Reading, AllocError>
    requires fits { length text.now ≤ 16777216 }
    requires whole { lexed.now ≡ whole_of lexed.now.edition (chars text.now) }
    requires parsed { (top : TopEntryPoint) × ((grammar : Grammar)
        × AreStepsBy (production_of top) grammar lexed.now.edition
        (chars text.now) output.now.steps) }
    ensures { IfOk result (λ r. (top : TopEntryPoint) (grammar : Grammar)
        → AreStepsBy (production_of top) grammar lexed.now.edition (chars text.now) output.now.steps
        → IsReadingBy (production_of top) grammar lexed.now.edition (chars text.now)
        r.tokens.items r.root r.errors.items) }
{
    let built = build(alloc, lexed, output)?;
    read_built(alloc, text, lexed, built)
}

/// Reads the leaves of a source file for which the parser's output and the tree are known.
///
/// # Errors
///
/// [`AllocError`] if an allocation fails.
fn read_around(
    alloc: Global,
    text: &str,
    lexed: &LexedStr<'_>,
    output: &Output,
    root: GreenNode,
) -> Result<Reading, AllocError>
    requires fits { length text.now ≤ 16777216 }
    requires whole { lexed.now ≡ whole_of lexed.now.edition (chars text.now) }
    ensures { IfOk result (λ r. (grammar : Grammar)
        → AreStepsBy source_file grammar lexed.now.edition (chars text.now) output.now.steps
        → root ≡ tree_in grammar lexed.now.edition (chars text.now)
        → IsReading grammar lexed.now.edition
        (chars text.now) r.tokens.items r.root r.errors.items) }
{
    let errors = parser_messages(alloc, lexed, output)?;
    read_built(alloc, text, lexed, Built { root, errors })
}

/// Reads a text of at most 16,777,216 bytes by an entry and a grammar.
///
/// # Errors
///
/// [`AllocError`] if an allocation fails.
pub fn read(
    alloc: Global,
    top: TopEntryPoint,
    grammar: Grammar,
    edition: Edition,
    text: &str,
) -> Result<Reading, AllocError>
    requires { length text.now ≤ 16777216 }
    ensures { IfOk result (λ r. IsReadingBy (production_of top) grammar edition (chars text.now)
        r.tokens.items r.root r.errors.items) }
{
    let lexed = LexedStr::new(alloc, edition, text)?;
    let input = grammar.input(alloc, &lexed)?;
    let output = parse_input(alloc, top, &input)?;
    read_leaves(alloc, text, &lexed, &output)
}

/// Reads a text of at most 16,777,216 bytes as a source file.
///
/// # Errors
///
/// [`AllocError`] if an allocation fails.
pub fn read_first(
    alloc: Global,
    grammar: Grammar,
    edition: Edition,
    text: &str,
) -> Result<FirstReading, AllocError>
    requires { length text.now ≤ 16777216 }
    ensures { IfOk result (IsFirstReading grammar edition (chars text.now)) }
{
    let kept = lexed_content(alloc, text)?;
    let lexed = leaves_of(alloc, edition, text, &kept)?;
    let input = grammar.input(alloc, &lexed)?;
    let output = parse_input(alloc, TopEntryPoint::SourceFile, &input)?;
    let reading = read_leaves(alloc, text, &lexed, &output)?;
    Ok(FirstReading {
        reading,
        kept,
        parse: Parse { input, output },
    })
}

/// A text to be read after another one.
#[derive(Drop)]
pub struct NextText<'a> {
    pub text: &'a str,
    /// The text's content with its tokens.
    pub kept: LexedText,
    /// The text's tree, if it is known and both texts have the same parser's input.
    pub root: Option<GreenNode>,
}

/// Reads a text of at most 16,777,216 bytes as a source file. `before` is the parse of another text,
/// whose output serves if the inputs are equal.
///
/// # Errors
///
/// [`AllocError`] if an allocation fails.
pub fn read_next(
    alloc: Global,
    grammar: Grammar,
    edition: Edition,
    next: NextText<'_>,
    before: &Parse,
) -> Result<NextReading, AllocError>
    requires next { IsNextText grammar edition before.now.input next }
    requires before { IsOwnParse before.now }
    ensures { IfOk result
        (IsNextReading grammar edition (chars next.entry.text.now) before.now.input) }
{
    let NextText { text, kept, root } = next;
    let lexed = leaves_of(alloc, edition, text, &kept)?;
    let leaves = lexed.len() - parts_of(text).preface_len();
    if let Some(root) = root {
        let reading = read_around(alloc, text, &lexed, &before.output, root)?;
        return Ok(NextReading {
            reading,
            kept,
            parse: None,
            leaves,
            steps: 0,
        });
    }
    let input = grammar.input(alloc, &lexed)?;
    if input == before.input {
        let reading = read_leaves(alloc, text, &lexed, &before.output)?;
        return Ok(NextReading {
            reading,
            kept,
            parse: None,
            leaves,
            steps: 0,
        });
    }
    let output = parse_input(alloc, TopEntryPoint::SourceFile, &input)?;
    let reading = read_leaves(alloc, text, &lexed, &output)?;
    let steps = output.steps();
    Ok(NextReading {
        reading,
        kept,
        parse: Some(Parse { input, output }),
        leaves,
        steps,
    })
}
