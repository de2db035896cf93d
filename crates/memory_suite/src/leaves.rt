//! Texts that are lexed, the parser's input, and its steps.
ghost use Rattle.std.specs.Prelude.{◌≡◌, length, IfOk};

use lexed_text::LexedText;
use memory_table::row::{Ask, Row};
use parser_events::output::Output;
use parser_events::parser::Parser;
use parser_events::step::Step;
use parser_input::{Edition, Input, LexedStr, SyntaxKind};
use ra_parser::TopEntryPoint;
use std::alloc::{AllocError, Global};

/// The calls of `lexed_text`, `parser_input`, `parser_events` and `ra_parser`.
#[derive(Clone, Copy)]
pub(crate) enum LeavesCall {
    NewText,
    EditText,
    CloneText,
    NewInput,
    Push,
    PushIdent,
    PushPipe,
    NewStr,
    ToInput,
    ToWholeInput,
    FromSteps,
    FinishParser,
    FinishGrammarParser,
    Parse,
}

/// Inserts a struct into a struct, a second time if it runs out of memory. Returns the counts of the
/// tokens kept before it, lexed and kept behind it; or the text as it was if the range is no edit.
fn edited(alloc: Global, refused: &mut u32) -> Result<String, AllocError> {
    let mut text = LexedText::new(alloc, "a b c d")?;
    for _ in 0..2 {
        if !text.can_edit(2..3, 2) {
            break;
        }
        if let Ok(kept) = text.edit(2..3, "bb") {
            let (front, lexed, back) = (kept.front, kept.lexed, kept.back);
            return format!(in alloc; "{front} {lexed} {back} {}", text.text());
        }
        *refused = refused.saturating_add(1);
    }
    String::from_str(alloc, text.text())
}

fn copied(alloc: Global) -> Result<String, AllocError> {
    let text = LexedText::new(alloc, "a b")?;
    let copy = text.try_clone(alloc)?;
    format!(in alloc; "{} {}", copy.text(), copy.tokens().len())
}

/// Pushes a semicolon, a name and a pipe operator, each a second time if it runs out of memory.
fn pushed(alloc: Global, refused: &mut u32) -> Result<Input, AllocError> {
    let mut input = Input::with_capacity(alloc, 0)?;
    if input.push(SyntaxKind::SEMICOLON).is_err() {
        *refused = refused.saturating_add(1);
        input.push(SyntaxKind::SEMICOLON)?;
    }
    for _ in 0..4 {
        if input.push_ident(SyntaxKind::UNION_KW).is_err() {
            *refused = refused.saturating_add(1);
            input.push_ident(SyntaxKind::UNION_KW)?;
        }
    }
    for _ in 0..4 {
        if input.push_pipe().is_err() {
            *refused = refused.saturating_add(1);
            input.push_pipe()?;
        }
    }
    Ok(input)
}

/// Returns the kinds of an input, and what each is in its context.
fn kinds(alloc: Global, input: &Input) -> Result<String, AllocError> {
    let mut out = String::new(alloc);
    for at in 0..input.len() {
        let name = input.kind(at).name();
        let contextual = input.contextual_kind(at).name();
        out.push_str(format!(in alloc; "{name} {contextual} ")?.as_str())?;
    }
    Ok(out)
}

fn input_of(alloc: Global, text: &str, is_whole: bool) -> Result<Input, AllocError> {
    let lexed = LexedStr::new(alloc, Edition::Edition2021, text)?;
    if is_whole {
        lexed.to_whole_input(alloc)
    } else {
        lexed.to_input(alloc)
    }
}

fn one_word(alloc: Global) -> Result<Input, AllocError>
    ensures { IfOk result (λ input. length input ≡ 1) }
{
    let mut input = Input::with_capacity(alloc, 1)?;
    input.push_ident(SyntaxKind::IDENT)?;
    Ok(input)
}

/// Records a node of one token.
fn parsed(alloc: Global) -> Result<Output, AllocError> {
    let input = one_word(alloc)?;
    let mut parser = Parser::new(alloc, &input);
    let name = parser.start();
    parser.token(SyntaxKind::IDENT, 1);
    let _name = name.complete(&mut parser, SyntaxKind::NAME);
    parser.finish()
}

/// Reads nothing of an input by a parser of the grammar.
fn unread(alloc: Global) -> Result<Output, AllocError> {
    let input = one_word(alloc)?;
    rust_productions::parser::Parser::new(alloc, &input).finish()
}

/// Returns the kinds of an output's steps.
fn steps(alloc: Global, output: &Output) -> Result<String, AllocError> {
    let mut out = String::new(alloc);
    for step in output.iter() {
        match step {
            Step::Token { kind, .. } => out.push_str(kind.name())?,
            Step::FloatSplit { .. } => out.push_str("float")?,
            Step::Enter { kind } => {
                out.push_str("+")?;
                out.push_str(kind.name())?;
            }
            Step::Exit => out.push_str("-")?,
            Step::Error { .. } => out.push_str("error")?,
        }
        out.push_str(" ")?;
    }
    Ok(out)
}

fn read(alloc: Global) -> anyhow::Result<String> {
    let input = input_of(alloc, "struct S;", false)?;
    let output = TopEntryPoint::SourceFile.parse(alloc, &input)?;
    Ok(steps(alloc, &output)?)
}

fn copied_steps(alloc: Global) -> Result<String, AllocError> {
    let kind = SyntaxKind::NAME;
    let output = Output::from_steps(alloc, &[Step::Enter { kind }, Step::Exit])?;
    steps(alloc, &output)
}

impl Ask for LeavesCall {
    fn answer(self, alloc: Global, refused: &mut u32) -> anyhow::Result<String> {
        let answer = match self {
            LeavesCall::NewText => {
                let text = LexedText::new(alloc, "struct S;")?;
                format!(in alloc; "{}", text.tokens().len())
            }
            LeavesCall::EditText => edited(alloc, refused),
            LeavesCall::CloneText => copied(alloc),
            LeavesCall::NewInput => {
                let input = Input::with_capacity(alloc, 3)?;
                format!(in alloc; "{}", input.len())
            }
            LeavesCall::Push | LeavesCall::PushIdent | LeavesCall::PushPipe => {
                kinds(alloc, &pushed(alloc, refused)?)
            }
            LeavesCall::NewStr => {
                let lexed = LexedStr::new(alloc, Edition::Edition2021, "#!x\nstruct S;")?;
                format!(in alloc; "{}", lexed.len())
            }
            LeavesCall::ToInput => kinds(alloc, &input_of(alloc, "struct S;", false)?),
            LeavesCall::ToWholeInput => kinds(alloc, &input_of(alloc, "struct S;", true)?),
            LeavesCall::FromSteps => copied_steps(alloc),
            LeavesCall::FinishParser => steps(alloc, &parsed(alloc)?),
            LeavesCall::FinishGrammarParser => steps(alloc, &unread(alloc)?),
            LeavesCall::Parse => return read(alloc),
        };
        Ok(answer?)
    }
}

/// The input that three calls push.
const PUSHED: &str =
    "SEMICOLON EOF IDENT UNION_KW IDENT UNION_KW IDENT UNION_KW IDENT UNION_KW PIPE PIPE_GT PIPE PIPE_GT PIPE PIPE_GT PIPE PIPE_GT ";

const STRUCT_INPUT: &str = "STRUCT_KW EOF IDENT IDENT SEMICOLON EOF ";

const STRUCT_STEPS: &str = "+SOURCE_FILE +STRUCT STRUCT_KW +NAME IDENT - SEMICOLON - - ";

pub(crate) const ROWS: &[Row<LeavesCall>] = &[
    ("lexed_text::LexedText::new", LeavesCall::NewText, "4"),
    (
        "lexed_text::LexedText::edit",
        LeavesCall::EditText,
        "0 3 4 a bb c d",
    ),
    (
        "lexed_text::LexedText::try_clone",
        LeavesCall::CloneText,
        "a b 3",
    ),
    (
        "parser_input::Input::with_capacity",
        LeavesCall::NewInput,
        "0",
    ),
    ("parser_input::Input::push", LeavesCall::Push, PUSHED),
    (
        "parser_input::Input::push_ident",
        LeavesCall::PushIdent,
        PUSHED,
    ),
    (
        "parser_input::Input::push_pipe",
        LeavesCall::PushPipe,
        PUSHED,
    ),
    ("parser_input::LexedStr::new", LeavesCall::NewStr, "6"),
    (
        "parser_input::LexedStr::to_input",
        LeavesCall::ToInput,
        STRUCT_INPUT,
    ),
    (
        "parser_input::LexedStr::to_whole_input",
        LeavesCall::ToWholeInput,
        STRUCT_INPUT,
    ),
    (
        "parser_events::Output::from_steps",
        LeavesCall::FromSteps,
        "+NAME - ",
    ),
    (
        "parser_events::Parser::finish",
        LeavesCall::FinishParser,
        "+NAME IDENT - ",
    ),
    (
        "rust_productions::Parser::finish",
        LeavesCall::FinishGrammarParser,
        "",
    ),
    (
        "ra_parser::TopEntryPoint::parse",
        LeavesCall::Parse,
        STRUCT_STEPS,
    ),
];
