//! Adds the trivia of a text to the steps of a parser's output of a million tokens.
//!
//! A comment precedes every third token. For each round a line goes to standard error: the steps,
//! the trivia leaves, the bytes, and the microseconds it took to record the output, to check that
//! it fits, and to add the trivia.

ghost use Rattle.std.specs.Prelude.{◌≡◌, ◌≤◌, ◌+◌, ℕ, length, IfOk};
ghost use Rattle.parser_events.specs.Stack.{IsInnermost};

use parser_events::output::Output;
use parser_events::parser::Parser;
use parser_events::shortcuts::intersperse_trivia;
use parser_events::str_sink::StrSink;
use parser_events::str_step::StrStep;
use parser_input::edition::Edition;
use parser_input::input::Input;
use parser_input::lexed_str::LexedStr;
use parser_input::syntax_kind::SyntaxKind;
use std::alloc::{AllocError, Global};
use std::io;
use std::time::Instant;

/// The number of structs of the text, of three tokens each.
const STRUCTS: u32 = 333_334;

/// A sink that counts the steps, the trivia and the bytes.
#[derive(Clone, Copy, PartialEq, Eq)]
struct Counts {
    steps: usize,
    trivia: usize,
    bytes: usize,
}

/// The error of a sink that fails at no step.
#[derive(Drop)]
enum Never {}

impl StrSink for Counts {
    type Error = Never;

    ghost takes = { λ old step new. Unit {0} };

    ghost fails_at = { λ old step error new. Unit {0} };

    fn step(&mut self, step: StrStep<'_>) -> Result<(), Never> {
        self.steps = self.steps.wrapping_add(1);
        if let StrStep::Token { kind, text } = step {
            self.bytes = self.bytes.wrapping_add(text.len());
            if kind.is_trivia() {
                self.trivia = self.trivia.wrapping_add(1);
            }
        }
        Ok(())
    }
}

/// Returns a text of `STRUCTS` structs with a comment before each.
fn source(alloc: Global) -> Result<String, AllocError> {
    let mut text = String::new(alloc);
    for _ in 0..STRUCTS {
        text.push_str("// one more\nstruct S;\n")?;
    }
    Ok(text)
}

/// Parses the three tokens of a struct.
fn item(parser: &mut Parser<'_>)
    requires { parser.old.position + 3 ≤ length parser.old.input }
    ensures open { (around : ℕ) → IsInnermost around parser.old.nodes
        → IsInnermost around parser.new.nodes }
    ensures position { parser.new.position ≡ parser.old.position + 3 }
    ensures input { parser.new.input ≡ parser.old.input }
{
    let node = parser.start();
    parser.token(SyntaxKind::STRUCT_KW, 1);
    parser.token(SyntaxKind::IDENT, 1);
    parser.token(SyntaxKind::SEMICOLON, 1);
    let _node = node.complete(parser, SyntaxKind::STRUCT);
}

/// Parses a file of structs.
fn parse(alloc: Global, input: &Input) -> Result<Output, AllocError> {
    let mut parser = Parser::new(alloc, input);
    let root = parser.start();
    'items: for _ in 0..STRUCTS {
        if input.len().saturating_sub(parser.position()) < 3 {
            break;
        }
        item(&mut parser);
    }
    let _root = root.complete(&mut parser, SyntaxKind::SOURCE_FILE);
    parser.finish()
}

/// Parses the input and adds the trivia once, and prints how long that took.
fn measure(rt: &HostRuntime, lexed: &LexedStr<'_>, input: &Input) -> io::Result<Counts> {
    let start = Instant::now(rt)?;
    let output = parse(rt.alloc(), input)?;
    let recorded = start.elapsed(rt)?.as_micros();
    let start = Instant::now(rt)?;
    let fits = output.fits(lexed);
    let looked = start.elapsed(rt)?.as_micros();
    let mut counts = Counts {
        steps: 0,
        trivia: 0,
        bytes: 0,
    };
    let start = Instant::now(rt)?;
    let is_put = intersperse_trivia(lexed, &output, &mut counts).is_ok();
    let put = start.elapsed(rt)?.as_micros();
    let Counts {
        steps,
        trivia,
        bytes,
    } = counts;
    eprintln!(rt;
        "{steps} steps, {trivia} trivia, {bytes} bytes; recorded {recorded}, fits {fits} {looked}, put {is_put} {put} microseconds"
    )?;
    Ok(counts)
}

/// Measures `rounds` times, and prints the numbers of steps, of trivia leaves, and of bytes.
pub(crate) fn measure_events(rt: &HostRuntime, rounds: u32) -> io::Result<()> {
    let text = source(rt.alloc())?;
    let lexed = LexedStr::new(rt.alloc(), Edition::Edition2021, text.as_str())?;
    let input = lexed.to_input(rt.alloc())?;
    let mut last = Counts {
        steps: 0,
        trivia: 0,
        bytes: 0,
    };
    for _ in 0..rounds {
        last = measure(rt, &lexed, &input)?;
    }
    let Counts {
        steps,
        trivia,
        bytes,
    } = last;
    println!(rt; "{steps} {trivia} {bytes}")
}
