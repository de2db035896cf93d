//! The parser's input of a text, and its output.
ghost use Rattle.std.specs.Prelude.{◌≡◌, ◌≤◌, length, IfOk};
ghost use Rattle.parser_events.specs.Steps.{steps};
ghost use Rattle.rust_grammar.specs.Entry.{entry};
ghost use Rattle.rust_grammar.specs.Whole.{whole};
ghost use Rattle.ra_parser.specs.Entries.{production_of};
ghost use Rattle.rust_document.specs.Costs.{steps_for};

use parser_events::output::Output;
use parser_input::input::Input;
use ra_parser::{ParseError, TopEntryPoint};
use std::alloc::{AllocError, Global};

/// The parser's input of a text, and the output for it.
#[derive(Drop)]
pub struct Parse {
    pub input: Input,
    pub output: Output,
}

/// Parses an input of at most 16,777,216 tokens.
///
/// # Errors
///
/// [`AllocError`] if an allocation fails.
pub(crate) fn parse_input(
    alloc: Global,
    top: TopEntryPoint,
    tokens: &Input,
) -> Result<Output, AllocError>
    requires { length tokens.now ≤ 16777216 }
    ensures parsed { IfOk result
        (λ o. o.steps ≡ steps (entry whole (production_of top) tokens.now)) }
    ensures looked { IfOk result (λ o. 1 ≤ o.looks) }
    ensures looks { IfOk result (λ o. o.looks ≤ steps_for tokens.now) }
{
    match top.parse(alloc, tokens) {
        Ok(output) => Ok(output),
        Err(ParseError::NoMemory) => Err(AllocError),
        Err(ParseError::TooLong) => unreachable!(),
    }
}
