//! What a text is asked to be.

ghost use Rattle.std.specs.Prelude.{◌≡◌, ◌≤◌, ◌+◌, ◌*◌, length, IfOk, IfErr};
ghost use Rattle.parser_events.specs.Forest.{Forest};
ghost use Rattle.parser_events.specs.Steps.{steps};
ghost use Rattle.rust_grammar.specs.Entry.{entry};
ghost use Rattle.rust_grammar.specs.Whole.{whole};
ghost use Rattle.ra_parser.specs.Core.{IsCore};
ghost use Rattle.ra_parser.specs.Entries.{most_tokens, production_of, FitEveryText, RefusesParse};

use crate::entries::read_entry;
use parser_events::output::Output;
use parser_input::input::Input;
use rust_productions::parser::Parser;
use std::alloc::{AllocError, Global};
use std::error::Error;
use std::fmt;

/// The largest number of tokens of an input that is read.
pub const MOST_TOKENS: usize = 16_777_216;

/// The largest number of looks that are made for each token of an input, and for its end.
pub const STEPS_PER_TOKEN: u64 = 4096;

/// What a text is read as.
#[derive(Clone, Copy, Debug, PartialEq, Eq)]
pub enum TopEntryPoint {
    SourceFile,
    MacroStmts,
    MacroItems,
    Pattern,
    Ty,
    Expr,
    MetaItem,
}

/// The error type of [`TopEntryPoint::parse`].
#[derive(Clone, Copy, Debug, PartialEq, Eq)]
pub enum ParseError {
    /// It has more than [`MOST_TOKENS`] tokens.
    TooLong = 1,
    /// Out of memory.
    NoMemory = 2,
}

impl fmt::Display for ParseError {
    ghost use Rattle.std.specs.Prelude.{Some};
    ghost use Rattle.ra_parser.specs.Core.{IsCore};
    ghost use Rattle.ra_parser.specs.Entries.{message_of};

    ghost output = { λ e. Some (message_of e) };

    fn fmt<W: fmt::Write>(&self, f: &mut fmt::Formatter<W>) -> fmt::Result {
        match self {
            ParseError::TooLong => write!(f, "too long"),
            ParseError::NoMemory => write!(f, "out of memory"),
        }
    }
}

impl Error for ParseError {}

impl From<AllocError> for ParseError {
    ghost use Rattle.ra_parser.specs.declared.entry_points.ParseError.TheVariants.{NoMemory};
    ghost use Rattle.std.specs.Prelude.{◌≡◌};

    ghost from_gives = { λ _ error. error ≡ NoMemory };

    fn from(_refused: AllocError) -> ParseError {
        ParseError::NoMemory
    }
}

impl TopEntryPoint {
    /// Parses an input as this entry. Every input has a tree: errors are messages in it, and tokens
    /// without a place are in `ERROR` nodes. The tree of a core file, type or expression is the one
    /// that the core language gives it, without messages. At most [`STEPS_PER_TOKEN`] lookaheads are
    /// made for each token and for the end.
    ///
    /// # Errors
    ///
    /// - [`ParseError::TooLong`] if `input` has more than [`MOST_TOKENS`] tokens.
    /// - [`ParseError::NoMemory`] if an allocation fails.
    pub fn parse(self, alloc: Global, input: &Input) -> Result<Output, ParseError>
        ensures parsed { IfOk result (λ output. output.steps
            ≡ steps (entry whole (production_of self) input.now)) }
        ensures core { IfOk result (λ output. (tree : Forest) → IsCore self input.now tree
            → output.steps ≡ steps tree) }
        ensures fits { IfOk result (λ output. FitEveryText input.now output.steps) }
        ensures looked { IfOk result (λ output. 1 ≤ output.looks) }
        ensures looks { IfOk result
            (λ output. output.looks ≤ STEPS_PER_TOKEN * (length input.now + 1)) }
        ensures short { IfOk result (λ output. length input.now ≤ most_tokens) }
        ensures refused { IfErr result (RefusesParse input.now) }
    {
        if input.len() > MOST_TOKENS {
            return Err(ParseError::TooLong);
        }
        let mut parser = Parser::new(alloc, input);
        read_entry(&mut parser, self);
        // (one lookahead at least, so that a caller tells a parse from an output that was kept)
        let _end = parser.kind_at(0);
        let output = parser.finish()?;
        Ok(output)
    }
}
