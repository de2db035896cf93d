//! Which Rust is read.

ghost use Rattle.std.specs.Prelude.{◌≡◌, IfOk};
ghost use Rattle.parser_input.specs.Input.{input};
ghost use Rattle.parser_input.specs.Lexed.{leaves_of};
ghost use Rattle.ra_parser.specs.Grammars.{is_whole};

use parser_input::input::Input;
use parser_input::lexed_str::LexedStr;
use std::alloc::{AllocError, Global};

/// The Rust that a text is read as.
#[derive(Clone, Copy, Debug, PartialEq, Eq)]
pub enum Grammar {
    /// The profile, which leaves constructs out by name: they are parsed by error recovery, with
    /// messages.
    Profile,
    /// The whole language: a text that rust-analyzer parses without an error is parsed without a
    /// message, a few unstable constructs aside.
    Whole,
}

impl Grammar {
    /// Returns the parser's input of a text, to be read by this grammar.
    ///
    /// # Errors
    ///
    /// [`AllocError`] if an allocation fails.
    pub fn input(self, alloc: Global, lexed: &LexedStr<'_>) -> Result<Input, AllocError>
        ensures { IfOk result (λ tokens. tokens
            ≡ input (is_whole self) lexed.now.edition (leaves_of lexed.now.leaves)) }
    {
        match self {
            Grammar::Profile => lexed.to_input(alloc),
            Grammar::Whole => lexed.to_whole_input(alloc),
        }
    }
}
