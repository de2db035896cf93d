//! Messages about a text.

use parser_events::message::Message;
use std::fmt;

/// What is wrong at a place of a text: by the grammar, or with a token.
#[derive(Clone, Copy, Debug, PartialEq, Eq)]
pub enum SyntaxMessage {
    /// A message of the parser.
    Parser(Message),
    /// A message of the lexer, in words.
    Lexer(&'static str),
}

/// A message about a place in a text. Its `Display` is the message's text.
#[derive(Clone, Copy, Debug, PartialEq, Eq)]
pub struct SyntaxError {
    /// The place, in bytes from the text's start.
    pub offset: usize,
    pub message: SyntaxMessage,
}

impl fmt::Display for SyntaxError {
    ghost use Rattle.std.specs.Prelude.{Some};
    ghost use Rattle.rust_document.specs.Seen.{words_of};

    ghost output = { λ e. Some (words_of e.message) };

    fn fmt<W: fmt::Write>(&self, f: &mut fmt::Formatter<W>) -> fmt::Result {
        match self.message {
            SyntaxMessage::Parser(message) => write!(f, "{message}"),
            SyntaxMessage::Lexer(words) => write!(f, "{words}"),
        }
    }
}
