//! The steps of a parser's trees.

use crate::message::Message;
use parser_input::syntax_kind::SyntaxKind;

/// One step of a walk over a parser's trees.
#[derive(Clone, Copy, Debug, PartialEq, Eq)]
pub enum Step {
    /// A leaf over the next tokens of the input.
    Token {
        kind: SyntaxKind,
        /// The number of tokens of the input that it consists of.
        n_input_tokens: usize,
    },
    /// A float after a dot. It ends the field access that was entered last, which is left, and what
    /// the float has after its first dot follows.
    FloatSplit {
        /// Whether the dot is the float's last character.
        ends_in_dot: bool,
    },
    /// A node begins.
    Enter {
        kind: SyntaxKind,
    },
    /// The node that was entered last ends.
    Exit,
    /// A syntax error at this position.
    Error {
        msg: Message,
    },
}
