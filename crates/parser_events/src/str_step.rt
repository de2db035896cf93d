//! The steps of a tree with its text.

use crate::message::Message;
use parser_input::syntax_kind::SyntaxKind;

/// One step of a walk over a tree with its text. Trivia are leaves too.
#[derive(Clone, Copy)]
pub enum StrStep<'a> {
    /// A leaf.
    Token {
        kind: SyntaxKind,
        text: &'a str,
    },
    /// A node begins.
    Enter {
        kind: SyntaxKind,
    },
    /// The node that was entered last ends.
    Exit,
    /// A syntax error.
    Error {
        msg: Message,
        /// Its offset in the text, in bytes.
        pos: usize,
    },
}
