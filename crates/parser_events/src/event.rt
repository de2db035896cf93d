//! What a parser records.

use crate::message::Message;
use parser_input::syntax_kind::SyntaxKind;

/// One recorded event. The event of a node comes after those of its descendants, so opening,
/// abandoning or preceding a node records nothing.
#[derive(Clone, Copy)]
pub(crate) enum Event {
    Token {
        kind: SyntaxKind,
        n_input_tokens: usize,
    },
    Error {
        msg: Message,
    },
    /// A node ends here. Its first event is at index `start`.
    Close {
        kind: SyntaxKind,
        start: usize,
    },
    /// A field access ends here, inside a float after a dot. Its first event is at index `start`.
    Split {
        ends_in_dot: bool,
        start: usize,
    },
}
