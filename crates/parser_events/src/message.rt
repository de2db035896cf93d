//! The messages of syntax errors.

use parser_input::syntax_kind::SyntaxKind;
use std::fmt;

/// The message of a syntax error.
#[derive(Clone, Copy, Debug, PartialEq, Eq)]
pub enum Message {
    /// A token of this kind is missing.
    Expected(SyntaxKind),
    /// A token that is not allowed in a list of this kind.
    UnexpectedIn(SyntaxKind),
    ExpectedType,
    ExpectedExpression,
    ExpectedPattern,
    ExpectedItem,
    ExpectedStatement,
    ExpectedMatchArm,
    ExpectedField,
    /// Tokens that are left over.
    UnexpectedTokens,
    /// A float after a dot that has no dot of its own.
    IllegalFloat,
}

impl fmt::Display for Message {
    ghost use Rattle.std.specs.Prelude.{Some};
    ghost use Rattle.parser_events.specs.MessageTexts.{message_text};

    ghost output = { λ m. Some (message_text m) };

    fn fmt<W: fmt::Write>(&self, f: &mut fmt::Formatter<W>) -> fmt::Result {
        match self {
            Message::Expected(kind) => write!(f, "expected {}", kind.name()),
            Message::UnexpectedIn(list) => write!(f, "unexpected token in {}", list.name()),
            Message::ExpectedType => write!(f, "expected a type"),
            Message::ExpectedExpression => write!(f, "expected an expression"),
            Message::ExpectedPattern => write!(f, "expected a pattern"),
            Message::ExpectedItem => write!(f, "expected an item"),
            Message::ExpectedStatement => write!(f, "expected a statement"),
            Message::ExpectedMatchArm => write!(f, "expected a match arm"),
            Message::ExpectedField => write!(f, "expected field name or number"),
            Message::UnexpectedTokens => write!(f, "unexpected tokens"),
            Message::IllegalFloat => write!(f, "illegal float literal"),
        }
    }
}
