//! The errors of tokens.

ghost use Rattle.std.specs.Prelude.{◌≡◌};
ghost use Rattle.parser_input.specs.Messages.{wording};

/// The error of a token.
#[derive(Clone, Copy, Debug, PartialEq, Eq)]
pub(crate) enum Message {
    UnterminatedBlockComment,
    NoDigits,
    NoExponentDigits,
    UnterminatedLiteral,
    InvalidRawString,
    BadEscape,
    PastAscii,
    BadLength,
    LifetimeFromDigit,
    UnknownPrefix,
    GuardedPrefix,
    UnknownCharacter,
}

impl Message {
    /// Returns the text of the error message.
    pub(crate) fn text(self) -> &'static str
        ensures { result.now ≡ wording self }
    {
        match self {
            Message::UnterminatedBlockComment => "unterminated block comment",
            Message::NoDigits => "no digits",
            Message::NoExponentDigits => "no exponent digits",
            Message::UnterminatedLiteral => "unterminated literal",
            Message::InvalidRawString => "invalid raw string",
            Message::BadEscape => "bad escape",
            Message::PastAscii => "byte literal past ASCII",
            Message::BadLength => "bad literal length",
            Message::LifetimeFromDigit => "lifetime starts with a digit",
            Message::UnknownPrefix => "unknown prefix",
            Message::GuardedPrefix => "guarded prefix",
            Message::UnknownCharacter => "unknown character",
        }
    }
}
