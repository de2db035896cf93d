//! Why a text is no pattern.

use std::alloc::{AllocError, AllocFailed};
use thiserror::Error;

/// The error type of [`parse_pattern`](crate::parse_pattern).
#[derive(Clone, Copy, Debug, PartialEq, Eq, Error)]
pub enum PatternError {
    /// A `$` begins no metavariable.
    #[error("a `$` begins no metavariable")]
    MetavariableName,
    /// The text reads as no fragment, without messages.
    #[error("the pattern does not read")]
    PatternUnread,
    /// A metavariable is at no place.
    #[error("a metavariable is at no place")]
    Place,
    /// A metavariable is no token of its own.
    #[error("a metavariable is glued to a token")]
    Glued,
    /// A name is a sequence here and one element there.
    #[error("a name is a sequence and one element")]
    Mixed,
    /// The pattern is one metavariable.
    #[error("the pattern is one metavariable")]
    OnlyMetavariable,
    /// A list has two sequences.
    #[error("a list has two sequences")]
    TwoSequences,
    /// The text is past the limit of a document.
    #[error("too long")]
    TooLong,
    /// An allocation failed.
    #[error("out of memory")]
    NoMemory,
}

impl From<AllocError> for PatternError {
    ghost use Rattle.pattern_parser.specs.declared.error.PatternError.TheVariants.{NoMemory};
    ghost use Rattle.std.specs.Prelude.{◌≡◌};

    ghost from_gives = { λ _ e. e ≡ NoMemory };

    fn from(_error: AllocError) -> PatternError {
        PatternError::NoMemory
    }
}

impl<T: Drop> From<AllocFailed<T>> for PatternError {
    ghost use Rattle.pattern_parser.specs.declared.error.PatternError.TheVariants.{NoMemory};
    ghost use Rattle.std.specs.Prelude.{◌≡◌};

    ghost from_gives = { λ _ e. e ≡ NoMemory };

    fn from(_error: AllocFailed<T>) -> PatternError {
        PatternError::NoMemory
    }
}
