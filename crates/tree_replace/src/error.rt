//! Why a rule is none, and why a replacement is refused.

use pattern_parser::PatternError;
use rust_source::SourceError;
use std::alloc::{AllocError, AllocFailed};
use thiserror::Error;

/// The error type of [`Rule::parse`](crate::Rule::parse).
#[derive(Clone, Copy, Debug, PartialEq, Eq, Error)]
pub enum RuleError {
    /// The first text is no pattern.
    #[error("the pattern: {0}")]
    Pattern(PatternError),
    /// The second text is no template of the pattern's fragment.
    #[error("the template: {0}")]
    Template(PatternError),
    /// The pattern does not bind a name of the template.
    #[error("the template has a name that the pattern does not bind")]
    Unbound,
    /// A name is one element in one of them and a sequence in the other.
    #[error("a name is a sequence and one element")]
    Mixed,
    /// What a name stands for cannot be put where the template has it.
    #[error("a name of the template stands for something else in the pattern")]
    FragmentMismatch,
    /// A sequence of tokens is beside other tokens than delimiters, commas and semicolons.
    #[error("a sequence of tokens is not delimited")]
    LooseTokens,
    /// An allocation failed.
    #[error("out of memory")]
    NoMemory,
}

impl From<AllocError> for RuleError {
    fn from(_error: AllocError) -> RuleError {
        RuleError::NoMemory
    }
}

impl<T: Drop> From<AllocFailed<T>> for RuleError {
    fn from(_error: AllocFailed<T>) -> RuleError {
        RuleError::NoMemory
    }
}

/// Why a match is not replaced.
#[derive(Clone, Copy, Debug, PartialEq, Eq)]
pub enum Reason {
    /// A comment in the match is in no part that the template keeps.
    CommentLost,
    /// The text with its replacement would read as another tree.
    Unfaithful,
}

/// A match that is not replaced: its bytes, and why.
#[derive(Clone, Copy, Debug, PartialEq, Eq)]
pub struct Refusal {
    pub reason: Reason,
    pub start: usize,
    pub end: usize,
}

/// The error type of [`replace`](crate::replace).
#[derive(Debug, Drop)]
pub enum ReplaceError {
    /// The text has messages.
    Messages,
    /// These matches cannot be replaced.
    Matches(Vec<Refusal>),
    /// The source refuses a call.
    Source(SourceError),
    /// A text is past the limit of a document.
    TooLong,
    /// An allocation failed.
    NoMemory,
}

impl From<AllocError> for ReplaceError {
    fn from(_error: AllocError) -> ReplaceError {
        ReplaceError::NoMemory
    }
}

impl<T: Drop> From<AllocFailed<T>> for ReplaceError {
    fn from(_error: AllocFailed<T>) -> ReplaceError {
        ReplaceError::NoMemory
    }
}

impl From<SourceError> for ReplaceError {
    fn from(error: SourceError) -> ReplaceError {
        ReplaceError::Source(error)
    }
}

impl From<PatternError> for ReplaceError {
    fn from(error: PatternError) -> ReplaceError {
        match error {
            PatternError::TooLong => ReplaceError::TooLong,
            _ => ReplaceError::NoMemory,
        }
    }
}
