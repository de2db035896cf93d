//! The error type of this crate.
use std::alloc::AllocError;
use std::error::Error;
use std::fmt;

/// The error type of this crate. On error, nothing is changed.
#[derive(Clone, Copy, Debug, PartialEq, Eq)]
pub enum CursorError {
    /// No node has the kind and the range.
    NotFound = 1,
    /// A length in bytes or a number of children exceeds `u32::MAX`.
    TooLong = 2,
    /// Out of memory.
    NoMemory = 3,
}

impl fmt::Display for CursorError {
    ghost use Rattle.std.specs.Prelude.{Some};
    ghost use Rattle.rowan.specs.Refusal.{message_of};

    ghost output = { λ e. Some (message_of e) };

    fn fmt<W: fmt::Write>(&self, f: &mut fmt::Formatter<W>) -> fmt::Result {
        match self {
            CursorError::NotFound => write!(f, "not found"),
            CursorError::TooLong => write!(f, "too long"),
            CursorError::NoMemory => write!(f, "out of memory"),
        }
    }
}

impl Error for CursorError {}

impl From<AllocError> for CursorError {
    ghost use Rattle.rowan.specs.declared.error.CursorError.TheVariants.{NoMemory};
    ghost use Rattle.std.specs.Prelude.{◌≡◌};

    ghost from_gives = { λ _ e. e ≡ NoMemory };

    fn from(_e: AllocError) -> CursorError {
        CursorError::NoMemory
    }
}
