//! The error type of this crate.
use std::alloc::{AllocError, AllocFailed};
use std::error::Error;
use std::fmt;

/// The error type of this crate. On error, nothing is changed.
#[derive(Clone, Copy, Debug, PartialEq, Eq)]
pub enum GreenError {
    /// A length in bytes, a number of children or a number of started nodes is too large, or a
    /// builder's text has no such piece left.
    TooLong = 1,
    /// A call does not fit the open nodes of a builder.
    Unbalanced = 2,
    /// Out of memory.
    NoMemory = 3,
}

impl fmt::Display for GreenError {
    ghost use Rattle.std.specs.Prelude.{Some};
    ghost use Rattle.rowan_green.specs.Refusal.{message_of};

    ghost output = { λ e. Some (message_of e) };

    fn fmt<W: fmt::Write>(&self, f: &mut fmt::Formatter<W>) -> fmt::Result {
        match self {
            GreenError::TooLong => write!(f, "too long"),
            GreenError::Unbalanced => write!(f, "unbalanced"),
            GreenError::NoMemory => write!(f, "out of memory"),
        }
    }
}

impl Error for GreenError {}

impl From<AllocError> for GreenError {
    ghost use Rattle.rowan_green.specs.declared.error.GreenError.TheVariants.{NoMemory};
    ghost use Rattle.std.specs.Prelude.{◌≡◌};

    ghost from_gives = { λ _ e. e ≡ NoMemory };

    fn from(_e: AllocError) -> GreenError {
        GreenError::NoMemory
    }
}

impl<T: Drop> From<AllocFailed<T>> for GreenError {
    ghost use Rattle.rowan_green.specs.declared.error.GreenError.TheVariants.{NoMemory};
    ghost use Rattle.std.specs.Prelude.{◌≡◌};

    ghost from_gives = { λ _ e. e ≡ NoMemory };

    fn from(_e: AllocFailed<T>) -> GreenError {
        GreenError::NoMemory
    }
}
