//! Errors of reading and writing.

use std::alloc::{AllocError, AllocFailed};
use std::error::Error;
use std::fmt;
use std::io::{self, ErrorKind};

/// The error type of [`Target`](crate::Target).
#[derive(Debug, Drop)]
pub enum TargetError {
    /// There is no file at the path.
    NotFound,
    /// The file is not of the version that is expected.
    Changed,
    /// Out of memory.
    NoMemory,
    /// The system returned an error.
    Io(io::Error),
}

impl fmt::Display for TargetError {
    ghost use Rattle.file_target.specs.Errors.{target_message};

    ghost output = { λ error. target_message error };

    fn fmt<W: fmt::Write>(&self, f: &mut fmt::Formatter<W>) -> fmt::Result {
        match self {
            TargetError::NotFound => write!(f, "does not exist"),
            TargetError::Changed => write!(f, "changed since it was read"),
            TargetError::NoMemory => write!(f, "out of memory"),
            TargetError::Io(error) => write!(f, "{error}"),
        }
    }
}

impl Error for TargetError {}

impl From<AllocError> for TargetError {
    ghost use Rattle.file_target.specs.declared.error.TargetError.TheVariants.{NoMemory};
    ghost use Rattle.std.specs.Prelude.{◌≡◌};

    ghost from_gives = { λ _ error. error ≡ NoMemory };

    fn from(_error: AllocError) -> TargetError {
        TargetError::NoMemory
    }
}

impl<T: Drop> From<AllocFailed<T>> for TargetError {
    ghost use Rattle.file_target.specs.declared.error.TargetError.TheVariants.{NoMemory};
    ghost use Rattle.std.specs.Prelude.{◌≡◌};

    ghost from_gives = { λ _ error. error ≡ NoMemory };

    fn from(_error: AllocFailed<T>) -> TargetError {
        TargetError::NoMemory
    }
}

impl From<io::Error> for TargetError {
    ghost use Rattle.file_target.specs.Errors.{target_error_of};
    ghost use Rattle.std.specs.Prelude.{◌≡◌};

    ghost from_gives = { λ error gives. gives ≡ target_error_of error };

    fn from(error: io::Error) -> TargetError {
        match error.kind() {
            ErrorKind::NotFound => TargetError::NotFound,
            ErrorKind::OutOfMemory => TargetError::NoMemory,
            _ => TargetError::Io(error),
        }
    }
}
