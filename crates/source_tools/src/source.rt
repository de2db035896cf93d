//! Files that are read, and why one is left out.

use file_target::TargetError;
use parser_input::Edition;
use rust_document::Grammar;
use std::alloc::{AllocError, AllocFailed};
use std::io;
use thiserror::Error;

/// The Rust that a file is read as.
#[derive(Clone, Copy, Debug, PartialEq, Eq, Drop)]
pub struct Dialect {
    pub edition: Edition,
    pub grammar: Grammar,
}

/// A file, and the Rust that it is read as.
#[derive(Debug, Drop)]
pub struct Source {
    pub path: String,
    pub dialect: Dialect,
}

/// Why a file is left out.
#[derive(Debug, Drop, Error)]
pub enum FileError {
    /// There is no file at the path.
    #[error("does not exist")]
    NotFound,
    /// The file changed while it was read.
    #[error("changed while it was read")]
    Changed,
    /// The bytes are no text.
    #[error("is not UTF-8")]
    NotUtf8,
    /// The text is too long.
    #[error("has more than 16,777,216 bytes")]
    TooLong,
    /// Out of memory.
    #[error("out of memory")]
    NoMemory,
    /// The system returned an error.
    #[error("{0}")]
    Io(io::Error),
}

impl From<AllocError> for FileError {
    ghost use Rattle.source_tools.specs.declared.source.FileError.TheVariants.{NoMemory};
    ghost use Rattle.std.specs.Prelude.{◌≡◌};

    ghost from_gives = { λ _ error. error ≡ NoMemory };

    fn from(_error: AllocError) -> FileError {
        FileError::NoMemory
    }
}

impl<T: Drop> From<AllocFailed<T>> for FileError {
    ghost use Rattle.source_tools.specs.declared.source.FileError.TheVariants.{NoMemory};
    ghost use Rattle.std.specs.Prelude.{◌≡◌};

    ghost from_gives = { λ _ error. error ≡ NoMemory };

    fn from(_error: AllocFailed<T>) -> FileError {
        FileError::NoMemory
    }
}

impl From<TargetError> for FileError {
    ghost use Rattle.source_tools.specs.FileErrors.{file_error_of};
    ghost use Rattle.std.specs.Prelude.{◌≡◌};

    ghost from_gives = { λ error gives. gives ≡ file_error_of error };

    fn from(error: TargetError) -> FileError {
        match error {
            TargetError::NotFound => FileError::NotFound,
            TargetError::Changed => FileError::Changed,
            TargetError::NoMemory => FileError::NoMemory,
            TargetError::Io(error) => FileError::Io(error),
        }
    }
}

/// A file that is left out.
#[derive(Debug, Drop)]
pub struct FileFault {
    /// The index of the file in the list.
    pub index: usize,
    pub error: FileError,
}
