//! What is written on standard output, where a reader may have gone.

use anyhow::Result;
use source_tools::Stop;
use std::io::{self, ErrorKind};

/// Returns `true` if the reader of an output has gone, as `head` does.
pub fn is_closed(error: &io::Error) -> bool {
    error.kind() == ErrorKind::BrokenPipe
}

/// Returns the result, or `None` if the reader of the output has gone.
///
/// # Errors
///
/// `made`'s, but for that of a reader that has gone.
pub fn unless_closed<T: Drop>(made: Result<T, Stop>) -> Result<Option<T>> {
    match made {
        Ok(value) => Ok(Some(value)),
        Err(Stop::Output(error)) if is_closed(&error) => Ok(None),
        Err(stop) => Err(anyhow::Error::from(stop)),
    }
}
