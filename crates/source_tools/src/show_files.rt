//! Files are shown one after another.

ghost use Rattle.std.specs.Prelude.{◌≡◌, ◌≢◌, [], ◌∷◌, ◌++◌, IfOk, IfSome, OnOk, map};
ghost use Rattle.std.specs.Io.KnownBytes.{Appends};
ghost use Rattle.source_tools.specs.declared.source.FileError.TheVariants.{NoMemory};
ghost use Rattle.source_tools.specs.Outcomes.{IsSummary, outcome_in, rows_of_all};

use crate::source::{FileError, FileFault, Source};
use crate::summary::Summary;
use crate::view::{FileView, View, view_file};
use file_target::Target;
use std::alloc::{AllocError, AllocFailed, Global};
use std::io::{self, Write};
use thiserror::Error;

/// Why a command stopped before its end.
#[derive(Debug, Drop, Error)]
pub enum Stop {
    /// Out of memory.
    #[error("out of memory")]
    NoMemory,
    /// The output could not be written.
    #[error("the output could not be written: {0}")]
    Output(io::Error),
}

impl From<AllocError> for Stop {
    ghost use Rattle.source_tools.specs.declared.show_files.Stop.TheVariants.{NoMemory as no_memory};
    ghost use Rattle.std.specs.Prelude.{◌≡◌};

    ghost from_gives = { λ _ stop. stop ≡ no_memory };

    fn from(_error: AllocError) -> Stop {
        Stop::NoMemory
    }
}

impl<T: Drop> From<AllocFailed<T>> for Stop {
    ghost use Rattle.source_tools.specs.declared.show_files.Stop.TheVariants.{NoMemory as no_memory};
    ghost use Rattle.std.specs.Prelude.{◌≡◌};

    ghost from_gives = { λ _ stop. stop ≡ no_memory };

    fn from(_error: AllocFailed<T>) -> Stop {
        Stop::NoMemory
    }
}

impl From<io::Error> for Stop {
    ghost use Rattle.source_tools.specs.declared.show_files.Stop.TheVariants.{Output};
    ghost use Rattle.std.specs.Prelude.{◌≡◌};

    ghost from_gives = { λ error stop. stop ≡ Output error };

    fn from(error: io::Error) -> Stop {
        Stop::Output(error)
    }
}

/// Appends a file that is left out. Out of memory is an error of the command.
fn push_fault(index: usize, error: FileError, faults: &mut Vec<FileFault>) -> Result<(), Stop>
    ensures pushed { OnOk result (faults.new.items
        ≡ faults.old.items ++ record { index = index; error = error } ∷ []) }
    ensures memory { OnOk result (error ≢ NoMemory) }
{
    match error {
        FileError::NoMemory => Err(Stop::NoMemory),
        error => {
            faults.push(FileFault { index, error })?;
            Ok(())
        }
    }
}

/// Writes what is shown of the files, one after another. A file that cannot be read is left out.
///
/// # Errors
///
/// - [`Stop::NoMemory`] if an allocation fails.
/// - [`Stop::Output`] if `writer` returns an error.
pub fn show<T: Target, W: Write>(
    alloc: Global,
    view: View,
    target: &T,
    sources: &[Source],
    writer: &mut W,
) -> Result<Summary, Stop>
    ensures written { OnOk result (IfSome (T.files target.now)
        (λ files. Appends (W.contents writer.old) (W.contents writer.new)
        (rows_of_all view files sources.now))) }
    ensures summary { IfOk result (λ summary. IfSome (T.files target.now)
        (λ files. IsSummary (map (outcome_in view files) sources.now) summary)) }
{
    let mut has_messages = false;
    let mut faults = Vec::new(alloc);
    for (index, source) in sources.iter().enumerate() {
        match view_file(alloc, view, target, source) {
            Ok(
                FileView {
                    rows,
                    has_messages: has,
                },
            ) => {
                writer.write_all(rows.as_slice())?;
                has_messages |= has;
            }
            Err(error) => push_fault(index, error, &mut faults)?,
        }
    }
    writer.flush()?;
    Ok(Summary {
        has_messages,
        faults,
    })
}
