//! Changes as unified diffs.

ghost use Rattle.std.specs.Prelude.{ℕ, List, OnOk, map};
ghost use Rattle.std.specs.Io.KnownBytes.{Appends};
ghost use Rattle.source_tools.specs.Diffs.{AreDiffs};
ghost use Rattle.source_tools.specs.Writes.{change_in};

use crate::show_files::Stop;
use crate::writes::FileChange;
use std::alloc::Global;
use std::io::Write;
use text_diff::unified_diff;

/// Writes the diffs of the changes, one after another.
///
/// # Errors
///
/// - [`Stop::NoMemory`] if an allocation fails.
/// - [`Stop::Output`] if `writer` returns an error.
pub fn write_diffs<W: Write>(
    alloc: Global,
    changes: &[FileChange],
    writer: &mut W,
) -> Result<(), Stop>
    ensures { OnOk result ((text : List ℕ) × AreDiffs (map change_in changes.now) text
        × Appends (W.contents writer.old) (W.contents writer.new) text) }
{
    for change in changes {
        let diff = unified_diff(
            alloc,
            change.path.as_str(),
            change.old.as_slice(),
            change.new.as_slice(),
        )?;
        writer.write_all(diff.as_slice())?;
    }
    writer.flush()?;
    Ok(())
}
