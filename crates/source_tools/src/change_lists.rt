//! Changes as ranges of bytes, in JSON.

ghost use Rattle.std.specs.Prelude.{◌≡◌, ℕ, List, ◌++◌, IfOk, OnOk, map};
ghost use Rattle.std.specs.List.{flat_map};
ghost use Rattle.std.specs.Io.KnownBytes.{Appends};
ghost use Rattle.source_tools.specs.ChangeLists.{AreChangeLists, IsChangeList};
ghost use Rattle.source_tools.specs.Json.{change_item};
ghost use Rattle.source_tools.specs.Writes.{change_in};

use crate::json::{push_change_item, push_object};
use crate::show_files::Stop;
use crate::writes::FileChange;
use std::alloc::{AllocError, Global};
use std::io::Write;
use text_diff::{ByteChange, byte_changes};

/// Appends the items of changes.
fn push_items(alloc: Global, changes: &[ByteChange], items: &mut Vec<u8>) -> Result<(), AllocError>
    ensures { OnOk result (items.new.items ≡ items.old.items ++ flat_map change_item changes.now) }
{
    for change in changes {
        push_change_item(alloc, change, items)?;
    }
    Ok(())
}

/// Returns the object of the change of a file.
fn change_list(alloc: Global, change: &FileChange) -> Result<Vec<u8>, AllocError>
    ensures { IfOk result (λ rows. IsChangeList (change_in change.now) rows.items) }
{
    let changes = byte_changes(alloc, change.old.as_slice(), change.new.as_slice())?;
    let mut items = Vec::new(alloc);
    push_items(alloc, changes.as_slice(), &mut items)?;
    let mut rows = Vec::new(alloc);
    push_object(
        alloc,
        change.path.as_str(),
        "changes",
        items.as_slice(),
        &mut rows,
    )?;
    Ok(rows)
}

/// Writes for each change an object in JSON on a line of its own: the path, and the ranges of the lines
/// that differ, in bytes of the old and of the new file.
///
/// # Errors
///
/// - [`Stop::NoMemory`] if an allocation fails.
/// - [`Stop::Output`] if `writer` returns an error.
pub fn write_change_lists<W: Write>(
    alloc: Global,
    changes: &[FileChange],
    writer: &mut W,
) -> Result<(), Stop>
    ensures { OnOk result ((text : List ℕ) × AreChangeLists (map change_in changes.now) text
        × Appends (W.contents writer.old) (W.contents writer.new) text) }
{
    for change in changes {
        let list = change_list(alloc, change)?;
        writer.write_all(list.as_slice())?;
    }
    writer.flush()?;
    Ok(())
}
