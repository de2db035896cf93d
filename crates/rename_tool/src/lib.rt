//! Renames identifiers, unless the new name is an identifier of the text already.
#![tactic(auto)]

ghost use Rattle.std.specs.Prelude.{◌≡◌, ◌≤◌, false, length, IfErr, IfOk};
ghost use Rattle.rename_tool.specs.Answers.{Answers};
ghost use Rattle.rust_source.specs.Identifiers.{IsPlain, LacksRoom, MAX_TEXT, RefusesRename, has_identifier, present, renamed_text};

use rust_source::{RenameError, Source};

/// The outcome of a renaming.
#[derive(Clone, Copy, Debug, PartialEq, Eq)]
pub enum Renaming {
    Done,
    /// The new name is an identifier of the text already.
    NameIsTaken,
}

/// Renames the identifiers `old` to `new`, in macro calls too. Nothing else in the text changes. If
/// both names are plain and no identifier `old` is the prefix of a literal, only memory, tree numbers
/// and the length of the new text can refuse it.
///
/// # Errors
///
/// As of [`Source::rename`]. On error, the document is unchanged.
pub fn rename(source: &mut Source, old: &str, new: &str) -> Result<Renaming, RenameError>
    ensures answers { IfOk result
        (Answers old.now new.now source.old.document source.new.document) }
    ensures refused { IfErr result (λ error. (has_identifier new.now source.old.document ≡ false)
        × RefusesRename source.old.document old.now new.now source.old.next error) }
    ensures plain { IfErr result (λ error. IsPlain source.old.document old.now new.now
        → length (renamed_text old.now new.now (present source.old.document)) ≤ MAX_TEXT
        → LacksRoom source.old.next new.now error) }
    ensures kept { IfErr result (λ _. source.new.document ≡ source.old.document) }
{
    if source.has_identifier(new) {
        return Ok(Renaming::NameIsTaken);
    }
    source.rename(old, new)?;
    Ok(Renaming::Done)
}
