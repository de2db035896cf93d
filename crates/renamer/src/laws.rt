//! Laws of renamings. Each is the contract of a function that makes no call.

ghost use Rattle.renamer.specs.Undone.{RenamingsAreUndone};

/// Renaming the identifiers `old` to a name that is no identifier of the text, and then back, gives
/// the text, if both names are plain and no identifier `old` is the prefix of a literal.
pub fn renamings_are_undone()
    ensures { RenamingsAreUndone }
{}
