//! Laws of lines and scripts. Each is the contract of a function that makes no call.

ghost use Rattle.text_diff.specs.Laws.{LinesJoin, ScriptsPatch};

/// The lines of a text are the text.
pub fn lines_join()
    ensures { LinesJoin }
{}

/// The hunks of a script make the new lines of the old ones.
pub fn scripts_patch()
    ensures { ScriptsPatch }
{}
