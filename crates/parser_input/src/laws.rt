//! Laws of the definitions, each the contract of a function that makes no call.

ghost use Rattle.parser_input.specs.LineScans.{BlankLinesAreLongest, SpacesEndTexts};
ghost use Rattle.parser_input.specs.Laws.{LeavesAreTheText, LexedIsLeaves, LeavesAreSlices, PiecesAreSlices, LinesJoin, FirstFenceCloses, NoFenceIsUnclosed};

/// States that the leaves of a text without a shebang, a frontmatter and a guarded prefix that is
/// split are its tokens.
pub fn lexed_is_leaves()
    ensures { LexedIsLeaves }
{}

/// States that the concatenation of the leaves of a text, preface and trivia included, is the text.
pub fn leaves_are_the_text()
    ensures { LeavesAreTheText }
{}

/// States that the text of a leaf is the slice of the whole text at the leaf's span, and that so is
/// each piece of a `ScriptSource`, its content included. Spans are on character boundaries.
pub fn spans_are_slices()
    ensures leaves { LeavesAreSlices }
    ensures pieces { PiecesAreSlices }
{}

/// States that the line that closes a frontmatter is the first one after the opening line that is a
/// fence with the same number of dashes; the lines between are the frontmatter, those after it the
/// content. If no line is such a fence, the frontmatter is unclosed.
pub fn first_fence_closes()
    ensures lines { LinesJoin }
    ensures first { FirstFenceCloses }
    ensures none { NoFenceIsUnclosed }
{}

/// States the results of the two scans for whitespace at the ends of a text: `blank_len` is the
/// length of the longest front that consists of blank lines, and `solid_len` is the length of the
/// text without the whitespace at its end.
pub fn line_scans()
    ensures blank { BlankLinesAreLongest }
    ensures solid { SpacesEndTexts }
{}
