//! Laws of well-spaced trees. Each is the contract of a function that makes no call.

ghost use Rattle.spaced_core.specs.Examples.{ExamplesAreClassified};
ghost use Rattle.spaced_core.specs.Spelled.{PunctuationIsSpelled, SingleTokensAreSpelled};
ghost use Rattle.spaced_core.specs.Laws.{SpacedLeavesAreRead, WellSpacedLeavesAreSilent, WellSpacedTextsAreCore, WellSpacedTextsHaveTheirLeaves, WellSpacedTreesAreDressed};

/// The leaves of a text whose parts are spaced leaves are those leaves and whitespace.
pub fn spaced_leaves_are_read()
    ensures { SpacedLeavesAreRead }
{}

/// The text of a well-spaced tree has no preface, its leaves are the tree's, and none has a message.
pub fn well_spaced_texts_have_their_leaves()
    ensures leaves { WellSpacedTextsHaveTheirLeaves }
    ensures silent { WellSpacedLeavesAreSilent }
{}

/// The parser's input of the text of a well-spaced tree is a core file with that tree.
pub fn well_spaced_texts_are_core()
    ensures { WellSpacedTextsAreCore }
{}

/// A well-spaced tree dressed with the leaves of its text is the tree, whitespace aside.
pub fn well_spaced_trees_are_dressed()
    ensures { WellSpacedTreesAreDressed }
{}

/// Punctuation of several characters is spelled by these in each edition, and so is a text that is
/// one token and one leaf of its kind, without a message.
pub fn tokens_are_spelled()
    ensures punctuation { PunctuationIsSpelled }
    ensures single { SingleTokensAreSpelled }
{}

/// Two trees that are well-spaced, and three that are not: `|>` before edition next, a contextual
/// keyword as a name, two leaves without whitespace between them.
pub fn examples_are_classified()
    ensures { ExamplesAreClassified }
{}
