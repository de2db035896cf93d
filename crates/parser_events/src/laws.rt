//! Laws of the definitions. Each is the contract of a function that makes no call.

ghost use Rattle.parser_events.specs.Laws.{TextIsKept, StepsAreBalanced, WalksAreBalanced, MarksKeepSteps, MarksStandBeside, DressedIsPut};

/// The leaves of a dressed tree, joined, are the text that it was dressed with, whatever the forest
/// is.
pub fn text_is_kept()
    ensures { TextIsKept }
{}

/// The steps of a forest leave every node that they enter, and no other. A split leaves one.
pub fn steps_are_balanced()
    ensures { StepsAreBalanced }
{}

/// The steps of marked trees leave every node that they enter, and no other.
pub fn walks_are_balanced()
    ensures { WalksAreBalanced }
{}

/// A forest and what a parser's calls make of it have the same steps.
pub fn marks_keep_steps()
    ensures { MarksKeepSteps }
{}

/// Forests side by side are marked side by side.
pub fn marks_stand_beside()
    ensures { MarksStandBeside }
{}

/// What the steps of one node put of a text that they fit are the steps of the tree dressed with
/// the text.
pub fn dressed_is_put()
    ensures { DressedIsPut }
{}
