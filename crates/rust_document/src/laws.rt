//! Laws of the definitions. Each is the contract of a function that calls other laws, or none.

ghost use Rattle.rust_document.specs.EditLaws.{EditsAreUndone};
ghost use Rattle.rust_document.specs.Histories.{EditsAreOpenings, HistoriesEndInReadings, HistoriesGoOn};
ghost use Rattle.rust_document.specs.Laws.{TreesHaveTheirTexts, LeavesAreSlices, TextsDecide, PointersFollowTexts, SwapsAreOne, UntouchedIsKept, KindsFollowInputs, OperatorsBindByPower, TokenTreesAreClosed};
ghost use Rattle.rust_document.specs.Core.{CoreTextsAreRead};
ghost use Rattle.rust_document.specs.OperatorExamples.{PlacedOperatorsAreTold};
ghost use Rattle.rust_document.specs.Renames.{PlainRenamingsAreAccepted};
ghost use Rattle.rust_document.specs.WellSpaced.{WellSpacedRewritesAreAccepted, WellSpacedTextsHaveNoMessages};

use tree_rewrite::laws;

/// The leaves of a text's tree, joined, are the text.
pub fn trees_have_their_texts()
    ensures { TreesHaveTheirTexts }
{}

/// The text of a leaf is the slice of the document's text at the leaf's range.
pub fn leaves_are_slices()
    ensures { LeavesAreSlices }
{}

/// Documents of equal edition, grammar and text agree in tokens, messages and tree, whatever
/// commands made them.
pub fn texts_decide()
    ensures { TextsDecide }
{}

/// In documents of equal edition, grammar and text a pointer leads to the same node. So it does
/// after a refused command, which leaves all three.
pub fn pointers_follow_texts()
    ensures { PointersFollowTexts }
{}

/// An editor of the present tree with nothing recorded is accepted, and the text stays: so tokens,
/// messages and tree do.
pub fn untouched_is_kept()
    ensures { UntouchedIsKept }
{}

/// Two texts with equal input, of whose floats those at equal places both hold a dot or both do
/// not, have trees of equal kinds and nesting, apart from whitespace and comments.
pub fn kinds_follow_inputs()
    ensures { KindsFollowInputs }
{}

/// In a document without messages each token tree begins with an opening bracket and ends with its
/// partner.
pub fn token_trees_are_closed()
    ensures { TokenTreesAreClosed }
{}

/// In a document without messages a right operand that is a binary expression binds more tightly
/// than the operator before it, unless that is an assignment; a left one binds no less tightly than
/// the operator after it, and is no assignment. This holds for some example trees, and fails for
/// others.
pub fn operators_bind_by_power()
    ensures documents { OperatorsBindByPower }
    ensures told { PlacedOperatorsAreTold }
{}

/// After an edit, the one that puts the old bytes back can be made, and gives the old text: so
/// tokens, messages and tree are the old ones.
pub fn edits_are_undone()
    ensures { EditsAreUndone }
{}

/// Two neighbouring changes that do not both put into one gap may be recorded in either order:
/// neither the verdict of a commit nor the text that it accepts depends on it.
pub fn swaps_are_one()
    ensures { SwapsAreOne }
{
    laws::swaps_agree();
}

/// A text whose parser's input by the profile is a core file reads as the tree of its derivation by
/// either grammar, and only the lexer has messages.
pub fn core_texts_are_read()
    ensures { CoreTextsAreRead }
{}

/// A plain renaming whose text is within the limit is accepted, whatever messages the text has, and
/// the new text reads as exactly the rewritten tree.
pub fn plain_renamings_are_accepted()
    ensures { PlainRenamingsAreAccepted }
{}

/// Incremental equals from scratch: an edited document, whatever tokens and output it kept, has the
/// tokens, the messages and the tree of one that is opened on its text.
pub fn edits_are_openings()
    ensures { EditsAreOpenings }
{}

/// After any list of edits and commits, some of them refused, the text is the opened text with the
/// accepted changes applied, and the document has the tokens, the messages and the tree of one that
/// is opened on that text.
pub fn histories_end_in_readings()
    ensures { HistoriesEndInReadings }
{}

/// One list of edits and commits after another is a list of edits and commits: so a caller needs
/// only the contract of each call.
pub fn histories_go_on()
    ensures { HistoriesGoOn }
{}

/// A rewrite of the present tree whose changes have places, whose text is within the limits and whose
/// new tree is well-spaced is accepted.
pub fn well_spaced_rewrites_are_accepted()
    ensures { WellSpacedRewritesAreAccepted }
{}

/// The text of a well-spaced tree has no message, by either grammar.
pub fn well_spaced_texts_have_no_messages()
    ensures { WellSpacedTextsHaveNoMessages }
{}
