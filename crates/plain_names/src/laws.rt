//! Laws of renamed texts. Each is the contract of a function that makes no call.

ghost use Rattle.plain_names.specs.ClosedTokens.{SpaceEndsTokens};
ghost use Rattle.plain_names.specs.Forests.{MappedForestsAreOne};
ghost use Rattle.plain_names.specs.LeafNames.{InputsIgnoreNames, RenamedTextsHaveTheirLeaves};
ghost use Rattle.plain_names.specs.Renames.{PlainRenamesKeepInputs, PlainRenamesKeepLeaves, PlainRenamesRenameTexts, PlainRenamesRenameTrees, RenamedTextsAreScalars};
ghost use Rattle.plain_names.specs.TokenNames.{AttributesIgnoreNames, LexemesIgnoreNames, RenamedTextsHaveTheirTokens, RenamingKeepsTokens};
ghost use Rattle.plain_names.specs.Trees.{ElementsAreSteps, TreesFollowNames, TreesIgnoreNames};

/// A token does not depend on the name after it.
pub fn lexemes_ignore_names()
    ensures { LexemesIgnoreNames }
{}

/// Where one identifier is renamed, all other tokens stay.
pub fn renaming_keeps_tokens()
    ensures { RenamingKeepsTokens }
{}

/// Where any identifiers are renamed at once, the tokens are the old ones with the new names.
pub fn renamed_texts_have_their_tokens()
    ensures { RenamedTextsHaveTheirTokens }
{}

/// Whitespace after a text whose tokens are closed starts a new token.
pub fn space_ends_tokens()
    ensures { SpaceEndsTokens }
{}

/// Whether a text opens an attribute does not depend on its names.
pub fn attributes_ignore_names()
    ensures { AttributesIgnoreNames }
{}

/// Where any identifiers of a text's content are renamed at once, the leaves are the old ones with
/// the new names.
pub fn renamed_texts_have_their_leaves()
    ensures { RenamedTextsHaveTheirLeaves }
{}

/// The parser's input does not depend on names.
pub fn inputs_ignore_names()
    ensures { InputsIgnoreNames }
{}

/// The shape of a dressed tree does not depend on its names.
pub fn trees_ignore_names()
    ensures { TreesIgnoreNames }
{}

/// Two forests with one text are equal if they are equal once their texts are mapped.
pub fn mapped_forests_are_one()
    ensures { MappedForestsAreOne }
{}

/// A dressed tree has no more elements than steps.
pub fn elements_are_steps()
    ensures { ElementsAreSteps }
{}

/// A renamed leaf is renamed in the tree.
pub fn trees_follow_names()
    ensures { TreesFollowNames }
{}

/// Plain renames, any number of them at once: the leaves of the new text are the renamed leaves,
/// the parser's input stays, and the tree is the old one with the new names, with the new text.
pub fn plain_renames_are_read()
    ensures leaves { PlainRenamesKeepLeaves }
    ensures input { PlainRenamesKeepInputs }
    ensures tree { PlainRenamesRenameTrees }
    ensures text { PlainRenamesRenameTexts }
    ensures scalars { RenamedTextsAreScalars }
{}
