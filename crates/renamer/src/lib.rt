//! Renames the identifiers, lifetimes and labels of a document. The contract rests on the document's.
#![tactic(auto)]

ghost use Rattle.std.specs.Prelude.{◌≡◌, ◌≤◌, ◌+◌, length, IfErr, OnOk};
ghost use Rattle.rust_document.specs.Step.{MAX_TEXT, present};
ghost use Rattle.renamer.specs.Plain.{IsPlain, LacksRoom};
ghost use Rattle.renamer.specs.Renamed.{renamed_text};
ghost use Rattle.renamer.specs.Taken.{but_macro_names, naming, taken_text, taken_tree};
ghost use Rattle.renamer.specs.Verdict.{IsAccepted, IsRenamed, IsRenamedBut, RefusesRename, RefusesRenameBut, RefusesTree, number_after};

mod element;
pub mod laws;

use crate::element::{Names, takes};
use rust_document::{CommitError, Document, PayloadEntry, PayloadError, RecordError, payload};
use std::alloc::{AllocError, Global};
use std::error::Error;
use std::fmt;
use syntax_tree::TreeIds;

/// The error of a renaming.
#[derive(Clone, Copy, Debug, PartialEq, Eq)]
pub enum RenameError {
    /// The new name is no token.
    NoToken(PayloadError),
    /// A change is not recorded.
    NotRecorded(RecordError),
    /// The new text would not read as the renamed tree, or another error of a commit.
    Refused(CommitError),
    /// An allocation failed.
    NoMemory,
}

impl fmt::Display for RenameError {
    ghost use Rattle.std.specs.Prelude.{Some};
    ghost use Rattle.renamer.specs.Errors.{rename_message};

    ghost output = { λ e. Some (rename_message e) };

    fn fmt<W: fmt::Write>(&self, f: &mut fmt::Formatter<W>) -> fmt::Result {
        match self {
            RenameError::NoToken(error) => write!(f, "{error}"),
            RenameError::NotRecorded(error) => write!(f, "{error}"),
            RenameError::Refused(error) => write!(f, "{error}"),
            RenameError::NoMemory => write!(f, "out of memory"),
        }
    }
}

impl Error for RenameError {}

impl From<AllocError> for RenameError {
    ghost use Rattle.renamer.specs.declared.RenameError.TheVariants.{NoMemory};
    ghost use Rattle.std.specs.Prelude.{◌≡◌};

    ghost from_gives = { λ _ e. e ≡ NoMemory };

    fn from(_refused: AllocError) -> RenameError {
        RenameError::NoMemory
    }
}

impl From<PayloadError> for RenameError {
    ghost use Rattle.renamer.specs.declared.RenameError.TheVariants.{NoToken};
    ghost use Rattle.std.specs.Prelude.{◌≡◌};

    ghost from_gives = { λ f e. e ≡ NoToken f };

    fn from(error: PayloadError) -> RenameError {
        RenameError::NoToken(error)
    }
}

impl From<RecordError> for RenameError {
    ghost use Rattle.renamer.specs.declared.RenameError.TheVariants.{NotRecorded};
    ghost use Rattle.std.specs.Prelude.{◌≡◌};

    ghost from_gives = { λ f e. e ≡ NotRecorded f };

    fn from(error: RecordError) -> RenameError {
        RenameError::NotRecorded(error)
    }
}

impl From<CommitError> for RenameError {
    ghost use Rattle.renamer.specs.declared.RenameError.TheVariants.{Refused};
    ghost use Rattle.std.specs.Prelude.{◌≡◌};

    ghost from_gives = { λ f e. e ≡ Refused f };

    fn from(error: CommitError) -> RenameError {
        RenameError::Refused(error)
    }
}

/// Renames `old` to `new`, all at once: identifiers, or what [`Names`] says where macro names are left.
fn rename_by(
    alloc: Global,
    document: &mut Document,
    old: &str,
    new: &str,
    leaves_macro_names: bool,
    ids: &mut TreeIds,
) -> Result<(), RenameError>
    ensures text { OnOk result (document.new.text
        ≡ taken_text (naming old.now new.now leaves_macro_names) (present document.old)) }
    ensures renamed { OnOk result (IsAccepted document.old new.now
        (λ token. taken_tree (naming old.now new.now leaves_macro_names) token
        (present document.old))) }
    ensures edition { OnOk result (document.new.edition ≡ document.old.edition) }
    ensures grammar { OnOk result (document.new.grammar ≡ document.old.grammar) }
    ensures tree { OnOk result (document.new.number ≡ ids.old + 1) }
    ensures number { OnOk result (ids.new ≡ ids.old + 2) }
    ensures refused { IfErr result (RefusesTree document.old new.now
        (λ token. taken_tree (naming old.now new.now leaves_macro_names) token
        (present document.old)) ids.old) }
    ensures numbers { IfErr result (λ _. (ids.old ≤ ids.new) × (ids.new ≤ ids.old + 1)) }
    ensures spent { IfErr result (λ error. ids.new ≡ number_after error ids.old) }
    ensures plain { IfErr result (λ error. IsPlain document.old old.now new.now
        → length (taken_text (naming old.now new.now leaves_macro_names) (present document.old))
        ≤ MAX_TEXT → LacksRoom ids.old new.now error) }
    ensures kept { IfErr result (λ _. document.new ≡ document.old) }
{
    let _ = document.text();
    let token = payload(alloc, PayloadEntry::Token, document.edition(), new, ids)?;
    let names = Names {
        old,
        new,
        leaves_macro_names,
    };
    let mut editor = document.editor(alloc)?;
    for element in document.root().descendants_with_tokens(alloc)? {
        let element = element?;
        if takes(alloc, &element, &names)? {
            editor.replace(alloc, &element, &token)?;
        }
    }
    document.commit(alloc, editor, ids)?;
    Ok(())
}

/// Renames the identifiers `old` to `new`, all at once, in macro calls too. Nothing else in the text
/// changes, and the new text reads as the renamed tree.
///
/// If both names are plain and no identifier `old` is the prefix of a literal, only memory, tree
/// numbers and the length of the new text can refuse it.
///
/// # Errors
///
/// - [`RenameError::NoToken`] if `new` is not one token, or no tree number is left for it.
/// - [`RenameError::Refused`] if the new text is too long or does not read as the renamed tree, or no
///   tree number is left for it.
/// - [`RenameError::NoMemory`], or a variant with such an error, if an allocation fails.
///
/// On error, `document` is unchanged, and one tree number is used up, or none if `new` is refused.
pub fn rename(
    alloc: Global,
    document: &mut Document,
    old: &str,
    new: &str,
    ids: &mut TreeIds,
) -> Result<(), RenameError>
    ensures text { OnOk result (document.new.text
        ≡ renamed_text old.now new.now (present document.old)) }
    ensures renamed { OnOk result (IsRenamed document.old old.now new.now) }
    ensures edition { OnOk result (document.new.edition ≡ document.old.edition) }
    ensures grammar { OnOk result (document.new.grammar ≡ document.old.grammar) }
    ensures tree { OnOk result (document.new.number ≡ ids.old + 1) }
    ensures number { OnOk result (ids.new ≡ ids.old + 2) }
    ensures refused { IfErr result (RefusesRename document.old old.now new.now ids.old) }
    ensures numbers { IfErr result (λ _. (ids.old ≤ ids.new) × (ids.new ≤ ids.old + 1)) }
    ensures spent { IfErr result (λ error. ids.new ≡ number_after error ids.old) }
    ensures plain { IfErr result (λ error. IsPlain document.old old.now new.now
        → length (renamed_text old.now new.now (present document.old)) ≤ MAX_TEXT
        → LacksRoom ids.old new.now error) }
    ensures kept { IfErr result (λ _. document.new ≡ document.old) }
{
    rename_by(alloc, document, old, new, false, ids)
}

/// Renames as [`rename`] does, but lifetimes and labels if `old` begins with a quote, and no macro
/// names: metavariables, as `x` in `$x`, and what is a fragment specifier, as `expr` in `$x:expr`, or
/// would become one.
///
/// # Errors
///
/// As of [`rename`].
pub fn rename_but_macro_names(
    alloc: Global,
    document: &mut Document,
    old: &str,
    new: &str,
    ids: &mut TreeIds,
) -> Result<(), RenameError>
    ensures text { OnOk result (document.new.text
        ≡ taken_text (but_macro_names old.now new.now) (present document.old)) }
    ensures renamed { OnOk result (IsRenamedBut document.old old.now new.now) }
    ensures edition { OnOk result (document.new.edition ≡ document.old.edition) }
    ensures grammar { OnOk result (document.new.grammar ≡ document.old.grammar) }
    ensures tree { OnOk result (document.new.number ≡ ids.old + 1) }
    ensures number { OnOk result (ids.new ≡ ids.old + 2) }
    ensures refused { IfErr result (RefusesRenameBut document.old old.now new.now ids.old) }
    ensures numbers { IfErr result (λ _. (ids.old ≤ ids.new) × (ids.new ≤ ids.old + 1)) }
    ensures spent { IfErr result (λ error. ids.new ≡ number_after error ids.old) }
    ensures plain { IfErr result (λ error. IsPlain document.old old.now new.now
        → length (taken_text (but_macro_names old.now new.now) (present document.old)) ≤ MAX_TEXT
        → LacksRoom ids.old new.now error) }
    ensures kept { IfErr result (λ _. document.new ≡ document.old) }
{
    rename_by(alloc, document, old, new, true, ids)
}
