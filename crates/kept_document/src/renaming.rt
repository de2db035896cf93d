//! Renamings in a kept document.
ghost use Rattle.std.specs.Prelude.{◌≡◌, chars, false, true, IfErr, OnErr, OnOk};
ghost use Rattle.std.specs.Str.{IsUtf8};
ghost use Rattle.rust_document.specs.Step.{present};
ghost use Rattle.renamer.specs.Renamed.{renamed_text};
ghost use Rattle.renamer.specs.Verdict.{IsRenamed};
ghost use Rattle.kept_document.specs.Depth.{is_deep_renaming};
ghost use Rattle.kept_document.specs.Renamings.{RefusesRenaming, is_identifier};

use crate::kept::{Kept, text_of};
use crate::reason::Reason;
use crate::tree_text::renamed_text;
use parser_input::{Edition, LexedStr, SyntaxKind};
use renamer::rename;
use std::alloc::Global;
use text_levels::is_too_deep;

/// Returns `true` if a text is one identifier.
fn is_identifier(edition: Edition, text: &str) -> bool
    ensures { result ≡ is_identifier edition (chars text.now) }
{
    match LexedStr::single_token(edition, text) {
        Some((kind, _)) => kind.to_raw() == SyntaxKind::IDENT as u16,
        None => false,
    }
}

impl Kept {
    /// Renames each identifier `old` to `new`.
    ///
    /// # Errors
    ///
    /// - [`Reason::NotUtf8`] if a name is not UTF-8.
    /// - [`Reason::NoCommand`] if `new` is not one identifier.
    /// - [`Reason::TooDeep`] if the new text has more than [`LEVELS`](text_levels::LEVELS) levels.
    /// - [`Reason::NoMemory`] if an allocation fails.
    /// - The reason of the [`RenameError`](renamer::RenameError).
    ///
    /// On error, the text is unchanged, and a tree number may be used up.
    pub(crate) fn rename(&mut self, alloc: Global, old: &[u8], new: &[u8]) -> Result<(), Reason>
        ensures text { OnOk result (self.new.document.text
            ≡ renamed_text old.now new.now (present self.old.document)) }
        ensures renamed { OnOk result (IsRenamed self.old.document old.now new.now) }
        ensures edition { OnOk result (self.new.document.edition ≡ self.old.document.edition) }
        ensures grammar { OnOk result (self.new.document.grammar ≡ self.old.document.grammar) }
        ensures flat { OnOk result (is_deep_renaming self.old.document old.now new.now ≡ false) }
        ensures is_text { OnOk result (IsUtf8 old.now) }
        ensures name { OnOk result (is_identifier self.old.document.edition (chars new.now) ≡ true) }
        ensures refused { IfErr result (RefusesRenaming self.old.document self.old.ids old.now new.now) }
        ensures document { OnErr result (self.new.document ≡ self.old.document) }
        ensures ranges { self.new.changed ≡ self.old.changed }
    {
        let old = text_of(old)?;
        let new = text_of(new)?;
        let edition = self.document.edition();
        if !is_identifier(edition, new) {
            return Err(Reason::NoCommand);
        }
        let tree = self.document.root().cursor().green();
        let text = renamed_text(alloc, tree, old, new)?;
        if is_too_deep(alloc, edition, text.as_str())? {
            return Err(Reason::TooDeep);
        }
        rename(alloc, &mut self.document, old, new, &mut self.ids)?;
        Ok(())
    }
}
