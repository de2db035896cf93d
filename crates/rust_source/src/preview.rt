//! What a commit would change.
ghost use Rattle.std.specs.Prelude.{◌≡◌, ℕ, string_bytes, IfOk, IfErr, OnOk};
ghost use Rattle.rowan_green.specs.Forest.{tree_text};
ghost use Rattle.rust_document.specs.Commit.{RefusesCommit};
ghost use Rattle.rust_document.specs.Rewrite.{rewritten};
ghost use Rattle.rust_document.specs.Step.{verdict, Accepted};
ghost use Rattle.rust_source.specs.ChangedRanges.{AreChanges, AreRewritten};
ghost use Rattle.syntax_editor.specs.Rewriting.{rewriting};

use crate::changed_ranges::{ChangedRange, changed_ranges};
use crate::source::Source;
use rust_document::{CommitError, RewrittenText, SyntaxEditor};

/// What [`Source::commit`] of an editor would change.
#[derive(Debug, Drop)]
pub struct Preview {
    /// The new text.
    pub text: String,
    /// The changed ranges of both texts, in source order. Outside of them the texts are the same.
    pub changed: Vec<ChangedRange>,
}

impl Source {
    /// Returns what [`Source::commit`] of `editor` would change, if it would accept it: the new text,
    /// and the changed ranges of the present text beside those of the new one. It changes nothing.
    ///
    /// # Errors
    ///
    /// As of [`Source::try_commit`].
    pub fn preview(&self, editor: &SyntaxEditor) -> Result<Preview, CommitError>
        ensures accepted { OnOk result (verdict self.now.document editor.now ≡ Accepted) }
        ensures text { IfOk result (λ p. string_bytes p.text ≡ tree_text (rewritten editor.now)) }
        ensures changed { IfOk result (λ p.
            AreChanges self.now.document.text (string_bytes p.text) p.changed.items) }
        ensures rewritten { IfOk result (λ p.
            AreRewritten self.now.document.text (string_bytes p.text) (rewriting editor.now)
            p.changed.items) }
        ensures refused { IfErr result (λ error. (number : ℕ)
            → RefusesCommit (verdict self.now.document editor.now) number error) }
    {
        let RewrittenText { text, tree } = self.document.try_rewrite(self.alloc, editor)?;
        let changed = changed_ranges(self.alloc, self.text(), text.as_str(), &tree)?;
        Ok(Preview { text, changed })
    }
}
