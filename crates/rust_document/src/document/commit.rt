//! Commits: the changes of an editor are made in a document's text, or refused.
ghost use Rattle.std.specs.Prelude.{◌≡◌, ◌≤◌, ◌+◌, ℕ, not, nat_lt, chars, length, map, option_map, string_bytes, IfOk, IfErr, MatchOption, OnOk};
ghost use Rattle.rowan_green.specs.Forest.{tree_text};
ghost use Rattle.syntax_tree.specs.Refusal.{RefusesTree};
ghost use Rattle.tree_rewrite.specs.Fits.{IsNode};
ghost use Rattle.tree_rewrite.specs.Pieces.{Say};
ghost use Rattle.syntax_editor.specs.Rewriting.{rewriting};
ghost use Rattle.rust_document.specs.Commit.{RefusesCommit};
ghost use Rattle.rust_document.specs.CommitWithoutMessages.{HaveNoMessages, RefusesRoom, RefusesWithoutMessages};
ghost use Rattle.rust_document.specs.Committed.{annotated_ends, ends_of};
ghost use Rattle.rust_document.specs.Core.{IsReadAsCore};
ghost use Rattle.rust_document.specs.Costs.{most_steps};
ghost use Rattle.rust_document.specs.Difference.{difference, told_of, RefusesDifference};
ghost use Rattle.rust_document.specs.KeptTokens.{KeepsOutput};
ghost use Rattle.rust_document.specs.NextReading.{tokens_in, IsNextReading};
ghost use Rattle.rust_document.specs.Renames.{IsPlainRenaming, IsReadExactly};
ghost use Rattle.rust_document.specs.Rewrite.{annotated, rewritten, changed};
ghost use Rattle.rust_document.specs.Rewritten.{IsRewritten};
ghost use Rattle.rust_document.specs.Step.{MAX_TEXT, is_foreign, verdict, Accepted, Unfaithful};
ghost use Rattle.rust_document.specs.WellSpaced.{IsWellSpacedRewrite};
ghost use Rattle.rust_document.specs.WithoutMessages.{HasNoMessages, HasPairedBrackets, HasPlacedOperators};

use super::{Committed, Document, RewrittenText};
use crate::difference::Difference;
use crate::error::{CommitError, WithoutMessagesError};
use crate::rewrite::{Rewritten, rewrite, rewritten_difference};
use crate::syntax_error::SyntaxError;
use std::alloc::Global;
use syntax_editor::SyntaxEditor;
use syntax_tree::{TreeError, TreeIds};

/// Returns `true` if there is a message.
fn has_messages(errors: &[SyntaxError]) -> bool
    ensures { result ≡ nat_lt 0 (length errors.now) }
{
    errors.len() > 0
}

impl Document {
    /// Returns `true` if `editor` is one of the present tree.
    pub(super) fn is_of(&self, editor: &SyntaxEditor) -> bool
        ensures { result ≡ not (is_foreign self.now editor.now) }
    {
        editor.root().tree() == self.root.tree()
            && *editor.root().cursor().green() == *self.root.cursor().green()
    }

    /// Applies all changes of `editor` if the new text reads as the rewritten tree. The text is then
    /// the rewritten tree's, and its tree gets the next number of `ids`. The editor is consumed.
    ///
    /// A plain renaming is always accepted, whatever messages the text has, and the new tree is
    /// exactly the rewritten one: identifiers are replaced with identifiers, old and new names are
    /// plain ([`is_plain_name`](crate::is_plain_name)), and no replaced one is the prefix of a literal,
    /// as `foo` in `foo"x"`. Only length, memory and tree numbers can refuse it.
    /// [`Document::is_plain_rename`] tells beforehand.
    ///
    /// The parser's output is kept if the parser's input is the same.
    ///
    /// A well-spaced rewrite is always accepted too: the new tree is one of the core language, its
    /// leaves are spelled as their kinds, and whitespace is between any two of them. Only places,
    /// length, memory and tree numbers can refuse it.
    ///
    /// The new text is read by the edition and the grammar of the old one.
    ///
    /// # Errors
    ///
    /// - [`CommitError::Foreign`] if `editor` is one of another tree.
    /// - [`CommitError::Intersecting`] if two changes replace one element.
    /// - [`CommitError::MissingMapping`] if a change in a replaced node has no place in what replaces
    ///   the node.
    /// - [`CommitError::TooLong`] if the new text has more than [`MAX_TEXT`] bytes, or a node 2^32
    ///   children.
    /// - [`CommitError::Unfaithful`] if the new text does not read as the rewritten tree, whitespace
    ///   and comments aside.
    /// - [`CommitError::NoTreeNumber`] if no tree number is left.
    /// - [`CommitError::NoMemory`] if an allocation fails.
    ///
    /// On error, the document and `ids` are unchanged.
    pub fn commit(
        &mut self,
        alloc: Global,
        editor: SyntaxEditor,
        ids: &mut TreeIds,
    ) -> Result<Committed, CommitError>
        ensures accepted { OnOk result (verdict self.old editor ≡ Accepted) }
        ensures state { OnOk result (self.new ≡
            record {
              edition = self.old.edition;
              grammar = self.old.grammar;
              text = tree_text (rewritten editor);
              number = ids.old;
            }) }
        ensures brackets { OnOk result (HasPairedBrackets self.new) }
        ensures operators { OnOk result (HasPlacedOperators self.new) }
        ensures core { OnOk result (IsReadAsCore self.new) }
        ensures changed { IfOk result (λ c. map ends_of c.changed.items ≡ changed editor) }
        ensures annotated { IfOk result
            (λ c. map annotated_ends c.annotated.items ≡ annotated editor) }
        ensures output { IfOk result (λ c. KeepsOutput self.old self.new c.steps) }
        ensures steps { IfOk result (λ c. c.steps ≤ most_steps self.old.grammar self.old.edition
            (chars (tree_text (rewritten editor)))) }
        ensures number { OnOk result (ids.new ≡ ids.old + 1) }
        ensures refused { IfErr result (RefusesCommit (verdict self.old editor) ids.old) }
        ensures renames { IfErr result (λ error. IsPlainRenaming self.old editor
            → length (tree_text (rewritten editor)) ≤ MAX_TEXT
            → RefusesCommit Accepted ids.old error) }
        ensures renamed { OnOk result (IsPlainRenaming self.old editor
            → IsReadExactly self.old editor) }
        ensures spaced { IfErr result (λ error. IsWellSpacedRewrite self.old editor
            → RefusesCommit Accepted ids.old error) }
        ensures kept { IfErr result (λ _. (self.new ≡ self.old) × (ids.new ≡ ids.old)) }
    {
        let rewritten = self.rewritten(alloc, &editor)?;
        Ok(self.accept(alloc, rewritten, ids)?)
    }

    /// Applies all changes of `editor` as [`Document::commit`] does, if neither the present nor the
    /// new text has messages. A tree that messages are about is a recovery: that a text reads as it
    /// says little of the program that was meant.
    ///
    /// A well-spaced rewrite of a text without messages is always accepted: only tree numbers and
    /// memory can refuse it.
    ///
    /// # Errors
    ///
    /// - [`WithoutMessagesError::Refused`] if `commit` would refuse, but for the next two.
    /// - [`WithoutMessagesError::Messages`] if the present or the new text has messages.
    /// - [`WithoutMessagesError::Refused`] of [`CommitError::NoTreeNumber`] if no tree number is left.
    /// - [`WithoutMessagesError::Refused`] of [`CommitError::NoMemory`] if an allocation fails.
    ///
    /// On error, the document and `ids` are unchanged.
    pub fn commit_without_messages(
        &mut self,
        alloc: Global,
        editor: SyntaxEditor,
        ids: &mut TreeIds,
    ) -> Result<Committed, WithoutMessagesError>
        ensures accepted { OnOk result (verdict self.old editor ≡ Accepted) }
        ensures no_messages { OnOk result (HaveNoMessages self.old editor) }
        ensures state { OnOk result (self.new ≡
            record {
              edition = self.old.edition;
              grammar = self.old.grammar;
              text = tree_text (rewritten editor);
              number = ids.old;
            }) }
        ensures brackets { OnOk result (HasPairedBrackets self.new) }
        ensures operators { OnOk result (HasPlacedOperators self.new) }
        ensures core { OnOk result (IsReadAsCore self.new) }
        ensures changed { IfOk result (λ c. map ends_of c.changed.items ≡ changed editor) }
        ensures annotated { IfOk result
            (λ c. map annotated_ends c.annotated.items ≡ annotated editor) }
        ensures output { IfOk result (λ c. KeepsOutput self.old self.new c.steps) }
        ensures steps { IfOk result (λ c. c.steps ≤ most_steps self.old.grammar self.old.edition
            (chars (tree_text (rewritten editor)))) }
        ensures number { OnOk result (ids.new ≡ ids.old + 1) }
        ensures refused { IfErr result (RefusesWithoutMessages self.old editor ids.old) }
        ensures renamed { OnOk result (IsPlainRenaming self.old editor
            → IsReadExactly self.old editor) }
        ensures spaced { IfErr result (λ error. IsWellSpacedRewrite self.old editor
            → HasNoMessages self.old → RefusesRoom ids.old error) }
        ensures kept { IfErr result (λ _. (self.new ≡ self.old) × (ids.new ≡ ids.old)) }
    {
        let clean = self.rewritten(alloc, &editor)?;
        if has_messages(self.errors()) || has_messages(clean.reading.reading.errors.as_slice()) {
            return Err(WithoutMessagesError::Messages);
        }
        Ok(self.accept(alloc, clean, ids)?)
    }

    /// Returns the text that [`Document::commit`] of `editor` would make, if it would accept it. It
    /// changes nothing.
    ///
    /// # Errors
    ///
    /// As of [`Document::commit`], but never [`CommitError::NoTreeNumber`].
    pub fn try_commit(&self, alloc: Global, editor: &SyntaxEditor) -> Result<String, CommitError>
        ensures accepted { OnOk result (verdict self.now editor.now ≡ Accepted) }
        ensures text { IfOk result (λ text. string_bytes text ≡ tree_text (rewritten editor.now)) }
        ensures refused { IfErr result (λ error. (number : ℕ)
            → RefusesCommit (verdict self.now editor.now) number error) }
    {
        let rewritten = self.rewritten(alloc, editor)?;
        Ok(rewritten.text)
    }

    /// Returns the text that [`Document::commit`] would make, as [`Document::try_commit`] does, with
    /// the rewritten tree.
    ///
    /// # Errors
    ///
    /// As of [`Document::try_commit`].
    pub fn try_rewrite(
        &self,
        alloc: Global,
        editor: &SyntaxEditor,
    ) -> Result<RewrittenText, CommitError>
        ensures accepted { OnOk result (verdict self.now editor.now ≡ Accepted) }
        ensures text { IfOk result (λ r. string_bytes r.text ≡ tree_text (rewritten editor.now)) }
        ensures green { IfOk result (λ r. IsNode (rewriting editor.now) r.tree.green) }
        ensures changed { IfOk result (λ r. map ends_of r.tree.changed.items ≡ changed editor.now) }
        ensures says { IfOk result (λ r. Say r.tree.pieces.items (rewriting editor.now)) }
        ensures refused { IfErr result (λ error. (number : ℕ)
            → RefusesCommit (verdict self.now editor.now) number error) }
    {
        let Rewritten {
            text,
            green,
            changed,
            pieces,
            ..
        } = self.rewritten(alloc, editor)?;
        let tree = tree_rewrite::plan::Rewritten {
            green,
            changed,
            pieces,
        };
        Ok(RewrittenText { text, tree })
    }

    /// Returns the first difference between the rewritten tree of `editor` and the reading of its
    /// text, whitespace and comments aside; `None` exactly if `commit` would find the new text to
    /// read as the rewritten tree. Nodes are compared by kind, then their children; tokens by kind and
    /// text.
    ///
    /// # Errors
    ///
    /// As of [`Document::commit`], but never [`CommitError::Unfaithful`] or
    /// [`CommitError::NoTreeNumber`].
    pub fn difference(
        &self,
        alloc: Global,
        editor: &SyntaxEditor,
    ) -> Result<Option<Difference>, CommitError>
        ensures told { IfOk result (λ r. option_map told_of r
            ≡ difference self.now.grammar self.now.edition (rewritten editor.now)) }
        ensures faithful { IfOk result (λ r. MatchOption r (verdict self.now editor.now ≡ Accepted)
            (λ _. verdict self.now editor.now ≡ Unfaithful)) }
        ensures refused { IfErr result (RefusesDifference (verdict self.now editor.now)) }
    {
        if self.is_of(editor) {
            return rewritten_difference(alloc, self.grammar, self.edition, editor);
        }
        Err(CommitError::Foreign)
    }

    /// Returns the rewritten text of `editor` with its reading.
    ///
    /// # Errors
    ///
    /// As of `commit`, but never `NoTreeNumber`.
    fn rewritten(&self, alloc: Global, editor: &SyntaxEditor) -> Result<Rewritten, CommitError>
        ensures accepted { OnOk result (verdict self.now editor.now ≡ Accepted) }
        ensures rewritten { IfOk result
            (λ r. IsRewritten self.now.grammar self.now.edition editor.now
            (tokens_in self.now.grammar self.now.edition (chars self.now.text))
            (string_bytes r.text) r.reading r.changed.items) }
        ensures green { IfOk result (λ r. IsNode (rewriting editor.now) r.green) }
        ensures says { IfOk result (λ r. Say r.pieces.items (rewriting editor.now)) }
        ensures annotated { IfOk result (λ r. map annotated_ends r.annotated.items
            ≡ annotated editor.now) }
        ensures refused { IfErr result (λ error. (number : ℕ)
            → RefusesCommit (verdict self.now editor.now) number error) }
        ensures renames { IfErr result (λ error. IsPlainRenaming self.now editor.now
            → length (tree_text (rewritten editor.now)) ≤ MAX_TEXT
            → (number : ℕ) → RefusesCommit Accepted number error) }
        ensures renamed { OnOk result (IsPlainRenaming self.now editor.now
            → IsReadExactly self.now editor.now) }
    {
        if !self.is_of(editor) {
            return Err(CommitError::Foreign);
        }
        rewrite(alloc, self.grammar, self.edition, editor, &self.parse)
    }

    /// Replaces the present text with a rewritten one, and gives its tree the next number of `ids`.
    ///
    /// # Errors
    ///
    /// [`TreeError::Spent`] if no tree number is left, [`TreeError::NoMemory`] if an allocation
    /// fails. On error, the document and `ids` are unchanged.
    fn accept(
        &mut self,
        alloc: Global,
        rewritten: Rewritten,
        ids: &mut TreeIds,
    ) -> Result<Committed, TreeError>
        requires fits { length (string_bytes rewritten.text) ≤ MAX_TEXT }
        requires is_next { IsNextReading self.old.grammar self.old.edition
            (chars (string_bytes rewritten.text))
            (tokens_in self.old.grammar self.old.edition (chars self.old.text)) rewritten.reading }
        ensures state { OnOk result (self.new ≡
            record {
              edition = self.old.edition;
              grammar = self.old.grammar;
              text = string_bytes rewritten.text;
              number = ids.old;
            }) }
        ensures brackets { OnOk result (HasPairedBrackets self.new) }
        ensures operators { OnOk result (HasPlacedOperators self.new) }
        ensures core { OnOk result (IsReadAsCore self.new) }
        ensures changed { IfOk result (λ c. c.changed.items ≡ rewritten.changed.items) }
        ensures annotated { IfOk result (λ c. c.annotated.items ≡ rewritten.annotated.items) }
        ensures steps { IfOk result (λ c. c.steps ≡ rewritten.reading.steps) }
        ensures number { OnOk result (ids.new ≡ ids.old + 1) }
        ensures refused { IfErr result (RefusesTree ids.old) }
        ensures kept { IfErr result (λ _. (self.new ≡ self.old) × (ids.new ≡ ids.old)) }
    {
        let Rewritten {
            text,
            reading,
            changed,
            annotated,
            ..
        } = rewritten;
        let steps = reading.steps;
        self.renew(alloc, text, reading, ids)?;
        Ok(Committed {
            changed,
            annotated,
            steps,
        })
    }
}
