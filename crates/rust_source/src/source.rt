//! A text with all that its calls need.
ghost use Rattle.std.specs.Prelude.{◌≡◌, ◌≤◌, ◌+◌, ℕ, true, chars, length, map, option_map, string_bytes, Decides, IfOk, IfErr, MatchOption, OnOk};
ghost use Rattle.lexed_text.specs.Kept.{IsKept};
ghost use Rattle.parser_input.specs.Kind.{raw_of};
ghost use Rattle.rowan_green.specs.Forest.{tree_text};
ghost use Rattle.renamer.specs.Plain.{IsPlain, LacksRoom};
ghost use Rattle.renamer.specs.Renamed.{renamed_text};
ghost use Rattle.renamer.specs.Verdict.{IsRenamed, RefusesRename, number_after};
ghost use Rattle.syntax_editor.specs.Editing.{untouched};
ghost use Rattle.syntax_tree.specs.Handle.{element_of};
ghost use Rattle.ra_parser.specs.declared.grammar.Grammar.TheVariants.{Whole};
ghost use Rattle.rust_document.specs.Commit.{RefusesCommit};
ghost use Rattle.rust_document.specs.CommitWithoutMessages.{HaveNoMessages, RefusesRoom, RefusesWithoutMessages};
ghost use Rattle.rust_document.specs.Committed.{annotated_ends, ends_of};
ghost use Rattle.rust_document.specs.Core.{IsReadAsCore};
ghost use Rattle.rust_document.specs.Costs.{most_steps};
ghost use Rattle.rust_document.specs.Difference.{difference, told_of, RefusesDifference};
ghost use Rattle.rust_document.specs.Edit.{RefusesEdit, can_edit, edited};
ghost use Rattle.rust_document.specs.KeptTokens.{content_edit, counts_of, KeepsNoToken, KeepsOutput, KeepsTokens};
ghost use Rattle.rust_document.specs.Open.{IsOpened, RefusesOpen};
ghost use Rattle.rust_document.specs.Payload.{IsDetached, RefusesPayload, payload_in};
ghost use Rattle.rust_document.specs.Reading.{messages_in};
ghost use Rattle.rust_document.specs.Renames.{IsPlainRenaming, IsReadExactly};
ghost use Rattle.rust_document.specs.Rewrite.{annotated, rewritten, changed};
ghost use Rattle.rust_document.specs.Seen.{message_of_error};
ghost use Rattle.rust_document.specs.Step.{MAX_TEXT, first_element, present, root_element, verdict, Accepted, Unfaithful};
ghost use Rattle.rust_document.specs.Tokens.{span_of, tokens_of};
ghost use Rattle.rust_document.specs.WellSpaced.{IsWellSpacedRewrite};
ghost use Rattle.rust_document.specs.WithoutMessages.{HasNoMessages, HasPairedBrackets, HasPlacedOperators};
ghost use Rattle.rust_source.specs.Nodes.{IsSpentOnce};

use parser_input::{Edition, SyntaxKind};
use ra_parser::Grammar;
use renamer::{RenameError, rename};
use rowan_green::TextRange;
use rust_document::{
    CommitError, Committed, Difference, Document, EditError, Edited, OpenError, PayloadEntry,
    PayloadError, SyntaxEditor, SyntaxError, Tokens, WithoutMessagesError,
};
use std::alloc::{AllocError, Global};
use std::marker::Model;
use syntax_tree::{SyntaxElement, SyntaxNode, TreeIds};

/// A text with its reading, its tree numbers and its allocator. A contract sees the allocator, the
/// document and the tree number that is next.
pub struct Source {
    pub(crate) alloc: Global,
    pub(crate) ids: TreeIds,
    pub(crate) document: Document,
}

// Not derived: a derived drop is opened field by field in each function that drops one.
impl Drop for Source {
    fn drop(self) {
        let Source {
            alloc: _,
            ids: _ids,
            document: _document,
        } = self;
    }
}

impl Model for Source {
    ghost use Rattle.rust_source.specs.Held.{Held};

    ghost Value = { Held };

    ghost view = { λ s. record { alloc = s.alloc; document = s.document; next = s.ids } };
}

impl Source {
    /// Reads `text` by the grammar of the whole language, as [`Source::open_by`] does.
    pub fn open(alloc: Global, edition: Edition, text: &str) -> Result<Source, OpenError>
        ensures opened { IfOk result (λ s. s ≡
            record {
              alloc = alloc;
              document = record { edition = edition; grammar = Whole; text = text.now; number = 1 };
              next = 2;
            }) }
        ensures is_read { OnOk result (IsOpened text.now) }
        ensures brackets { IfOk result (λ s. HasPairedBrackets s.document) }
        ensures operators { IfOk result (λ s. HasPlacedOperators s.document) }
        ensures core { IfOk result (λ s. IsReadAsCore s.document) }
        ensures refused { IfErr result (RefusesOpen text.now 1) }
    {
        Source::open_by(alloc, edition, Grammar::Whole, text)
    }

    /// Reads `text` as `grammar` says. Its tree has the number 1. The source keeps the grammar: later
    /// texts are read by it too.
    ///
    /// # Errors
    ///
    /// - [`OpenError::TooLong`] if `text` has more than 16,777,216 bytes.
    /// - [`OpenError::NoMemory`] if an allocation fails.
    pub fn open_by(
        alloc: Global,
        edition: Edition,
        grammar: Grammar,
        text: &str,
    ) -> Result<Source, OpenError>
        ensures opened { IfOk result (λ s. s ≡
            record {
              alloc = alloc;
              document = record { edition = edition; grammar = grammar; text = text.now; number = 1 };
              next = 2;
            }) }
        ensures is_read { OnOk result (IsOpened text.now) }
        ensures brackets { IfOk result (λ s. HasPairedBrackets s.document) }
        ensures operators { IfOk result (λ s. HasPlacedOperators s.document) }
        ensures core { IfOk result (λ s. IsReadAsCore s.document) }
        ensures refused { IfErr result (RefusesOpen text.now 1) }
    {
        let mut ids = TreeIds::new();
        let document = Document::open_by(alloc, edition, grammar, text, &mut ids)?;
        Ok(Source {
            alloc,
            ids,
            document,
        })
    }

    /// Returns the allocator, for calls of elements and editors.
    pub fn alloc(&self) -> Global
        ensures { result ≡ self.now.alloc }
    {
        self.alloc
    }

    /// The edition that the text is read in.
    pub fn edition(&self) -> Edition
        ensures { result ≡ self.now.document.edition }
    {
        self.document.edition()
    }

    /// Returns the grammar that the text is read by.
    pub fn grammar(&self) -> Grammar
        ensures { result ≡ self.now.document.grammar }
    {
        self.document.grammar()
    }

    /// The text, of at most 16,777,216 bytes.
    pub fn text(&self) -> &str
        ensures text { result.now ≡ self.now.document.text }
        ensures fits { length self.now.document.text ≤ MAX_TEXT }
    {
        self.document.text()
    }

    /// The root of the present tree.
    pub fn root(&self) -> &SyntaxNode
        ensures { result.now ≡ root_element self.now.document }
    {
        self.document.root()
    }

    /// The tokens of the text in order, whitespace too.
    pub fn tokens(&self) -> Tokens<'_>
        ensures { map span_of result
            ≡ tokens_of self.now.document.edition (chars self.now.document.text) }
    {
        self.document.tokens()
    }

    /// The messages: the parser's in the order of its steps, then the lexer's in the order of the
    /// tokens.
    pub fn errors(&self) -> &[SyntaxError]
        ensures { map message_of_error result.now
            ≡ messages_in self.now.document.grammar self.now.document.edition
            (chars self.now.document.text) }
    {
        self.document.errors()
    }

    /// Returns `true` if both ends of `range` lie within the text, at boundaries of characters.
    pub fn can_edit(&self, range: TextRange) -> bool
        ensures { result ≡ can_edit self.now.document.text range.start.0 range.end.0 }
    {
        self.document.can_edit(range)
    }

    /// Replaces a range of the text. Its tree gets the next number. [`Document::edit`] says more.
    ///
    /// # Errors
    ///
    /// - [`EditError::TooLong`] if the new text has more than 16,777,216 bytes.
    /// - [`EditError::NoTreeNumber`] if no tree number is left.
    /// - [`EditError::NoMemory`] if an allocation fails.
    ///
    /// On error, the source is unchanged.
    pub fn edit(&mut self, range: TextRange, text: &str) -> Result<Edited, EditError>
        requires { can_edit self.old.document.text range.start.0 range.end.0 ≡ true }
        ensures accepted { OnOk result (IsOpened
            (edited self.old.document.text range.start.0 range.end.0 text.now)) }
        ensures state { OnOk result (self.new ≡
            record {
              alloc = self.old.alloc;
              document = record {
                edition = self.old.document.edition;
                grammar = self.old.document.grammar;
                text = edited self.old.document.text range.start.0 range.end.0 text.now;
                number = self.old.next;
              };
              next = self.old.next + 1;
            }) }
        ensures brackets { OnOk result (HasPairedBrackets self.new.document) }
        ensures operators { OnOk result (HasPlacedOperators self.new.document) }
        ensures core { OnOk result (IsReadAsCore self.new.document) }
        ensures counts { IfOk result (λ e.
            KeepsTokens self.old.document.edition self.old.document.text self.new.document.text range.start.0
            → IsKept (content_edit self.old.document.text range.start.0 range.end.0 text.now)
            (counts_of e)) }
        ensures no_counts { IfOk result (λ e.
            (KeepsTokens self.old.document.edition self.old.document.text self.new.document.text range.start.0 → ⊥)
            → KeepsNoToken self.old.document.edition self.new.document.text e) }
        ensures output { IfOk result
            (λ e. KeepsOutput self.old.document self.new.document e.steps) }
        ensures steps { IfOk result
            (λ e. e.steps ≤ most_steps self.old.document.grammar self.old.document.edition
            (chars (edited self.old.document.text range.start.0 range.end.0 text.now))) }
        ensures refused { IfErr result (RefusesEdit
            (edited self.old.document.text range.start.0 range.end.0 text.now) self.old.next) }
        ensures kept { IfErr result (λ _. self.new ≡ self.old) }
    {
        self.document.edit(self.alloc, range, text, &mut self.ids)
    }

    /// Returns the first element in preorder that is of a kind and has a range: of several that have
    /// the range, the outermost.
    pub fn find(
        &self,
        kind: SyntaxKind,
        range: TextRange,
    ) -> Result<Option<SyntaxElement>, AllocError>
        ensures { IfOk result (λ found. option_map element_of found
            ≡ first_element self.now.document (raw_of kind) range.start.0 range.end.0) }
    {
        self.document.find(self.alloc, kind, range)
    }

    /// Reads a text by the source's edition and grammar, to put it into a tree: returns the root of
    /// the tree of an entry, or a token in a new tree. The tree gets the next number.
    ///
    /// # Errors
    ///
    /// - [`PayloadError::TooLong`] if `text` has more than 16,777,216 bytes.
    /// - [`PayloadError::Message`] if there is a message about it.
    /// - [`PayloadError::NotOneToken`] if a token is asked for, and it is none.
    /// - [`PayloadError::NoTreeNumber`] if no tree number is left.
    /// - [`PayloadError::NoMemory`] if an allocation fails.
    ///
    /// On error, the source is unchanged.
    pub fn payload(
        &mut self,
        entry: PayloadEntry,
        text: &str,
    ) -> Result<SyntaxElement, PayloadError>
        ensures given { IfOk result (λ e. IsDetached self.old.next
            (payload_in entry self.old.document.grammar self.old.document.edition text.now)
            (element_of e)) }
        ensures document { self.new.document ≡ self.old.document }
        ensures alloc { self.new.alloc ≡ self.old.alloc }
        ensures number { OnOk result (self.new.next ≡ self.old.next + 1) }
        ensures refused { IfErr result (RefusesPayload self.old.next
            (payload_in entry self.old.document.grammar self.old.document.edition text.now)) }
        ensures kept { IfErr result (λ _. self.new ≡ self.old) }
    {
        self.document
            .payload(self.alloc, entry, text, &mut self.ids)
    }

    /// Returns an editor of the present tree, with nothing recorded.
    pub fn editor(&self) -> Result<SyntaxEditor, AllocError>
        ensures { IfOk result (λ e. e ≡ untouched (root_element self.now.document)) }
    {
        self.document.editor(self.alloc)
    }

    /// Returns the first difference between the rewritten tree of `editor` and the reading of its
    /// text, whitespace and comments aside; `None` exactly if `commit` would find the new text to read
    /// as the rewritten tree.
    ///
    /// # Errors
    ///
    /// As of [`Document::difference`].
    pub fn difference(&self, editor: &SyntaxEditor) -> Result<Option<Difference>, CommitError>
        ensures told { IfOk result (λ r. option_map told_of r
            ≡ difference self.now.document.grammar self.now.document.edition
            (rewritten editor.now)) }
        ensures faithful { IfOk result (λ r. MatchOption r
            (verdict self.now.document editor.now ≡ Accepted)
            (λ _. verdict self.now.document editor.now ≡ Unfaithful)) }
        ensures refused { IfErr result (RefusesDifference (verdict self.now.document editor.now)) }
    {
        self.document.difference(self.alloc, editor)
    }

    /// Returns the text that [`Source::commit`] of `editor` would make, if it would accept it. It
    /// changes nothing.
    ///
    /// # Errors
    ///
    /// As of [`Document::try_commit`].
    pub fn try_commit(&self, editor: &SyntaxEditor) -> Result<String, CommitError>
        ensures accepted { OnOk result (verdict self.now.document editor.now ≡ Accepted) }
        ensures text { IfOk result (λ text. string_bytes text ≡ tree_text (rewritten editor.now)) }
        ensures refused { IfErr result (λ error. (number : ℕ)
            → RefusesCommit (verdict self.now.document editor.now) number error) }
    {
        self.document.try_commit(self.alloc, editor)
    }

    /// Returns `true` if the changes of `editor` are a plain renaming, which [`Source::commit`] accepts
    /// whatever messages the text has. [`Document::is_plain_rename`] says more.
    ///
    /// # Errors
    ///
    /// [`AllocError`] if an allocation fails.
    pub fn is_plain_rename(&self, editor: &SyntaxEditor) -> Result<bool, AllocError>
        ensures { IfOk result (λ answer. Decides answer
            (IsPlainRenaming self.now.document editor.now)) }
    {
        self.document.is_plain_rename(self.alloc, editor)
    }

    /// Applies all changes of `editor` if the new text reads as the rewritten tree, whatever messages
    /// the texts have. [`Document::commit`] says more.
    ///
    /// # Errors
    ///
    /// As of [`Document::commit`]. On error, the source is unchanged.
    pub fn commit(&mut self, editor: SyntaxEditor) -> Result<Committed, CommitError>
        ensures accepted { OnOk result (verdict self.old.document editor ≡ Accepted) }
        ensures state { OnOk result (self.new ≡
            record {
              alloc = self.old.alloc;
              document = record {
                edition = self.old.document.edition;
                grammar = self.old.document.grammar;
                text = tree_text (rewritten editor);
                number = self.old.next;
              };
              next = self.old.next + 1;
            }) }
        ensures brackets { OnOk result (HasPairedBrackets self.new.document) }
        ensures operators { OnOk result (HasPlacedOperators self.new.document) }
        ensures core { OnOk result (IsReadAsCore self.new.document) }
        ensures changed { IfOk result (λ c. map ends_of c.changed.items ≡ changed editor) }
        ensures annotated { IfOk result
            (λ c. map annotated_ends c.annotated.items ≡ annotated editor) }
        ensures output { IfOk result
            (λ c. KeepsOutput self.old.document self.new.document c.steps) }
        ensures steps { IfOk result
            (λ c. c.steps ≤ most_steps self.old.document.grammar self.old.document.edition
            (chars (tree_text (rewritten editor)))) }
        ensures refused { IfErr result
            (RefusesCommit (verdict self.old.document editor) self.old.next) }
        ensures renames { IfErr result (λ error. IsPlainRenaming self.old.document editor
            → length (tree_text (rewritten editor)) ≤ MAX_TEXT
            → RefusesCommit Accepted self.old.next error) }
        ensures renamed { OnOk result (IsPlainRenaming self.old.document editor
            → IsReadExactly self.old.document editor) }
        ensures spaced { IfErr result (λ error. IsWellSpacedRewrite self.old.document editor
            → RefusesCommit Accepted self.old.next error) }
        ensures kept { IfErr result (λ _. self.new ≡ self.old) }
    {
        self.document.commit(self.alloc, editor, &mut self.ids)
    }

    /// Applies all changes of `editor` as [`Source::commit`] does, if neither the present nor the new
    /// text has messages. [`Document::commit_without_messages`] says more.
    ///
    /// # Errors
    ///
    /// As of [`Document::commit_without_messages`]. On error, the source is unchanged.
    pub fn commit_without_messages(
        &mut self,
        editor: SyntaxEditor,
    ) -> Result<Committed, WithoutMessagesError>
        ensures accepted { OnOk result (verdict self.old.document editor ≡ Accepted) }
        ensures no_messages { OnOk result (HaveNoMessages self.old.document editor) }
        ensures state { OnOk result (self.new ≡
            record {
              alloc = self.old.alloc;
              document = record {
                edition = self.old.document.edition;
                grammar = self.old.document.grammar;
                text = tree_text (rewritten editor);
                number = self.old.next;
              };
              next = self.old.next + 1;
            }) }
        ensures brackets { OnOk result (HasPairedBrackets self.new.document) }
        ensures operators { OnOk result (HasPlacedOperators self.new.document) }
        ensures core { OnOk result (IsReadAsCore self.new.document) }
        ensures changed { IfOk result (λ c. map ends_of c.changed.items ≡ changed editor) }
        ensures annotated { IfOk result
            (λ c. map annotated_ends c.annotated.items ≡ annotated editor) }
        ensures output { IfOk result
            (λ c. KeepsOutput self.old.document self.new.document c.steps) }
        ensures steps { IfOk result
            (λ c. c.steps ≤ most_steps self.old.document.grammar self.old.document.edition
            (chars (tree_text (rewritten editor)))) }
        ensures refused { IfErr result
            (RefusesWithoutMessages self.old.document editor self.old.next) }
        ensures renamed { OnOk result (IsPlainRenaming self.old.document editor
            → IsReadExactly self.old.document editor) }
        ensures spaced { IfErr result (λ error. IsWellSpacedRewrite self.old.document editor
            → HasNoMessages self.old.document → RefusesRoom self.old.next error) }
        ensures kept { IfErr result (λ _. self.new ≡ self.old) }
    {
        self.document
            .commit_without_messages(self.alloc, editor, &mut self.ids)
    }

    /// Renames the identifiers `old` to `new`, all at once, in macro calls too. Nothing else in the
    /// text changes, and the new text reads as the renamed tree. If both names are plain and no
    /// identifier `old` is the prefix of a literal, only memory, tree numbers and the length of the new
    /// text can refuse it.
    ///
    /// # Errors
    ///
    /// - [`RenameError::NoToken`] if `new` is not one token, or no tree number is left for it.
    /// - [`RenameError::Refused`] if the new text is too long or does not read as the renamed tree, or no
    ///   tree number is left for it.
    /// - [`RenameError::NoMemory`], or a variant with such an error, if an allocation fails.
    ///
    /// On error, the document is unchanged, and one tree number is used up, or none if `new` is refused.
    pub fn rename(&mut self, old: &str, new: &str) -> Result<(), RenameError>
        ensures text { OnOk result (self.new.document.text
            ≡ renamed_text old.now new.now (present self.old.document)) }
        ensures renamed { OnOk result (IsRenamed self.old.document old.now new.now) }
        ensures edition { OnOk result (self.new.document.edition ≡ self.old.document.edition) }
        ensures grammar { OnOk result (self.new.document.grammar ≡ self.old.document.grammar) }
        ensures tree { OnOk result (self.new.document.number ≡ self.old.next + 1) }
        ensures number { OnOk result (self.new.next ≡ self.old.next + 2) }
        ensures refused { IfErr result
            (RefusesRename self.old.document old.now new.now self.old.next) }
        ensures spent { IfErr result (λ error. self.new.next ≡ number_after error self.old.next) }
        ensures plain { IfErr result (λ error. IsPlain self.old.document old.now new.now
            → length (renamed_text old.now new.now (present self.old.document)) ≤ MAX_TEXT
            → LacksRoom self.old.next new.now error) }
        ensures document { IfErr result (λ _. self.new.document ≡ self.old.document) }
        ensures alloc { self.new.alloc ≡ self.old.alloc }
        ensures numbers { IfErr result (λ _. IsSpentOnce self.old.next self.new.next) }
    {
        rename(self.alloc, &mut self.document, old, new, &mut self.ids)
    }
}
