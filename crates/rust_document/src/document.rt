//! A text that is read.
mod commit;
mod payload;
mod renames;

ghost use Rattle.std.specs.Prelude.{◌≡◌, ◌≤◌, ◌+◌, [], true, chars, length, map, option_map, string_bytes, IfOk, IfErr, IfSome, MatchOption, OnOk};
ghost use Rattle.lexed_text.specs.Kept.{IsKept};
ghost use Rattle.parser_input.specs.Kind.{raw_of};
ghost use Rattle.parser_input.specs.Lexed.{content};
ghost use Rattle.syntax_editor.specs.Editing.{untouched};
ghost use Rattle.syntax_tree.specs.Handle.{element_of};
ghost use Rattle.syntax_tree.specs.Refusal.{RefusesTree};
ghost use Rattle.ra_parser.specs.declared.grammar.Grammar.TheVariants.{Profile};
ghost use Rattle.rust_document.specs.ContentEdit.{AreCounts};
ghost use Rattle.rust_document.specs.Core.{IsReadAsCore};
ghost use Rattle.rust_document.specs.Costs.{most_steps};
ghost use Rattle.rust_document.specs.Edit.{RefusesEdit, can_edit, edited};
ghost use Rattle.rust_document.specs.Open.{IsOpened, RefusesOpen};
ghost use Rattle.rust_document.specs.IsReading.{IsReading};
ghost use Rattle.rust_document.specs.Seen.{message_of_error};
ghost use Rattle.rust_document.specs.KeptTokens.{content_edit, counts_of, KeepsNoToken, KeepsOutput, KeepsTokens};
ghost use Rattle.rust_document.specs.NameEdits.{IsRenamedTree};
ghost use Rattle.rust_document.specs.NextReading.{tokens_in, IsNextReading};
ghost use Rattle.rust_document.specs.Reading.{messages_in};
ghost use Rattle.rust_document.specs.Step.{MAX_TEXT, first_element, root_element};
ghost use Rattle.rust_document.specs.Tokens.{span_of, tokens_of};
ghost use Rattle.rust_document.specs.WithoutMessages.{HasPairedBrackets, HasPlacedOperators};

use crate::content_edit::{EditedContent, TextEdit, edit_content};
use crate::edit::edited;
use crate::error::{EditError, OpenError};
use crate::name_edit::{ReadText, renamed_tree};
use crate::parse::Parse;
use crate::read::{FirstReading, NextReading, NextText, Reading, read_first, read_next};
use crate::syntax_error::SyntaxError;
use crate::tokens::{LexedToken, Tokens};
use lexed_text::{Kept, LexedText};
use parser_input::edition::Edition;
use parser_input::syntax_kind::SyntaxKind;
use ra_parser::Grammar;
use rowan_green::{GreenNode, TextRange};
use std::alloc::{AllocError, Global};
use std::marker::Model;
use syntax_editor::{SyntaxAnnotation, SyntaxEditor};
use syntax_tree::{SyntaxElement, SyntaxNode, TreeError, TreeIds};

/// The most bytes that a text may have.
pub const MAX_TEXT: usize = 16_777_216;

/// The text that a commit would make, and the rewritten tree.
#[derive(Drop)]
pub struct RewrittenText {
    pub text: String,
    pub tree: tree_rewrite::plan::Rewritten,
}

/// What an accepted commit tells.
#[derive(Debug, Drop)]
pub struct Committed {
    /// The inserted ranges of the new text, in source order.
    pub changed: Vec<TextRange>,
    /// The range in the new text of each annotated element of the rewritten tree, with its
    /// annotation: by order of annotation, then of the tree.
    pub annotated: Vec<(TextRange, SyntaxAnnotation)>,
    /// The lookaheads that the parser counted: 0 exactly if its output was kept. Contracts have only an
    /// upper bound on it: 4,096 for each token of the parser's input and for its end.
    pub steps: u64,
}

/// What an accepted edit tells.
#[derive(Clone, Copy, Debug, PartialEq, Eq)]
pub struct Edited {
    /// The number of tokens before the edit that were kept.
    pub front: usize,
    /// The number of tokens that were lexed; if none was kept, of leaves behind the preface.
    pub lexed: usize,
    /// The number of tokens after the edit that were kept.
    pub back: usize,
    /// The lookaheads that the parser counted: 0 exactly if its output was kept. Contracts have only an
    /// upper bound on it: 4,096 for each token of the parser's input and for its end.
    pub steps: u64,
}

/// A text with its edition and grammar, its tokens, its messages and its tree. A contract sees the
/// edition, the grammar, the text and the tree's number; tokens, messages and tree are the reading of
/// that text. The tokens of the content and the parser's output are kept for the next text.
pub struct Document {
    edition: Edition,
    grammar: Grammar,
    text: String,
    tokens: Vec<LexedToken>,
    root: SyntaxNode,
    errors: Vec<SyntaxError>,
    /// What follows the preface, with its tokens.
    kept: LexedText,
    parse: Parse,
}

impl Drop for Document {
    fn drop(self) {
        let Document {
            edition: _,
            grammar: _,
            text: _text,
            tokens: _tokens,
            root: _root,
            errors: _errors,
            kept: _kept,
            parse: _parse,
        } = self;
    }
}

impl Model for Document {
    ghost use Rattle.std.specs.Prelude.{◌≡◌, ◌≤◌, [], length, chars, string_bytes};
    ghost use Rattle.parser_input.specs.Lexed.{content};
    ghost use Rattle.rust_document.specs.Step.{State, MAX_TEXT};
    ghost use Rattle.rust_document.specs.IsReading.{IsReading};
    ghost use Rattle.rust_document.specs.NextReading.{IsParseOf};

    ghost Value = { State };

    ghost view = { λ d. record {
      edition = d.edition;
      grammar = d.grammar;
      text = string_bytes d.text;
      number = d.root.number;
    } };

    ghost invariant = { λ d. (length (string_bytes d.text) ≤ MAX_TEXT)
        × (d.root.place.up ≡ [])
        × IsReading d.grammar d.edition (chars (string_bytes d.text))
        d.tokens.items d.root.place.root d.errors.items
        × (chars d.kept ≡ content (chars (string_bytes d.text)))
        × IsParseOf d.grammar d.edition (chars (string_bytes d.text)) d.parse };
}

/// Returns what an edit tells: its counts, or that all `leaves` behind the preface were lexed.
fn answer_of(counts: Option<Kept>, leaves: usize, steps: u64) -> Edited
    ensures counts { MatchOption counts
        (result ≡ record { front = 0; lexed = leaves; back = 0; steps = steps })
        (λ kept. result ≡ record { front = kept.front; lexed = kept.lexed; back = kept.back; steps = steps }) }
{
    match counts {
        Some(kept) => Edited {
            front: kept.front,
            lexed: kept.lexed,
            back: kept.back,
            steps,
        },
        None => Edited {
            front: 0,
            lexed: leaves,
            back: 0,
            steps,
        },
    }
}

impl Document {
    /// Reads `text` by the profile, as [`Document::open_by`] does.
    pub fn open(
        alloc: Global,
        edition: Edition,
        text: &str,
        ids: &mut TreeIds,
    ) -> Result<Document, OpenError>
        ensures opened { IfOk result (λ d. d
            ≡ record { edition = edition; grammar = Profile; text = text.now; number = ids.old }) }
        ensures number { OnOk result (ids.new ≡ ids.old + 1) }
        ensures is_read { OnOk result (IsOpened text.now) }
        ensures brackets { IfOk result (λ d. HasPairedBrackets d) }
        ensures operators { IfOk result (λ d. HasPlacedOperators d) }
        ensures core { IfOk result (λ d. IsReadAsCore d) }
        ensures refused { IfErr result (RefusesOpen text.now ids.old) }
        ensures kept { IfErr result (λ _. ids.new ≡ ids.old) }
    {
        Document::open_by(alloc, edition, Grammar::Profile, text, ids)
    }

    /// Reads `text` as `grammar` says, and gives its tree the next number of `ids`. The document keeps
    /// the grammar: later texts are read by it too.
    ///
    /// # Errors
    ///
    /// - [`OpenError::TooLong`] if `text` has more than [`MAX_TEXT`] bytes.
    /// - [`OpenError::NoTreeNumber`] if no tree number is left.
    /// - [`OpenError::NoMemory`] if an allocation fails.
    ///
    /// On error, `ids` is unchanged.
    pub fn open_by(
        alloc: Global,
        edition: Edition,
        grammar: Grammar,
        text: &str,
        ids: &mut TreeIds,
    ) -> Result<Document, OpenError>
        ensures opened { IfOk result (λ d. d
            ≡ record { edition = edition; grammar = grammar; text = text.now; number = ids.old }) }
        ensures number { OnOk result (ids.new ≡ ids.old + 1) }
        ensures is_read { OnOk result (IsOpened text.now) }
        ensures brackets { IfOk result (λ d. HasPairedBrackets d) }
        ensures operators { IfOk result (λ d. HasPlacedOperators d) }
        ensures core { IfOk result (λ d. IsReadAsCore d) }
        ensures refused { IfErr result (RefusesOpen text.now ids.old) }
        ensures kept { IfErr result (λ _. ids.new ≡ ids.old) }
    {
        if text.len() > MAX_TEXT {
            return Err(OpenError::TooLong);
        }
        let FirstReading {
            reading,
            kept,
            parse,
        } = read_first(alloc, grammar, edition, text)?;
        let Reading {
            tokens,
            root,
            errors,
        } = reading;
        let text = String::from_str(alloc, text)?;
        let root = SyntaxNode::new_root(alloc, root, ids)?;
        Ok(Document {
            edition,
            grammar,
            text,
            tokens,
            root,
            errors,
            kept,
            parse,
        })
    }

    /// The edition that the text is read in.
    pub fn edition(&self) -> Edition
        ensures { result ≡ self.now.edition }
    {
        self.edition
    }

    /// Returns the grammar that the text is read by.
    pub fn grammar(&self) -> Grammar
        ensures { result ≡ self.now.grammar }
    {
        self.grammar
    }

    /// The text, of at most 16,777,216 bytes.
    pub fn text(&self) -> &str
        ensures text { result.now ≡ self.now.text }
        ensures fits { length self.now.text ≤ MAX_TEXT }
    {
        self.text.as_str()
    }

    /// The root of the present tree.
    pub fn root(&self) -> &SyntaxNode
        ensures { result.now ≡ root_element self.now }
    {
        &self.root
    }

    /// Returns the tokens of the text in order, including whitespace and comments.
    pub fn tokens(&self) -> Tokens<'_>
        ensures { map span_of result ≡ tokens_of self.now.edition (chars self.now.text) }
    {
        Tokens::of(&self.tokens)
    }

    /// The messages: the parser's in the order of its steps, then the lexer's in the order of the
    /// tokens.
    pub fn errors(&self) -> &[SyntaxError]
        ensures { map message_of_error result.now
            ≡ messages_in self.now.grammar self.now.edition (chars self.now.text) }
    {
        &self.errors
    }

    /// Whether both ends of a range lie within the text, at boundaries of characters.
    pub fn can_edit(&self, range: TextRange) -> bool
        ensures { result ≡ can_edit self.now.text range.start.0 range.end.0 }
    {
        let text = self.text();
        text.is_char_boundary(usize::from(range.start()))
            && text.is_char_boundary(usize::from(range.end()))
    }

    /// Replaces `range` with `text`, reads the new text, and gives its tree the next number of
    /// `ids`.
    ///
    /// The new text is read by the edition and the grammar of the old one.
    ///
    /// Tokens are kept, as [`LexedText::edit`] does, if the edit starts behind the preface and leaves
    /// it as it is, and if before edition 2024 no token of either text is a guarded prefix. The
    /// parser's output is kept if the parser's input is the same.
    ///
    /// # Errors
    ///
    /// - [`EditError::TooLong`] if the new text has more than [`MAX_TEXT`] bytes.
    /// - [`EditError::NoTreeNumber`] if no tree number is left.
    /// - [`EditError::NoMemory`] if an allocation fails.
    ///
    /// On error, the document and `ids` are unchanged.
    pub fn edit(
        &mut self,
        alloc: Global,
        range: TextRange,
        text: &str,
        ids: &mut TreeIds,
    ) -> Result<Edited, EditError>
        requires { can_edit self.old.text range.start.0 range.end.0 ≡ true }
        ensures accepted { OnOk result
            (IsOpened (edited self.old.text range.start.0 range.end.0 text.now)) }
        ensures state { OnOk result (self.new ≡
            record {
              edition = self.old.edition;
              grammar = self.old.grammar;
              text = edited self.old.text range.start.0 range.end.0 text.now;
              number = ids.old;
            }) }
        ensures number { OnOk result (ids.new ≡ ids.old + 1) }
        ensures brackets { OnOk result (HasPairedBrackets self.new) }
        ensures operators { OnOk result (HasPlacedOperators self.new) }
        ensures core { OnOk result (IsReadAsCore self.new) }
        ensures counts { IfOk result (λ e.
            KeepsTokens self.old.edition self.old.text self.new.text range.start.0
            → IsKept (content_edit self.old.text range.start.0 range.end.0 text.now)
            (counts_of e)) }
        ensures no_counts { IfOk result (λ e.
            (KeepsTokens self.old.edition self.old.text self.new.text range.start.0 → ⊥)
            → KeepsNoToken self.old.edition self.new.text e) }
        ensures output { IfOk result (λ e. KeepsOutput self.old self.new e.steps) }
        ensures steps { IfOk result (λ e. e.steps ≤ most_steps self.old.grammar self.old.edition
            (chars (edited self.old.text range.start.0 range.end.0 text.now))) }
        ensures refused { IfErr result (RefusesEdit
            (edited self.old.text range.start.0 range.end.0 text.now) ids.old) }
        ensures kept { IfErr result (λ _. (self.new ≡ self.old) × (ids.new ≡ ids.old)) }
    {
        let new = edited(alloc, self.text(), range, text)?;
        let content = self.edited_content(alloc, range, text, new.as_str())?;
        let EditedContent { kept, counts } = content;
        let root = self.renamed_tree(alloc, range, text, new.as_str())?;
        let unread = NextText {
            text: new.as_str(),
            kept,
            root,
        };
        let next = read_next(alloc, self.grammar, self.edition, unread, &self.parse)?;
        let leaves = next.leaves;
        let steps = next.steps;
        self.renew(alloc, new, next, ids)?;
        Ok(answer_of(counts, leaves, steps))
    }

    /// Lexes the content of `new`, which is the text with `put` instead of a range.
    fn edited_content(
        &self,
        alloc: Global,
        range: TextRange,
        put: &str,
        new: &str,
    ) -> Result<EditedContent, AllocError>
        requires range { can_edit self.now.text range.start.0 range.end.0 ≡ true }
        requires edited { new.now ≡ edited self.now.text range.start.0 range.end.0 put.now }
        requires fits { length new.now ≤ MAX_TEXT }
        ensures content { IfOk result (λ e. chars e.kept ≡ content (chars new.now)) }
        ensures counts { IfOk result (λ e. AreCounts self.now.edition self.now.text new.now
            range.start.0 range.end.0 put.now e.counts) }
    {
        let edit = TextEdit {
            before: self.text.as_str(),
            after: new,
            range,
            put,
        };
        edit_content(alloc, self.edition, &self.kept, &edit)
    }

    /// Returns the tree of `new`, if the edit turns one plain identifier into another. In `new` the
    /// range is replaced by `put`.
    fn renamed_tree(
        &self,
        alloc: Global,
        range: TextRange,
        put: &str,
        new: &str,
    ) -> Result<Option<GreenNode>, AllocError>
        requires range { can_edit self.now.text range.start.0 range.end.0 ≡ true }
        requires edited { new.now ≡ edited self.now.text range.start.0 range.end.0 put.now }
        requires fits { length new.now ≤ MAX_TEXT }
        ensures { IfOk result (λ o. IfSome o
            (IsRenamedTree self.now.grammar self.now.edition self.now.text new.now)) }
    {
        let before = ReadText {
            edition: self.edition,
            grammar: self.grammar,
            tokens: self.tokens.as_slice(),
            root: &self.root,
        };
        let edit = TextEdit {
            before: self.text.as_str(),
            after: new,
            range,
            put,
        };
        renamed_tree(alloc, &before, &edit)
    }

    /// The first element in preorder that is of a kind and has a range: of several that have the
    /// range, the outermost.
    pub fn find(
        &self,
        alloc: Global,
        kind: SyntaxKind,
        range: TextRange,
    ) -> Result<Option<SyntaxElement>, AllocError>
        ensures { IfOk result (λ found. option_map element_of found ≡ first_element self.now
            (raw_of kind) range.start.0 range.end.0) }
    {
        self.root.find(alloc, kind, range)
    }

    /// An editor of the present tree, with nothing recorded.
    pub fn editor(&self, alloc: Global) -> Result<SyntaxEditor, AllocError>
        ensures { IfOk result (λ e. e ≡ untouched (root_element self.now)) }
    {
        Ok(SyntaxEditor::of_root(alloc, self.root.clone()?))
    }

    /// Replaces the text and its reading, and gives the new tree the next number of `ids`.
    fn renew(
        &mut self,
        alloc: Global,
        text: String,
        next: NextReading,
        ids: &mut TreeIds,
    ) -> Result<(), TreeError>
        requires fits { length (string_bytes text) ≤ MAX_TEXT }
        requires is_next { IsNextReading self.old.grammar self.old.edition
            (chars (string_bytes text))
            (tokens_in self.old.grammar self.old.edition (chars self.old.text)) next }
        ensures state { OnOk result (self.new ≡
            record {
              edition = self.old.edition;
              grammar = self.old.grammar;
              text = string_bytes text;
              number = ids.old;
            }) }
        ensures brackets { OnOk result (HasPairedBrackets self.new) }
        ensures operators { OnOk result (HasPlacedOperators self.new) }
        ensures core { OnOk result (IsReadAsCore self.new) }
        ensures number { OnOk result (ids.new ≡ ids.old + 1) }
        ensures refused { IfErr result (RefusesTree ids.old) }
        ensures kept { IfErr result (λ _. (self.new ≡ self.old) × (ids.new ≡ ids.old)) }
    {
        let NextReading {
            reading,
            kept,
            parse,
            leaves: _,
            steps: _,
        } = next;
        let Reading {
            tokens,
            root,
            errors,
        } = reading;
        self.root = SyntaxNode::new_root(alloc, root, ids)?;
        self.text = text;
        self.tokens = tokens;
        self.errors = errors;
        self.kept = kept;
        if let Some(parse) = parse {
            self.parse = parse;
        }
        Ok(())
    }
}
