//! A document that is kept between calls.
ghost use Rattle.std.specs.Prelude.{◌≡◌, ◌≤◌, ◌+◌, [], true, Some, chars, is_some, length, string_bytes, IfErr, IfOk, IfSome, MatchResult, OnOk};
ghost use Rattle.std.specs.Str.{IsUtf8};
ghost use Rattle.rust_document.specs.Edit.{can_edit, edited};
ghost use Rattle.rust_document.specs.Open.{IsOpened};
ghost use Rattle.rust_document.specs.Step.{MAX_TEXT};
ghost use Rattle.kept_document.specs.Calls.{IsFresh, IsUnedited, IsReadable, RefusesEdit, RefusesOpening, RefusesText, edited_document};
ghost use Rattle.kept_document.specs.Dialect.{edition_of, grammar_of};
ghost use Rattle.kept_document.specs.declared.reason.Reason.TheVariants.{NotUtf8, NoMemory, TooDeep, TooLong};

use crate::dialect::{edition_of, grammar_of};
use crate::reason::Reason;
use rowan_green::{TextRange, TextSize};
use rust_document::{Document, Edition, Grammar, MAX_TEXT};
use std::alloc::{AllocError, Global};
use syntax_tree::TreeIds;
use text_levels::is_too_deep;

/// A document, the source of its tree numbers, and the ranges that the last accepted commit inserted.
#[derive(Drop)]
pub struct Kept {
    pub document: Document,
    pub ids: TreeIds,
    pub changed: Vec<TextRange>,
}

/// Returns the text of these bytes.
pub(crate) fn text_of(bytes: &[u8]) -> Result<&str, Reason>
    ensures text { IfOk result (λ text. (text.now ≡ bytes.now) × IsUtf8 bytes.now) }
    ensures refused { IfErr result (λ reason. (reason ≡ NotUtf8) × ¬ (IsUtf8 bytes.now)) }
{
    match str::from_utf8(bytes) {
        Ok(text) => Ok(text),
        Err(_) => Err(Reason::NotUtf8),
    }
}

/// Tests that a text is within the limits.
fn test_limits(alloc: Global, edition: Edition, text: &str) -> Result<(), Reason>
    ensures readable { OnOk result (IsReadable edition text.now) }
    ensures refused { IfErr result (λ reason. IsUtf8 text.now → RefusesText edition text.now reason) }
{
    if text.len() > MAX_TEXT {
        return Err(Reason::TooLong);
    }
    match is_too_deep(alloc, edition, text) {
        Ok(false) => Ok(()),
        Ok(true) => Err(Reason::TooDeep),
        Err(_) => Err(Reason::NoMemory),
    }
}

/// Returns the range from `start` to just before `end`, where that can be edited.
fn range_of(document: &Document, start: usize, end: usize) -> Option<TextRange>
    ensures start { IfSome result (λ range. range.start.0 ≡ start) }
    ensures end { IfSome result (λ range. range.end.0 ≡ end) }
    ensures decided { is_some result ≡ can_edit document.now.text start end }
{
    if start > end || end > document.text().len() {
        return None;
    }
    let range = TextRange::new(TextSize::new(start as u32), TextSize::new(end as u32));
    document.can_edit(range).then_some(range)
}

/// Returns `text` with `put` in place of a range, where that is within the limit.
fn edited(alloc: Global, text: &str, range: TextRange, put: &str) -> Result<String, Reason>
    requires at_boundaries { can_edit text.now range.start.0 range.end.0 ≡ true }
    requires within_limit { length text.now ≤ MAX_TEXT }
    ensures edited { IfOk result (λ new. string_bytes new
        ≡ edited text.now range.start.0 range.end.0 put.now) }
    ensures fits { IfOk result (λ new. IsOpened (string_bytes new)) }
    ensures refused { IfErr result (λ reason. IsUnedited
        (edited text.now range.start.0 range.end.0 put.now) reason) }
{
    let front = &text[..usize::from(range.start())];
    let back = &text[usize::from(range.end())..];
    let kept = front.len() + back.len();
    if put.len() > MAX_TEXT - kept {
        return Err(Reason::TooLong);
    }
    let mut new = String::with_capacity(alloc, kept + put.len())?;
    new.push_str(front)?;
    new.push_str(put)?;
    new.push_str(back)?;
    Ok(new)
}

impl Kept {
    /// Opens a document on a text, by the edition and the grammar of these numbers.
    ///
    /// # Errors
    ///
    /// The first case that holds:
    ///
    /// - [`Reason::NoSuch`] if there is no such edition or grammar.
    /// - [`Reason::NotUtf8`] if the text is not UTF-8.
    /// - [`Reason::TooLong`] if the text has more than [`MAX_TEXT`] bytes.
    /// - [`Reason::TooDeep`] if the text has more than [`LEVELS`](text_levels::LEVELS) levels.
    /// - [`Reason::NoMemory`] if an allocation fails.
    pub(crate) fn open(
        alloc: Global,
        text: &[u8],
        edition: u32,
        grammar: u32,
    ) -> Result<Kept, Reason>
        ensures opened { IfOk result (IsFresh (edition_of edition) (grammar_of grammar) text.now) }
        ensures refused { IfErr result (RefusesOpening (edition_of edition) (grammar_of grammar)
            text.now) }
    {
        let Some(edition) = edition_of(edition) else {
            return Err(Reason::NoSuch);
        };
        let Some(grammar) = grammar_of(grammar) else {
            return Err(Reason::NoSuch);
        };
        let text = text_of(text)?;
        Kept::open_text(alloc, edition, grammar, text)
    }

    /// Opens a document on a text. The errors are those of [`Kept::open`].
    pub(crate) fn open_text(
        alloc: Global,
        edition: Edition,
        grammar: Grammar,
        text: &str,
    ) -> Result<Kept, Reason>
        ensures opened { IfOk result (IsFresh (Some edition) (Some grammar) text.now) }
        ensures refused { IfErr result (λ reason. IsUtf8 text.now
            → RefusesText edition text.now reason) }
    {
        test_limits(alloc, edition, text)?;
        let mut ids = TreeIds::new();
        let document = Document::open_by(alloc, edition, grammar, text, &mut ids)?;
        Ok(Kept {
            document,
            ids,
            changed: Vec::new(alloc),
        })
    }

    /// Replaces the bytes from `start` to just before `end` with `text`.
    ///
    /// # Errors
    ///
    /// The first case that holds:
    ///
    /// - [`Reason::NotUtf8`] if `text` is not UTF-8.
    /// - [`Reason::Range`] if the range begins after its end, ends after the text, or cuts a character.
    /// - [`Reason::TooLong`] if the new text has more than [`MAX_TEXT`] bytes.
    /// - [`Reason::TooDeep`] if the new text has more than [`LEVELS`](text_levels::LEVELS) levels.
    /// - [`Reason::NoNumber`] if no tree number is left.
    /// - [`Reason::NoMemory`] if an allocation fails.
    ///
    /// On error, nothing is changed.
    pub(crate) fn edit(
        &mut self,
        alloc: Global,
        start: usize,
        end: usize,
        text: &[u8],
    ) -> Result<(), Reason>
        ensures done { OnOk result (self.new.document
            ≡ edited_document self.old.document start end text.now self.old.ids) }
        ensures next { OnOk result (self.new.ids ≡ self.old.ids + 1) }
        ensures allowed { OnOk result (can_edit self.old.document.text start end ≡ true) }
        ensures is_text { OnOk result (IsUtf8 text.now) }
        ensures ranges { self.new.changed ≡ self.old.changed }
        ensures readable { OnOk result (IsReadable self.new.document.edition self.new.document.text) }
        ensures refused { IfErr result (RefusesEdit self.old.document self.old.ids start end text.now) }
        ensures kept { IfErr result (λ _. self.new ≡ self.old) }
    {
        let text = text_of(text)?;
        let Some(range) = range_of(&self.document, start, end) else {
            return Err(Reason::Range);
        };
        let new = edited(alloc, self.document.text(), range, text)?;
        test_limits(alloc, self.document.edition(), new.as_str())?;
        self.document.edit(alloc, range, text, &mut self.ids)?;
        Ok(())
    }
}
