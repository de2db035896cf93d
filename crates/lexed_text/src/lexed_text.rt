//! A text and its tokens, lexed incrementally over edits.

ghost use Rattle.std.specs.Prelude.{◌≡◌, ◌↔◌, IsTrue, chars, length, IfOk, OnOk, OnErr};
ghost use Rattle.rustc_lexer.specs.Tokens.{token_list};
ghost use Rattle.lexed_text.specs.Edit.{CanEdit, edited, edit_of};
ghost use Rattle.lexed_text.specs.Kept.{IsKept};

use crate::kept::Kept;
use crate::relex::{Place, find_front, renew};
use crate::runs::{Run, cut_runs};
use rustc_lexer::{Token, tokenize};
use std::alloc::{AllocError, Global};
use std::marker::Model;
use std::ops::Range;

/// A text that keeps its tokens over edits. Its tokens are always those of the text. Model: the
/// bytes of the text.
#[derive(Drop)]
pub struct LexedText {
    alloc: Global,
    text: String,
    tokens: Vec<Token>,
    runs: Vec<Run>,
}

impl Model for LexedText {
    ghost use Rattle.std.specs.Prelude.{◌≡◌, List, ℕ, chars, string_bytes};
    ghost use Rattle.rustc_lexer.specs.Tokens.{token_list};
    ghost use Rattle.lexed_text.specs.Runs.{RunsFrom};

    ghost Value = { List ℕ };

    ghost view = { λ l. string_bytes l.text };

    ghost invariant = { λ l. (l.tokens.items ≡ token_list (chars (string_bytes l.text))) × RunsFrom 0 0 l.runs.items l.tokens.items };
}

/// Returns the tokens of `text`.
fn lexed(alloc: Global, text: &str) -> Result<Vec<Token>, AllocError>
    ensures { IfOk result (λ tokens. tokens.items ≡ token_list (chars text.now)) }
{
    let mut tokens = Vec::new(alloc);
    for token in tokenize(text) {
        if tokens.len() == tokens.capacity() {
            tokens.reserve(1)?;
        }
        tokens.push_reserved(token);
    }
    Ok(tokens)
}

impl LexedText {
    /// Creates a lexed copy of `text`.
    ///
    /// # Errors
    ///
    /// [`AllocError`] if an allocation fails.
    pub fn new(alloc: Global, text: &str) -> Result<LexedText, AllocError>
        ensures { IfOk result (λ lexed. lexed ≡ text.now) }
    {
        let tokens = lexed(alloc, text)?;
        let text = String::from_str(alloc, text)?;
        let runs = cut_runs(Vec::new(alloc), tokens.as_slice(), 0, tokens.len())?;
        Ok(LexedText {
            alloc,
            text,
            tokens,
            runs,
        })
    }

    /// Returns the text.
    pub fn text(&self) -> &str
        ensures { result.now ≡ self.now }
    {
        &self.text
    }

    /// Returns the tokens of the text, in source order.
    pub fn tokens(&self) -> &[Token]
        ensures { result.now ≡ token_list (chars self.now) }
    {
        &self.tokens
    }

    /// Returns `true` if a text of `new_len` bytes can replace the byte range `range`: the range is
    /// in order, within the text and on character boundaries, and the length of the edited text
    /// fits a `usize`.
    pub fn can_edit(&self, range: Range<usize>, new_len: usize) -> bool
        ensures { IsTrue result ↔ CanEdit self.now range.start range.end new_len }
    {
        let text = self.text.as_str();
        if range.start > range.end {
            return false;
        }
        if !text.is_char_boundary(range.start) || !text.is_char_boundary(range.end) {
            return false;
        }
        let kept = text.len() - (range.end - range.start);
        new_len <= usize::MAX - kept
    }

    /// Replaces the byte range `range` with `replacement` and lexes the affected tokens again.
    /// Returns the numbers of kept and of lexed tokens.
    ///
    /// # Errors
    ///
    /// [`AllocError`] if an allocation fails. On error, `self` is unchanged.
    pub fn edit(&mut self, range: Range<usize>, replacement: &str) -> Result<Kept, AllocError>
        requires { CanEdit self.old range.start range.end (length replacement.now) }
        ensures text { OnOk result
            (self.new ≡ edited self.old range.start range.end replacement.now) }
        ensures kept { IfOk result
            (IsKept (edit_of self.old range.start range.end replacement.now)) }
        ensures refused { OnErr result (self.new ≡ self.old) }
    {
        let start = range.start;
        let end = range.end;
        let old = self.text.as_str();
        let removed = String::from_str(self.alloc, &old[start..end])?;
        let front = find_front(self.runs.as_slice(), self.tokens.as_slice(), &old[..start]);
        let most = old.len() - end;
        let after_front = Place {
            count: front.count,
            bytes: old.len() - front.bytes,
        };
        self.text.try_reserve(replacement.len())?;
        self.text.replace_range(start..end, replacement)?;
        let new = self.text.as_str();
        let rest = &new[front.bytes..];
        match renew(
            self.alloc,
            &mut self.tokens,
            &mut self.runs,
            after_front,
            rest,
            most,
        ) {
            Ok(kept) => Ok(kept),
            Err(error) => {
                // (there is room, since the old text was no longer than what was reserved)
                let put = start..start + replacement.len();
                let _restored = self.text.replace_range(put, removed.as_str());
                Err(error)
            }
        }
    }

    /// Returns an equal lexed text, copied to memory of `alloc`.
    ///
    /// # Errors
    ///
    /// [`AllocError`] if an allocation fails.
    pub fn try_clone(&self, alloc: Global) -> Result<LexedText, AllocError>
        ensures { IfOk result (λ copy. copy ≡ self.now) }
    {
        let text = String::from_str(alloc, self.text.as_str())?;
        let tokens = Vec::from_slice(alloc, self.tokens.as_slice())?;
        let runs = Vec::from_slice(alloc, self.runs.as_slice())?;
        Ok(LexedText {
            alloc,
            text,
            tokens,
            runs,
        })
    }
}
