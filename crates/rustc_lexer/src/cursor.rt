//! A position in a text, from which tokens are read.

ghost use Rattle.std.specs.Prelude.{◌≡◌, ◌<◌, ◌==◌, ◌||◌, ◌↔◌, not, ℕ, [], IsTrue, chars, drop, take, if◌then◌else◌};
ghost use Rattle.rustc_lexer.specs.Characters.{line_feed, double_quote, backslash, slash, star, hash, size, is_whitespace, is_id_continue};
ghost use Rattle.rustc_lexer.specs.Scan.{peek, run, run_len, name_len, hashes_follow};
ghost use Rattle.rustc_lexer.specs.Reads.{Reads};

use crate::bytes;
use crate::classes::{is_id_continue, is_id_start, is_whitespace};
use std::marker::Model;

/// A position in a text, from which tokens are read. Model: the remaining characters.
#[derive(Drop)]
pub struct Cursor<'a> {
    rest: &'a str,
}

impl<'a> Model for Cursor<'a> {
    ghost use Rattle.std.specs.Prelude.{List, ℕ, chars, IsUtf8};

    ghost Value = { List ℕ };

    ghost view = { λ c. chars c.rest.now };

    ghost invariant = { λ c. IsUtf8 c.rest.now };
}

impl<'a> Cursor<'a> {
    /// Creates a cursor at the start of `text`.
    pub fn new(text: &'a str) -> Cursor<'a>
        ensures { result ≡ chars text.now }
    {
        Cursor { rest: text }
    }

    /// Returns the remaining text.
    pub fn as_str(&self) -> &'a str
        ensures { chars result.now ≡ self.now }
    {
        self.rest
    }

    /// Returns the next character without consuming it; `'\0'` past the end.
    pub fn first(&self) -> char
        ensures { result ≡ peek 0 self.now }
    {
        match self.rest.chars().next() {
            Some(c) => c,
            None => '\0',
        }
    }

    /// Returns the second next character without consuming it; `'\0'` past the end.
    pub fn second(&self) -> char
        ensures { result ≡ peek 1 self.now }
    {
        self.after().first()
    }

    /// Returns the third next character without consuming it; `'\0'` past the end.
    pub fn third(&self) -> char
        ensures { result ≡ peek 2 self.now }
    {
        self.after().second()
    }

    /// Returns the fourth next character without consuming it; `'\0'` past the end.
    pub(crate) fn fourth(&self) -> char
        ensures { result ≡ peek 3 self.now }
    {
        self.after().third()
    }

    /// Returns a copy of the cursor, which does not move when this one does.
    pub fn here(&self) -> Cursor<'a>
        ensures { result ≡ self.now }
    {
        Cursor { rest: self.rest }
    }

    /// Returns the text from this position up to `later`, as a cursor.
    pub fn until(&self, later: &Cursor<'a>) -> Cursor<'a>
        requires { (n : ℕ) × (later.now ≡ drop n self.now) }
        ensures { (n : ℕ) → later.now ≡ drop n self.now → result ≡ take n self.now }
    {
        Cursor {
            rest: &self.rest[..self.rest.len() - later.rest.len()],
        }
    }

    /// Returns the position after the next character; at the end, the position itself.
    pub(crate) fn after(&self) -> Cursor<'a>
        ensures { result ≡ drop 1 self.now }
    {
        let mut rest = self.rest.chars();
        match rest.next() {
            Some(_) => Cursor {
                rest: rest.as_str(),
            },
            None => Cursor { rest: self.rest },
        }
    }

    /// Skips one character, if any is left.
    pub fn bump(&mut self)
        ensures { self.new ≡ drop 1 self.old }
    {
        let mut rest = self.rest.chars();
        if let Some(_) = rest.next() {
            self.rest = rest.as_str();
        }
    }

    /// Skips one ASCII character.
    pub(crate) fn bump_ascii(&mut self)
        requires some { 0 < peek 0 self.old }
        requires ascii { peek 0 self.old < 128 }
        ensures { self.new ≡ drop 1 self.old }
    {
        let rest = self.rest;
        self.rest = &rest[1..];
    }

    /// Returns the number of remaining bytes.
    pub fn remaining(&self) -> usize
        ensures { result ≡ size self.now }
    {
        self.rest.len()
    }

    /// Returns `true` if no text remains.
    pub fn is_empty(&self) -> bool
        ensures { IsTrue result ↔ (self.now ≡ []) }
    {
        self.rest.is_empty()
    }

    /// Skips the whitespace at this position.
    pub fn eat_whitespace(&mut self)
        ensures { self.new ≡ drop (run_len is_whitespace self.old) self.old }
    {
        let rest = self.rest;
        let n = bytes::white_len(rest.as_bytes());
        self.rest = &rest[n..];
        if self.first() >= '\u{80}' {
            self.eat_wide_whitespace();
        }
    }

    // Skips the whitespace at this position, one character at a time.
    #[inline(never)]
    fn eat_wide_whitespace(&mut self)
        ensures { self.new ≡ drop (run_len is_whitespace self.old) self.old }
    {
        'run: while is_whitespace(self.first()) {
            self.bump();
        }
    }

    /// Skips the characters at this position that can continue an identifier.
    #[inline(always)]
    pub(crate) fn eat_id_continue(&mut self)
        ensures { self.new ≡ drop (run_len is_id_continue self.old) self.old }
    {
        let rest = self.rest;
        let n = bytes::continue_len(rest.as_bytes());
        self.rest = &rest[n..];
        if self.first() >= '\u{80}' {
            self.eat_wide_id_continue();
        }
    }

    // Skips the characters that can continue an identifier, one at a time.
    #[inline(never)]
    fn eat_wide_id_continue(&mut self)
        ensures { self.new ≡ drop (run_len is_id_continue self.old) self.old }
    {
        'run: while is_id_continue(self.first()) {
            self.bump();
        }
    }

    /// Skips an identifier, if one is next.
    pub(crate) fn eat_name(&mut self)
        ensures { self.new ≡ drop (name_len self.old) self.old }
    {
        if is_id_start(self.first()) {
            self.bump();
            self.eat_id_continue();
        }
    }

    /// Skips the `#` at this position and returns their number.
    pub(crate) fn eat_hashes(&mut self) -> usize
        ensures { Reads (run (λ c. c == hash)) self.old result self.new }
    {
        let rest = self.rest;
        let n = bytes::hash_len(rest.as_bytes());
        self.rest = &rest[n..];
        n
    }

    /// Skips the characters before the next line feed; all if there is none.
    pub(crate) fn eat_line(&mut self)
        ensures { self.new ≡ drop (run_len (λ c. not (c == line_feed)) self.old) self.old }
    {
        let rest = self.rest;
        let n = bytes::line_len(rest.as_bytes());
        self.rest = &rest[n..];
    }

    /// Skips the characters before the next `"`; all if there is none.
    pub(crate) fn eat_unquoted(&mut self)
        ensures { self.new ≡ drop (run_len (λ c. not (c == double_quote)) self.old) self.old }
    {
        let rest = self.rest;
        let n = bytes::unquoted_len(rest.as_bytes());
        self.rest = &rest[n..];
    }

    /// Skips the characters before the next `"` or `\`; all if there is neither.
    pub(crate) fn eat_plain(&mut self)
        ensures { self.new ≡ drop
            (run_len (λ c. not (c == double_quote || c == backslash)) self.old) self.old }
    {
        let rest = self.rest;
        let n = bytes::plain_len(rest.as_bytes());
        self.rest = &rest[n..];
    }

    /// Skips the characters before the next `/` or `*`; all if there is neither.
    pub(crate) fn eat_unmarked(&mut self)
        ensures { self.new ≡ drop (run_len (λ c. not (c == slash || c == star)) self.old) self.old }
    {
        let rest = self.rest;
        let n = bytes::unmarked_len(rest.as_bytes());
        self.rest = &rest[n..];
    }

    /// Skips `hashes` times `#` and returns `true` if at least that many are at this position;
    /// otherwise skips nothing and returns `false`.
    pub(crate) fn eat_closing_hashes(&mut self, hashes: usize) -> bool
        ensures told { result ≡ hashes_follow hashes self.old }
        ensures rest { self.new ≡ (if result then drop hashes self.old else self.old) }
    {
        let rest = self.rest;
        if bytes::hash_len(rest.as_bytes()) < hashes {
            return false;
        }
        self.rest = &rest[hashes..];
        true
    }
}
