//! Quoted literals: strings, raw strings, characters and bytes; and literal suffixes.

ghost use Rattle.std.specs.Prelude.{◌≡◌, ◌≤◌, ◌-◌, false, drop};
ghost use Rattle.rustc_lexer.specs.Characters.{size};
ghost use Rattle.rustc_lexer.specs.Scan.{quoted, hashes_follow, raw, stops_character, ticked};
ghost use Rattle.rustc_lexer.specs.Lexeme.{is_single, suffix, character_end, counted, raw_end};
ghost use Rattle.rustc_lexer.specs.Reads.{Reads};
ghost use Rattle.rustc_lexer.specs.Strings.{letters, quoted_kind, raw_kind};

use crate::cursor::Cursor;
use crate::token::{LiteralKind, TokenKind};

/// A literal without its suffix: its kind, and `ends`: `true` if a suffix may follow.
#[derive(Clone, Copy)]
pub(crate) struct Body {
    pub kind: LiteralKind,
    pub ends: bool,
}

/// The kind of a string literal, by the letter before its quote or its `r`: none, `b` or `c`.
#[derive(Clone, Copy)]
pub(crate) enum StringKind {
    Str,
    ByteStr,
    CStr,
}

impl StringKind {
    /// Returns the literal kind of a string of this kind, not raw.
    pub(crate) fn quoted(self, terminated: bool) -> LiteralKind
        ensures { result ≡ quoted_kind self terminated }
    {
        match self {
            StringKind::Str => LiteralKind::Str { terminated },
            StringKind::ByteStr => LiteralKind::ByteStr { terminated },
            StringKind::CStr => LiteralKind::CStr { terminated },
        }
    }

    /// Returns the literal kind of a raw string of this kind.
    pub(crate) fn raw(self, n_hashes: Option<u8>) -> LiteralKind
        ensures { result ≡ raw_kind self n_hashes }
    {
        match self {
            StringKind::Str => LiteralKind::RawStr { n_hashes },
            StringKind::ByteStr => LiteralKind::RawByteStr { n_hashes },
            StringKind::CStr => LiteralKind::RawCStr { n_hashes },
        }
    }
}

fn is_single(a: char, b: char) -> bool
    ensures { result ≡ is_single a b }
{
    b == '\'' && a != '\\'
}

fn stops_character(a: char, b: char) -> bool
    ensures { result ≡ stops_character a b }
{
    a == '/' || (a == '\n' && b != '\'')
}

// Returns the number of hashes in the kind of a raw string; `None` if it is not closed or has more
// than 255.
#[tactic(auto, unfolding(crate::specs::Lexeme::counted))]
fn counted(hashes: usize, closed: bool) -> Option<u8>
    ensures { result ≡ counted hashes closed }
{
    if closed && hashes <= 255 {
        Some(hashes as u8)
    } else {
        None
    }
}

impl<'a> Cursor<'a> {
    /// Skips the optional suffix of a literal if one may follow, and returns the literal's kind. At
    /// the start of the literal, `start` bytes remained.
    pub(crate) fn end_literal(&mut self, start: usize, body: Body) -> TokenKind
        requires { size self.old ≤ start }
        ensures kind { result ≡ TokenKind.Literal body.kind (start - size self.old) }
        ensures rest { self.new ≡ drop (suffix body.ends self.old).taken self.old }
    {
        let suffix_start = start - self.remaining();
        if body.ends {
            self.eat_name();
        }
        TokenKind::Literal {
            kind: body.kind,
            suffix_start,
        }
    }

    /// Skips the letter before the quote, or before the `r`, of a string of this kind, if any.
    pub(crate) fn eat_letter(&mut self, kind: StringKind)
        ensures { self.new ≡ drop (letters kind) self.old }
    {
        match kind {
            StringKind::Str => {}
            StringKind::ByteStr | StringKind::CStr => self.bump(),
        }
    }

    /// Skips the rest of a string, after its opening quote. Returns `true` if it is terminated.
    pub(crate) fn eat_quoted(&mut self) -> bool
        ensures { Reads (quoted false) self.old result self.new }
    {
        'quoted: while !self.is_empty() {
            self.eat_plain();
            if self.first() == '"' {
                self.bump();
                return true;
            }
            self.bump();
            self.bump();
        }
        false
    }

    /// Skips the rest of a character or byte literal, after its opening `'`. Returns `true` if it
    /// is terminated.
    pub(crate) fn eat_character(&mut self) -> bool
        ensures { Reads character_end self.old result self.new }
    {
        if is_single(self.first(), self.second()) {
            self.bump();
            self.bump();
            return true;
        }
        self.eat_ticked()
    }

    // Skips the rest of a character literal up to the first unescaped `'`, or to before a `/`, or a
    // line feed that no `'` follows. Returns `true` if it is terminated.
    fn eat_ticked(&mut self) -> bool
        ensures { Reads (ticked false) self.old result self.new }
    {
        'ticked: while !self.is_empty() {
            let next = self.first();
            if next == '\'' {
                self.bump();
                return true;
            }
            if stops_character(next, self.second()) {
                return false;
            }
            self.bump();
            if next == '\\' {
                self.bump();
            }
        }
        false
    }

    /// Skips the rest of a raw string, after its `r`. Returns the number of its hashes; `None` if
    /// it is unterminated or has more than 255.
    pub(crate) fn eat_raw_string(&mut self) -> Option<u8>
        ensures { Reads raw_end self.old result self.new }
    {
        let hashes = self.eat_hashes();
        let quote = self.first() == '"';
        self.bump();
        if !quote {
            return None;
        }
        let closed = self.eat_raw(hashes);
        counted(hashes, closed)
    }

    // Skips the rest of a raw string with `hashes` hashes, after its opening quote. Returns `true`
    // if it is terminated.
    fn eat_raw(&mut self, hashes: usize) -> bool
        ensures { Reads (raw hashes) self.old result self.new }
    {
        'raw: while !self.is_empty() {
            self.eat_unquoted();
            let quote = self.first() == '"';
            self.bump();
            if quote && self.eat_closing_hashes(hashes) {
                return true;
            }
        }
        false
    }
}
