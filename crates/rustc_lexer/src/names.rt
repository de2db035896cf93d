//! Names: identifiers, lifetimes and unknown prefixes.

ghost use Rattle.std.specs.Prelude.{◌≡◌, ◌==◌, ◌&&◌, not, true, if◌then◌else◌};
ghost use Rattle.rustc_lexer.specs.Characters.{hash, is_id_start};
ghost use Rattle.rustc_lexer.specs.Scan.{peek};
ghost use Rattle.rustc_lexer.specs.Lexeme.{opens_literal, is_raw, identifier, raw_identifier, lifetime};
ghost use Rattle.rustc_lexer.specs.Reads.{Reads};

use crate::classes::{is_digit, is_id_start};
use crate::cursor::Cursor;
use crate::token::{LiteralKind, TokenKind};

#[tactic(auto, unfolding(crate::specs::Lexeme::opens_literal))]
fn opens_literal(c: char) -> bool
    ensures { result ≡ opens_literal c }
{
    c == '#' || c == '"' || c == '\''
}

#[tactic(auto, unfolding(crate::specs::Lexeme::is_raw))]
fn is_raw(a: char, b: char, c: char) -> bool
    ensures { result ≡ is_raw a b c }
{
    a == 'r' && b == '#' && is_id_start(c)
}

// Returns the kind of a lifetime that the character `next` follows.
fn lifetime_kind(next: char, starts_with_number: bool) -> TokenKind
    ensures { result ≡ (if next == hash && not starts_with_number
        then TokenKind.UnknownPrefixLifetime else TokenKind.Lifetime starts_with_number) }
{
    if next == '#' && !starts_with_number {
        TokenKind::UnknownPrefixLifetime
    } else {
        TokenKind::Lifetime { starts_with_number }
    }
}

impl<'a> Cursor<'a> {
    /// Skips an identifier or an unknown prefix, and returns its kind.
    pub(crate) fn identifier(&mut self) -> TokenKind
        requires { is_id_start (peek 0 self.old) ≡ true }
        ensures { Reads identifier self.old result self.new }
    {
        self.eat_id_continue();
        if opens_literal(self.first()) {
            TokenKind::UnknownPrefix
        } else {
            TokenKind::Ident
        }
    }

    /// Skips a raw identifier, `r#` included, and returns its kind.
    pub(crate) fn raw_identifier(&mut self) -> TokenKind
        ensures { Reads raw_identifier self.old result self.new }
    {
        self.bump();
        self.bump();
        self.eat_name();
        TokenKind::RawIdent
    }

    /// Skips a lifetime, or a character literal: a lifetime with a `'` after it. Returns its kind.
    pub(crate) fn lifetime(&mut self) -> TokenKind
        ensures { Reads lifetime self.old result self.new }
    {
        let start = self.remaining();
        self.bump();
        if is_raw(self.first(), self.second(), self.third()) {
            self.bump();
            self.bump();
            self.eat_name();
            return TokenKind::RawLifetime;
        }
        let starts_with_number = is_digit(self.first());
        self.bump();
        self.eat_id_continue();
        let next = self.first();
        if next == '\'' {
            self.bump();
            return TokenKind::Literal {
                kind: LiteralKind::Char { terminated: true },
                suffix_start: start - self.remaining(),
            };
        }
        lifetime_kind(next, starts_with_number)
    }
}
