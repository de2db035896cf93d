//! The tokens of a text, in source order.

ghost use Rattle.std.specs.Prelude.{◌≡◌, chars, drop, length};
ghost use Rattle.std.specs.Iterator.{YieldsFirst, item_count};
ghost use Rattle.rustc_lexer.specs.Tokens.{next_lexeme, token, token_list};

use crate::cursor::Cursor;
use crate::token::{Token, TokenKind};
use std::marker::Model;

impl<'a> Cursor<'a> {
    /// Parses a token and skips its characters. At the end, returns an `Eof` of length 0.
    pub fn advance_token(&mut self) -> Token
        ensures is_next { result ≡ token (next_lexeme self.old) }
        ensures rest { self.new ≡ drop (length (next_lexeme self.old).text) self.old }
    {
        let start = self.remaining();
        if self.is_empty() {
            return Token {
                kind: TokenKind::Eof,
                len: 0,
            };
        }
        let kind = self.lexeme();
        Token {
            kind,
            len: start - self.remaining(),
        }
    }
}

/// An iterator over the tokens of a text, in source order, by [`tokenize`]. Model: the remaining
/// tokens.
#[derive(Drop)]
pub struct Tokens<'a> {
    cursor: Cursor<'a>,
}

impl<'a> Model for Tokens<'a> {
    ghost use Rattle.std.specs.Prelude.{List};
    ghost use Rattle.rustc_lexer.specs.declared.token.Token.{Token};

    ghost Value = { List Token };

    ghost use Rattle.rustc_lexer.specs.Tokens.{token_list};

    ghost view = { λ t. token_list t.cursor };
}

/// Returns the tokens of a text, in source order. They cover the whole text: their lengths sum to
/// its length in bytes.
pub fn tokenize(text: &str) -> Tokens<'_>
    ensures { result ≡ token_list (chars text.now) }
{
    Tokens::from_cursor(Cursor::new(text))
}

impl<'a> Tokens<'a> {
    /// Returns the tokens of the remaining text of `cursor`.
    pub(crate) fn from_cursor(cursor: Cursor<'a>) -> Tokens<'a>
        ensures { result ≡ token_list cursor.entry }
    {
        Tokens { cursor }
    }
}

impl<'a> Iterator for Tokens<'a> {
    type Item = Token;

    ghost next_gives = { YieldsFirst (λ t. t) };

    ghost remaining = { item_count (λ t. t) };

    fn next(&mut self) -> Option<Token> {
        if self.cursor.is_empty() {
            return None;
        }
        Some(self.cursor.advance_token())
    }
}
