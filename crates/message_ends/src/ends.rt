//! The ends of messages.

ghost use Rattle.std.specs.Prelude.{◌≡◌};
ghost use Rattle.rust_document.specs.Seen.{message_of_error};
ghost use Rattle.message_ends.specs.Ends.{all_tokens, message_end, token_end};
ghost use Rattle.message_ends.specs.TokensLeft.{spans_left, BeginFrom, TellsAlike};

use rust_document::{Document, LexedToken, SyntaxError, SyntaxMessage, Tokens};
use std::marker::Model;

/// The tokens of a text from one on, which is apart.
#[derive(Drop)]
struct TokensLeft<'a> {
    first: Option<LexedToken>,
    after: Tokens<'a>,
}

impl<'a> TokensLeft<'a> {
    fn of(document: &'a Document) -> TokensLeft<'a>
        ensures tokens { spans_left result ≡ all_tokens document.entry.now }
        ensures ordered { BeginFrom 0 (spans_left result) }
    {
        let mut tokens = document.tokens();
        let first = tokens.next();
        TokensLeft {
            first,
            after: tokens,
        }
    }

    /// Skips the tokens that begin before `place`, and returns the end of the one that begins there,
    /// or `place` if none does.
    fn end_of_token(&mut self, place: usize) -> usize
        requires { BeginFrom 0 (spans_left self.old) }
        ensures end { result ≡ token_end place (spans_left self.old) }
        ensures rest { TellsAlike place (spans_left self.new) (spans_left self.old) }
        ensures ordered { BeginFrom 0 (spans_left self.new) }
    {
        'skip: while let Some(token) = self.first {
            let start = usize::from(token.range.start());
            if start == place {
                return usize::from(token.range.end());
            }
            if place < start {
                return place;
            }
            self.first = self.after.next();
        }
        place
    }
}

/// The ends of the messages of a document. Where they are asked for in order of place, the tokens are
/// walked once.
///
/// Model: the document.
#[derive(Drop)]
pub struct MessageEnds<'a> {
    document: &'a Document,
    left: TokensLeft<'a>,
    from: usize,
}

impl<'a> Model for MessageEnds<'a> {
    ghost use Rattle.rust_document.specs.Step.{State};
    ghost use Rattle.message_ends.specs.Ends.{all_tokens};
    ghost use Rattle.message_ends.specs.TokensLeft.{spans_left, BeginFrom, TellsAlike};

    ghost Value = { State };

    ghost view = { λ ends. ends.document.now };

    ghost invariant = { λ ends. TellsAlike ends.from (spans_left ends.left)
        (all_tokens ends.document.now) × BeginFrom 0 (spans_left ends.left) };
}

impl<'a> MessageEnds<'a> {
    /// Returns the ends of the messages of a document.
    pub fn of(document: &'a Document) -> MessageEnds<'a>
        ensures { result ≡ document.entry.now }
    {
        MessageEnds {
            document,
            left: TokensLeft::of(document),
            from: 0,
        }
    }

    /// Returns the end of the token that begins at `place`, or `place` if none does.
    fn end_of_token(&mut self, place: usize) -> usize
        ensures end { result ≡ token_end place (all_tokens self.old) }
        ensures document { self.new ≡ self.old }
    {
        if place < self.from {
            self.left = TokensLeft::of(self.document);
        }
        self.from = place;
        self.left.end_of_token(place)
    }

    /// Returns where a message of the document ends: one of the lexer with its token, one of the parser
    /// where it begins.
    pub fn end_of(&mut self, error: &SyntaxError) -> usize
        ensures end { result ≡ message_end (all_tokens self.old) (message_of_error error.now) }
        ensures document { self.new ≡ self.old }
    {
        match error.message {
            SyntaxMessage::Parser(_) => error.offset,
            SyntaxMessage::Lexer(_) => self.end_of_token(error.offset),
        }
    }
}
