//! The ranges of messages.
ghost use Rattle.std.specs.Prelude.{◌≡◌, chars, map, IfOk};
ghost use Rattle.rust_document.specs.Reading.{messages_in};
ghost use Rattle.rust_document.specs.Seen.{message_of_error};
ghost use Rattle.rust_document.specs.Tokens.{span_of, tokens_of};
ghost use Rattle.rust_source.specs.RangedErrors.{all_tokens, message_end, ranged, spans_left, token_end, with_end, AreEnds, BeginFrom, TellsAlike};

use crate::source::Source;
use rust_document::{LexedToken, SyntaxError, SyntaxMessage, Tokens};
use std::alloc::AllocError;

/// A message with its range: the bytes from its place to just before `end`. A message of the lexer
/// has its token's range, one of the parser an empty one.
#[derive(Clone, Copy, Debug, PartialEq, Eq)]
pub struct RangedError {
    pub error: SyntaxError,
    pub end: usize,
}

/// The tokens of a text from one on, which is apart.
#[derive(Drop)]
struct TokensLeft<'a> {
    first: Option<LexedToken>,
    after: Tokens<'a>,
}

impl<'a> TokensLeft<'a> {
    fn of(source: &'a Source) -> TokensLeft<'a>
        ensures tokens { spans_left result ≡ all_tokens source.entry.now }
        ensures ordered { BeginFrom 0 (spans_left result) }
    {
        let mut tokens = source.tokens();
        let first = tokens.next();
        TokensLeft {
            first,
            after: tokens,
        }
    }

    /// Skips the tokens that begin before `place`, and returns the end of the one that begins there,
    /// or `place` if none does.
    fn end_of_token(&mut self, place: usize) -> usize
        requires { BeginFrom 0 (spans_left self.old) }
        ensures end { result ≡ token_end place (spans_left self.old) }
        ensures rest { TellsAlike place (spans_left self.new) (spans_left self.old) }
        ensures ordered { BeginFrom 0 (spans_left self.new) }
    {
        'skip: while let Some(token) = self.first {
            let start = usize::from(token.range.start());
            if start == place {
                return usize::from(token.range.end());
            }
            if place < start {
                return place;
            }
            self.first = self.after.next();
        }
        place
    }
}

/// The ends of the messages of a source. Where they are asked for in order of place, the tokens are
/// walked once.
#[derive(Drop)]
struct Ends<'a> {
    source: &'a Source,
    left: TokensLeft<'a>,
    from: usize,
}

impl<'a> Ends<'a> {
    fn of(source: &'a Source) -> Ends<'a>
        ensures ends { AreEnds result }
        ensures source { result.source.now ≡ source.entry.now }
    {
        Ends {
            source,
            left: TokensLeft::of(source),
            from: 0,
        }
    }

    /// Returns the end of the token that begins at `place`, or `place` if none does.
    fn end_of_token(&mut self, place: usize) -> usize
        requires { AreEnds self.old }
        ensures end { result ≡ token_end place (all_tokens self.old.source.now) }
        ensures ends { AreEnds self.new }
        ensures source { self.new.source.now ≡ self.old.source.now }
    {
        if place < self.from {
            self.left = TokensLeft::of(self.source);
        }
        self.from = place;
        self.left.end_of_token(place)
    }

    /// Returns the end of a message.
    fn end_of(&mut self, error: &SyntaxError) -> usize
        requires { AreEnds self.old }
        ensures end { result
            ≡ message_end (all_tokens self.old.source.now) (message_of_error error.now) }
        ensures ends { AreEnds self.new }
        ensures source { self.new.source.now ≡ self.old.source.now }
    {
        match error.message {
            SyntaxMessage::Parser(_) => error.offset,
            SyntaxMessage::Lexer(_) => self.end_of_token(error.offset),
        }
    }
}

impl Source {
    /// Returns the messages, each with its range, in the order of [`Source::errors`].
    pub fn ranged_errors(&self) -> Result<Vec<RangedError>, AllocError>
        ensures { IfOk result (λ v. map ranged v.items
            ≡ map (with_end (tokens_of self.now.document.edition (chars self.now.document.text)))
            (messages_in self.now.document.grammar self.now.document.edition
            (chars self.now.document.text))) }
    {
        let mut ends = Ends::of(self);
        let mut ranged = Vec::new(self.alloc);
        for error in self.errors() {
            let end = ends.end_of(error);
            ranged.push(RangedError { error: *error, end })?;
        }
        Ok(ranged)
    }
}
