//! The tokens of a text with their places.
ghost use Rattle.std.specs.Prelude.{◌≡◌, ◌≤◌, length, map, encode_utf8_all, IfOk};
ghost use Rattle.parser_input.specs.Lexed.{leaves_of};
ghost use Rattle.parser_events.specs.Dress.{joined};
ghost use Rattle.rust_document.specs.Seen.{in_bytes};
ghost use Rattle.rust_document.specs.Tokens.{span_of, spans_from};

use parser_input::lexed_str::LexedStr;
use parser_input::syntax_kind::SyntaxKind;
use rowan_green::{TextRange, TextSize};
use std::alloc::{AllocError, Global};
use std::iter::{ExactSizeIterator, FusedIterator};
use std::marker::Model;

/// A token: its kind, and its bytes in the text.
#[derive(Clone, Copy, Debug, PartialEq, Eq)]
pub struct LexedToken {
    pub kind: SyntaxKind,
    pub range: TextRange,
}

/// The tokens of a text, in order. A contract sees the list of those that are left.
#[derive(Drop)]
pub struct Tokens<'a> {
    rest: &'a [LexedToken],
}

impl<'a> Model for Tokens<'a> {
    ghost use Rattle.std.specs.Prelude.{List};
    ghost use Rattle.rust_document.specs.declared.tokens.LexedToken.{LexedToken};

    ghost Value = { List LexedToken };

    ghost view = { λ t. t.rest.now };
}

impl<'a> Tokens<'a> {
    pub(crate) fn of(tokens: &'a [LexedToken]) -> Tokens<'a>
        ensures { result ≡ tokens.entry.now }
    {
        Tokens { rest: tokens }
    }
}

impl<'a> Iterator for Tokens<'a> {
    type Item = LexedToken;

    ghost use Rattle.std.specs.Iterator.{YieldsFirst, item_count};

    ghost next_gives = { YieldsFirst (λ s. s) };

    ghost remaining = { item_count (λ s. s) };

    fn next(&mut self) -> Option<LexedToken> {
        let (first, rest) = self.rest.split_first()?;
        self.rest = rest;
        Some(*first)
    }
}

/// Where the leaves of a text stand.
pub(crate) fn lexed_tokens(
    alloc: Global,
    lexed: &LexedStr<'_>,
) -> Result<Vec<LexedToken>, AllocError>
    requires { length (encode_utf8_all (joined (leaves_of lexed.now.leaves))) ≤ 16777216 }
    ensures { IfOk result (λ v. map span_of v.items
        ≡ spans_from 0 (map in_bytes (leaves_of lexed.now.leaves))) }
{
    let mut tokens = Vec::with_capacity(alloc, lexed.len())?;
    let mut place = TextSize::new(0);
    for i in 0..lexed.len() {
        let range = TextRange::at(place, TextSize::new(lexed.text_len(i) as u32));
        tokens.push(LexedToken {
            kind: lexed.kind(i),
            range,
        })?;
        place = range.end();
    }
    Ok(tokens)
}
