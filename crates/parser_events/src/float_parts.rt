//! A float after a dot, with its text.

ghost use Rattle.std.specs.Prelude.{◌≡◌, chars, OnOk, IfErr};
ghost use Rattle.parser_events.specs.Dress.{before_dot, from_dot};
ghost use Rattle.parser_events.specs.Laying.{split_steps};
ghost use Rattle.parser_events.specs.Sinks.{TakesAll, FailsAtOne};

use crate::message::Message;
use crate::shortcuts::put_all;
use crate::str_sink::StrSink;
use crate::str_step::StrStep;
use parser_input::syntax_kind::SyntaxKind;

/// A text before its first dot, and from there on.
fn cut_at_dot(text: &str) -> (&str, &str)
    ensures before { chars result.0.now ≡ before_dot (chars text.now) }
    ensures from { chars result.1.now ≡ from_dot (chars text.now) }
{
    match text.find('.') {
        Some(dot) => (&text[..dot], &text[dot..]),
        None => (text, ""),
    }
}

/// Puts a text that has these parts before its first dot and from there on, as a float that ends
/// the field access entered last, and starts at a place, in bytes.
fn put_parts<'a, S: StrSink>(
    text: &'a str,
    whole: &'a str,
    rest: &'a str,
    ends_in_dot: bool,
    pos: usize,
    sink: &mut S,
) -> Result<(), S::Error>
    requires before { chars whole.now ≡ before_dot (chars text.now) }
    requires from { chars rest.now ≡ from_dot (chars text.now) }
    ensures taken { OnOk result (TakesAll S.takes sink.old
        (split_steps ends_in_dot pos (chars text.now)) sink.new) }
    ensures refused { IfErr result (λ error. FailsAtOne S.takes S.fails_at sink.old
        (split_steps ends_in_dot pos (chars text.now)) error sink.new) }
{
    match rest.strip_prefix('.') {
        None => put_all(
            &[
                StrStep::Error {
                    msg: Message::IllegalFloat,
                    pos,
                },
                StrStep::Enter {
                    kind: SyntaxKind::ERROR,
                },
                StrStep::Token {
                    kind: SyntaxKind::FLOAT_NUMBER,
                    text,
                },
                StrStep::Exit,
                StrStep::Exit,
            ],
            sink,
        ),
        Some(fraction) => {
            if ends_in_dot {
                return put_all(
                    &[
                        StrStep::Enter {
                            kind: SyntaxKind::NAME_REF,
                        },
                        StrStep::Token {
                            kind: SyntaxKind::INT_NUMBER,
                            text: whole,
                        },
                        StrStep::Exit,
                        StrStep::Exit,
                        StrStep::Token {
                            kind: SyntaxKind::DOT,
                            text: rest,
                        },
                    ],
                    sink,
                );
            }
            put_all(
                &[
                    StrStep::Enter {
                        kind: SyntaxKind::NAME_REF,
                    },
                    StrStep::Token {
                        kind: SyntaxKind::INT_NUMBER,
                        text: whole,
                    },
                    StrStep::Exit,
                    StrStep::Exit,
                    StrStep::Token {
                        kind: SyntaxKind::DOT,
                        text: ".",
                    },
                    StrStep::Enter {
                        kind: SyntaxKind::NAME_REF,
                    },
                    StrStep::Token {
                        kind: SyntaxKind::INT_NUMBER,
                        text: fraction,
                    },
                    StrStep::Exit,
                ],
                sink,
            )
        }
    }
}

/// Gives a sink what a float puts that ends the field access entered last, and starts at a place,
/// in bytes.
pub(crate) fn put_float<S: StrSink>(
    text: &str,
    ends_in_dot: bool,
    pos: usize,
    sink: &mut S,
) -> Result<(), S::Error>
    ensures taken { OnOk result (TakesAll S.takes sink.old
        (split_steps ends_in_dot pos (chars text.now)) sink.new) }
    ensures refused { IfErr result (λ error. FailsAtOne S.takes S.fails_at sink.old
        (split_steps ends_in_dot pos (chars text.now)) error sink.new) }
{
    let (whole, rest) = cut_at_dot(text);
    put_parts(text, whole, rest, ends_in_dot, pos, sink)
}
