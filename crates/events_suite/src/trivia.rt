//! Tests what contracts leave open: that the trees with their text are the intended ones, by lists
//! written by hand.

ghost use Rattle.std.specs.Prelude.{◌≡◌, ◌+◌};

use crate::steps::{enter, leaf, leaf_over};
use parser_events::message::Message;
use parser_events::output::Output;
use parser_events::shortcuts::intersperse_trivia;
use parser_events::step::Step;
use parser_events::str_sink::StrSink;
use parser_events::str_step::StrStep;
use parser_input::edition::Edition;
use parser_input::lexed_str::LexedStr;
use parser_input::syntax_kind::SyntaxKind;
use std::alloc::{AllocError, Global};

/// A step with the offsets of its text, in bytes.
#[derive(Clone, Copy, PartialEq, Eq)]
enum Mark {
    Leaf(SyntaxKind, usize, usize),
    Enter(SyntaxKind, usize),
    Exit(usize),
    Said(Message, usize),
}

/// The number of steps that a sink accepted before the one that it refused.
#[derive(Clone, Copy, PartialEq, Eq)]
struct Refusal(usize);

/// A sink that accepts at most `most` steps, and compares them with the expected ones.
#[derive(Drop)]
struct Awaiting<'a> {
    wanted: &'a [Mark],
    most: usize,
    taken: usize,
    bytes: usize,
    are_wanted: bool,
}

impl<'a> Awaiting<'a> {
    fn new(wanted: &'a [Mark], most: usize) -> Awaiting<'a> {
        Awaiting {
            wanted,
            most,
            taken: 0,
            bytes: 0,
            are_wanted: true,
        }
    }

    /// Returns the mark of a step at the current offset.
    fn mark(&self, step: StrStep<'_>) -> Mark {
        match step {
            StrStep::Token { kind, text } => {
                Mark::Leaf(kind, self.bytes, self.bytes.saturating_add(text.len()))
            }
            StrStep::Enter { kind } => Mark::Enter(kind, self.bytes),
            StrStep::Exit => Mark::Exit(self.bytes),
            StrStep::Error { msg, pos } => Mark::Said(msg, pos),
        }
    }
}

impl StrSink for Awaiting<'_> {
    type Error = Refusal;

    ghost takes = { λ old step new. (new.taken ≡ old.taken + 1) × (new.most ≡ old.most) };

    ghost fails_at = { λ old step error new. (error.0 ≡ old.taken) × (new ≡ old) };

    fn step(&mut self, step: StrStep<'_>) -> Result<(), Refusal> {
        if self.most <= self.taken {
            return Err(Refusal(self.taken));
        }
        let mark = self.mark(step);
        if self.wanted.get(self.taken).copied() != Some(mark) {
            self.are_wanted = false;
        }
        if let Mark::Leaf(_, _, end) = mark {
            self.bytes = end;
        }
        self.taken += 1;
        Ok(())
    }
}

/// Adds the trivia of `text` to `steps`, for a sink that accepts at most `most` steps and expects
/// `wanted`. Returns the index of the step that the sink refused, if any, the number of steps that
/// it accepted, and whether these were the first of `wanted`.
fn put(
    alloc: Global,
    text: &str,
    steps: &[Step],
    wanted: &[Mark],
    most: usize,
) -> Result<(Option<usize>, usize, bool), AllocError> {
    let lexed = LexedStr::new(alloc, Edition::Edition2021, text)?;
    let output = Output::from_steps(alloc, steps)?;
    let mut sink = Awaiting::new(wanted, most);
    let refused = match intersperse_trivia(&lexed, &output, &mut sink) {
        Ok(()) => None,
        Err(Refusal(step)) => Some(step),
    };
    Ok((refused, sink.taken, sink.are_wanted))
}

fn do_fit(alloc: Global, text: &str, steps: &[Step]) -> Result<bool, AllocError> {
    let lexed = LexedStr::new(alloc, Edition::Edition2021, text)?;
    let output = Output::from_steps(alloc, steps)?;
    Ok(output.fits(&lexed))
}

const FILE: Step = Step::Enter {
    kind: SyntaxKind::SOURCE_FILE,
};

const FIELD: Step = Step::Enter {
    kind: SyntaxKind::FIELD_EXPR,
};

const SAID: Step = Step::Error {
    msg: Message::ExpectedItem,
};

const WITH_DOT: Step = Step::FloatSplit { ends_in_dot: true };

const WITHOUT_DOT: Step = Step::FloatSplit { ends_in_dot: false };

const SHIFT: Step = Step::Token {
    kind: SyntaxKind::SHL,
    n_input_tokens: 2,
};

/// Returns the steps of a file with one struct without fields.
fn one_struct() -> [Step; 9] {
    [
        enter(SyntaxKind::SOURCE_FILE),
        enter(SyntaxKind::STRUCT),
        leaf(SyntaxKind::STRUCT_KW),
        enter(SyntaxKind::NAME),
        leaf(SyntaxKind::IDENT),
        Step::Exit,
        leaf(SyntaxKind::SEMICOLON),
        Step::Exit,
        Step::Exit,
    ]
}

#[test]
fn comments_before_a_struct(rt: HostRuntime) -> Result<(), AllocError> {
    let steps = one_struct();
    for (text, wanted) in [
        (
            "// a\nstruct S;",
            [
                Mark::Enter(SyntaxKind::SOURCE_FILE, 0),
                Mark::Enter(SyntaxKind::STRUCT, 0),
                Mark::Leaf(SyntaxKind::COMMENT, 0, 4),
                Mark::Leaf(SyntaxKind::WHITESPACE, 4, 5),
                Mark::Leaf(SyntaxKind::STRUCT_KW, 5, 11),
                Mark::Leaf(SyntaxKind::WHITESPACE, 11, 12),
                Mark::Enter(SyntaxKind::NAME, 12),
                Mark::Leaf(SyntaxKind::IDENT, 12, 13),
                Mark::Exit(13),
                Mark::Leaf(SyntaxKind::SEMICOLON, 13, 14),
                Mark::Exit(14),
                Mark::Exit(14),
            ],
        ),
        (
            "// a\n\nstruct S;",
            [
                Mark::Enter(SyntaxKind::SOURCE_FILE, 0),
                Mark::Leaf(SyntaxKind::COMMENT, 0, 4),
                Mark::Leaf(SyntaxKind::WHITESPACE, 4, 6),
                Mark::Enter(SyntaxKind::STRUCT, 6),
                Mark::Leaf(SyntaxKind::STRUCT_KW, 6, 12),
                Mark::Leaf(SyntaxKind::WHITESPACE, 12, 13),
                Mark::Enter(SyntaxKind::NAME, 13),
                Mark::Leaf(SyntaxKind::IDENT, 13, 14),
                Mark::Exit(14),
                Mark::Leaf(SyntaxKind::SEMICOLON, 14, 15),
                Mark::Exit(15),
                Mark::Exit(15),
            ],
        ),
        (
            "/// a\n\nstruct S;",
            [
                Mark::Enter(SyntaxKind::SOURCE_FILE, 0),
                Mark::Enter(SyntaxKind::STRUCT, 0),
                Mark::Leaf(SyntaxKind::COMMENT, 0, 5),
                Mark::Leaf(SyntaxKind::WHITESPACE, 5, 7),
                Mark::Leaf(SyntaxKind::STRUCT_KW, 7, 13),
                Mark::Leaf(SyntaxKind::WHITESPACE, 13, 14),
                Mark::Enter(SyntaxKind::NAME, 14),
                Mark::Leaf(SyntaxKind::IDENT, 14, 15),
                Mark::Exit(15),
                Mark::Leaf(SyntaxKind::SEMICOLON, 15, 16),
                Mark::Exit(16),
                Mark::Exit(16),
            ],
        ),
        (
            "//! a\nstruct S;",
            [
                Mark::Enter(SyntaxKind::SOURCE_FILE, 0),
                Mark::Leaf(SyntaxKind::COMMENT, 0, 5),
                Mark::Leaf(SyntaxKind::WHITESPACE, 5, 6),
                Mark::Enter(SyntaxKind::STRUCT, 6),
                Mark::Leaf(SyntaxKind::STRUCT_KW, 6, 12),
                Mark::Leaf(SyntaxKind::WHITESPACE, 12, 13),
                Mark::Enter(SyntaxKind::NAME, 13),
                Mark::Leaf(SyntaxKind::IDENT, 13, 14),
                Mark::Exit(14),
                Mark::Leaf(SyntaxKind::SEMICOLON, 14, 15),
                Mark::Exit(15),
                Mark::Exit(15),
            ],
        ),
    ] {
        let outcome = put(rt.alloc(), text, &steps, &wanted, usize::MAX)?;
        assert!(rt; outcome == (None, 12, true), "{text}");
    }
    Ok(())
}

/// Returns `true` if `steps` with the trivia of `text` are exactly `wanted`.
fn is_put(alloc: Global, text: &str, steps: &[Step], wanted: &[Mark]) -> Result<bool, AllocError> {
    let outcome = put(alloc, text, steps, wanted, usize::MAX)?;
    Ok(outcome == (None, wanted.len(), true))
}

/// A text, steps, and the marks of the steps with the trivia of the text.
const FLOATS: &[(&str, [Step; 4], &[Mark])] = &[
    (
        "0.1",
        [FIELD, FIELD, WITHOUT_DOT, Step::Exit],
        &[
            Mark::Enter(SyntaxKind::FIELD_EXPR, 0),
            Mark::Enter(SyntaxKind::FIELD_EXPR, 0),
            Mark::Enter(SyntaxKind::NAME_REF, 0),
            Mark::Leaf(SyntaxKind::INT_NUMBER, 0, 1),
            Mark::Exit(1),
            Mark::Exit(1),
            Mark::Leaf(SyntaxKind::DOT, 1, 2),
            Mark::Enter(SyntaxKind::NAME_REF, 2),
            Mark::Leaf(SyntaxKind::INT_NUMBER, 2, 3),
            Mark::Exit(3),
            Mark::Exit(3),
        ],
    ),
    (
        "0.",
        [FILE, FIELD, WITH_DOT, Step::Exit],
        &[
            Mark::Enter(SyntaxKind::SOURCE_FILE, 0),
            Mark::Enter(SyntaxKind::FIELD_EXPR, 0),
            Mark::Enter(SyntaxKind::NAME_REF, 0),
            Mark::Leaf(SyntaxKind::INT_NUMBER, 0, 1),
            Mark::Exit(1),
            Mark::Exit(1),
            Mark::Leaf(SyntaxKind::DOT, 1, 2),
            Mark::Exit(2),
        ],
    ),
    (
        "1e0",
        [FIELD, FIELD, WITHOUT_DOT, Step::Exit],
        &[
            Mark::Enter(SyntaxKind::FIELD_EXPR, 0),
            Mark::Enter(SyntaxKind::FIELD_EXPR, 0),
            Mark::Said(Message::IllegalFloat, 0),
            Mark::Enter(SyntaxKind::ERROR, 0),
            Mark::Leaf(SyntaxKind::FLOAT_NUMBER, 0, 3),
            Mark::Exit(3),
            Mark::Exit(3),
            Mark::Exit(3),
        ],
    ),
];

#[test]
fn floats_after_a_dot(rt: HostRuntime) -> Result<(), AllocError> {
    for (text, steps, wanted) in FLOATS {
        assert!(rt; is_put(rt.alloc(), text, steps, wanted)?, "{text}");
    }
    Ok(())
}

#[test]
fn each_step_refused_in_turn(rt: HostRuntime) -> Result<(), AllocError> {
    let steps = one_struct();
    let wanted = [
        Mark::Enter(SyntaxKind::SOURCE_FILE, 0),
        Mark::Leaf(SyntaxKind::COMMENT, 0, 4),
        Mark::Leaf(SyntaxKind::WHITESPACE, 4, 6),
        Mark::Enter(SyntaxKind::STRUCT, 6),
        Mark::Leaf(SyntaxKind::COMMENT, 6, 10),
        Mark::Leaf(SyntaxKind::WHITESPACE, 10, 11),
        Mark::Leaf(SyntaxKind::STRUCT_KW, 11, 17),
        Mark::Leaf(SyntaxKind::WHITESPACE, 17, 18),
        Mark::Enter(SyntaxKind::NAME, 18),
        Mark::Leaf(SyntaxKind::IDENT, 18, 19),
        Mark::Exit(19),
        Mark::Leaf(SyntaxKind::SEMICOLON, 19, 20),
        Mark::Exit(20),
        Mark::Leaf(SyntaxKind::WHITESPACE, 20, 21),
        Mark::Exit(21),
    ];
    for most in 0..16 {
        let outcome = put(
            rt.alloc(),
            "// a\n\n// b\nstruct S; ",
            &steps,
            &wanted,
            most,
        )?;
        let refused = if most < 15 { Some(most) } else { None };
        assert!(rt; outcome == (refused, most, true), "at {most}");
    }
    Ok(())
}

/// A text, steps, and whether the steps fit the text.
const FITTING: &[(&str, [Step; 4], bool)] = &[
    (" << ", [FILE, SHIFT, SAID, Step::Exit], true),
    ("< <", [FILE, SHIFT, SAID, Step::Exit], false),
    ("<", [FILE, SHIFT, SAID, Step::Exit], false),
    ("<<<", [FILE, SHIFT, SAID, Step::Exit], false),
    (" 0.", [FILE, FIELD, WITH_DOT, Step::Exit], true),
    ("0.", [FILE, FIELD, WITHOUT_DOT, Step::Exit], false),
    ("0.1", [FILE, FIELD, WITH_DOT, Step::Exit], false),
    ("0.1", [FILE, FIELD, WITHOUT_DOT, Step::Exit], true),
    ("0", [FILE, FIELD, WITHOUT_DOT, Step::Exit], false),
    ("0.", [FILE, SAID, SAID, WITH_DOT], false),
    (" ", [FILE, FIELD, Step::Exit, Step::Exit], true),
    ("", [FILE, FIELD, FIELD, Step::Exit], false),
    ("", [FILE, Step::Exit, FILE, Step::Exit], false),
    ("", [FILE, Step::Exit, SAID, SAID], false),
    ("", [SAID, FILE, Step::Exit, SAID], false),
];

#[test]
fn steps_that_fit(rt: HostRuntime) -> Result<(), AllocError> {
    for (text, steps, fit) in FITTING {
        assert!(rt; do_fit(rt.alloc(), text, steps)? == *fit, "{text}");
    }
    Ok(())
}

/// Returns the steps of a file with one leaf over `n_input_tokens` tokens.
fn one_leaf(n_input_tokens: usize) -> [Step; 3] {
    [
        FILE,
        leaf_over(SyntaxKind::SEMICOLON, n_input_tokens),
        Step::Exit,
    ]
}

#[test]
fn only_leaf_over_all_300_tokens_fits(rt: HostRuntime) -> Result<(), AllocError> {
    let text = ";".repeat(rt.alloc(), 300)?;
    for (n, fit) in [
        (44, false),
        (255, false),
        (299, false),
        (300, true),
        (301, false),
    ] {
        assert!(rt; do_fit(rt.alloc(), &text, &one_leaf(n))? == fit, "{n}");
    }
    Ok(())
}

#[test]
fn texts_of_messages(rt: HostRuntime) -> Result<(), AllocError> {
    for (message, want) in [
        (Message::Expected(SyntaxKind::NAME), "expected NAME"),
        (
            Message::UnexpectedIn(SyntaxKind::RECORD_FIELD_LIST),
            "unexpected token in RECORD_FIELD_LIST",
        ),
        (Message::ExpectedType, "expected a type"),
        (Message::IllegalFloat, "illegal float literal"),
    ] {
        let is_as_wanted = message.to_string(rt.alloc())?.as_str() == want;
        assert!(rt; is_as_wanted, "{want}");
    }
    Ok(())
}
