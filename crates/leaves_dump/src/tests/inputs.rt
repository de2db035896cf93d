//! The input of the parser.
use parser_input::{Edition, Input, LexedStr, SyntaxKind};
use std::alloc::{AllocError, Global};

/// An index of an input, with the token there: its kind, its contextual kind, and whether it is
/// joint.
type Place = (usize, SyntaxKind, SyntaxKind, bool);

/// A token of an input: its kind, its contextual kind, and whether it is joint.
type Seen = (SyntaxKind, SyntaxKind, bool);

const THREE: &[Place] = &[
    (0, SyntaxKind::IDENT, SyntaxKind::UNION_KW, true),
    (1, SyntaxKind::BANG, SyntaxKind::EOF, false),
    (2, SyntaxKind::IDENT, SyntaxKind::IDENT, false),
    (3, SyntaxKind::EOF, SyntaxKind::EOF, false),
    (usize::MAX, SyntaxKind::EOF, SyntaxKind::EOF, false),
];

fn push_joint_word(input: &mut Input) -> Result<(), AllocError> {
    input.push_ident(SyntaxKind::UNION_KW)?;
    input.was_joint();
    Ok(())
}

fn push_bang(input: &mut Input) -> Result<(), AllocError> {
    input.push(SyntaxKind::BANG)
}

fn push_three(input: &mut Input) -> Result<(), AllocError> {
    push_joint_word(input)?;
    push_bang(input)?;
    input.push_ident(SyntaxKind::IDENT)
}

fn is_at(input: &Input, place: usize, kind: SyntaxKind, contextual: SyntaxKind) -> bool {
    (input.kind(place) == kind) & (input.contextual_kind(place) == contextual)
}

fn stands(input: &Input, (place, kind, contextual, joint): &Place) -> bool {
    is_at(input, *place, *kind, *contextual) & (input.is_joint(*place) == *joint)
}

#[test]
fn an_input_of_three_tokens(rt: HostRuntime) -> Result<(), AllocError> {
    let mut input = Input::with_capacity(rt.alloc(), 2)?;
    assert!(rt; (input.len() == 0) & (input.kind(0) == SyntaxKind::EOF));
    push_three(&mut input)?;
    assert!(rt; input.len() == 3);
    for place in THREE {
        assert!(rt; stands(&input, place), "at {}", place.0);
    }
    Ok(())
}

// Returns `true` if the input has exactly these tokens.
fn has(input: &Input, tokens: &[Seen]) -> bool {
    let mut same = input.len() == tokens.len();
    for (i, (kind, contextual, joint)) in tokens.iter().enumerate() {
        same = same & stands(input, &(i, *kind, *contextual, *joint));
    }
    same
}

// Returns `true` if the flag of each token of the input is `whole`, and that of its end is unset.
fn is_all_whole(input: &Input, whole: bool) -> bool {
    let mut same = !input.is_whole(input.len());
    for i in 0..input.len() {
        same = same & (input.is_whole(i) == whole);
    }
    same
}

// Returns `true` if the input of a text in an edition has these tokens, by either grammar.
fn sees_in(
    alloc: Global,
    edition: Edition,
    text: &str,
    tokens: &[Seen],
) -> Result<bool, AllocError> {
    let lexed = LexedStr::new(alloc, edition, text)?;
    let profile = lexed.to_input(alloc)?;
    let whole = lexed.to_whole_input(alloc)?;
    Ok(
        has(&profile, tokens)
            & is_all_whole(&profile, false)
            & has(&whole, tokens)
            & is_all_whole(&whole, true),
    )
}

// Returns `true` if the input of a text in edition 2015 has these tokens, by either grammar.
fn sees(alloc: Global, text: &str, tokens: &[Seen]) -> Result<bool, AllocError> {
    sees_in(alloc, Edition::Edition2015, text, tokens)
}

const JOINT_BY_THEIR_ENDS: &[(&str, &[Seen])] = &[
    (
        "x.0.1",
        &[
            (SyntaxKind::IDENT, SyntaxKind::IDENT, true),
            (SyntaxKind::DOT, SyntaxKind::EOF, true),
            (SyntaxKind::FLOAT_NUMBER, SyntaxKind::EOF, true),
        ],
    ),
    (
        "x.0.",
        &[
            (SyntaxKind::IDENT, SyntaxKind::IDENT, true),
            (SyntaxKind::DOT, SyntaxKind::EOF, true),
            (SyntaxKind::FLOAT_NUMBER, SyntaxKind::EOF, false),
        ],
    ),
    (
        "0.1 .",
        &[
            (SyntaxKind::FLOAT_NUMBER, SyntaxKind::EOF, true),
            (SyntaxKind::DOT, SyntaxKind::EOF, false),
        ],
    ),
];

#[test]
fn floats_are_joint_by_their_ends(rt: HostRuntime) -> Result<(), AllocError> {
    for (text, tokens) in JOINT_BY_THEIR_ENDS {
        assert!(rt; sees(rt.alloc(), text, tokens)?, "at {text}");
    }
    Ok(())
}

const PARTED: &[(&str, &[Seen])] = &[
    (
        "a << b",
        &[
            (SyntaxKind::IDENT, SyntaxKind::IDENT, false),
            (SyntaxKind::L_ANGLE, SyntaxKind::EOF, true),
            (SyntaxKind::L_ANGLE, SyntaxKind::EOF, false),
            (SyntaxKind::IDENT, SyntaxKind::IDENT, false),
        ],
    ),
    (
        "a < </**/ b",
        &[
            (SyntaxKind::IDENT, SyntaxKind::IDENT, false),
            (SyntaxKind::L_ANGLE, SyntaxKind::EOF, false),
            (SyntaxKind::L_ANGLE, SyntaxKind::EOF, false),
            (SyntaxKind::IDENT, SyntaxKind::IDENT, false),
        ],
    ),
];

#[test]
fn trivia_part_tokens(rt: HostRuntime) -> Result<(), AllocError> {
    for (text, tokens) in PARTED {
        assert!(rt; sees(rt.alloc(), text, tokens)?, "at {text}");
    }
    Ok(())
}

const CONTEXTUAL: &[(&str, &[Seen])] = &[
    (
        "dyn union\"a\"",
        &[
            (SyntaxKind::IDENT, SyntaxKind::DYN_KW, false),
            (SyntaxKind::IDENT, SyntaxKind::UNION_KW, true),
            (SyntaxKind::STRING, SyntaxKind::EOF, false),
        ],
    ),
    (" // dyn\n", &[]),
];

#[test]
fn contextual_words(rt: HostRuntime) -> Result<(), AllocError> {
    for (text, tokens) in CONTEXTUAL {
        assert!(rt; sees(rt.alloc(), text, tokens)?, "at {text}");
    }
    Ok(())
}

const PIPE_ANGLE: &[(Edition, &str, &[Seen])] = &[
    (
        Edition::EditionNext,
        "a|>b",
        &[
            (SyntaxKind::IDENT, SyntaxKind::IDENT, true),
            (SyntaxKind::PIPE, SyntaxKind::PIPE_GT, true),
            (SyntaxKind::R_ANGLE, SyntaxKind::EOF, true),
            (SyntaxKind::IDENT, SyntaxKind::IDENT, false),
        ],
    ),
    (
        Edition::EditionNext,
        "| > || >",
        &[
            (SyntaxKind::PIPE, SyntaxKind::EOF, false),
            (SyntaxKind::R_ANGLE, SyntaxKind::EOF, false),
            (SyntaxKind::PIPE, SyntaxKind::EOF, true),
            (SyntaxKind::PIPE, SyntaxKind::EOF, false),
            (SyntaxKind::R_ANGLE, SyntaxKind::EOF, false),
        ],
    ),
    (
        Edition::EditionNext,
        "||>=",
        &[
            (SyntaxKind::PIPE, SyntaxKind::EOF, true),
            (SyntaxKind::PIPE, SyntaxKind::PIPE_GT, true),
            (SyntaxKind::R_ANGLE, SyntaxKind::EOF, true),
            (SyntaxKind::EQ, SyntaxKind::EOF, false),
        ],
    ),
    (
        Edition::Edition2024,
        "|>",
        &[
            (SyntaxKind::PIPE, SyntaxKind::EOF, true),
            (SyntaxKind::R_ANGLE, SyntaxKind::EOF, false),
        ],
    ),
];

#[test]
fn pipe_angle_is_an_operator_of_next(rt: HostRuntime) -> Result<(), AllocError> {
    for (edition, text, tokens) in PIPE_ANGLE {
        assert!(rt; sees_in(rt.alloc(), *edition, text, tokens)?, "at {text}");
    }
    Ok(())
}

#[test]
fn push_pipe_is_not_joint(rt: HostRuntime) -> Result<(), AllocError> {
    let mut input = Input::with_capacity(rt.alloc(), 1)?;
    input.push_pipe()?;
    assert!(rt; has(&input, &[(SyntaxKind::PIPE, SyntaxKind::PIPE_GT, false)]));
    assert!(rt; is_all_whole(&input, false));
    Ok(())
}

// Returns `true` if two texts have equal inputs, and these differ from the input for the whole
// language unless the text is empty.
fn are_equal(alloc: Global, edition: Edition, one: &str, other: &str) -> Result<bool, AllocError> {
    let one = LexedStr::new(alloc, edition, one)?;
    let other = LexedStr::new(alloc, edition, other)?;
    let same = one.to_input(alloc)? == other.to_input(alloc)?;
    let whole_differs = other.len() == 0 || one.to_whole_input(alloc)? != other.to_input(alloc)?;
    Ok(same & whole_differs)
}

const EQUAL: &[(&str, &str)] = &[("", ""), ("a b", "c /**/ d\n"), ("x.0.1", "y.2.3")];

const UNEQUAL: &[(&str, &str)] = &[
    ("a", "a b"),
    ("a", "1"),
    ("a", "union"),
    ("a+b", "a +b"),
    ("x.0.1", "x.0."),
    ("a |> b", "a | > b"),
];

#[test]
fn inputs_are_equal_by_their_tokens(rt: HostRuntime) -> Result<(), AllocError> {
    for (one, other) in EQUAL {
        assert!(rt;
            are_equal(rt.alloc(), Edition::EditionNext, one, other)?,
            "at {one}"
        );
    }
    for (one, other) in UNEQUAL {
        assert!(rt;
            !are_equal(rt.alloc(), Edition::EditionNext, one, other)?,
            "at {one}"
        );
    }
    Ok(())
}
