//! Leaves and their errors.
use parser_input::{Edition, LexedStr, SyntaxKind};
use std::alloc::{AllocError, Global};

/// The index of a leaf, and its error.
type Wrong = (usize, &'static str);

fn is_wrong(messages: &[Wrong], place: usize, wrong: Wrong) -> bool {
    place < messages.len() && messages[place] == wrong
}

// Returns the number of errors up to and including this leaf, or `None` if the leaf is of another
// kind or has another error than the next one.
fn read_leaf(
    lexed: &LexedStr<'_>,
    leaf: usize,
    kind: SyntaxKind,
    messages: &[Wrong],
    count: usize,
) -> Option<usize> {
    if leaf >= lexed.len() || lexed.kind(leaf) != kind {
        return None;
    }
    match lexed.error(leaf) {
        Some(message) if !is_wrong(messages, count, (leaf, message)) => None,
        Some(_) => count.checked_add(1),
        None => Some(count),
    }
}

fn has_leaves(lexed: &LexedStr<'_>, kinds: &[SyntaxKind], messages: &[Wrong]) -> bool {
    let mut count = 0;
    for (leaf, kind) in kinds.iter().enumerate() {
        match read_leaf(lexed, leaf, *kind, messages, count) {
            Some(next) => count = next,
            None => return false,
        }
    }
    count == messages.len()
}

fn has_size(lexed: &LexedStr<'_>, text: &str, count: usize) -> bool {
    (lexed.as_str() == text) & (lexed.len() == count) & (lexed.is_empty() == (count == 0))
}

// Returns `true` if a text has leaves of these kinds, and exactly these errors.
fn reads(
    alloc: Global,
    edition: Edition,
    text: &str,
    kinds: &[SyntaxKind],
    messages: &[Wrong],
) -> Result<bool, AllocError> {
    let lexed = LexedStr::new(alloc, edition, text)?;
    Ok(has_size(&lexed, text, kinds.len()) & has_leaves(&lexed, kinds, messages))
}

/// A text that an edition reads as leaves of these kinds.
type Row = (
    Edition,
    &'static str,
    &'static [SyntaxKind],
    &'static [Wrong],
);

fn row_holds(alloc: Global, (edition, text, kinds, messages): &Row) -> Result<bool, AllocError> {
    reads(alloc, *edition, text, kinds, messages)
}

const GUARDED: &[Row] = &[
    (
        Edition::Edition2021,
        "#\"a\"",
        &[SyntaxKind::POUND, SyntaxKind::STRING],
        &[],
    ),
    (
        Edition::Edition2024,
        "#\"a\"",
        &[SyntaxKind::ERROR, SyntaxKind::IDENT, SyntaxKind::STRING],
        &[
            (0, "guarded prefix"),
            (1, "unknown prefix"),
            (2, "unterminated literal"),
        ],
    ),
    (
        Edition::Edition2021,
        "##\"a\"",
        &[SyntaxKind::POUND, SyntaxKind::POUND, SyntaxKind::STRING],
        &[],
    ),
    (
        Edition::Edition2024,
        "##\"a\"",
        &[SyntaxKind::ERROR, SyntaxKind::STRING],
        &[(0, "guarded prefix")],
    ),
];

#[test]
fn guarded_prefixes(rt: HostRuntime) -> Result<(), AllocError> {
    for row in GUARDED {
        assert!(rt; row_holds(rt.alloc(), row)?, "at {}", row.1);
    }
    Ok(())
}

const PREFACES: &[Row] = &[
    (
        Edition::Edition2021,
        "#!x\n--- toml\na = 1\n---\n",
        &[SyntaxKind::SHEBANG, SyntaxKind::FRONTMATTER],
        &[],
    ),
    (Edition::Edition2021, "", &[], &[]),
    (
        Edition::Edition2021,
        "---\n---\nstruct",
        &[SyntaxKind::FRONTMATTER, SyntaxKind::STRUCT_KW],
        &[],
    ),
    (
        Edition::Edition2021,
        "#!x\n-",
        &[
            SyntaxKind::SHEBANG,
            SyntaxKind::WHITESPACE,
            SyntaxKind::MINUS,
        ],
        &[],
    ),
];

#[test]
fn prefaces_are_leaves(rt: HostRuntime) -> Result<(), AllocError> {
    for row in PREFACES {
        assert!(rt; row_holds(rt.alloc(), row)?, "at {}", row.1);
    }
    Ok(())
}

/// A text that is one leaf, its kind, and its error.
type Single = (&'static str, SyntaxKind, Option<&'static str>);

fn is_single(alloc: Global, (text, kind, message): &Single) -> Result<bool, AllocError> {
    let edition = Edition::Edition2021;
    match message {
        Some(message) => reads(alloc, edition, text, &[*kind], &[(0, *message)]),
        None => reads(alloc, edition, text, &[*kind], &[]),
    }
}

const SINGLES: &[Single] = &[
    (
        "/* /* */",
        SyntaxKind::COMMENT,
        Some("unterminated block comment"),
    ),
    ("0x", SyntaxKind::INT_NUMBER, Some("no digits")),
    ("1e", SyntaxKind::FLOAT_NUMBER, Some("no exponent digits")),
    ("\"a", SyntaxKind::STRING, Some("unterminated literal")),
    ("b'a", SyntaxKind::BYTE, Some("unterminated literal")),
    ("r#\"a\"", SyntaxKind::STRING, Some("invalid raw string")),
    ("\"\\q\"", SyntaxKind::STRING, Some("bad escape")),
    ("'\\x80'", SyntaxKind::CHAR, Some("bad escape")),
    ("'\\u{D800}'", SyntaxKind::CHAR, Some("bad escape")),
    ("'\\u{0000001}'", SyntaxKind::CHAR, Some("bad escape")),
    ("\"\\u{_1}\"", SyntaxKind::STRING, Some("bad escape")),
    ("b'\\u{41}'", SyntaxKind::BYTE, Some("bad escape")),
    ("c\"\\0\"", SyntaxKind::C_STRING, Some("bad escape")),
    ("c\"\\u{0}\"", SyntaxKind::C_STRING, Some("bad escape")),
    ("cr\"\0\"", SyntaxKind::C_STRING, Some("bad escape")),
    ("\"\\\r\n\"", SyntaxKind::STRING, Some("bad escape")),
    (
        "b\"é\"",
        SyntaxKind::BYTE_STRING,
        Some("byte literal past ASCII"),
    ),
    (
        "br\"é\"",
        SyntaxKind::BYTE_STRING,
        Some("byte literal past ASCII"),
    ),
    ("''", SyntaxKind::CHAR, Some("bad literal length")),
    ("b'ab'", SyntaxKind::BYTE, Some("bad literal length")),
    (
        "'1a",
        SyntaxKind::LIFETIME_IDENT,
        Some("lifetime starts with a digit"),
    ),
    ("\u{1}", SyntaxKind::ERROR, Some("unknown character")),
    (
        "\"\\n\\r\\t\\\\\\0\\'\\\"\\x7F\\u{1_}\\u{10FFFF}\\\n\"",
        SyntaxKind::STRING,
        None,
    ),
    ("b\"\\xFF\"é", SyntaxKind::BYTE_STRING, None),
    ("c\"\\xFFé\"", SyntaxKind::C_STRING, None),
    ("'''", SyntaxKind::CHAR, None),
    ("'\\u{e9}'x", SyntaxKind::CHAR, None),
    ("b'\\''", SyntaxKind::BYTE, None),
    ("_", SyntaxKind::UNDERSCORE, None),
    ("r#fn", SyntaxKind::IDENT, None),
];

#[test]
fn messages_by_the_table(rt: HostRuntime) -> Result<(), AllocError> {
    for single in SINGLES {
        assert!(rt; is_single(rt.alloc(), single)?, "at {}", single.0);
    }
    Ok(())
}

/// The index of a leaf, its start, its end, and its text.
type Place = (usize, usize, usize, &'static str);

const PLACES: &[Place] = &[
    (0, 0, 2, "é"),
    (1, 2, 3, " "),
    (2, 3, 4, "="),
    (4, 5, 8, "'x'"),
    (5, 8, 9, ";"),
];

fn stands(lexed: &LexedStr<'_>, (leaf, start, end, text): &Place) -> bool {
    if *leaf >= lexed.len() {
        return false;
    }
    let length = lexed.text_len(*leaf);
    (lexed.text_start(*leaf) == *start)
        & (start.checked_add(length) == Some(*end))
        & (lexed.text(*leaf) == *text)
}

#[test]
fn where_leaves_stand(rt: HostRuntime) -> Result<(), AllocError> {
    let lexed = LexedStr::new(rt.alloc(), Edition::Edition2021, "é = 'x';")?;
    for place in PLACES {
        assert!(rt; stands(&lexed, place), "at {}", place.0);
    }
    Ok(())
}

fn are_rows(lexed: &LexedStr<'_>) -> bool {
    if lexed.len() != 6 {
        return false;
    }
    let range = lexed.text_range(2);
    ((range.start, range.end) == (3, 4))
        & (lexed.range_text(0..3) == "é =")
        & (lexed.range_text(3..6) == " 'x';")
        & (lexed.range_text(6..6) == "")
}

#[test]
fn rows_of_leaves(rt: HostRuntime) -> Result<(), AllocError> {
    let lexed = LexedStr::new(rt.alloc(), Edition::Edition2021, "é = 'x';")?;
    assert!(rt; are_rows(&lexed));
    Ok(())
}

fn is_token((text, kind, message): &Single) -> bool {
    LexedStr::single_token(Edition::Edition2024, text) == Some((*kind, *message))
}

const TOKENS: &[Single] = &[
    ("struct", SyntaxKind::STRUCT_KW, None),
    ("1e", SyntaxKind::FLOAT_NUMBER, Some("no exponent digits")),
    (
        "/* a",
        SyntaxKind::COMMENT,
        Some("unterminated block comment"),
    ),
    ("#\"", SyntaxKind::ERROR, Some("guarded prefix")),
];

#[test]
fn texts_of_one_token(rt: HostRuntime) {
    for token in TOKENS {
        assert!(rt; is_token(token), "at {}", token.0);
    }
}

const NO_TOKENS: &[&str] = &["", "a b", "::", "#!x", "#\"", "##"];

fn is_no_token(text: &str) -> bool {
    LexedStr::single_token(Edition::Edition2021, text).is_none()
}

#[test]
fn texts_of_no_token_or_several(rt: HostRuntime) {
    for text in NO_TOKENS {
        assert!(rt; is_no_token(text), "at {text}");
    }
}

const ERRORS: &[Option<Wrong>] = &[
    Some((0, "no exponent digits")),
    Some((4, "bad literal length")),
    Some((6, "byte literal past ASCII")),
    None,
    None,
];

#[test]
fn errors_by_leaf(rt: HostRuntime) -> Result<(), AllocError> {
    let lexed = LexedStr::new(rt.alloc(), Edition::Edition2021, "1e ok '' b\"é\"")?;
    let mut errors = lexed.errors();
    for error in ERRORS {
        assert!(rt; errors.next() == *error);
    }
    Ok(())
}
