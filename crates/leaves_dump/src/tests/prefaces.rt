//! Shebangs and frontmatters.
use parser_input::frontmatter::{ScriptSource, is_rust_whitespace};
use parser_input::frontmatter_error::FrontmatterError;
use std::ops::Range;

fn is_span(range: Option<Range<usize>>, start: usize, end: usize) -> bool {
    match range {
        Some(range) => (range.start, range.end) == (start, end),
        None => false,
    }
}

fn has_spans(source: &ScriptSource<'_>) -> bool {
    is_span(source.shebang_span(), 0, 3)
        & is_span(source.open_span(), 4, 7)
        & is_span(source.info_span(), 8, 12)
        & is_span(source.frontmatter_span(), 13, 19)
        & is_span(source.close_span(), 19, 22)
        & is_span(Some(source.content_span()), 23, 23)
}

fn has_texts(source: &ScriptSource<'_>) -> bool {
    (source.shebang() == Some("#!x"))
        & (source.info() == Some("toml"))
        & (source.frontmatter() == Some("a = 1\n"))
        & (source.content() == "")
}

fn has_all(source: Result<ScriptSource<'_>, FrontmatterError>) -> bool {
    match source {
        Ok(source) => has_spans(&source) & has_texts(&source),
        Err(_) => false,
    }
}

#[test]
fn a_shebang_and_a_frontmatter(rt: HostRuntime) {
    assert!(rt; has_all(ScriptSource::parse("#!x\n--- toml\na = 1\n---\n")));
}

/// A text without a frontmatter, its shebang and its content.
type Bare = (&'static str, Option<&'static str>, &'static str);

// Leading whitespace is skipped only if a line feed ends it, and an attribute is no shebang.
const BARE: &[Bare] = &[
    ("", None, ""),
    ("struct S;", None, "struct S;"),
    ("  ---", None, "  ---"),
    ("\n  ---\n  ---\n", None, "\n  ---\n  ---\n"),
    ("#![a]\nfn", None, "#![a]\nfn"),
    ("#!x\r\nfn", Some("#!x"), "\r\nfn"),
    ("#!x", Some("#!x"), ""),
];

fn is_bare(source: &ScriptSource<'_>, (_, shebang, content): &Bare) -> bool {
    (source.shebang() == *shebang)
        & (source.content() == *content)
        & source.frontmatter().is_none()
        & source.info().is_none()
        & source.open_span().is_none()
}

fn parses_bare(row: &Bare) -> bool {
    match ScriptSource::parse(row.0) {
        Ok(source) => is_bare(&source, row),
        Err(_) => false,
    }
}

#[test]
fn texts_without_frontmatter(rt: HostRuntime) {
    for row in BARE {
        assert!(rt; parses_bare(row), "at {}", row.0);
    }
}

/// A text, the info and the lines of its frontmatter, and its content.
type Front = (
    &'static str,
    Option<&'static str>,
    &'static str,
    &'static str,
);

// Whitespace around the info is dropped, other lines that start with dashes are skipped, and a
// carriage return is not part of a line.
const FRONTS: &[Front] = &[
    ("---\n---\nstruct S;", None, "", "struct S;"),
    ("---\n---", None, "", ""),
    (
        "\n \n--- \t\n--\n----\n--- x\n--- \t\r\nfn",
        None,
        "--\n----\n--- x\n",
        "fn",
    ),
    ("---- a  b \r\n---\n----\n", Some("a  b"), "---\n", ""),
    ("---\u{2003}é\u{85}\n---\n", Some("\u{2003}é"), "", ""),
];

fn is_front(source: &ScriptSource<'_>, (_, info, frontmatter, content): &Front) -> bool {
    (source.info() == *info)
        & (source.frontmatter() == Some(*frontmatter))
        & (source.content() == *content)
}

fn parses_front(row: &Front) -> bool {
    match ScriptSource::parse(row.0) {
        Ok(source) => is_front(&source, row),
        Err(_) => false,
    }
}

#[test]
fn frontmatters_by_their_lines(rt: HostRuntime) {
    for row in FRONTS {
        assert!(rt; parses_front(row), "at {}", row.0);
    }
}

/// A text, whether its error is too few dashes, and the start and the end of those dashes.
type Refused = (&'static str, bool, usize, usize);

const REFUSED: &[Refused] = &[
    ("-\n", true, 0, 1),
    ("--\n", true, 0, 2),
    ("#!x\n--é", true, 4, 6),
    ("---", false, 0, 3),
    ("----\n---\nstruct S;", false, 0, 4),
    (" \n---\n ---\n", false, 2, 5),
];

fn is_refusal(refusal: &FrontmatterError, (_, too_few, start, end): &Refused) -> bool {
    let is_too_few = matches!(refusal, FrontmatterError::TooFewDashes { .. });
    is_span(Some(refusal.primary_span()), *start, *end) & (is_too_few == *too_few)
}

fn is_refused(row: &Refused) -> bool {
    match ScriptSource::parse(row.0) {
        Ok(_) => false,
        Err(refusal) => is_refusal(&refusal, row),
    }
}

#[test]
fn frontmatters_that_are_refused(rt: HostRuntime) {
    for row in REFUSED {
        assert!(rt; is_refused(row), "at {}", row.0);
    }
}

const WHITE: &[char] = &[
    '\t', '\n', '\u{B}', '\u{C}', '\r', ' ', '\u{85}', '\u{200E}', '\u{200F}', '\u{2028}',
    '\u{2029}',
];

const NOT_WHITE: &[char] = &[
    '\0', 'a', '\u{8}', '\u{E}', '\u{A0}', '\u{2003}', '\u{3000}',
];

#[test]
fn white_space_of_rust(rt: HostRuntime) {
    for c in WHITE {
        assert!(rt; is_rust_whitespace(*c));
    }
    for c in NOT_WHITE {
        assert!(rt; !is_rust_whitespace(*c));
    }
}
