//! Kinds, their names, and the words of each edition.
use parser_input::keywords::{contextual_keyword, keyword, word_kind};
use parser_input::{Edition, SyntaxKind};

const EDITIONS: &[Edition] = &[
    Edition::Edition2015,
    Edition::Edition2018,
    Edition::Edition2021,
    Edition::Edition2024,
    Edition::EditionNext,
];

fn is_undone(raw: u16) -> bool {
    match SyntaxKind::from_raw(raw) {
        Some(kind) => (kind.to_raw() == raw) & (SyntaxKind::from_name(kind.name()) == Some(kind)),
        None => false,
    }
}

const NO_KINDS: &[u16] = &[256, 257, 512, u16::MAX];

#[test]
fn numbers_and_names_undo_each_other(rt: HostRuntime) {
    for raw in 0..256 {
        assert!(rt; is_undone(raw), "at {raw}");
    }
    for raw in NO_KINDS {
        assert!(rt; SyntaxKind::from_raw(*raw).is_none(), "at {raw}");
    }
}

const NAMES: &[(SyntaxKind, &str)] = &[
    (SyntaxKind::TOMBSTONE, "TOMBSTONE"),
    (SyntaxKind::L_CURLY, "L_CURLY"),
    (SyntaxKind::DOT2EQ, "DOT2EQ"),
    (SyntaxKind::SELF_TYPE_KW, "SELF_TYPE_KW"),
    (SyntaxKind::MACRO_RULES_KW, "MACRO_RULES_KW"),
    (SyntaxKind::WHITESPACE, "WHITESPACE"),
    (SyntaxKind::SOURCE_FILE, "SOURCE_FILE"),
    (SyntaxKind::STRUCT, "STRUCT"),
    (SyntaxKind::MATCH_GUARD, "MATCH_GUARD"),
    (SyntaxKind::EXTERN_CRATE, "EXTERN_CRATE"),
    (SyntaxKind::UNDERSCORE_EXPR, "UNDERSCORE_EXPR"),
    (SyntaxKind::DEFER_STMT, "DEFER_STMT"),
    (SyntaxKind::PIPE_GT, "PIPE_GT"),
];

fn is_named(kind: SyntaxKind, name: &str) -> bool {
    (kind.name() == name) & (SyntaxKind::from_name(name) == Some(kind))
}

const NO_NAMES: &[&str] = &["", "struct", "STRUCT_KW ", "DOC_COMMENT", "X_KW"];

#[test]
fn names_are_the_variants(rt: HostRuntime) {
    for (kind, name) in NAMES {
        assert!(rt; is_named(*kind, name), "at {name}");
    }
    for name in NO_NAMES {
        assert!(rt; SyntaxKind::from_name(name).is_none(), "at {name}");
    }
}

fn is_bracket(kind: SyntaxKind, name: &str) -> bool {
    let opens = (name == "L_PAREN") | (name == "L_CURLY") | (name == "L_BRACK");
    let closes = (name == "R_PAREN") | (name == "R_CURLY") | (name == "R_BRACK");
    (kind.is_l_delimiter() == opens)
        & (kind.is_r_delimiter() == closes)
        & (kind.is_delimiter() == (opens | closes))
}

fn is_classed(kind: SyntaxKind, name: &str) -> bool {
    let is_trivia = (name == "WHITESPACE") | (name == "COMMENT");
    let is_word = (name == "IDENT") | name.ends_with("_KW");
    (kind.is_trivia() == is_trivia) & (kind.is_any_identifier() == is_word)
}

fn is_told_by_name(raw: u16) -> bool {
    match SyntaxKind::from_raw(raw) {
        Some(kind) => is_bracket(kind, kind.name()) & is_classed(kind, kind.name()),
        None => false,
    }
}

#[test]
fn trivia_and_brackets(rt: HostRuntime) {
    for raw in 0..256 {
        assert!(rt; is_told_by_name(raw), "at {raw}");
    }
}

fn is_keyword_of(raw: u16, edition: Edition) -> bool {
    match SyntaxKind::from_raw(raw) {
        Some(kind) => kind.is_keyword(edition),
        None => false,
    }
}

/// Kinds by their raw numbers: those of the profile keep theirs, and the last three are those of
/// edition `next`.
const NUMBERS: &[(SyntaxKind, u16)] = &[
    (SyntaxKind::TOMBSTONE, 0),
    (SyntaxKind::MATCH_GUARD, 237),
    (SyntaxKind::EXTERN_CRATE, 238),
    (SyntaxKind::UNDERSCORE_EXPR, 252),
    (SyntaxKind::DEFER_KW, 253),
    (SyntaxKind::DEFER_STMT, 254),
    (SyntaxKind::PIPE_GT, 255),
];

#[test]
fn raw_numbers_of_kinds(rt: HostRuntime) {
    for (kind, raw) in NUMBERS {
        assert!(rt; kind.to_raw() == *raw, "at {raw}");
    }
}

fn count_of_keywords(edition: Edition) -> u32 {
    let mut count = 0u32;
    for raw in 0..256 {
        if is_keyword_of(raw, edition) {
            count = count.wrapping_add(1);
        }
    }
    count
}

const COUNTS: &[(Edition, u32)] = &[
    (Edition::Edition2015, 54),
    (Edition::Edition2018, 57),
    (Edition::Edition2021, 57),
    (Edition::Edition2024, 58),
    (Edition::EditionNext, 59),
];

#[test]
fn keywords_of_each_edition(rt: HostRuntime) {
    for (edition, count) in COUNTS {
        assert!(rt; count_of_keywords(*edition) == *count, "of {count}");
    }
}

/// The editions in which a word is a keyword.
#[derive(Clone, Copy, PartialEq, Eq)]
enum When {
    Always,
    Since2018,
    Before2018,
    Since2024,
    SinceNext,
    Never,
}

fn is_now(when: When, edition: Edition) -> bool {
    match when {
        When::Always => true,
        When::Since2018 => edition >= Edition::Edition2018,
        When::Before2018 => edition < Edition::Edition2018,
        When::Since2024 => edition >= Edition::Edition2024,
        When::SinceNext => edition >= Edition::EditionNext,
        When::Never => false,
    }
}

/// A word, its kind, and when it is a keyword and a contextual one.
type Word = (&'static str, SyntaxKind, When, When);

const WORDS: &[Word] = &[
    ("as", SyntaxKind::AS_KW, When::Always, When::Never),
    ("Self", SyntaxKind::SELF_TYPE_KW, When::Always, When::Never),
    ("self", SyntaxKind::SELF_KW, When::Always, When::Never),
    ("where", SyntaxKind::WHERE_KW, When::Always, When::Never),
    ("while", SyntaxKind::WHILE_KW, When::Always, When::Never),
    ("yield", SyntaxKind::YIELD_KW, When::Always, When::Never),
    ("async", SyntaxKind::ASYNC_KW, When::Since2018, When::Never),
    ("await", SyntaxKind::AWAIT_KW, When::Since2018, When::Never),
    ("try", SyntaxKind::TRY_KW, When::Since2018, When::Never),
    ("dyn", SyntaxKind::DYN_KW, When::Since2018, When::Before2018),
    ("gen", SyntaxKind::GEN_KW, When::Since2024, When::Never),
    ("defer", SyntaxKind::DEFER_KW, When::SinceNext, When::Never),
    ("auto", SyntaxKind::AUTO_KW, When::Never, When::Always),
    ("default", SyntaxKind::DEFAULT_KW, When::Never, When::Always),
    (
        "macro_rules",
        SyntaxKind::MACRO_RULES_KW,
        When::Never,
        When::Always,
    ),
    ("raw", SyntaxKind::RAW_KW, When::Never, When::Always),
    ("safe", SyntaxKind::SAFE_KW, When::Never, When::Always),
    ("union", SyntaxKind::UNION_KW, When::Never, When::Always),
];

fn is_kind_when(found: Option<SyntaxKind>, kind: SyntaxKind, holds: bool) -> bool {
    found == holds.then_some(kind)
}

fn is_word(edition: Edition, (text, kind, hard, soft): &Word) -> bool {
    let hard = is_now(*hard, edition);
    let soft = is_now(*soft, edition);
    is_kind_when(keyword(edition, text), *kind, hard)
        & is_kind_when(contextual_keyword(edition, text), *kind, soft)
        & (kind.is_keyword(edition) == (hard | soft))
}

fn is_no_word(edition: Edition, text: &str) -> bool {
    keyword(edition, text).is_none() & contextual_keyword(edition, text).is_none()
}

const NO_WORDS: &[&str] = &[
    "",
    "_",
    "a",
    "é",
    "SELF",
    "structs",
    "aſ",
    "static_assert",
    "'static",
];

fn is_word_always(word: &Word) -> bool {
    EDITIONS.iter().all(|edition| is_word(*edition, word))
}

fn is_never_word(text: &str) -> bool {
    EDITIONS.iter().all(|edition| is_no_word(*edition, text))
}

#[test]
fn words_by_their_texts(rt: HostRuntime) {
    for word in WORDS {
        assert!(rt; is_word_always(word), "at {}", word.0);
    }
    for text in NO_WORDS {
        assert!(rt; is_never_word(text), "at {text}");
    }
}

const KINDS: &[(Edition, &str, SyntaxKind)] = &[
    (Edition::Edition2015, "async", SyntaxKind::IDENT),
    (Edition::Edition2018, "async", SyntaxKind::ASYNC_KW),
    (Edition::Edition2021, "union", SyntaxKind::IDENT),
    (Edition::Edition2021, "_", SyntaxKind::UNDERSCORE),
    (Edition::Edition2024, "gen", SyntaxKind::GEN_KW),
    (Edition::Edition2024, "defer", SyntaxKind::IDENT),
    (Edition::EditionNext, "defer", SyntaxKind::DEFER_KW),
];

#[test]
fn kinds_of_words(rt: HostRuntime) {
    for (edition, text, kind) in KINDS {
        assert!(rt; word_kind(*edition, text) == *kind, "at {text}");
    }
}
