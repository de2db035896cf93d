//! The table of keywords and contextual keywords, and its index.

use crate::edition::Edition;
use crate::syntax_kind::SyntaxKind;

/// A text that is a keyword or a contextual keyword in some edition.
#[derive(Clone, Copy)]
pub(crate) struct Word {
    pub(crate) text: &'static str,
    pub(crate) kind: SyntaxKind,
    /// The first edition in which it is a keyword, if any.
    pub(crate) since: Option<Edition>,
    /// `true` if it is a contextual keyword in the editions in which it is no keyword.
    pub(crate) is_contextual: bool,
}

const ALWAYS: Option<Edition> = Some(Edition::Edition2015);

const SINCE_2018: Option<Edition> = Some(Edition::Edition2018);

const SINCE_2024: Option<Edition> = Some(Edition::Edition2024);

const SINCE_NEXT: Option<Edition> = Some(Edition::EditionNext);

const NEVER: Option<Edition> = None;

pub(crate) static WORDS: [Word; 59] = [
    Word {
        text: "as",
        kind: SyntaxKind::AS_KW,
        since: ALWAYS,
        is_contextual: false,
    },
    Word {
        text: "break",
        kind: SyntaxKind::BREAK_KW,
        since: ALWAYS,
        is_contextual: false,
    },
    Word {
        text: "const",
        kind: SyntaxKind::CONST_KW,
        since: ALWAYS,
        is_contextual: false,
    },
    Word {
        text: "continue",
        kind: SyntaxKind::CONTINUE_KW,
        since: ALWAYS,
        is_contextual: false,
    },
    Word {
        text: "crate",
        kind: SyntaxKind::CRATE_KW,
        since: ALWAYS,
        is_contextual: false,
    },
    Word {
        text: "else",
        kind: SyntaxKind::ELSE_KW,
        since: ALWAYS,
        is_contextual: false,
    },
    Word {
        text: "enum",
        kind: SyntaxKind::ENUM_KW,
        since: ALWAYS,
        is_contextual: false,
    },
    Word {
        text: "extern",
        kind: SyntaxKind::EXTERN_KW,
        since: ALWAYS,
        is_contextual: false,
    },
    Word {
        text: "false",
        kind: SyntaxKind::FALSE_KW,
        since: ALWAYS,
        is_contextual: false,
    },
    Word {
        text: "fn",
        kind: SyntaxKind::FN_KW,
        since: ALWAYS,
        is_contextual: false,
    },
    Word {
        text: "for",
        kind: SyntaxKind::FOR_KW,
        since: ALWAYS,
        is_contextual: false,
    },
    Word {
        text: "if",
        kind: SyntaxKind::IF_KW,
        since: ALWAYS,
        is_contextual: false,
    },
    Word {
        text: "impl",
        kind: SyntaxKind::IMPL_KW,
        since: ALWAYS,
        is_contextual: false,
    },
    Word {
        text: "in",
        kind: SyntaxKind::IN_KW,
        since: ALWAYS,
        is_contextual: false,
    },
    Word {
        text: "let",
        kind: SyntaxKind::LET_KW,
        since: ALWAYS,
        is_contextual: false,
    },
    Word {
        text: "loop",
        kind: SyntaxKind::LOOP_KW,
        since: ALWAYS,
        is_contextual: false,
    },
    Word {
        text: "match",
        kind: SyntaxKind::MATCH_KW,
        since: ALWAYS,
        is_contextual: false,
    },
    Word {
        text: "mod",
        kind: SyntaxKind::MOD_KW,
        since: ALWAYS,
        is_contextual: false,
    },
    Word {
        text: "move",
        kind: SyntaxKind::MOVE_KW,
        since: ALWAYS,
        is_contextual: false,
    },
    Word {
        text: "mut",
        kind: SyntaxKind::MUT_KW,
        since: ALWAYS,
        is_contextual: false,
    },
    Word {
        text: "pub",
        kind: SyntaxKind::PUB_KW,
        since: ALWAYS,
        is_contextual: false,
    },
    Word {
        text: "ref",
        kind: SyntaxKind::REF_KW,
        since: ALWAYS,
        is_contextual: false,
    },
    Word {
        text: "return",
        kind: SyntaxKind::RETURN_KW,
        since: ALWAYS,
        is_contextual: false,
    },
    Word {
        text: "self",
        kind: SyntaxKind::SELF_KW,
        since: ALWAYS,
        is_contextual: false,
    },
    Word {
        text: "Self",
        kind: SyntaxKind::SELF_TYPE_KW,
        since: ALWAYS,
        is_contextual: false,
    },
    Word {
        text: "static",
        kind: SyntaxKind::STATIC_KW,
        since: ALWAYS,
        is_contextual: false,
    },
    Word {
        text: "struct",
        kind: SyntaxKind::STRUCT_KW,
        since: ALWAYS,
        is_contextual: false,
    },
    Word {
        text: "super",
        kind: SyntaxKind::SUPER_KW,
        since: ALWAYS,
        is_contextual: false,
    },
    Word {
        text: "trait",
        kind: SyntaxKind::TRAIT_KW,
        since: ALWAYS,
        is_contextual: false,
    },
    Word {
        text: "true",
        kind: SyntaxKind::TRUE_KW,
        since: ALWAYS,
        is_contextual: false,
    },
    Word {
        text: "type",
        kind: SyntaxKind::TYPE_KW,
        since: ALWAYS,
        is_contextual: false,
    },
    Word {
        text: "unsafe",
        kind: SyntaxKind::UNSAFE_KW,
        since: ALWAYS,
        is_contextual: false,
    },
    Word {
        text: "use",
        kind: SyntaxKind::USE_KW,
        since: ALWAYS,
        is_contextual: false,
    },
    Word {
        text: "where",
        kind: SyntaxKind::WHERE_KW,
        since: ALWAYS,
        is_contextual: false,
    },
    Word {
        text: "while",
        kind: SyntaxKind::WHILE_KW,
        since: ALWAYS,
        is_contextual: false,
    },
    Word {
        text: "abstract",
        kind: SyntaxKind::ABSTRACT_KW,
        since: ALWAYS,
        is_contextual: false,
    },
    Word {
        text: "become",
        kind: SyntaxKind::BECOME_KW,
        since: ALWAYS,
        is_contextual: false,
    },
    Word {
        text: "box",
        kind: SyntaxKind::BOX_KW,
        since: ALWAYS,
        is_contextual: false,
    },
    Word {
        text: "do",
        kind: SyntaxKind::DO_KW,
        since: ALWAYS,
        is_contextual: false,
    },
    Word {
        text: "final",
        kind: SyntaxKind::FINAL_KW,
        since: ALWAYS,
        is_contextual: false,
    },
    Word {
        text: "macro",
        kind: SyntaxKind::MACRO_KW,
        since: ALWAYS,
        is_contextual: false,
    },
    Word {
        text: "override",
        kind: SyntaxKind::OVERRIDE_KW,
        since: ALWAYS,
        is_contextual: false,
    },
    Word {
        text: "priv",
        kind: SyntaxKind::PRIV_KW,
        since: ALWAYS,
        is_contextual: false,
    },
    Word {
        text: "typeof",
        kind: SyntaxKind::TYPEOF_KW,
        since: ALWAYS,
        is_contextual: false,
    },
    Word {
        text: "unsized",
        kind: SyntaxKind::UNSIZED_KW,
        since: ALWAYS,
        is_contextual: false,
    },
    Word {
        text: "virtual",
        kind: SyntaxKind::VIRTUAL_KW,
        since: ALWAYS,
        is_contextual: false,
    },
    Word {
        text: "yield",
        kind: SyntaxKind::YIELD_KW,
        since: ALWAYS,
        is_contextual: false,
    },
    Word {
        text: "async",
        kind: SyntaxKind::ASYNC_KW,
        since: SINCE_2018,
        is_contextual: false,
    },
    Word {
        text: "await",
        kind: SyntaxKind::AWAIT_KW,
        since: SINCE_2018,
        is_contextual: false,
    },
    Word {
        text: "dyn",
        kind: SyntaxKind::DYN_KW,
        since: SINCE_2018,
        is_contextual: true,
    },
    Word {
        text: "try",
        kind: SyntaxKind::TRY_KW,
        since: SINCE_2018,
        is_contextual: false,
    },
    Word {
        text: "gen",
        kind: SyntaxKind::GEN_KW,
        since: SINCE_2024,
        is_contextual: false,
    },
    Word {
        text: "auto",
        kind: SyntaxKind::AUTO_KW,
        since: NEVER,
        is_contextual: true,
    },
    Word {
        text: "default",
        kind: SyntaxKind::DEFAULT_KW,
        since: NEVER,
        is_contextual: true,
    },
    Word {
        text: "macro_rules",
        kind: SyntaxKind::MACRO_RULES_KW,
        since: NEVER,
        is_contextual: true,
    },
    Word {
        text: "raw",
        kind: SyntaxKind::RAW_KW,
        since: NEVER,
        is_contextual: true,
    },
    Word {
        text: "safe",
        kind: SyntaxKind::SAFE_KW,
        since: NEVER,
        is_contextual: true,
    },
    Word {
        text: "union",
        kind: SyntaxKind::UNION_KW,
        since: NEVER,
        is_contextual: true,
    },
    Word {
        text: "defer",
        kind: SyntaxKind::DEFER_KW,
        since: SINCE_NEXT,
        is_contextual: false,
    },
];

/// The index in `WORDS` of the only word that a text can be, by the text's slot. A slot without a
/// word has 0: the text is compared with that word anyway.
pub(crate) static PLACES: [u8; 256] = [
    29, 0, 0, 0, 44, 0, 0, 47, 0, 0, 0, 3, 18, 0, 0, 0, 0, 0, 0, 0, 0, 0, 0, 0, 58, 0, 0, 0, 39,
    49, 0, 34, 0, 0, 0, 0, 0, 0, 0, 0, 0, 0, 0, 35, 0, 0, 0, 0, 0, 16, 0, 0, 0, 0, 0, 0, 0, 0, 0,
    0, 0, 0, 0, 14, 0, 0, 0, 0, 55, 12, 0, 8, 0, 0, 0, 0, 0, 24, 9, 0, 0, 13, 0, 0, 1, 0, 0, 37, 0,
    0, 0, 0, 0, 0, 0, 0, 0, 0, 0, 0, 0, 0, 0, 0, 0, 0, 0, 0, 0, 23, 17, 0, 19, 0, 0, 4, 0, 0, 26,
    0, 38, 0, 0, 0, 36, 0, 0, 0, 0, 0, 0, 0, 0, 31, 0, 0, 0, 0, 0, 0, 0, 0, 0, 0, 0, 0, 0, 0, 0, 0,
    0, 0, 0, 15, 0, 0, 0, 40, 45, 0, 0, 30, 7, 0, 51, 0, 0, 0, 0, 0, 0, 0, 0, 0, 0, 0, 0, 20, 0, 0,
    0, 54, 0, 0, 0, 6, 25, 50, 46, 0, 0, 0, 0, 42, 41, 0, 0, 10, 0, 0, 0, 0, 0, 5, 0, 0, 0, 0, 0,
    0, 0, 33, 52, 0, 0, 0, 0, 0, 0, 32, 0, 0, 0, 22, 0, 2, 56, 0, 0, 27, 0, 21, 48, 43, 0, 53, 0,
    0, 0, 0, 0, 11, 0, 0, 0, 0, 0, 0, 0, 0, 0, 28, 0, 0, 57, 0,
];
