//! The kinds of tokens and nodes of the syntax tree.

ghost use Rattle.std.specs.Prelude.{◌≡◌, ◌<◌, ◌↔◌, IsSome, IfSome, find};
ghost use Rattle.std.specs.Str.{bytes_eq};
ghost use Rattle.parser_input.specs.Keywords.{is_keyword, is_any_identifier};
ghost use Rattle.parser_input.specs.Kind.{
  is_delimiter,
  is_l_delimiter,
  is_r_delimiter,
  is_trivia,
  kind_count,
  name_of,
  raw_of,
};
ghost use Rattle.parser_input.specs.declared.syntax_kind.SyntaxKind.{SyntaxKind};

use crate::edition::Edition;
use crate::kind_names::NAMES;
use crate::kind_table::KINDS;

/// The kind of a token or of a node of the syntax tree. Its raw number is its position here, so a
/// later kind is only ever appended.
#[allow(non_camel_case_types)]
#[derive(Clone, Copy, PartialEq, Eq, PartialOrd, Ord, Hash, Debug)]
pub enum SyntaxKind {
    // Not tokens of the grammar: an abandoned node, the end of the input, an error.
    TOMBSTONE,
    EOF,
    ERROR,

    // Punctuation, one character each.
    SEMICOLON,
    COMMA,
    DOT,
    L_PAREN,
    R_PAREN,
    L_CURLY,
    R_CURLY,
    L_BRACK,
    R_BRACK,
    AT,
    POUND,
    TILDE,
    QUESTION,
    COLON,
    DOLLAR,
    EQ,
    BANG,
    L_ANGLE,
    R_ANGLE,
    MINUS,
    AMP,
    PIPE,
    PLUS,
    STAR,
    SLASH,
    CARET,
    PERCENT,

    // Operators of two or three characters.
    DOT2,
    DOT2EQ,
    COLON2,
    EQ2,
    FAT_ARROW,
    NEQ,
    THIN_ARROW,
    LTEQ,
    GTEQ,
    AMP2,
    PIPE2,
    SHL,
    SHR,
    PLUSEQ,
    MINUSEQ,
    STAREQ,
    SLASHEQ,
    PERCENTEQ,
    AMPEQ,
    PIPEEQ,
    CARETEQ,
    SHLEQ,
    SHREQ,

    // Literals and names.
    INT_NUMBER,
    FLOAT_NUMBER,
    CHAR,
    BYTE,
    STRING,
    BYTE_STRING,
    C_STRING,
    IDENT,
    UNDERSCORE,
    LIFETIME_IDENT,

    // Keywords of every edition, reserved ones too.
    AS_KW,
    BREAK_KW,
    CONST_KW,
    CONTINUE_KW,
    CRATE_KW,
    ELSE_KW,
    ENUM_KW,
    EXTERN_KW,
    FALSE_KW,
    FN_KW,
    FOR_KW,
    IF_KW,
    IMPL_KW,
    IN_KW,
    LET_KW,
    LOOP_KW,
    MATCH_KW,
    MOD_KW,
    MOVE_KW,
    MUT_KW,
    PUB_KW,
    REF_KW,
    RETURN_KW,
    SELF_KW,
    SELF_TYPE_KW,
    STATIC_KW,
    STRUCT_KW,
    SUPER_KW,
    TRAIT_KW,
    TRUE_KW,
    TYPE_KW,
    UNSAFE_KW,
    USE_KW,
    WHERE_KW,
    WHILE_KW,
    ABSTRACT_KW,
    BECOME_KW,
    BOX_KW,
    DO_KW,
    FINAL_KW,
    MACRO_KW,
    OVERRIDE_KW,
    PRIV_KW,
    TYPEOF_KW,
    UNSIZED_KW,
    VIRTUAL_KW,
    YIELD_KW,

    // Keywords from edition 2018 on; in 2015 `dyn` is a contextual keyword.
    ASYNC_KW,
    AWAIT_KW,
    DYN_KW,
    TRY_KW,

    // Keywords from edition 2024 on.
    GEN_KW,

    // Contextual keywords.
    AUTO_KW,
    DEFAULT_KW,
    MACRO_RULES_KW,
    RAW_KW,
    SAFE_KW,
    UNION_KW,

    // Trivia, and the first lines of a file.
    WHITESPACE,
    COMMENT,
    SHEBANG,
    FRONTMATTER,

    // Nodes: whole inputs.
    SOURCE_FILE,
    MACRO_ITEMS,
    MACRO_STMTS,

    // Nodes: items and their parts.
    MODULE,
    ITEM_LIST,
    USE,
    USE_TREE,
    USE_TREE_LIST,
    RENAME,
    STRUCT,
    ENUM,
    VARIANT_LIST,
    VARIANT,
    RECORD_FIELD_LIST,
    RECORD_FIELD,
    TUPLE_FIELD_LIST,
    TUPLE_FIELD,
    FN,
    PARAM_LIST,
    SELF_PARAM,
    PARAM,
    RET_TYPE,
    CONST,
    STATIC,
    TYPE_ALIAS,
    IMPL,
    TRAIT,
    ASSOC_ITEM_LIST,
    VISIBILITY,
    ATTR,
    META,
    MACRO_CALL,
    TOKEN_TREE,

    // Nodes: names, paths and generics.
    NAME,
    NAME_REF,
    LIFETIME,
    PATH,
    PATH_SEGMENT,
    GENERIC_ARG_LIST,
    LIFETIME_ARG,
    ASSOC_TYPE_ARG,
    CONST_ARG,
    TYPE_ARG,
    GENERIC_PARAM_LIST,
    LIFETIME_PARAM,
    TYPE_PARAM,
    TYPE_BOUND_LIST,
    TYPE_BOUND,
    WHERE_CLAUSE,
    WHERE_PRED,

    // Nodes: types.
    PATH_TYPE,
    TUPLE_TYPE,
    PAREN_TYPE,
    NEVER_TYPE,
    PTR_TYPE,
    ARRAY_TYPE,
    SLICE_TYPE,
    REF_TYPE,
    INFER_TYPE,
    IMPL_TRAIT_TYPE,
    DYN_TRAIT_TYPE,

    // Nodes: patterns.
    OR_PAT,
    LITERAL_PAT,
    WILDCARD_PAT,
    REF_PAT,
    TUPLE_PAT,
    PAREN_PAT,
    SLICE_PAT,
    REST_PAT,
    IDENT_PAT,
    TUPLE_STRUCT_PAT,
    RECORD_PAT,
    RECORD_PAT_FIELD_LIST,
    RECORD_PAT_FIELD,
    PATH_PAT,

    // Nodes: statements.
    STMT_LIST,
    LET_STMT,
    LET_ELSE,
    EXPR_STMT,

    // Nodes: expressions and their parts.
    LITERAL,
    BLOCK_EXPR,
    RANGE_EXPR,
    BIN_EXPR,
    CAST_EXPR,
    PREFIX_EXPR,
    REF_EXPR,
    CALL_EXPR,
    ARG_LIST,
    INDEX_EXPR,
    TRY_EXPR,
    METHOD_CALL_EXPR,
    FIELD_EXPR,
    MACRO_EXPR,
    RECORD_EXPR,
    RECORD_EXPR_FIELD_LIST,
    RECORD_EXPR_FIELD,
    PATH_EXPR,
    TUPLE_EXPR,
    PAREN_EXPR,
    ARRAY_EXPR,
    RETURN_EXPR,
    BREAK_EXPR,
    CONTINUE_EXPR,
    CLOSURE_EXPR,
    LET_EXPR,
    IF_EXPR,
    WHILE_EXPR,
    LOOP_EXPR,
    FOR_EXPR,
    MATCH_EXPR,
    MATCH_ARM_LIST,
    MATCH_ARM,
    MATCH_GUARD,

    // Nodes of the whole language, which the profile never reads.
    EXTERN_CRATE,
    EXTERN_BLOCK,
    ABI,
    UNION,
    MACRO_RULES,
    MACRO_DEF,
    CONST_PARAM,
    TYPE_ANCHOR,
    PARENTHESIZED_ARG_LIST,
    FN_PTR_TYPE,
    FOR_TYPE,
    RANGE_PAT,
    LABEL,
    AWAIT_EXPR,
    UNDERSCORE_EXPR,

    // Of edition `next`: a keyword, a statement, an operator of two characters.
    DEFER_KW,
    DEFER_STMT,
    PIPE_GT,
}

const FIRST_KEYWORD: u16 = SyntaxKind::AS_KW as u16;

/// The last keyword: contextual keywords directly follow the keywords.
const LAST_KEYWORD: u16 = SyntaxKind::UNION_KW as u16;

impl SyntaxKind {
    /// Returns the kind with this raw number; `None` if there is none.
    pub fn from_raw(raw: u16) -> Option<SyntaxKind>
        ensures known { IsSome result ↔ (raw < kind_count) }
        ensures number { IfSome result (λ kind. raw_of kind ≡ raw) }
        ensures inverse { (kind : SyntaxKind) → raw_of kind ≡ raw → result ≡ Some kind }
    {
        KINDS.get(raw as usize).copied()
    }

    /// Returns the raw number of this kind: its position in the enum.
    pub fn to_raw(self) -> u16
        ensures number { result ≡ raw_of self }
        ensures known { result < kind_count }
    {
        self as u16
    }

    /// Returns the name of this kind, such as `STRUCT_KW`.
    pub fn name(self) -> &'static str
        ensures { result.now ≡ name_of self }
    {
        NAMES[self.to_raw() as usize]
    }

    /// Returns the kind with this name; `None` if there is none.
    pub fn from_name(name: &str) -> Option<SyntaxKind>
        ensures named { IfSome result (λ kind. name_of kind ≡ name.now) }
        ensures inverse { (kind : SyntaxKind) → name_of kind ≡ name.now → result ≡ Some kind }
    {
        kind_named(&KINDS, name)
    }

    /// Returns `true` if the kind is trivia, which is not in the parser's input: whitespace or a
    /// comment.
    pub fn is_trivia(self) -> bool
        ensures { result ≡ is_trivia (raw_of self) }
    {
        matches!(self, SyntaxKind::WHITESPACE | SyntaxKind::COMMENT)
    }

    /// Returns `true` if this is an opening delimiter: a parenthesis, a brace or a square bracket.
    pub fn is_l_delimiter(self) -> bool
        ensures { result ≡ is_l_delimiter (raw_of self) }
    {
        matches!(
            self,
            SyntaxKind::L_PAREN | SyntaxKind::L_CURLY | SyntaxKind::L_BRACK
        )
    }

    /// Returns `true` if this is a closing delimiter: a parenthesis, a brace or a square bracket.
    pub fn is_r_delimiter(self) -> bool
        ensures { result ≡ is_r_delimiter (raw_of self) }
    {
        matches!(
            self,
            SyntaxKind::R_PAREN | SyntaxKind::R_CURLY | SyntaxKind::R_BRACK
        )
    }

    /// Returns `true` if this is an opening or a closing delimiter.
    pub fn is_delimiter(self) -> bool
        ensures { result ≡ is_delimiter (raw_of self) }
    {
        self.is_l_delimiter() || self.is_r_delimiter()
    }

    /// Returns `true` if this is the kind of a keyword or a contextual keyword of the edition.
    pub fn is_keyword(self, edition: Edition) -> bool
        ensures { result ≡ is_keyword edition (raw_of self) }
    {
        match self {
            SyntaxKind::ASYNC_KW | SyntaxKind::AWAIT_KW | SyntaxKind::TRY_KW => {
                edition.is_from(Edition::Edition2018)
            }
            SyntaxKind::GEN_KW => edition.is_from(Edition::Edition2024),
            SyntaxKind::DEFER_KW => edition.is_from(Edition::EditionNext),
            _ => {
                let raw = self.to_raw();
                FIRST_KEYWORD <= raw && raw <= LAST_KEYWORD
            }
        }
    }

    /// Returns `true` if this is `IDENT` or the kind of a keyword or a contextual keyword of the
    /// latest edition.
    pub fn is_any_identifier(self) -> bool
        ensures { result ≡ is_any_identifier (raw_of self) }
    {
        self == SyntaxKind::IDENT || self.is_keyword(Edition::EditionNext)
    }
}

/// Returns the first of `kinds` that has this name; `None` if there is none.
fn kind_named(kinds: &[SyntaxKind], name: &str) -> Option<SyntaxKind>
    ensures first { result ≡ find (λ kind. bytes_eq (name_of kind) name.now) kinds.now }
    ensures named { IfSome result (λ kind. name_of kind ≡ name.now) }
{
    kinds.iter().copied().find(|kind| kind.name() == name)
}
