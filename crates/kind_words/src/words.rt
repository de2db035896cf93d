//! The words of a kind.

ghost use Rattle.std.specs.Prelude.{◌≡◌};
ghost use Rattle.parser_input.specs.Kind.{raw_of};
ghost use Rattle.kind_words.specs.Words.{bracket_words, keyword_words, list_words, mark_words, name_words, part_words, words_of};

use parser_input::SyntaxKind;

/// Returns the spelling of a bracket of this kind; of others `other`.
fn bracket_words(kind: SyntaxKind, other: &'static str) -> &'static str
    ensures { result.now ≡ bracket_words (raw_of kind) other.now }
{
    match kind {
        SyntaxKind::L_PAREN => "(",
        SyntaxKind::R_PAREN => ")",
        SyntaxKind::L_CURLY => "{",
        SyntaxKind::R_CURLY => "}",
        SyntaxKind::L_BRACK => "[",
        SyntaxKind::R_BRACK => "]",
        SyntaxKind::L_ANGLE => "<",
        SyntaxKind::R_ANGLE => ">",
        _ => other,
    }
}

/// Returns the spelling of another mark of this kind; of others `other`.
fn mark_words(kind: SyntaxKind, other: &'static str) -> &'static str
    ensures { result.now ≡ mark_words (raw_of kind) other.now }
{
    match kind {
        SyntaxKind::SEMICOLON => ";",
        SyntaxKind::COMMA => ",",
        SyntaxKind::COLON => ":",
        SyntaxKind::COLON2 => "::",
        SyntaxKind::DOT => ".",
        SyntaxKind::EQ => "=",
        SyntaxKind::BANG => "!",
        SyntaxKind::PIPE => "|",
        SyntaxKind::FAT_ARROW => "=>",
        SyntaxKind::THIN_ARROW => "->",
        _ => other,
    }
}

/// Returns the spelling of a keyword of this kind; of others `other`.
fn keyword_words(kind: SyntaxKind, other: &'static str) -> &'static str
    ensures { result.now ≡ keyword_words (raw_of kind) other.now }
{
    match kind {
        SyntaxKind::AS_KW => "as",
        SyntaxKind::CONST_KW => "const",
        SyntaxKind::FN_KW => "fn",
        SyntaxKind::FOR_KW => "for",
        SyntaxKind::IN_KW => "in",
        SyntaxKind::LET_KW => "let",
        SyntaxKind::MUT_KW => "mut",
        SyntaxKind::SELF_KW => "self",
        SyntaxKind::WHERE_KW => "where",
        _ => other,
    }
}

/// Returns what a name, a literal or a block is called of this kind; of others `other`.
fn name_words(kind: SyntaxKind, other: &'static str) -> &'static str
    ensures { result.now ≡ name_words (raw_of kind) other.now }
{
    match kind {
        SyntaxKind::IDENT => "an identifier",
        SyntaxKind::NAME | SyntaxKind::NAME_REF => "a name",
        SyntaxKind::LIFETIME | SyntaxKind::LIFETIME_IDENT => "a lifetime",
        SyntaxKind::PATH | SyntaxKind::PATH_TYPE => "a path",
        SyntaxKind::PATH_SEGMENT => "a path segment",
        SyntaxKind::LITERAL => "a literal",
        SyntaxKind::STMT_LIST | SyntaxKind::BLOCK_EXPR => "a block",
        _ => other,
    }
}

/// Returns what a list is called of this kind; of others `other`.
fn list_words(kind: SyntaxKind, other: &'static str) -> &'static str
    ensures { result.now ≡ list_words (raw_of kind) other.now }
{
    match kind {
        SyntaxKind::USE_TREE_LIST => "a list of use trees",
        SyntaxKind::VARIANT_LIST => "a list of variants",
        SyntaxKind::RECORD_FIELD_LIST => "a list of fields",
        SyntaxKind::PARAM_LIST => "a parameter list",
        SyntaxKind::ASSOC_ITEM_LIST => "a list of associated items",
        SyntaxKind::ARG_LIST => "an argument list",
        SyntaxKind::MATCH_ARM_LIST => "a list of match arms",
        SyntaxKind::GENERIC_ARG_LIST => "generic arguments",
        SyntaxKind::GENERIC_PARAM_LIST => "generic parameters",
        _ => other,
    }
}

/// Returns what another part is called of this kind; of others `other`.
fn part_words(kind: SyntaxKind, other: &'static str) -> &'static str
    ensures { result.now ≡ part_words (raw_of kind) other.now }
{
    match kind {
        SyntaxKind::USE_TREE => "a use tree",
        SyntaxKind::RET_TYPE => "a return type",
        SyntaxKind::META => "an attribute",
        SyntaxKind::TOKEN_TREE => "a token tree",
        SyntaxKind::CONST_ARG => "a const argument",
        SyntaxKind::TYPE_BOUND => "a bound",
        SyntaxKind::WHERE_CLAUSE => "a where clause",
        SyntaxKind::WHERE_PRED => "a where predicate",
        _ => other,
    }
}

/// Returns the words for `kind` in a message: how a token is spelled, or what a node is called; the name
/// of the kind if it has no words.
pub fn words_of(kind: SyntaxKind) -> &'static str
    ensures { result.now ≡ words_of kind }
{
    let words = part_words(kind, kind.name());
    let words = name_words(kind, list_words(kind, words));
    let words = keyword_words(kind, words);
    bracket_words(kind, mark_words(kind, words))
}
