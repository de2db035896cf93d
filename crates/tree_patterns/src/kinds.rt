//! Sets of kinds.

ghost use Rattle.std.specs.Prelude.{◌≡◌};
ghost use Rattle.tree_patterns.specs.Kinds.{is_among};

use parser_input::SyntaxKind;

/// Nodes whose commas separate elements; and the arm of a `match`, which a comma ends.
pub const COMMA_LISTS: [SyntaxKind; 19] = [
    SyntaxKind::ARG_LIST,
    SyntaxKind::PARAM_LIST,
    SyntaxKind::GENERIC_ARG_LIST,
    SyntaxKind::GENERIC_PARAM_LIST,
    SyntaxKind::PARENTHESIZED_ARG_LIST,
    SyntaxKind::TUPLE_EXPR,
    SyntaxKind::TUPLE_TYPE,
    SyntaxKind::TUPLE_PAT,
    SyntaxKind::TUPLE_STRUCT_PAT,
    SyntaxKind::SLICE_PAT,
    SyntaxKind::ARRAY_EXPR,
    SyntaxKind::RECORD_EXPR_FIELD_LIST,
    SyntaxKind::RECORD_PAT_FIELD_LIST,
    SyntaxKind::RECORD_FIELD_LIST,
    SyntaxKind::TUPLE_FIELD_LIST,
    SyntaxKind::VARIANT_LIST,
    SyntaxKind::USE_TREE_LIST,
    SyntaxKind::WHERE_CLAUSE,
    SyntaxKind::MATCH_ARM,
];

/// Nodes with elements that a sequence may stand for.
pub const LISTS: [SyntaxKind; 23] = [
    SyntaxKind::ARG_LIST,
    SyntaxKind::PARAM_LIST,
    SyntaxKind::GENERIC_ARG_LIST,
    SyntaxKind::GENERIC_PARAM_LIST,
    SyntaxKind::PARENTHESIZED_ARG_LIST,
    SyntaxKind::TUPLE_EXPR,
    SyntaxKind::TUPLE_TYPE,
    SyntaxKind::TUPLE_PAT,
    SyntaxKind::TUPLE_STRUCT_PAT,
    SyntaxKind::SLICE_PAT,
    SyntaxKind::ARRAY_EXPR,
    SyntaxKind::RECORD_EXPR_FIELD_LIST,
    SyntaxKind::RECORD_PAT_FIELD_LIST,
    SyntaxKind::RECORD_FIELD_LIST,
    SyntaxKind::TUPLE_FIELD_LIST,
    SyntaxKind::VARIANT_LIST,
    SyntaxKind::USE_TREE_LIST,
    SyntaxKind::WHERE_CLAUSE,
    SyntaxKind::STMT_LIST,
    SyntaxKind::MATCH_ARM_LIST,
    SyntaxKind::ITEM_LIST,
    SyntaxKind::ASSOC_ITEM_LIST,
    SyntaxKind::TOKEN_TREE,
];

/// Nodes that are expressions.
pub const EXPRESSIONS: [SyntaxKind; 30] = [
    SyntaxKind::LITERAL,
    SyntaxKind::ARRAY_EXPR,
    SyntaxKind::AWAIT_EXPR,
    SyntaxKind::BIN_EXPR,
    SyntaxKind::BLOCK_EXPR,
    SyntaxKind::BREAK_EXPR,
    SyntaxKind::CALL_EXPR,
    SyntaxKind::CAST_EXPR,
    SyntaxKind::CLOSURE_EXPR,
    SyntaxKind::CONTINUE_EXPR,
    SyntaxKind::FIELD_EXPR,
    SyntaxKind::FOR_EXPR,
    SyntaxKind::IF_EXPR,
    SyntaxKind::INDEX_EXPR,
    SyntaxKind::LET_EXPR,
    SyntaxKind::LOOP_EXPR,
    SyntaxKind::MACRO_EXPR,
    SyntaxKind::MATCH_EXPR,
    SyntaxKind::METHOD_CALL_EXPR,
    SyntaxKind::PAREN_EXPR,
    SyntaxKind::PATH_EXPR,
    SyntaxKind::PREFIX_EXPR,
    SyntaxKind::RANGE_EXPR,
    SyntaxKind::RECORD_EXPR,
    SyntaxKind::REF_EXPR,
    SyntaxKind::RETURN_EXPR,
    SyntaxKind::TRY_EXPR,
    SyntaxKind::TUPLE_EXPR,
    SyntaxKind::UNDERSCORE_EXPR,
    SyntaxKind::WHILE_EXPR,
];

/// Nodes that are types.
pub const TYPES: [SyntaxKind; 14] = [
    SyntaxKind::MACRO_CALL,
    SyntaxKind::ARRAY_TYPE,
    SyntaxKind::DYN_TRAIT_TYPE,
    SyntaxKind::FN_PTR_TYPE,
    SyntaxKind::FOR_TYPE,
    SyntaxKind::IMPL_TRAIT_TYPE,
    SyntaxKind::INFER_TYPE,
    SyntaxKind::NEVER_TYPE,
    SyntaxKind::PAREN_TYPE,
    SyntaxKind::PATH_TYPE,
    SyntaxKind::PTR_TYPE,
    SyntaxKind::REF_TYPE,
    SyntaxKind::SLICE_TYPE,
    SyntaxKind::TUPLE_TYPE,
];

/// Nodes that are patterns of values.
pub const PATTERNS: [SyntaxKind; 14] = [
    SyntaxKind::MACRO_CALL,
    SyntaxKind::IDENT_PAT,
    SyntaxKind::LITERAL_PAT,
    SyntaxKind::OR_PAT,
    SyntaxKind::PAREN_PAT,
    SyntaxKind::PATH_PAT,
    SyntaxKind::RANGE_PAT,
    SyntaxKind::RECORD_PAT,
    SyntaxKind::REF_PAT,
    SyntaxKind::REST_PAT,
    SyntaxKind::SLICE_PAT,
    SyntaxKind::TUPLE_PAT,
    SyntaxKind::TUPLE_STRUCT_PAT,
    SyntaxKind::WILDCARD_PAT,
];

/// Nodes that are statements.
pub const STATEMENTS: [SyntaxKind; 3] = [
    SyntaxKind::EXPR_STMT,
    SyntaxKind::LET_STMT,
    SyntaxKind::DEFER_STMT,
];

/// Elements of lists that a sequence is spelled as, beside the stand-in alone.
pub const SPELLED: [SyntaxKind; 5] = [
    SyntaxKind::EXPR_STMT,
    SyntaxKind::PARAM,
    SyntaxKind::RECORD_FIELD,
    SyntaxKind::MATCH_ARM,
    SyntaxKind::MACRO_CALL,
];

/// The tokens with which these are spelled.
pub const SPELLING: [SyntaxKind; 7] = [
    SyntaxKind::SEMICOLON,
    SyntaxKind::COLON,
    SyntaxKind::FAT_ARROW,
    SyntaxKind::COMMA,
    SyntaxKind::BANG,
    SyntaxKind::L_CURLY,
    SyntaxKind::R_CURLY,
];

/// Returns `true` if `kind` is the raw number of one of `kinds`.
pub fn is_among(kinds: &[SyntaxKind], kind: u16) -> bool
    ensures { result ≡ is_among kinds.now kind }
{
    kinds.iter().any(|one| one.to_raw() == kind)
}
