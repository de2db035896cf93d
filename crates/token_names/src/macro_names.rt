//! Names that belong to a macro definition.

ghost use Rattle.std.specs.Prelude.{◌≡◌, map};
ghost use Rattle.parser_input.specs.Kind.{raw_of};
ghost use Rattle.token_names.specs.MacroNames.{follows_dollar, follows_variable, is_fragment, is_macro_name};

use parser_input::SyntaxKind;

/// Returns `true` if `text` is the word of a fragment specifier.
fn is_fragment(text: &str) -> bool
    ensures { result ≡ is_fragment text.now }
{
    matches!(
        text,
        "block"
            | "expr"
            | "expr_2021"
            | "ident"
            | "item"
            | "lifetime"
            | "literal"
            | "meta"
            | "pat"
            | "pat_param"
            | "path"
            | "stmt"
            | "tt"
            | "ty"
            | "vis"
    )
}

/// Returns `true` behind a `$`. The kinds are those of the tokens before, the nearest first.
fn follows_dollar(before: &[SyntaxKind]) -> bool
    ensures { result ≡ follows_dollar (map raw_of before.now) }
{
    matches!(before, [SyntaxKind::DOLLAR, ..])
}

/// Returns `true` behind a metavariable and a colon, as `$x:`. The kinds are those of the tokens before,
/// the nearest first.
fn follows_variable(before: &[SyntaxKind]) -> bool
    ensures { result ≡ follows_variable (map raw_of before.now) }
{
    match before {
        [SyntaxKind::COLON, variable, SyntaxKind::DOLLAR, ..] => {
            !matches!(variable, SyntaxKind::TOKEN_TREE)
        }
        _ => false,
    }
}

/// Returns `true` if a token with this text belongs to a macro definition behind these kinds, the
/// nearest first and without trivia: it is a metavariable, as `x` in `$x`, or a fragment specifier, as
/// `expr` in `$x:expr`.
pub fn is_macro_name(text: &str, before: &[SyntaxKind]) -> bool
    ensures { result ≡ is_macro_name text.now (map raw_of before.now) }
{
    follows_dollar(before) || (is_fragment(text) && follows_variable(before))
}
