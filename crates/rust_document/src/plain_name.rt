//! Plain names: identifiers that the parser does not tell apart.
ghost use Rattle.std.specs.Prelude.{◌≡◌, chars};
ghost use Rattle.rust_document.specs.Renames.{is_plain_name};

use parser_input::edition::Edition;
use parser_input::keywords::{contextual_keyword, word_kind};
use parser_input::syntax_kind::SyntaxKind;
use rustc_lexer::is_ident;

/// Returns `true` if `name` is an identifier that is neither `_` nor a keyword of the edition, nor a
/// contextual keyword.
///
/// Replacing such identifiers with such names is always accepted by
/// [`Document::commit`](crate::Document::commit), unless one of them is the prefix of a literal: `foo`
/// in `foo"x"` cannot become `r`. [`Document::is_plain_rename`](crate::Document::is_plain_rename) tells
/// of an editor whether it only makes such renames. A raw identifier, as `r#fn`, is no plain name.
pub fn is_plain_name(edition: Edition, name: &str) -> bool
    ensures { result ≡ is_plain_name edition (chars name.now) }
{
    if !is_ident(name) {
        return false;
    }
    match word_kind(edition, name) {
        SyntaxKind::IDENT => contextual_keyword(edition, name).is_none(),
        _ => false,
    }
}
