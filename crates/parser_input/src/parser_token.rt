//! The contextual kind and the joint bit of a leaf.

ghost use Rattle.std.specs.Prelude.{◌≡◌, ◌&&◌, List, chars, if◌then◌else◌};
ghost use Rattle.parser_input.specs.Input.{contextual_of, ends_in_dot, is_joint, touches};
ghost use Rattle.parser_input.specs.Edition.{is_from};
ghost use Rattle.parser_input.specs.declared.edition.Edition.TheVariants.{EditionNext};
ghost use Rattle.parser_input.specs.Kind.{raw_of};
ghost use Rattle.parser_input.specs.Kinds as kinds;
ghost use Rattle.parser_input.specs.Leaf.{Leaf};

use crate::edition::Edition;
use crate::keywords::contextual_keyword;
use crate::syntax_kind::SyntaxKind;

/// Returns the contextual kind of a leaf: for an identifier, its kind as a contextual keyword, or
/// `IDENT`. For a `|` directly before a `>`, `PIPE_GT` if the edition has the operator `|>`. `EOF`
/// for any other leaf.
pub(crate) fn contextual_kind(
    edition: Edition,
    kind: SyntaxKind,
    text: &str,
    before_angle: bool,
) -> SyntaxKind
    ensures { raw_of result ≡ contextual_of edition (raw_of kind) (chars text.now) before_angle }
{
    match kind {
        SyntaxKind::IDENT => match contextual_keyword(edition, text) {
            Some(word) => word,
            None => SyntaxKind::IDENT,
        },
        SyntaxKind::PIPE => pipe_kind(edition, before_angle),
        _ => SyntaxKind::EOF,
    }
}

/// Returns the contextual kind of a `|`.
fn pipe_kind(edition: Edition, before_angle: bool) -> SyntaxKind
    ensures { raw_of result
        ≡ (if before_angle && is_from EditionNext edition then kinds.PIPE_GT else kinds.EOF) }
{
    if before_angle && edition.is_from(Edition::EditionNext) {
        SyntaxKind::PIPE_GT
    } else {
        SyntaxKind::EOF
    }
}

fn ends_in_dot(text: &str) -> bool
    ensures { result ≡ ends_in_dot (chars text.now) }
{
    text.ends_with('.')
}

/// Returns `true` if the leaf is joint. `is_followed` is `true` if there is a next leaf and it is
/// not trivia. A float is joint if its text does not end in a dot.
pub(crate) fn is_joint(kind: SyntaxKind, text: &str, is_followed: bool) -> bool
    ensures { (next : List Leaf) → is_followed ≡ touches next → result ≡ is_joint
        record { kind = raw_of kind; text = chars text.now } next }
{
    match kind {
        SyntaxKind::FLOAT_NUMBER => !ends_in_dot(text),
        _ => is_followed,
    }
}
