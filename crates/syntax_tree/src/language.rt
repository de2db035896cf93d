//! Rust as a language of `rowan` cursors.
ghost use Rattle.std.specs.Prelude.{◌≡◌};
ghost use Rattle.syntax_tree.specs.Language.{kind_of_raw};

use parser_input::SyntaxKind;
use rowan::Language;

/// The language whose kinds are `SyntaxKind`.
#[derive(Clone, Copy, PartialEq, Eq, PartialOrd, Ord, Hash, Debug)]
pub struct RustLanguage;

impl Language for RustLanguage {
    type Kind = SyntaxKind;

    ghost use Rattle.parser_input.specs.Kind.{raw_of, name_of};
    ghost use Rattle.syntax_tree.specs.Language.{kind_of_raw, kind_of_raw-raw_of};

    ghost from_raw = { kind_of_raw };

    ghost to_raw = { raw_of };

    ghost name_of = { name_of };

    ghost undoes = { kind_of_raw-raw_of };

    /// Returns the kind of a raw number, or `ERROR` if it is not that of a kind.
    fn kind_from_raw(raw: rowan_green::SyntaxKind) -> SyntaxKind {
        match SyntaxKind::from_raw(raw.0) {
            Some(kind) => kind,
            None => SyntaxKind::ERROR,
        }
    }

    fn kind_to_raw(kind: SyntaxKind) -> rowan_green::SyntaxKind {
        rowan_green::SyntaxKind(kind.to_raw())
    }

    fn kind_name(kind: SyntaxKind) -> &'static str {
        kind.name()
    }
}
