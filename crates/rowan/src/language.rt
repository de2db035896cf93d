//! Languages: the meanings of the raw kinds of a tree.
ghost use Rattle.std.specs.Prelude.{◌≡◌, ℕ, List};

use rowan_green::SyntaxKind;
use std::fmt::Debug;
use std::hash::Hash;

/// A language, with its own kinds for the raw kinds of a tree.
pub trait Language: Copy + Debug + Ord + Hash {
    type Kind: Copy + Debug + Ord + Hash;

    /// The kind of a raw kind.
    ghost from_raw: { ℕ → Self.Kind };

    /// The raw kind of a kind.
    ghost to_raw: { Self.Kind → ℕ };

    /// The printed name of a kind, as bytes.
    ghost name_of: { Self.Kind → List ℕ };

    /// Returns the kind of a raw kind. Each raw kind has one.
    fn kind_from_raw(raw: SyntaxKind) -> Self::Kind
        ensures { result ≡ from_raw raw.0 };

    fn kind_to_raw(kind: Self::Kind) -> SyntaxKind
        ensures { result.0 ≡ to_raw kind };

    /// Returns the printed name of a kind.
    fn kind_name(kind: Self::Kind) -> &'static str
        ensures { result.now ≡ name_of kind };

    /// The raw kind of a kind has that kind.
    ghost undoes: { (kind : Self.Kind) → from_raw (to_raw kind) ≡ kind };
}
