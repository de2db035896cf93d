//! Tokens that may spell a name.

ghost use Rattle.std.specs.Prelude.{◌≡◌, IfOk, string_bytes};
ghost use Rattle.parser_input.specs.Kind.{raw_of};
ghost use Rattle.name_mentions.specs.Mentions.{is_raw, place_of, words_of};

use parser_input::SyntaxKind;
use std::alloc::{AllocError, Global};

/// The kind of token that spells a name.
#[derive(Clone, Copy, Debug, PartialEq, Eq, Drop)]
pub enum MentionPlace {
    /// A string literal, of characters, bytes or C.
    StringLiteral,
    /// A character or byte literal.
    CharLiteral,
    /// A comment.
    Comment,
    /// A raw identifier.
    RawIdentifier,
    /// A lifetime or a label.
    Lifetime,
    /// A shebang, a frontmatter, or a token that is none of Rust.
    Other,
}

/// A place where a text spells a name but is not the identifier.
#[derive(Clone, Copy, Debug, PartialEq, Eq, Drop)]
pub struct Mention {
    pub place: MentionPlace,
    /// The offset of the name's first byte in the text.
    pub offset: usize,
}

/// Returns `true` if an identifier with this text is raw.
pub(crate) fn is_raw(text: &[u8]) -> bool
    ensures { result ≡ is_raw text.now }
{
    text.starts_with(b"r#")
}

/// Returns the kind of token that this one is, if it may spell a name and is no identifier itself.
pub(crate) fn place_of(kind: SyntaxKind, text: &[u8]) -> Option<MentionPlace>
    ensures { result ≡ place_of (raw_of kind) text.now }
{
    match kind {
        SyntaxKind::STRING | SyntaxKind::BYTE_STRING | SyntaxKind::C_STRING => {
            Some(MentionPlace::StringLiteral)
        }
        SyntaxKind::CHAR | SyntaxKind::BYTE => Some(MentionPlace::CharLiteral),
        SyntaxKind::COMMENT => Some(MentionPlace::Comment),
        SyntaxKind::LIFETIME_IDENT => Some(MentionPlace::Lifetime),
        SyntaxKind::IDENT if is_raw(text) => Some(MentionPlace::RawIdentifier),
        SyntaxKind::SHEBANG | SyntaxKind::FRONTMATTER | SyntaxKind::ERROR => {
            Some(MentionPlace::Other)
        }
        _ => None,
    }
}

impl Mention {
    /// Returns what the text has there of `name`, in words.
    ///
    /// # Errors
    ///
    /// Out of memory.
    pub fn words(self, alloc: Global, name: &str) -> Result<String, AllocError>
        ensures { IfOk result (λ words. string_bytes words ≡ words_of self.place name.now) }
    {
        match self.place {
            MentionPlace::StringLiteral => format!(in alloc; "{name} in a string"),
            MentionPlace::CharLiteral => format!(in alloc; "{name} in a character"),
            MentionPlace::Comment => format!(in alloc; "{name} in a comment"),
            MentionPlace::RawIdentifier => format!(in alloc; "r#{name}"),
            MentionPlace::Lifetime => format!(in alloc; "'{name}"),
            MentionPlace::Other => format!(in alloc; "{name} in another token"),
        }
    }
}
