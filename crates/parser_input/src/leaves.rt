//! Conversion of lexer tokens: the syntax kind and the error of each token.

ghost use Rattle.std.specs.Prelude.{◌≡◌, chars};
ghost use Rattle.parser_input.specs.Kind.{raw_of};
ghost use Rattle.parser_input.specs.Leaf.{kind_of, literal_kind, word_kind};
ghost use Rattle.parser_input.specs.Messages.{message_of};

use crate::edition::Edition;
use crate::keywords::word_kind;
use crate::literals::{literal_message, when};
use crate::message::Message;
use crate::syntax_kind::SyntaxKind;
use rustc_lexer::{LiteralKind, TokenKind};

// Returns the syntax kind of a literal; a raw string has the kind of a string.
#[tactic(auto, unfolding(crate::specs::Leaf::literal_kind))]
fn literal_kind(kind: LiteralKind) -> SyntaxKind
    ensures { raw_of result ≡ literal_kind kind }
{
    match kind {
        LiteralKind::Int { .. } => SyntaxKind::INT_NUMBER,
        LiteralKind::Float { .. } => SyntaxKind::FLOAT_NUMBER,
        LiteralKind::Char { .. } => SyntaxKind::CHAR,
        LiteralKind::Byte { .. } => SyntaxKind::BYTE,
        LiteralKind::Str { .. } => SyntaxKind::STRING,
        LiteralKind::ByteStr { .. } => SyntaxKind::BYTE_STRING,
        LiteralKind::CStr { .. } => SyntaxKind::C_STRING,
        LiteralKind::RawStr { .. } => SyntaxKind::STRING,
        LiteralKind::RawByteStr { .. } => SyntaxKind::BYTE_STRING,
        LiteralKind::RawCStr { .. } => SyntaxKind::C_STRING,
    }
}

/// Returns the syntax kind of a token with the text `text`.
#[tactic(auto, unfolding(crate::specs::Leaf::kind_of))]
pub(crate) fn kind_of(edition: Edition, kind: TokenKind, text: &str) -> SyntaxKind
    ensures { raw_of result ≡ kind_of edition kind (chars text.now) }
{
    match kind {
        TokenKind::LineComment { .. } => SyntaxKind::COMMENT,
        TokenKind::BlockComment { .. } => SyntaxKind::COMMENT,
        TokenKind::Whitespace => SyntaxKind::WHITESPACE,
        TokenKind::Ident => word_kind(edition, text),
        TokenKind::UnknownPrefix => word_kind(edition, text),
        TokenKind::RawIdent => SyntaxKind::IDENT,
        TokenKind::UnknownPrefixLifetime => SyntaxKind::LIFETIME_IDENT,
        TokenKind::RawLifetime => SyntaxKind::LIFETIME_IDENT,
        TokenKind::Lifetime { .. } => SyntaxKind::LIFETIME_IDENT,
        TokenKind::Literal { kind, .. } => literal_kind(kind),
        TokenKind::GuardedStrPrefix => SyntaxKind::ERROR,
        TokenKind::Semi => SyntaxKind::SEMICOLON,
        TokenKind::Comma => SyntaxKind::COMMA,
        TokenKind::Dot => SyntaxKind::DOT,
        TokenKind::OpenParen => SyntaxKind::L_PAREN,
        TokenKind::CloseParen => SyntaxKind::R_PAREN,
        TokenKind::OpenBrace => SyntaxKind::L_CURLY,
        TokenKind::CloseBrace => SyntaxKind::R_CURLY,
        TokenKind::OpenBracket => SyntaxKind::L_BRACK,
        TokenKind::CloseBracket => SyntaxKind::R_BRACK,
        TokenKind::At => SyntaxKind::AT,
        TokenKind::Pound => SyntaxKind::POUND,
        TokenKind::Tilde => SyntaxKind::TILDE,
        TokenKind::Question => SyntaxKind::QUESTION,
        TokenKind::Colon => SyntaxKind::COLON,
        TokenKind::Dollar => SyntaxKind::DOLLAR,
        TokenKind::Eq => SyntaxKind::EQ,
        TokenKind::Bang => SyntaxKind::BANG,
        TokenKind::Lt => SyntaxKind::L_ANGLE,
        TokenKind::Gt => SyntaxKind::R_ANGLE,
        TokenKind::Minus => SyntaxKind::MINUS,
        TokenKind::And => SyntaxKind::AMP,
        TokenKind::Or => SyntaxKind::PIPE,
        TokenKind::Plus => SyntaxKind::PLUS,
        TokenKind::Star => SyntaxKind::STAR,
        TokenKind::Slash => SyntaxKind::SLASH,
        TokenKind::Caret => SyntaxKind::CARET,
        TokenKind::Percent => SyntaxKind::PERCENT,
        TokenKind::Unknown => SyntaxKind::ERROR,
        TokenKind::Eof => SyntaxKind::EOF,
    }
}

/// Returns the error of a token with the text `text`, if any.
#[tactic(auto, unfolding(crate::specs::Messages::message_of))]
pub(crate) fn message_of(edition: Edition, kind: TokenKind, text: &str) -> Option<Message>
    ensures { result ≡ message_of edition kind (chars text.now) }
{
    match kind {
        TokenKind::BlockComment { terminated, .. } => {
            when(!terminated, Message::UnterminatedBlockComment)
        }
        TokenKind::Literal { kind, suffix_start } => literal_message(kind, suffix_start, text),
        TokenKind::Lifetime { starts_with_number } => {
            when(starts_with_number, Message::LifetimeFromDigit)
        }
        TokenKind::UnknownPrefix => {
            when(
                edition.is_from(Edition::Edition2021),
                Message::UnknownPrefix,
            )
        }
        TokenKind::UnknownPrefixLifetime => {
            when(
                edition.is_from(Edition::Edition2021),
                Message::UnknownPrefix,
            )
        }
        TokenKind::GuardedStrPrefix => {
            when(
                edition.is_from(Edition::Edition2024),
                Message::GuardedPrefix,
            )
        }
        TokenKind::Unknown => Some(Message::UnknownCharacter),
        _ => None,
    }
}
