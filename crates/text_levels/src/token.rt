//! What a token, by the raw number of its kind, means for the count.
ghost use Rattle.std.specs.Prelude.{◌≡◌, true};
ghost use Rattle.parser_input.specs.Kind.{is_l_delimiter, raw_of};
ghost use Rattle.text_levels.specs.Levels.{closing_of, continues, is_operand, may_end};

use parser_input::{Edition, SyntaxKind};

pub const EOF: u16 = SyntaxKind::EOF as u16;

pub const ERROR: u16 = SyntaxKind::ERROR as u16;

pub const SEMICOLON: u16 = SyntaxKind::SEMICOLON as u16;

pub const COMMA: u16 = SyntaxKind::COMMA as u16;

pub const L_PAREN: u16 = SyntaxKind::L_PAREN as u16;

pub const R_PAREN: u16 = SyntaxKind::R_PAREN as u16;

pub const L_BRACK: u16 = SyntaxKind::L_BRACK as u16;

pub const R_BRACK: u16 = SyntaxKind::R_BRACK as u16;

pub const R_CURLY: u16 = SyntaxKind::R_CURLY as u16;

pub const POUND: u16 = SyntaxKind::POUND as u16;

pub const EQ: u16 = SyntaxKind::EQ as u16;

pub const L_ANGLE: u16 = SyntaxKind::L_ANGLE as u16;

pub const R_ANGLE: u16 = SyntaxKind::R_ANGLE as u16;

pub const MINUS: u16 = SyntaxKind::MINUS as u16;

pub const PIPE: u16 = SyntaxKind::PIPE as u16;

pub const LIFETIME_IDENT: u16 = SyntaxKind::LIFETIME_IDENT as u16;

const ELSE_KW: u16 = SyntaxKind::ELSE_KW as u16;

const AS_KW: u16 = SyntaxKind::AS_KW as u16;

/// Returns what closes an opening bracket.
pub fn closing_of(kind: u16) -> u16
    ensures { result ≡ closing_of kind }
{
    if kind == L_PAREN {
        R_PAREN
    } else if kind == L_BRACK {
        R_BRACK
    } else {
        R_CURLY
    }
}

/// Returns `true` if the token opens no level and ends none.
pub fn is_operand(kind: u16) -> bool
    ensures { result ≡ is_operand kind }
{
    kind == SyntaxKind::IDENT as u16
        || kind == LIFETIME_IDENT
        || kind == SyntaxKind::UNDERSCORE as u16
        || kind == ERROR
        || kind == SyntaxKind::INT_NUMBER as u16
        || kind == SyntaxKind::FLOAT_NUMBER as u16
        || kind == SyntaxKind::CHAR as u16
        || kind == SyntaxKind::BYTE as u16
        || kind == SyntaxKind::STRING as u16
        || kind == SyntaxKind::BYTE_STRING as u16
        || kind == SyntaxKind::C_STRING as u16
}

/// Returns `true` if an expression or a pattern may end with the token, so that a `|` after it
/// begins no closure.
pub fn may_end(kind: u16) -> bool
    ensures { result ≡ may_end kind }
{
    kind == R_PAREN
        || kind == R_BRACK
        || kind == R_CURLY
        || (is_operand(kind) && kind != LIFETIME_IDENT && kind != ERROR)
}

/// Returns `true` if the token goes on with an expression that a `}` ends.
pub fn continues(kind: SyntaxKind) -> bool
    ensures { result ≡ continues (raw_of kind) }
{
    let raw = kind.to_raw();
    raw == ELSE_KW
        || raw == AS_KW
        || !(raw == POUND || is_operand(raw) || kind.is_keyword(Edition::Edition2024))
}
